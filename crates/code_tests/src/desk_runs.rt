// Code that is run at a desk which keeps the numbers of its calls.

ghost use Rattle.std.specs.Prelude.{◌≡◌, ◌<◌, length};
ghost use Rattle.std.specs.List.{All};
ghost use Rattle.solo_base.specs.Fits.{Fits};

use crate::made_code::{Routine, Written, verified};
use solo_base::{PAGE_LENGTH, Page, ProgResult, SysCall, SysReply};
use stack_machine::{Finish, Machine, World};
use std::alloc::Global;
use std::process::Abort;

/// A page whose bytes count from 0.
fn counting_page() -> Page
    ensures length { length result.0 ≡ 512 }
    ensures bytes { All (λ byte. byte < 256) result.0 }
{
    let mut page = Page([0; PAGE_LENGTH]);
    for k in 0..PAGE_LENGTH {
        page.0[k] = (k % 256) as u8;
    }
    page
}

/// A desk that keeps the numbers of each call, and has one answer to each. File 9 gives CallError.
#[derive(Drop)]
struct Desk {
    numbers: Vec<i16>,
}

impl Desk {
    fn keep(&mut self, call: &SysCall) -> Result<(), ()> {
        match call {
            SysCall::Read | SysCall::Accept | SysCall::ReadArg => Ok(()),
            SysCall::Write(byte) | SysCall::Display(byte) => self.keep_all(&[i16::from(*byte)]),
            SysCall::WriteInt(number) => self.keep_all(&[*number]),
            SysCall::Open { f, name } => self.keep_all(&[*f, name[0], name[11]]),
            SysCall::Close(f) | SysCall::Length(f) => self.keep_all(&[*f]),
            SysCall::Get { f, p } => self.keep_all(&[*f, *p]),
            SysCall::Put { f, p, page } => {
                self.keep_all(&[*f, *p, i16::from(page.0[0]), i16::from(page.0[511])])
            }
            SysCall::Lookup(name) => self.keep_all(&[name[0], name[11]]),
            SysCall::WriteArg { tag, number, name } => self.keep_all(&[*tag, *number, name[11]]),
            SysCall::Run { name, left } => self.keep_all(&[name[0], (*left % 32768) as i16]),
        }
    }

    fn keep_all(&mut self, numbers: &[i16]) -> Result<(), ()> {
        match self.numbers.extend_from_slice(numbers) {
            Ok(()) => Ok(()),
            Err(_) => Err(()),
        }
    }
}

fn reply_to(call: &SysCall) -> SysReply
    ensures { Fits call.now result }
{
    match call {
        SysCall::Read | SysCall::Accept => SysReply::Char(90),
        SysCall::Close(9) => SysReply::CallError,
        SysCall::Open { .. } => SysReply::Opened(true),
        SysCall::Get { .. } => SysReply::Page(counting_page()),
        SysCall::Length(_) => SysReply::Length(17),
        SysCall::Lookup(_) => SysReply::Found {
            kind: 3,
            found: true,
        },
        SysCall::ReadArg => SysReply::Argument {
            tag: 3,
            number: 7,
            name: *b"ABCDEFGHIJKL",
        },
        SysCall::Run { left, .. } => SysReply::Ran {
            line: 12,
            result: 5,
            ticks: if *left < 4 { *left } else { 4 },
        },
        _ => SysReply::Done,
    }
}

impl World for Desk {
    type Fault = ();

    ghost answers = { λ _ _ _ _. Unit {0} };

    fn call(&mut self, call: SysCall) -> Result<SysReply, ()> {
        match self.keep(&call) {
            Ok(()) => Ok(reply_to(&call)),
            Err(()) => Err(()),
        }
    }
}

/// A program of 600 words.
pub const PROGRAM: &[Routine] = &[[0, 0, 0, 600, 4]];

pub const fn ends(how: ProgResult, line: u32, ticks: u32) -> Finish {
    Finish {
        result: how,
        line,
        ticks,
    }
}

/// The end of a program, and the numbers that its calls brought.
fn run_code(
    alloc: Global,
    routines: &[Routine],
    instrs: &[Written],
    limit: u32,
) -> Option<(Finish, Vec<i16>)> {
    let code = verified(alloc, routines, instrs)?;
    match Machine::make(alloc, code, limit) {
        Ok(mut machine) => run_at_desk(alloc, &mut machine),
        Err(_) => None,
    }
}

fn run_at_desk(alloc: Global, machine: &mut Machine) -> Option<(Finish, Vec<i16>)> {
    let mut desk = Desk {
        numbers: Vec::new(alloc),
    };
    match machine.run(&mut desk) {
        Ok(finish) => Some((finish, desk.numbers)),
        Err(()) => None,
    }
}

/// The end of code, and the numbers that its calls brought.
pub fn sure_run(
    rt: &impl Abort,
    alloc: Global,
    routines: &[Routine],
    instrs: &[Written],
    limit: u32,
) -> (Finish, Vec<i16>) {
    let run = run_code(alloc, routines, instrs, limit);
    run.expect(rt, "good code, and memory")
}

/// Code ends so, and its calls bring these numbers.
pub fn runs(
    rt: &impl Abort,
    alloc: Global,
    (routines, instrs): (&[Routine], &[Written]),
    (finish, numbers): (Finish, &[i16]),
) {
    let (found, brought) = sure_run(rt, alloc, routines, instrs, 1000);
    assert!(rt; found == finish, "{found:?}");
    assert!(rt; brought.as_slice() == numbers, "{brought:?}");
}

/// Each row of a table: the instructions of a program of 600 words, its limit of ticks, and its end.
pub fn each_ends(rt: &impl Abort, alloc: Global, table: &[(&[Written], u32, Finish)]) {
    for (instrs, limit, finish) in table {
        let (found, _) = sure_run(rt, alloc, PROGRAM, instrs, *limit);
        assert!(rt; found == *finish, "{found:?}: {instrs:?}");
    }
}

/// Each row of a table: the instructions of a program of 600 words, and what its calls bring.
pub fn each_brings(rt: &impl Abort, alloc: Global, table: &[(&[Written], &[i16])]) {
    for (instrs, numbers) in table {
        let (_, brought) = sure_run(rt, alloc, PROGRAM, instrs, 10);
        assert!(rt; brought.as_slice() == *numbers, "{brought:?}: {instrs:?}");
    }
}
