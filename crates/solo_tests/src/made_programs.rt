//! Programs by hand: one call after the other, as code.

use stack_code::{Op, Verified, decode, verify};
use std::alloc::Global;
use std::process::Abort;

/// What a program does: the first step in its line 1, the next in line 2, each for one tick. A name is
/// written into the program's array of characters before its call. What a call sets is kept: in that array,
/// in the array of a page, and in two words.
#[derive(Clone, Copy)]
pub enum Step {
    Read,
    Write(u8),
    /// WRITEINT of the line, or of the result, that the last RUN gave.
    WriteLine,
    WriteResult,
    Accept,
    Display(u8),
    Open(i16, &'static str),
    Close(i16),
    Get(i16, i16),
    /// The array of a page, with this as its first character.
    Put(i16, i16, i16),
    Length(i16),
    Lookup(&'static str),
    ReadArg,
    WriteArg(i16, i16, &'static str),
    /// WRITEARG of what the last READARG gave.
    WriteBack,
    Run(&'static str),
    /// Nothing but its tick.
    Pass,
    /// One more tick, in this line.
    PassIn(u16),
    /// This step again, for ever.
    Repeat,
}

/// An instruction by its operation, a and b.
type Written = (Op, u16, u16);

/// Where the name, the page and the two words stand.
const NAME: u16 = 0;

const PAGE: u16 = 12;

const FIRST: u16 = 524;

const SECOND: u16 = 525;

fn push(word: i16) -> Written {
    (Op::Push, word.cast_unsigned(), 0)
}

fn sys(row: u16) -> Written {
    (Op::Sys, row, 0)
}

fn put(code: &mut Vec<Written>, instrs: &[Written]) -> Option<()> {
    code.extend_from_slice(instrs).ok()
}

// Writes a name into its array, with blanks behind it.
fn put_name(code: &mut Vec<Written>, name: &str) -> Option<()> {
    for place in 0..12u16 {
        let letter = name.as_bytes().get(place as usize).copied().unwrap_or(b' ');
        put(code, &[push(i16::from(letter)), (Op::StoreG, place, 0)])?;
    }
    Some(())
}

// A name, and these instructions.
fn put_named(code: &mut Vec<Written>, name: &str, instrs: &[Written]) -> Option<()> {
    put_name(code, name)?;
    put(code, instrs)
}

// What a call sets in two words.
fn put_two(code: &mut Vec<Written>, call: Written) -> Option<()> {
    put(
        code,
        &[call, (Op::StoreG, SECOND, 0), (Op::StoreG, FIRST, 0)],
    )
}

fn put_named_two(code: &mut Vec<Written>, name: &str, call: Written) -> Option<()> {
    put_name(code, name)?;
    put_two(code, call)
}

// A step whose TICK stands at this place.
fn put_step(code: &mut Vec<Written>, step: &Step, place: u16) -> Option<()> {
    match step {
        Step::Read => put(code, &[sys(0), (Op::StoreG, FIRST, 0)]),
        Step::Write(code_of) => put(code, &[push(i16::from(*code_of)), sys(1)]),
        Step::WriteLine => put(code, &[(Op::LoadG, FIRST, 0), sys(2)]),
        Step::WriteResult => put(code, &[(Op::LoadG, SECOND, 0), sys(2)]),
        Step::Accept => put(code, &[sys(3), (Op::StoreG, FIRST, 0)]),
        Step::Display(code_of) => put(code, &[push(i16::from(*code_of)), sys(4)]),
        Step::Pass => Some(()),
        Step::PassIn(line) => put(code, &[(Op::Tick, 0, *line)]),
        Step::Repeat => put(code, &[(Op::Jump, place, 0)]),
        other => put_call(code, other),
    }
}

// A call of files, arguments or programs.
fn put_call(code: &mut Vec<Written>, step: &Step) -> Option<()> {
    match step {
        Step::Open(f, name) => put_named(
            code,
            name,
            &[push(*f), (Op::SysG, 5, NAME), (Op::StoreG, FIRST, 0)],
        ),
        Step::Close(f) => put(code, &[push(*f), sys(6)]),
        Step::Get(f, p) => put(code, &[push(*f), push(*p), (Op::SysG, 7, PAGE)]),
        Step::Put(f, p, first) => put_page(code, [*f, *p, *first]),
        Step::Length(f) => put(code, &[push(*f), sys(9), (Op::StoreG, FIRST, 0)]),
        Step::Lookup(name) => put_named_two(code, name, (Op::SysG, 10, NAME)),
        Step::ReadArg => put_two(code, (Op::SysG, 11, NAME)),
        Step::WriteArg(tag, number, name) => put_named(
            code,
            name,
            &[push(*tag), push(*number), (Op::SysG, 12, NAME)],
        ),
        Step::WriteBack => put_back(code),
        Step::Run(name) => put_named_two(code, name, (Op::SysG, 13, NAME)),
        _ => None,
    }
}

fn put_page(code: &mut Vec<Written>, [f, p, first]: [i16; 3]) -> Option<()> {
    put(code, &[push(first), (Op::StoreG, PAGE, 0)])?;
    put(code, &[push(f), push(p), (Op::SysG, 8, PAGE)])
}

fn put_back(code: &mut Vec<Written>) -> Option<()> {
    put(
        code,
        &[
            (Op::LoadG, FIRST, 0),
            (Op::LoadG, SECOND, 0),
            (Op::SysG, 12, NAME),
        ],
    )
}

fn put_all(code: &mut Vec<Written>, steps: &[Step]) -> Option<()> {
    let mut line = 0u16;
    for step in steps {
        line = line.saturating_add(1);
        let place = (code.len() % 65536) as u16;
        put(code, &[(Op::Tick, 0, line)])?;
        put_step(code, step, place)?;
    }
    put(code, &[(Op::Halt, 0, 0)])
}

fn put_number(file: &mut Vec<u8>, number: u16) -> Option<()> {
    file.extend_from_slice(&number.to_be_bytes()).ok()
}

fn put_instr(file: &mut Vec<u8>, instr: &Written) -> Option<()> {
    let (op, a, b) = instr;
    file.push(op.row().number).ok()?;
    put_number(file, *a)?;
    put_number(file, *b)
}

// Instructions as a code file of one routine, with 526 words and at most four operands.
fn put_file(file: &mut Vec<u8>, code: &[Written]) -> Option<()> {
    file.extend_from_slice(b"SEQCODE1\x00\x01").ok()?;
    put_number(file, (code.len() % 65536) as u16)?;
    file.extend_from_slice(&[0, 0, 0, 0, 2, 14, 0, 4]).ok()?;
    for instr in code {
        put_instr(file, instr)?;
    }
    let pages = file.len().div_ceil(512);
    file.resize(pages.saturating_mul(512), 0).ok()
}

fn made(alloc: Global, steps: &[Step]) -> Option<Verified> {
    let mut code = Vec::new(alloc);
    put_all(&mut code, steps)?;
    let mut file = Vec::new(alloc);
    put_file(&mut file, &code)?;
    let code = decode(alloc, &file).ok()?;
    verify(code).ok()
}

/// The code of a program that does these steps, and then has terminated.
pub fn program(rt: &impl Abort, alloc: Global, steps: &[Step]) -> Verified {
    made(alloc, steps).expect(rt, "good code, and memory")
}
