ghost use Rattle.std.specs.Prelude.{◌≡◌, true, ℕ, ◌≤◌, nat_le, List, ◌∷◌, reverse, length, OnOk, OnErr, IfOk, IsTrue, ℤ, Some};
ghost use Rattle.solo_base.specs.Fits.{Fits};
ghost use Rattle.solo_base.specs.declared.system_call.SysCall.TheVariants as calls;
ghost use Rattle.disk_files.specs.Answers.{FaultsOnly, stays_sound};
ghost use Rattle.stack_code.specs.CodeLists.{IsCode};
ghost use Rattle.stack_machine.specs.Machine.{start_state};
ghost use Rattle.stack_machine.specs.Standing.{StandsWell, Awaits};
ghost use Rattle.prog_stack.specs.Callers.{AreCallers, RunsTop, TopBegins, with_reply};
ghost use Rattle.prog_stack.specs.Programs.{AsksFor, begun, ran, nothing_ran};
ghost use Rattle.disk_layout.specs.Files.{files as file_map};
ghost use Rattle.disk_contents.specs.Loading.{program_of};
ghost use Rattle.prog_stack.specs.Serves.{Serves, RunsCode, HasCode, PopsSo, load_fault, served_fault};
ghost use Rattle.prog_stack.specs.Shown.{shown};
ghost use Rattle.prog_stack.specs.declared.served.Served.TheVariants as served;

use crate::frame::Frame;
use crate::own::Own;
use crate::served::Served;
use disk_files::FileArea;
use disk_system::{LoadFault, Loaded, load_job};
use solo_base::{ArgList, IDENT_LENGTH, Ident, NoMemory, ProgResult, SysCall, SysReply, line_word};
use solo_devices::Area;
use stack_code::Verified;
use stack_machine::{Finish, Machine, Pause};
use std::alloc::Global;
use std::mem;

/// The programs of a command: the one that runs, and those that wait for it, the nearest last.
#[derive(Drop)]
pub struct Running {
    pub(crate) top: Frame,
    pub(crate) below: Vec<Frame>,
}

impl Running {
    /// Puts a program on the stack. A refusal drops the code.
    pub(crate) fn push(
        &mut self,
        alloc: Global,
        code: Verified,
        args: ArgList,
        limit: u32,
    ) -> Result<(), NoMemory>
        ensures pushed { OnOk result (shown self.new ≡ begun code limit args ∷ shown self.old) }
        ensures left { OnErr result (shown self.new ≡ shown self.old) }
        ensures well { OnOk result (TopBegins (shown self.new)) }
    {
        self.below.reserve(1)?;
        let machine = begin(alloc, code, limit)?;
        let own = Own::new(args);
        let caller = mem::replace(&mut self.top, Frame { machine, own });
        self.below.push_reserved(caller);
        Ok(())
    }

    /// Takes the top program off, which ended so, and answers the one below, if there is one.
    pub(crate) fn pop(&mut self, finish: Finish) -> bool
        requires ticks { finish.ticks ≤ self.old.top.machine.limit }
        requires callers { AreCallers self.old.top.machine.limit (reverse self.old.below.items) }
        ensures popped { PopsSo result finish (self.old.top) (reverse self.old.below.items) (shown self.new) }
        ensures well { result ≡ true → StandsWell self.new.top.machine }
    {
        match self.below.pop() {
            None => false,
            Some(caller) => {
                let ended = mem::replace(&mut self.top, caller);
                let Frame { machine: _, own } = ended;
                self.top.own.take_back(own);
                self.top.machine.answer(ran(finish));
                true
            }
        }
    }

    /// Lets the top program run up to its next pause.
    pub(crate) fn go(&mut self) -> Pause
        ensures runs { RunsTop (shown self.old) (Some result) (shown self.new) }
        ensures well { StandsWell self.new.top.machine }
        ensures limit { self.new.top.machine.limit ≡ self.old.top.machine.limit }
        ensures below { self.new.below ≡ self.old.below }
    {
        self.top.machine.go()
    }

    /// Gives the reply to the call of the top program.
    pub(crate) fn answer(&mut self, reply: SysReply)
        requires { Awaits self.old.top.machine reply }
        ensures answered { shown self.new ≡ with_reply reply (shown self.old) }
        ensures well { StandsWell self.new.top.machine }
    {
        self.top.machine.answer(reply);
    }

    /// Serves the call of the top program.
    pub(crate) fn serve<A: Area>(
        &mut self,
        alloc: Global,
        full: bool,
        call: &SysCall,
        files: &mut FileArea<A>,
    ) -> Served
        requires asks { AsksFor call.now self.old.top }
        requires sound { IsTrue files.old.sound }
        ensures served { (size : ℕ) → length (shown self.old) ≤ size
            → full ≡ nat_le size (length (shown self.old))
            → Serves size call.now self.old.top (reverse self.old.below.items) (A.pages files.old.area)
            result (shown self.new) (A.pages files.new.area) }
        ensures well { result ≡ served.Pushed → TopBegins (shown self.new) }
        ensures sound { files.new.sound ≡ stays_sound (served_fault result) }
        ensures cause { FaultsOnly (A.faults files.old.area) (A.faults files.new.area) (served_fault result) }
    {
        match call {
            SysCall::Read
            | SysCall::Write(_)
            | SysCall::WriteInt(_)
            | SysCall::Accept
            | SysCall::Display(_) => Served::Device(*call),
            SysCall::Run { name, left } => self.run(alloc, full, name, *left, files),
            other => match self.top.own.serve(other, files) {
                Ok(reply) => Served::Reply(reply),
                Err(_) => Served::DiskFault,
            },
        }
    }

    // RUN.
    fn run<A: Area>(
        &mut self,
        alloc: Global,
        full: bool,
        name: &[i16; IDENT_LENGTH],
        left: u32,
        files: &mut FileArea<A>,
    ) -> Served
        requires sound { IsTrue files.old.sound }
        ensures served { (size : ℕ) → length (shown self.old) ≤ size
            → full ≡ nat_le size (length (shown self.old))
            → Serves size (calls.Run name.now left) self.old.top (reverse self.old.below.items)
            (A.pages files.old.area) result (shown self.new) (A.pages files.new.area) }
        ensures well { result ≡ served.Pushed → TopBegins (shown self.new) }
        ensures sound { files.new.sound ≡ stays_sound (served_fault result) }
        ensures cause { FaultsOnly (A.faults files.old.area) (A.faults files.new.area) (served_fault result) }
    {
        if full {
            return Served::Reply(nothing_ran());
        }
        let name = match Ident::of_words(name) {
            Some(name) => name,
            None => return Served::Reply(nothing_ran()),
        };
        match code_in(alloc, &name, files) {
            Ok(Some(code)) => self.run_code(alloc, code, left),
            Ok(None) => Served::Reply(nothing_ran()),
            Err(LoadFault::DiskFault) => Served::DiskFault,
            Err(LoadFault::NoMemory) => Served::NoMemory,
        }
    }

    // Runs this code, with the ticks that are left and the arguments that were written.
    fn run_code(&mut self, alloc: Global, code: Verified, left: u32) -> Served
        ensures runs { RunsCode code left self.old.top (reverse self.old.below.items) result
            (shown self.new) }
        ensures well { result ≡ served.Pushed → TopBegins (shown self.new) }
    {
        let args = self.top.own.hand_over();
        match self.push(alloc, code, args, left) {
            Ok(()) => Served::Pushed,
            Err(_) => Served::NoMemory,
        }
    }
}

/// The machine of a program at its beginning. A refusal drops the code.
pub(crate) fn begin(alloc: Global, code: Verified, limit: u32) -> Result<Machine, NoMemory>
    ensures state { IfOk result (λ machine. machine ≡ record {
      code = code;
      limit = limit;
      state = start_state code;
    }) }
    ensures well { IfOk result (λ machine. StandsWell machine × IsCode machine.code) }
{
    // that it is no longer than code may be is known where it is read
    let _routines = code.code().routines();
    Machine::make(alloc, code, limit)
}

// The code of a file, if there is good code in one of this name.
fn code_in<A: Area>(
    alloc: Global,
    name: &Ident,
    files: &mut FileArea<A>,
) -> Result<Option<Verified>, LoadFault>
    requires { IsTrue files.old.sound }
    ensures found { (pages : List (List ℕ)) → A.pages files.old.area ≡ Some pages
        → IfOk result (λ code. HasCode (program_of (file_map pages) name.now) code) }
    ensures left { A.pages files.new.area ≡ A.pages files.old.area }
    ensures sound { files.new.sound ≡ stays_sound (load_fault result) }
    ensures cause { FaultsOnly (A.faults files.old.area) (A.faults files.new.area) (load_fault result) }
{
    match load_job(alloc, name, files) {
        Ok(Loaded::Code(code)) => Ok(Some(code)),
        Ok(Loaded::NoFile) => Ok(None),
        Ok(Loaded::NotCode) => Ok(None),
        Ok(Loaded::BadCode { at: _ }) => Ok(None),
        Err(fault) => Err(fault),
    }
}

// What a program is told of one that ended so.
fn ran(finish: Finish) -> SysReply
    ensures value { result ≡ ran finish }
    ensures fits { (name : List ℤ) (left : ℕ) → finish.ticks ≤ left → Fits (calls.Run name left) result }
{
    SysReply::Ran {
        line: line_word(finish.line),
        result: finish.result.number(),
        ticks: finish.ticks,
    }
}

// What it is told where nothing was run.
fn nothing_ran() -> SysReply
    ensures value { result ≡ nothing_ran }
    ensures fits { (name : List ℤ) (left : ℕ) → Fits (calls.Run name left) result }
{
    SysReply::Ran {
        line: 0,
        result: ProgResult::CallError.number(),
        ticks: 0,
    }
}
