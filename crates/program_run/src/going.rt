// A program goes on, from pause to pause.
ghost use Rattle.std.specs.Prelude.{◌≡◌, ◌∷◌, ◌++◌, [], ℕ, List, Err, Some, IfOk, IsTrue};
ghost use Rattle.pascal_mean.specs.Batch.{last_line};
ghost use Rattle.disk_files.specs.Answers.{FaultsOnly, stays_sound};
ghost use Rattle.file_commands.specs.Faults.{of_command};
ghost use Rattle.file_commands.specs.declared.fault.CommandFault.TheVariants as fault;
ghost use Rattle.prog_stack.specs.Answers.{is_device};
ghost use Rattle.prog_stack.specs.Callers.{IsStack, TopAsks};
ghost use Rattle.prog_stack.specs.Serves.{top_ended};
ghost use Rattle.solo_procs.specs.Commands.{AtNothing};
ghost use Rattle.solo_work.specs.Paper.{IsHand};
ghost use Rattle.program_run.specs.Sight.{IsUnderWay, MayTake};
ghost use Rattle.program_run.specs.Steps.{IsWritten, IsDisplayed, DoesDevice, DoesCall, DoesEnd, EndsWith, StepDone, spoiled_note};
ghost use Rattle.program_run.specs.Work.{Came, MayGoOn};

use crate::program_run::ProgramRun;
use crate::progress::Progress;
use disk_files::FileArea;
use file_commands::CommandFault;
use prog_stack::Served;
use program_lines::{note, result_line};
use solo_base::{Ident, Line, LineList, NoMemory, SysCall, SysReply};
use solo_devices::Area;
use solo_procs::Need;
use solo_work::{Paper, Printing};
use stack_machine::{Finish, Pause};
use std::alloc::Global;

impl ProgramRun {
    /// Goes on up to the next need or the end, with the page in hand.
    pub fn go_on<A: Area>(
        &mut self,
        alloc: Global,
        paper: &mut Paper,
        files: &mut FileArea<A>,
    ) -> Result<Progress, CommandFault>
        requires under_way { MayTake AtNothing self.old }
        requires sound { IsTrue files.old.sound }
        ensures came { (pages : ℕ) (hand : List (List ℕ)) → IsHand paper.old pages hand
            → Came pages hand (A.pages files.old.area) self.old result self.new paper.new
            (A.pages files.new.area) }
        ensures may { IfOk result (λ progress. MayGoOn progress self.new) }
        ensures sound { files.new.sound ≡ stays_sound (of_command result) }
        ensures cause { FaultsOnly (A.faults files.old.area) (A.faults files.new.area) (of_command result) }
    {
        'going: loop {
            match self.step(alloc, paper, files) {
                Err(fault) => return Err(fault),
                Ok(Some(progress)) => return Ok(progress),
                Ok(None) => {}
            }
        }
    }

    // Lets the top program run up to its next pause, and does what it asks for.
    fn step<A: Area>(
        &mut self,
        alloc: Global,
        paper: &mut Paper,
        files: &mut FileArea<A>,
    ) -> Result<Option<Progress>, CommandFault>
        requires under_way { IsUnderWay self.old }
        requires sound { IsTrue files.old.sound }
        ensures done { IfOk result (λ n. StepDone (A.pages files.old.area) self.old paper.old n
            self.new paper.new (A.pages files.new.area)) }
        ensures left { result ≡ Err fault.NoMemory → A.pages files.new.area ≡ A.pages files.old.area }
        ensures sound { files.new.sound ≡ stays_sound (of_command result) }
        ensures cause { FaultsOnly (A.faults files.old.area) (A.faults files.new.area) (of_command result) }
    {
        let pause = match self.programs.go() {
            Some(pause) => pause,
            None => unreachable!(),
        };
        match pause {
            Pause::Call(call) => self.call(call, paper, files),
            Pause::Finished(finish) => match self.end(alloc, finish) {
                Ok(progress) => Ok(progress),
                Err(_) => Err(CommandFault::NoMemory),
            },
        }
    }

    // Serves a call of the top program.
    fn call<A: Area>(
        &mut self,
        call: SysCall,
        paper: &mut Paper,
        files: &mut FileArea<A>,
    ) -> Result<Option<Progress>, CommandFault>
        requires asks { TopAsks call self.old.programs }
        requires stack { IsStack 5 self.old.programs }
        requires sound { IsTrue files.old.sound }
        ensures done { IfOk result (λ n. DoesCall call (A.pages files.old.area) self.old paper.old n self.new
            paper.new (A.pages files.new.area)) }
        ensures left { result ≡ Err fault.NoMemory → A.pages files.new.area ≡ A.pages files.old.area }
        ensures sound { files.new.sound ≡ stays_sound (of_command result) }
        ensures cause { FaultsOnly (A.faults files.old.area) (A.faults files.new.area) (of_command result) }
    {
        match self.programs.serve(call, files) {
            Served::Reply(reply) => {
                self.programs.answer(reply);
                Ok(None)
            }
            Served::Pushed => Ok(None),
            Served::Device(call) => Ok(self.device(&call, paper)),
            Served::DiskFault => Err(CommandFault::DiskFault),
            Served::NoMemory => Err(CommandFault::NoMemory),
        }
    }

    // Serves a call of a device.
    fn device(&mut self, call: &SysCall, paper: &mut Paper) -> Option<Progress>
        requires asks { TopAsks call.now self.old.programs }
        requires device { IsTrue (is_device call.now) }
        ensures { DoesDevice call.now self.old paper.old result self.new paper.new }
    {
        match call {
            SysCall::Read => match self.hand.read() {
                None => Some(Progress::Needs(Need::Cards)),
                Some(code) => {
                    self.programs.answer(SysReply::Char(code));
                    None
                }
            },
            SysCall::Accept => match self.hand.accept() {
                None => Some(Progress::Needs(Need::Line)),
                Some(code) => {
                    self.programs.answer(SysReply::Char(code));
                    None
                }
            },
            SysCall::Display(code) => {
                self.programs.answer(SysReply::Done);
                display(self.hand.display(*code))
            }
            SysCall::Write(_) | SysCall::WriteInt(_) => {
                self.programs.answer(SysReply::Done);
                print(self.hand.write(call), paper)
            }
            _ => unreachable!(),
        }
    }

    // Takes the top program off, which ended so. Where it was the last, its last line is still to be printed.
    fn end(&mut self, alloc: Global, finish: Finish) -> Result<Option<Progress>, NoMemory>
        requires stack { IsStack 5 self.old.programs }
        requires ended { top_ended self.old.programs ≡ Some finish }
        ensures { IfOk result (λ n. DoesEnd finish self.old n self.new) }
    {
        let _ = self.programs.pop();
        if self.programs.is_empty() {
            return match self.ending(alloc, finish) {
                Ok(printing) => Ok(Some(Progress::Ends(printing))),
                Err(refused) => Err(refused),
            };
        }
        Ok(None)
    }

    // What is left behind the last program.
    fn ending(&self, alloc: Global, finish: Finish) -> Result<Printing, NoMemory>
        ensures { IfOk result (λ printing. EndsWith self.now.name finish self.now.hand printing) }
    {
        let lines = with_last(LineList::new(alloc), self.hand.printed())?;
        let mut answers = with_last(LineList::new(alloc), self.hand.displayed())?;
        answers.push(&result_line(&self.name, finish.result, finish.line))?;
        let answers = with_note(answers, self.hand.spoiled(), &self.name)?;
        Ok(Printing {
            lines,
            next: 0,
            answers,
        })
    }
}

// A line that was completed, if one was, is to be displayed.
fn display(line: Option<Line>) -> Option<Progress>
    ensures { IsDisplayed line result }
{
    match line {
        None => None,
        Some(line) => Some(Progress::Needs(Need::Display(line))),
    }
}

// Prints a line that was completed, if one was.
fn print(line: Option<Line>, paper: &mut Paper) -> Option<Progress>
    ensures { IsWritten paper.old line result paper.new }
{
    match line {
        None => None,
        Some(line) => match paper.print(&line) {
            None => None,
            Some(page) => Some(Progress::Needs(Need::Page(page))),
        },
    }
}

// These lines, and behind them the one in hand, where it isn't empty.
fn with_last(lines: LineList, line: &Line) -> Result<LineList, NoMemory>
    ensures { IfOk result (λ all. all ≡ lines ++ last_line line.now) }
{
    let mut lines = lines;
    if line.is_empty() {
        return Ok(lines);
    }
    match lines.push(line) {
        Ok(()) => Ok(lines),
        Err(refused) => Err(refused),
    }
}

// These lines, and behind them the note on a spoiled card, if there was one.
fn with_note(lines: LineList, spoiled: bool, name: &Ident) -> Result<LineList, NoMemory>
    ensures { IfOk result (λ all. all ≡ lines ++ spoiled_note spoiled name.now) }
{
    let mut lines = lines;
    if !spoiled {
        return Ok(lines);
    }
    match lines.push(&note(name, b": SPOILED CARD")) {
        Ok(()) => Ok(lines),
        Err(refused) => Err(refused),
    }
}
