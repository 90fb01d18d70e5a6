// The arms of a command, and of a program that is under way.
ghost use Rattle.std.specs.Prelude.{◌≡◌, List, [], ℕ, Option, Some, IsTrue};
ghost use Rattle.disk_layout.specs.Files.{files as file_map};
ghost use Rattle.disk_files.specs.Answers.{FaultsOnly, stays_sound};
ghost use Rattle.solo_commands.specs.declared.command.Command.TheVariants as command;
ghost use Rattle.solo_task.specs.Doing.{does};
ghost use Rattle.solo_task.specs.Answers.{Doing};
ghost use Rattle.solo_task.specs.Needs.{Pause, comes_to, resumes};
ghost use Rattle.solo_law.specs.Work.{OfCards, OfTyped};
ghost use Rattle.solo_procs.specs.Commands.{AtCards, AtTyped, AtNothing};
ghost use Rattle.solo_work.specs.Paper.{IsHand};
ghost use Rattle.program_run.specs.Sight.{MayTake, StandsFor, IsLeftOf};
ghost use Rattle.session_work.specs.Pausing.{MayGoOn};
ghost use Rattle.session_work.specs.Working.{of_work, WorkedSo, awaiting};

use crate::compile::compile_file;
use crate::ends::as_work;
use crate::session::{Session, UnderWay};
use disk_files::FileArea;
use file_commands::{delete, list, protect, rename};
use program_run::{Begun, ProgramRun, Progress};
use solo_base::{ArgList, Feed, Ident, LineList};
use solo_commands::Command;
use solo_devices::Area;
use solo_procs::{Need, WorkFault};

impl Session {
    /// Begins a command.
    pub(crate) fn command<A: Area>(
        &mut self,
        command: &Command,
        files: &mut FileArea<A>,
    ) -> Result<Need, WorkFault>
        requires sound { IsTrue files.old.sound }
        requires may { MayGoOn self.old.under_way }
        requires paper { IsHand self.old.paper 0 [] }
        ensures worked { WorkedSo 0 (λ all c. c ≡ comes_to [] all (does command.now all))
            (A.pages files.old.area) result self.new (A.pages files.new.area) }
        ensures may { MayGoOn self.new.under_way }
        ensures sound { files.new.sound ≡ stays_sound (of_work result) }
        ensures cause { FaultsOnly (A.faults files.old.area) (A.faults files.new.area) (of_work result) }
    {
        match command {
            Command::Copy { from, to } => self.copy(from, to, files),
            Command::Compile { from, to } => {
                let answer = compile_file(self.alloc, files, from, to);
                self.answer(answer)
            }
            Command::List => self.list(files),
            Command::Delete(name) => {
                let answer = delete(files, name);
                self.answer(answer)
            }
            Command::Rename { old, new } => {
                let answer = rename(files, old, new);
                self.answer(answer)
            }
            Command::Protect { name, on } => {
                let answer = protect(files, name, *on);
                self.answer(answer)
            }
            Command::Program { name, args } => self.run(name, args, files),
        }
    }

    // `list`
    fn list<A: Area>(&mut self, files: &mut FileArea<A>) -> Result<Need, WorkFault>
        requires sound { IsTrue files.old.sound }
        requires may { MayGoOn self.old.under_way }
        requires paper { IsHand self.old.paper 0 [] }
        ensures worked { WorkedSo 0 (λ all c. c ≡ comes_to [] all (does command.List all))
            (A.pages files.old.area) result self.new (A.pages files.new.area) }
        ensures may { MayGoOn self.new.under_way }
        ensures sound { files.new.sound ≡ stays_sound (of_work result) }
        ensures cause { FaultsOnly (A.faults files.old.area) (A.faults files.new.area) (of_work result) }
    {
        match list(self.alloc, files) {
            Ok(lines) => Ok(self.end(lines)),
            Err(fault) => Err(as_work(fault)),
        }
    }

    // Runs the program of a file.
    fn run<A: Area>(
        &mut self,
        name: &Ident,
        args: &ArgList,
        files: &mut FileArea<A>,
    ) -> Result<Need, WorkFault>
        requires sound { IsTrue files.old.sound }
        requires may { MayGoOn self.old.under_way }
        requires paper { IsHand self.old.paper 0 [] }
        ensures worked { WorkedSo 0 (λ all c. c
            ≡ comes_to [] all (does (command.Program name.now args.now) all))
            (A.pages files.old.area) result self.new (A.pages files.new.area) }
        ensures may { MayGoOn self.new.under_way }
        ensures sound { files.new.sound ≡ stays_sound (of_work result) }
        ensures cause { FaultsOnly (A.faults files.old.area) (A.faults files.new.area) (of_work result) }
    {
        match ProgramRun::begin(self.alloc, *name, copied(args), files) {
            Ok(Begun::Runs(program)) => self.run_on(program, files),
            Ok(Begun::Answer(line)) => self.answer(Ok(line)),
            Err(fault) => Err(as_work(fault)),
        }
    }

    /// A program reads the card file that it awaited, and goes on.
    pub(crate) fn read_cards<A: Area>(
        &mut self,
        program: ProgramRun,
        cards: &LineList,
        spoiled: bool,
        files: &mut FileArea<A>,
    ) -> Result<Need, WorkFault>
        requires sound { IsTrue files.old.sound }
        requires may { MayGoOn self.old.under_way }
        requires takes { MayTake AtCards program }
        ensures worked { (pages : ℕ) (hand : List (List ℕ)) → IsHand self.old.paper pages hand
            → WorkedSo pages (λ all c. (pause : Pause) × StandsFor AtCards program hand all pause
            × (c ≡ resumes (OfCards cards.now spoiled) all pause)) (A.pages files.old.area) result self.new
            (A.pages files.new.area) }
        ensures may { MayGoOn self.new.under_way }
        ensures sound { files.new.sound ≡ stays_sound (of_work result) }
        ensures cause { FaultsOnly (A.faults files.old.area) (A.faults files.new.area) (of_work result) }
    {
        let mut program = program;
        match program.take_cards(self.alloc, cards, spoiled) {
            Ok(()) => self.run_on(program, files),
            Err(_) => Err(WorkFault::NoMemory),
        }
    }

    /// A program accepts the typed line that it awaited, and goes on.
    pub(crate) fn accept<A: Area>(
        &mut self,
        program: ProgramRun,
        typed: &Feed,
        files: &mut FileArea<A>,
    ) -> Result<Need, WorkFault>
        requires sound { IsTrue files.old.sound }
        requires may { MayGoOn self.old.under_way }
        requires takes { MayTake AtTyped program }
        ensures worked { (pages : ℕ) (hand : List (List ℕ)) → IsHand self.old.paper pages hand
            → WorkedSo pages (λ all c. (pause : Pause) × StandsFor AtTyped program hand all pause
            × (c ≡ resumes (OfTyped typed.now) all pause)) (A.pages files.old.area) result self.new
            (A.pages files.new.area) }
        ensures may { MayGoOn self.new.under_way }
        ensures sound { files.new.sound ≡ stays_sound (of_work result) }
        ensures cause { FaultsOnly (A.faults files.old.area) (A.faults files.new.area) (of_work result) }
    {
        let mut program = program;
        match program.take_line(self.alloc, typed) {
            Ok(()) => self.run_on(program, files),
            Err(_) => Err(WorkFault::NoMemory),
        }
    }

    /// A program goes on up to what it needs next, or to its end.
    pub(crate) fn run_on<A: Area>(
        &mut self,
        program: ProgramRun,
        files: &mut FileArea<A>,
    ) -> Result<Need, WorkFault>
        requires sound { IsTrue files.old.sound }
        requires may { MayGoOn self.old.under_way }
        requires takes { MayTake AtNothing program }
        ensures worked { (pages : ℕ) (hand : List (List ℕ)) → IsHand self.old.paper pages hand
            → WorkedSo pages (λ all c. (doing : Doing) × IsLeftOf program all doing
            × (c ≡ comes_to hand all doing)) (A.pages files.old.area) result self.new
            (A.pages files.new.area) }
        ensures may { MayGoOn self.new.under_way }
        ensures sound { files.new.sound ≡ stays_sound (of_work result) }
        ensures cause { FaultsOnly (A.faults files.old.area) (A.faults files.new.area) (of_work result) }
    {
        let mut program = program;
        match program.go_on(self.alloc, &mut self.paper, files) {
            Ok(Progress::Needs(need)) => {
                self.set(awaiting(&need, program));
                Ok(need)
            }
            Ok(Progress::Ends(printing)) => Ok(self.print(printing)),
            Err(fault) => Err(as_work(fault)),
        }
    }
}

// The program, by what it needs next.
fn awaiting(need: &Need, program: ProgramRun) -> UnderWay
    ensures { result ≡ awaiting need.now program }
{
    match need {
        Need::Cards => UnderWay::ReadsCards(program),
        Need::Line => UnderWay::AcceptsLine(program),
        Need::Display(_) => UnderWay::GoesOn(program),
        Need::Page(_) => UnderWay::GoesOn(program),
        Need::End { .. } => UnderWay::GoesOn(program),
    }
}

// The same arguments once more.
fn copied(args: &ArgList) -> ArgList
    ensures { result ≡ args.now }
{
    let mut all = ArgList::new();
    'copying: for place in 0..args.len() {
        all.push(args.get(place));
    }
    all
}
