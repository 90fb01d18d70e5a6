// The command under way, and the pieces of work on it.
ghost use Rattle.std.specs.Prelude.{◌≡◌, List, [], IsTrue};
ghost use Rattle.disk_files.specs.Answers.{FaultsOnly, stays_sound};
ghost use Rattle.solo_procs.specs.Commands.{given_of};
ghost use Rattle.solo_law.specs.Work.{OfLine, OfCards, OfTyped, OfNothing};
ghost use Rattle.solo_task.specs.Needs.{comes_to, or_idle};
ghost use Rattle.solo_commands.specs.Commands.{line_says};
ghost use Rattle.solo_task.specs.Doing.{done_if, line_does};
ghost use Rattle.solo_work.specs.Paper.{IsHand};
ghost use Rattle.session_work.specs.Pausing.{MayGoOn};
ghost use Rattle.session_work.specs.Working.{of_work, WorkedSo, PieceSo};

use disk_files::FileArea;
use program_run::ProgramRun;
use solo_base::{Feed, Ident, Item, Line, LineList};
use solo_commands::read_command;
use solo_devices::Area;
use solo_procs::{Given, Need, WorkFault};
use solo_work::{Paper, Printing};
use std::alloc::Global;
use std::mem;

/// What is under way.
#[derive(Drop)]
pub enum UnderWay {
    /// No command.
    Idle,
    /// A copy awaits a card file, which is printed.
    PrintsCards,
    /// A copy awaits a card file, which becomes this new file.
    StoresCards(Ident),
    /// Lines are printed, and the command is answered then.
    Prints(Printing),
    /// A program awaits a card file.
    ReadsCards(ProgramRun),
    /// A program awaits a typed line.
    AcceptsLine(ProgramRun),
    /// A program goes on.
    GoesOn(ProgramRun),
}

/// The command under way, with its page in hand.
#[derive(Drop)]
pub struct Session {
    pub(crate) alloc: Global,
    pub(crate) paper: Paper,
    pub(crate) under_way: UnderWay,
}

impl Session {
    /// No command is under way.
    pub fn new(alloc: Global) -> Session
        ensures idle { result.under_way ≡ UnderWay.Idle }
        ensures paper { IsHand result.paper 0 [] }
    {
        Session {
            alloc,
            paper: Paper::new(),
            under_way: UnderWay::Idle,
        }
    }

    /// From now on this is under way.
    pub(crate) fn set(&mut self, under_way: UnderWay)
        ensures { self.new ≡ record self.old { under_way = under_way } }
    {
        self.under_way = under_way;
    }

    /// Works up to the next need.
    pub fn work<A: Area>(
        &mut self,
        given: Given,
        files: &mut FileArea<A>,
    ) -> Result<Need, WorkFault>
        requires sound { IsTrue files.old.sound }
        requires may { MayGoOn self.old.under_way }
        ensures piece { PieceSo (given_of given) self.old (A.pages files.old.area) result self.new
            (A.pages files.new.area) }
        ensures may { MayGoOn self.new.under_way }
        ensures sound { files.new.sound ≡ stays_sound (of_work result) }
        ensures cause { FaultsOnly (A.faults files.old.area) (A.faults files.new.area) (of_work result) }
    {
        match given {
            Given::Line(item) => self.take_command(&item, files),
            Given::Cards { cards, spoiled } => self.take_cards(&cards, spoiled, files),
            Given::Typed(typed) => self.take_typed(&typed, files),
            Given::Nothing => self.go_on(files),
        }
    }

    // A typed line, which is a command.
    fn take_command<A: Area>(
        &mut self,
        item: &Item,
        files: &mut FileArea<A>,
    ) -> Result<Need, WorkFault>
        requires sound { IsTrue files.old.sound }
        ensures piece { PieceSo (OfLine item.now) self.old (A.pages files.old.area) result self.new
            (A.pages files.new.area) }
        ensures may { MayGoOn self.new.under_way }
        ensures sound { files.new.sound ≡ stays_sound (of_work result) }
        ensures cause { FaultsOnly (A.faults files.old.area) (A.faults files.new.area) (of_work result) }
    {
        self.paper = Paper::new();
        self.set(UnderWay::Idle);
        self.begin(item, files)
    }

    // Begins the command that was typed.
    fn begin<A: Area>(&mut self, item: &Item, files: &mut FileArea<A>) -> Result<Need, WorkFault>
        requires sound { IsTrue files.old.sound }
        requires paper { IsHand self.old.paper 0 [] }
        requires idle { self.old.under_way ≡ UnderWay.Idle }
        ensures worked { WorkedSo 0 (λ all c. c ≡ comes_to [] all (or_idle (line_does item.now all)))
            (A.pages files.old.area) result self.new (A.pages files.new.area) }
        ensures may { MayGoOn self.new.under_way }
        ensures sound { files.new.sound ≡ stays_sound (of_work result) }
        ensures cause { FaultsOnly (A.faults files.old.area) (A.faults files.new.area) (of_work result) }
    {
        match item {
            Item::Line(line) => self.begin_line(line, files),
            Item::Spoiled => self.says(b"BAD COMMAND"),
        }
    }

    // Begins the command that this line is, if it is one.
    fn begin_line<A: Area>(
        &mut self,
        line: &Line,
        files: &mut FileArea<A>,
    ) -> Result<Need, WorkFault>
        requires sound { IsTrue files.old.sound }
        requires paper { IsHand self.old.paper 0 [] }
        requires idle { self.old.under_way ≡ UnderWay.Idle }
        ensures worked { WorkedSo 0 (λ all c. c
            ≡ comes_to [] all (or_idle (done_if (line_says line.now) all)))
            (A.pages files.old.area) result self.new (A.pages files.new.area) }
        ensures may { MayGoOn self.new.under_way }
        ensures sound { files.new.sound ≡ stays_sound (of_work result) }
        ensures cause { FaultsOnly (A.faults files.old.area) (A.faults files.new.area) (of_work result) }
    {
        match read_command(line) {
            Ok(Some(command)) => self.command(&command, files),
            Ok(None) => Ok(self.end(LineList::new(self.alloc))),
            Err(_) => self.says(b"BAD COMMAND"),
        }
    }

    // A card file.
    fn take_cards<A: Area>(
        &mut self,
        cards: &LineList,
        spoiled: bool,
        files: &mut FileArea<A>,
    ) -> Result<Need, WorkFault>
        requires sound { IsTrue files.old.sound }
        requires may { MayGoOn self.old.under_way }
        ensures piece { PieceSo (OfCards cards.now spoiled) self.old (A.pages files.old.area) result self.new
            (A.pages files.new.area) }
        ensures may { MayGoOn self.new.under_way }
        ensures sound { files.new.sound ≡ stays_sound (of_work result) }
        ensures cause { FaultsOnly (A.faults files.old.area) (A.faults files.new.area) (of_work result) }
    {
        match mem::replace(&mut self.under_way, UnderWay::Idle) {
            UnderWay::PrintsCards => self.print_cards(cards, spoiled),
            UnderWay::StoresCards(to) => self.store_cards(&to, cards, spoiled, files),
            UnderWay::ReadsCards(program) => self.read_cards(program, cards, spoiled, files),
            other => Ok(self.pass_over(other)),
        }
    }

    // A typed line for a program, or that there is none.
    fn take_typed<A: Area>(
        &mut self,
        typed: &Feed,
        files: &mut FileArea<A>,
    ) -> Result<Need, WorkFault>
        requires sound { IsTrue files.old.sound }
        requires may { MayGoOn self.old.under_way }
        ensures piece { PieceSo (OfTyped typed.now) self.old (A.pages files.old.area) result self.new
            (A.pages files.new.area) }
        ensures may { MayGoOn self.new.under_way }
        ensures sound { files.new.sound ≡ stays_sound (of_work result) }
        ensures cause { FaultsOnly (A.faults files.old.area) (A.faults files.new.area) (of_work result) }
    {
        match mem::replace(&mut self.under_way, UnderWay::Idle) {
            UnderWay::AcceptsLine(program) => self.accept(program, typed, files),
            other => Ok(self.pass_over(other)),
        }
    }

    // Nothing but that a line was displayed or a page was put.
    fn go_on<A: Area>(&mut self, files: &mut FileArea<A>) -> Result<Need, WorkFault>
        requires sound { IsTrue files.old.sound }
        requires may { MayGoOn self.old.under_way }
        ensures piece { PieceSo OfNothing self.old (A.pages files.old.area) result self.new
            (A.pages files.new.area) }
        ensures may { MayGoOn self.new.under_way }
        ensures sound { files.new.sound ≡ stays_sound (of_work result) }
        ensures cause { FaultsOnly (A.faults files.old.area) (A.faults files.new.area) (of_work result) }
    {
        match mem::replace(&mut self.under_way, UnderWay::Idle) {
            UnderWay::Prints(printing) => Ok(self.print(printing)),
            UnderWay::GoesOn(program) => self.run_on(program, files),
            other => Ok(self.pass_over(other)),
        }
    }
}
