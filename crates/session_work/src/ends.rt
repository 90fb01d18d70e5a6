// How a command is answered, and what it prints before that.
ghost use Rattle.std.specs.Prelude.{◌≡◌, ◌≤◌, ◌∷◌, [], ℕ, List, Ok, Err, Some, Option, codes, length, IsTrue, true};
ghost use Rattle.std.specs.List.{list_all};
ghost use Rattle.solo_base.specs.Line.{is_printable};
ghost use Rattle.disk_files.specs.Answers.{stays_sound};
ghost use Rattle.disk_layout.specs.Files.{Files, files as file_map};
ghost use Rattle.program_task.specs.Task.{Gives, prints_all};
ghost use Rattle.solo_task.specs.Answers.{Doing, answers};
ghost use Rattle.solo_task.specs.Copying.{copier, prints_text};
ghost use Rattle.solo_task.specs.Needs.{comes_to};
ghost use Rattle.solo_work.specs.Paper.{IsHand};
ghost use Rattle.solo_work.specs.Printing.{prints_then};
ghost use Rattle.file_commands.specs.Faults.{of_command};
ghost use Rattle.file_commands.specs.Settling.{IsAnsweredSo};
ghost use Rattle.session_work.specs.Pausing.{MayGoOn};
ghost use Rattle.session_work.specs.Working.{of_work, as_work, IsOver, WorkedSo};

use crate::session::{Session, UnderWay};
use file_commands::{CommandFault, answer_line, lines_of_text};
use solo_base::{Line, LineList};
use solo_procs::{Need, WorkFault};
use solo_work::{Paper, Printing, prints};
use std::mem;

impl Session {
    /// The command ends with these answers, and with the page in hand.
    pub(crate) fn end(&mut self, answers: LineList) -> Need
        ensures worked { (before : Option (List (List ℕ))) (pages : ℕ) (hand : List (List ℕ))
            → IsHand self.old.paper pages hand
            → WorkedSo pages (λ all c. c ≡ comes_to hand all (Gives answers)) before (Ok result) self.new
            before }
        ensures may { MayGoOn self.new.under_way }
    {
        self.set(UnderWay::Idle);
        let paper = mem::replace(&mut self.paper, Paper::new());
        Need::End {
            last: paper.last(),
            answers,
        }
    }

    /// No command is under way any more, and nothing is in hand.
    pub(crate) fn pass_over(&mut self, under_way: UnderWay) -> Need
        ensures over { IsOver result self.new }
        ensures may { MayGoOn self.new.under_way }
    {
        let _ = under_way;
        self.set(UnderWay::Idle);
        self.paper = Paper::new();
        Need::End {
            last: None,
            answers: LineList::new(self.alloc),
        }
    }

    /// Prints up to the next page that is full, or to the command's end.
    pub(crate) fn print(&mut self, printing: Printing) -> Need
        ensures worked { (before : Option (List (List ℕ))) (pages : ℕ) (hand : List (List ℕ))
            → IsHand self.old.paper pages hand
            → WorkedSo pages (λ all c. c
            ≡ comes_to hand all (prints_then printing.lines printing.next printing.answers)) before
            (Ok result) self.new before }
        ensures may { MayGoOn self.new.under_way }
    {
        let mut printing = printing;
        match printing.print(&mut self.paper) {
            Some(page) => {
                self.set(UnderWay::Prints(printing));
                Need::Page(page)
            }
            None => self.end(printing.answers),
        }
    }

    /// One line answers.
    pub(crate) fn says(&mut self, text: &[u8]) -> Result<Need, WorkFault>
        requires may { MayGoOn self.old.under_way }
        requires short { length text.now ≤ 40 }
        requires printable { IsTrue (list_all is_printable text.now) }
        ensures worked { (before : Option (List (List ℕ))) (pages : ℕ) (hand : List (List ℕ))
            → IsHand self.old.paper pages hand
            → WorkedSo pages (λ all c. c ≡ comes_to hand all (Gives (text.now ∷ []))) before result self.new
            before }
        ensures may { MayGoOn self.new.under_way }
        ensures sound { stays_sound (of_work result) ≡ true }
    {
        let mut line = Line::new();
        line.append(text);
        self.answer(Ok(line))
    }

    /// The line answers that a command came to.
    pub(crate) fn answer(&mut self, came_to: Result<Line, CommandFault>) -> Result<Need, WorkFault>
        requires may { MayGoOn self.old.under_way }
        ensures worked { (before after : Option (List (List ℕ))) (doing : Files → Doing) (pages : ℕ)
            (hand : List (List ℕ)) → IsHand self.old.paper pages hand
            → ((told : List (List ℕ)) → before ≡ Some told
            → IsAnsweredSo (doing (file_map told)) told came_to after)
            → WorkedSo pages (λ all c. c ≡ comes_to hand all (doing all)) before result self.new after }
        ensures may { MayGoOn self.new.under_way }
        ensures sound { stays_sound (of_work result) ≡ stays_sound (of_command came_to) }
    {
        let mut answers = LineList::new(self.alloc);
        match came_to {
            Ok(line) => match answers.push(&line) {
                Ok(()) => Ok(self.end(answers)),
                Err(_) => Err(WorkFault::NoMemory),
            },
            Err(fault) => Err(as_work(fault)),
        }
    }

    /// The text is printed, line by line, and the copy is done then.
    pub(crate) fn print_text(&mut self, text: &[u8]) -> Result<Need, WorkFault>
        requires may { MayGoOn self.old.under_way }
        ensures worked { (before : Option (List (List ℕ))) (pages : ℕ) (hand : List (List ℕ))
            → IsHand self.old.paper pages hand
            → WorkedSo pages (λ all c. c ≡ comes_to hand all (prints_text text.now)) before result self.new
            before }
        ensures may { MayGoOn self.new.under_way }
        ensures sound { stays_sound (of_work result) ≡ true }
    {
        match lines_of_text(self.alloc, text) {
            Ok(lines) => self.print_lines(lines),
            Err(_) => Err(WorkFault::NoMemory),
        }
    }

    /// These lines are printed, and the copy is done then.
    pub(crate) fn print_lines(&mut self, lines: LineList) -> Result<Need, WorkFault>
        requires may { MayGoOn self.old.under_way }
        ensures worked { (before : Option (List (List ℕ))) (pages : ℕ) (hand : List (List ℕ))
            → IsHand self.old.paper pages hand
            → WorkedSo pages (λ all c. c ≡ comes_to hand all (prints_all lines (answers copier (codes "OK"))))
            before result self.new before }
        ensures may { MayGoOn self.new.under_way }
        ensures sound { stays_sound (of_work result) ≡ true }
    {
        match prints(lines, self.alloc, &answer_line(b"COPY", b"OK")) {
            Ok(printing) => Ok(self.print(printing)),
            Err(_) => Err(WorkFault::NoMemory),
        }
    }
}

/// The area failed, or memory was refused.
pub(crate) fn as_work(fault: CommandFault) -> WorkFault
    ensures { result ≡ as_work fault }
{
    match fault {
        CommandFault::DiskFault => WorkFault::Failed,
        CommandFault::NoMemory => WorkFault::NoMemory,
    }
}
