ghost use Rattle.std.specs.Prelude.{◌≡◌, ◌≢◌, ◌+◌, ◌≤◌, ℕ, List, [], ◌++◌, length, false, None, option_to_list, IfOk};
ghost use Rattle.code_law.specs.Compiling.{compiling};
ghost use Rattle.program_lines.specs.Task.{Task, RunsCode, source_of, new_task, with_card, at_end, task_lines};

use crate::texts::{compile_line, result_line};
use crate::under_way::UnderWay;
use batch_program::Told;
use pascal_compile::compile;
use solo_base::{Ident, Line, LineList, NoMemory};
use stack_code::Verified;
use std::alloc::Global;

/// A job's program, whose lines are given one by one as the cards of its input come: those that it prints,
/// and the one that says how it ended, or why there is none to run.
#[derive(Debug, Drop)]
pub enum ProgramLines {
    /// The program of this name is under way.
    Runs { name: Ident, program: UnderWay },
    /// This line alone is still to be given.
    Last(Line),
    /// All lines were given.
    Over,
}

impl ProgramLines {
    ghost use Rattle.program_lines.specs.Standing.{StandsFor, IsSpent, lines_left};

    /// The program of these cards, before the first card of its input and under a limit of ticks.
    pub fn start(
        alloc: Global,
        name: Ident,
        limit: u32,
        cards: &LineList,
    ) -> Result<ProgramLines, NoMemory>
        ensures { IfOk result (λ lines.
            StandsFor lines (new_task name limit (source_of name (compiling cards.now))) []) }
    {
        match compile(alloc, cards) {
            Ok(code) => {
                let program = UnderWay::make(alloc, code, limit)?;
                Ok(ProgramLines::Runs { name, program })
            }
            Err(fault) => Ok(ProgramLines::Last(compile_line(&name, fault)?)),
        }
    }

    /// The code of a file, before the first card of its input and under a limit of ticks. A refusal drops it.
    pub fn of_code(
        alloc: Global,
        name: Ident,
        limit: u32,
        verified: Verified,
    ) -> Result<ProgramLines, NoMemory>
        ensures { IfOk result (λ lines.
            StandsFor lines (new_task name limit (RunsCode verified)) []) }
    {
        let _routines = verified.code().routines();
        let program = UnderWay::make(alloc, verified, limit)?;
        Ok(ProgramLines::Runs { name, program })
    }

    /// Gives the next card of its input, once all lines with those before were given.
    pub fn feed(&mut self, card: &Line)
        requires { IsSpent self.old }
        ensures { (t : Task) (given : List (List ℕ)) → StandsFor self.old t given → t.closed ≡ false
            → StandsFor self.new (with_card t card.now) given }
    {
        match self {
            ProgramLines::Runs { program, .. } => program.feed(card),
            ProgramLines::Last(_) => {}
            ProgramLines::Over => {}
        }
    }

    /// No further card comes.
    pub fn close(&mut self)
        ensures stands { (t : Task) (given : List (List ℕ)) → StandsFor self.old t given → t.closed ≡ false
            → StandsFor self.new (at_end t) given }
        ensures left { lines_left self.new ≡ lines_left self.old }
    {
        match self {
            ProgramLines::Runs { program, .. } => program.close(),
            ProgramLines::Last(_) => {}
            ProgramLines::Over => {}
        }
    }

    /// Its next line, or `None` where all of them were given that come with the cards so far.
    pub fn next(&mut self) -> Option<Line>
        ensures stands { (t : Task) (given : List (List ℕ)) → StandsFor self.old t given
            → StandsFor self.new t (given ++ option_to_list result) }
        ensures none { result ≡ None → (t : Task) (given : List (List ℕ)) → StandsFor self.old t given
            → task_lines t ≡ given }
        ensures spent { result ≡ None → IsSpent self.new }
        ensures left { lines_left self.new + length (option_to_list result) ≤ lines_left self.old }
    {
        match self {
            ProgramLines::Runs { name, program } => match program.next() {
                Told::Line(line) => Some(line),
                Told::WaitsForCard => None,
                Told::Ended { how, line } => {
                    let last = result_line(name, how, line);
                    *self = ProgramLines::Over;
                    Some(last)
                }
            },
            ProgramLines::Last(line) => {
                let line = line.copy();
                *self = ProgramLines::Over;
                Some(line)
            }
            ProgramLines::Over => None,
        }
    }
}
