ghost use Rattle.std.specs.Prelude.{◌≡◌, ◌+◌, ◌≤◌, ℕ, List, [], ◌∷◌, ◌++◌, length, false, true, Some, IfOk};
ghost use Rattle.batch_program.specs.Outcome.{Work};
ghost use Rattle.batch_program.specs.declared.told.Told.{Told as ToldOf};
ghost use Rattle.batch_program.specs.declared.told.Told.TheVariants as told;

use crate::card_input::CardInput;
use crate::printing::print_call;
use crate::told::Told;
use solo_base::{Line, NoMemory};
use stack_code::Verified;
use stack_machine::{Finish, Machine, Pause};
use std::alloc::Global;
use std::marker::Model;
use std::mem;

/// A compiled program that runs in the batch: it is given the cards of its input one by one, as it reads
/// them, and gives the lines that it prints one by one, as they are complete. Its whole store is taken when
/// it is made: a machine, a card and a line.
#[derive(Debug, Drop)]
pub struct BatchProgram {
    machine: Machine,
    input: CardInput,
    line: Line,
}

impl Model for BatchProgram {
    ghost use Rattle.batch_program.specs.Progress.{Progress};

    ghost Value = { Progress };

    ghost view = { λ p. record {
      machine =
          p.machine;
      input = p.input.left;
      closed = p.input.closed;
      line = p.line;
    } };
}

impl BatchProgram {
    ghost use Rattle.batch_program.specs.Progress.{NeedsCard, most_lines_left};
    ghost use Rattle.batch_program.specs.Told.{IsAt, Tells, line_in};
    ghost use Rattle.batch_program.specs.Steps.{TellsIf, lines_in_told, lowers};

    /// The program before its first card, under a limit of ticks. A refusal drops the code.
    pub fn make(alloc: Global, code: Verified, limit: u32) -> Result<BatchProgram, NoMemory>
        ensures stands { IfOk result (λ program.
            IsAt program (record { code = code; limit = limit; cards = []; closed = false }) []) }
        ensures needs { IfOk result (λ program. NeedsCard program) }
    {
        let machine = Machine::make(alloc, code, limit)?;
        Ok(BatchProgram {
            machine,
            input: CardInput::new(),
            line: Line::new(),
        })
    }

    /// Gives the next card, for which the program waits.
    pub fn feed(&mut self, card: &Line)
        requires { NeedsCard self.old }
        ensures stands { (w : Work) (given : List (List ℕ)) → IsAt self.old w given
            → IsAt self.new (record w { cards = w.cards ++ card.now ∷ [] }) given }
        ensures left { most_lines_left self.new ≡ most_lines_left self.old }
    {
        self.input.feed(card);
    }

    /// No further card comes: what is read behind the last one is code 25.
    pub fn close(&mut self)
        ensures stands { (w : Work) (given : List (List ℕ)) → IsAt self.old w given
            → IsAt self.new (record w { closed = true }) given }
        ensures left { most_lines_left self.new ≡ most_lines_left self.old }
    {
        self.input.close();
    }

    /// Runs on until a line is complete, a card is needed, or the program has ended. Asked again, it tells
    /// again that it waits or has ended.
    pub fn next(&mut self) -> Told
        ensures tells { (w : Work) (given : List (List ℕ)) → IsAt self.old w given → Tells w given result }
        ensures stands { (w : Work) (given : List (List ℕ)) → IsAt self.old w given
            → IsAt self.new w (given ++ line_in result) }

        // Then a card may be fed; and lines don't come for ever.
        ensures needs { result ≡ told.WaitsForCard → NeedsCard self.new }
        ensures left { most_lines_left self.new + length (line_in result) ≤ most_lines_left self.old }
    {
        loop {
            if let Some(told) = self.step() {
                return told;
            }
        }
    }

    // Runs on to a call or the end, and past the call unless there is something to tell.
    fn step(&mut self) -> Option<Told>
        ensures tells { (w : Work) (given : List (List ℕ)) → IsAt self.old w given → TellsIf w given result }
        ensures stands { (w : Work) (given : List (List ℕ)) → IsAt self.old w given
            → IsAt self.new w (given ++ lines_in_told result) }
        ensures needs { result ≡ Some told.WaitsForCard → NeedsCard self.new }
        ensures left { most_lines_left self.new + lowers result ≤ most_lines_left self.old }
    {
        match self.machine.go() {
            Pause::Finished(finish) => Some(last_told(&mut self.line, finish)),
            Pause::Call(call) => match self.input.answer(&call) {
                None => Some(Told::WaitsForCard),
                Some(reply) => {
                    self.machine.answer(reply);
                    told_of(print_call(&mut self.line, &call))
                }
            },
        }
    }
}

ghost use Rattle.batch_program.specs.Steps.{last_told, told_of};

/// The line in hand, where there is one, or the end.
fn last_told(line: &mut Line, finish: Finish) -> Told
    ensures told { result ≡ last_told line.old finish }
    ensures line { line.new ≡ [] }
{
    if line.is_empty() {
        return Told::Ended {
            how: finish.result,
            line: finish.line,
        };
    }
    Told::Line(mem::replace(line, Line::new()))
}

/// A line that was completed is told.
fn told_of(line: Option<Line>) -> Option<Told>
    ensures { result ≡ told_of line }
{
    match line {
        Some(line) => Some(Told::Line(line)),
        None => None,
    }
}
