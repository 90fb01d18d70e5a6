use batch_program::{BatchProgram, Told};
use solo_base::{Line, NoMemory};
use stack_code::Verified;
use std::alloc::Global;
use std::marker::Model;

/// A program that runs in the batch, behind a pointer: what holds one may be moved at the cost of a line.
#[derive(Debug, Drop)]
pub struct UnderWay {
    program: Box<BatchProgram>,
}

impl Model for UnderWay {
    ghost use Rattle.batch_program.specs.Progress.{Progress};

    ghost Value = { Progress };

    ghost view = { λ held. held.program.value };
}

impl UnderWay {
    ghost use Rattle.std.specs.Prelude.{◌≡◌, ◌+◌, ◌≤◌, ℕ, List, [], ◌∷◌, ◌++◌, length, false, true, Some, IfOk};
    ghost use Rattle.batch_program.specs.Outcome.{Work};
    ghost use Rattle.batch_program.specs.declared.told.Told.TheVariants as told;
    ghost use Rattle.batch_program.specs.Progress.{NeedsCard, most_lines_left};
    ghost use Rattle.batch_program.specs.Told.{IsAt, Tells, line_in};

    /// The program before its first card, under a limit of ticks. A refusal drops the code.
    pub fn make(alloc: Global, code: Verified, limit: u32) -> Result<UnderWay, NoMemory>
        ensures stands { IfOk result (λ program.
            IsAt program (record { code = code; limit = limit; cards = []; closed = false }) []) }
        ensures needs { IfOk result (λ program. NeedsCard program) }
    {
        let program = BatchProgram::make(alloc, code, limit)?;
        Ok(UnderWay {
            program: Box::new(alloc, program)?,
        })
    }

    /// Gives the next card, for which the program waits.
    pub fn feed(&mut self, card: &Line)
        requires { NeedsCard self.old }
        ensures stands { (w : Work) (given : List (List ℕ)) → IsAt self.old w given
            → IsAt self.new (record w { cards = w.cards ++ card.now ∷ [] }) given }
        ensures left { most_lines_left self.new ≡ most_lines_left self.old }
    {
        self.program.feed(card);
    }

    /// No further card comes.
    pub fn close(&mut self)
        ensures stands { (w : Work) (given : List (List ℕ)) → IsAt self.old w given
            → IsAt self.new (record w { closed = true }) given }
        ensures left { most_lines_left self.new ≡ most_lines_left self.old }
    {
        self.program.close();
    }

    /// Runs on until a line is complete, a card is needed, or the program has ended.
    pub fn next(&mut self) -> Told
        ensures tells { (w : Work) (given : List (List ℕ)) → IsAt self.old w given → Tells w given result }
        ensures stands { (w : Work) (given : List (List ℕ)) → IsAt self.old w given
            → IsAt self.new w (given ++ line_in result) }
        ensures needs { result ≡ told.WaitsForCard → NeedsCard self.new }
        ensures left { most_lines_left self.new + length (line_in result) ≤ most_lines_left self.old }
    {
        self.program.next()
    }
}
