// The batch, as a program sees it.

ghost use Rattle.std.specs.Prelude.{◌≡◌, OnOk, IfOk};
ghost use Rattle.solo_base.specs.Text.{text};
ghost use Rattle.pascal_mean.specs.Batch.{nothing_printed, with_characters, characters_of, batch_reply, input_after, lines_in};

use crate::{Input, Output};
use solo_base::{LineList, NoMemory, SysCall, SysReply};
use std::alloc::Global;
use std::marker::Model;

/// What answers the calls of a program in the batch: it reads the job's input, prints, and is refused
/// every other call.
///
/// Contracts see the input that is left, and what was printed.
#[derive(Debug, Drop)]
pub struct BatchWorld {
    input: Input,
    output: Output,
}

impl Model for BatchWorld {
    ghost use Rattle.pascal_mean.specs.Batch.{World};

    ghost Value = { World };

    ghost view = { λ w. record { input = w.input; output = w.output } };
}

impl BatchWorld {
    /// The world of a job with these cards as its input.
    pub fn of(alloc: Global, cards: &LineList) -> Result<BatchWorld, NoMemory>
        ensures input { IfOk result (λ world. world.input ≡ text cards.now) }
        ensures output { IfOk result (λ world. world.output ≡ nothing_printed) }
    {
        let input = Input::of(alloc, cards)?;
        let output = Output::new(alloc);
        Ok(BatchWorld { input, output })
    }

    /// The reply to a call.
    pub fn answer(&mut self, call: &SysCall) -> Result<SysReply, NoMemory>
        ensures reply { IfOk result (λ reply. reply ≡ batch_reply self.old.input call.now) }
        ensures input { OnOk result (self.new.input ≡ input_after self.old.input call.now) }
        ensures output { OnOk result
            (self.new.output ≡ with_characters self.old.output (characters_of call.now)) }
    {
        match call {
            SysCall::Read => Ok(SysReply::Char(self.input.read())),
            SysCall::Write(code) => {
                self.output.push(*code)?;
                Ok(SysReply::Done)
            }
            SysCall::WriteInt(number) => {
                self.output.push_number(*number)?;
                Ok(SysReply::Done)
            }
            _ => Ok(SysReply::CallError),
        }
    }

    /// The lines that were printed.
    pub fn finish(self) -> Result<LineList, NoMemory>
        ensures { IfOk result (λ lines. lines ≡ lines_in self.output) }
    {
        self.output.finish()
    }
}
