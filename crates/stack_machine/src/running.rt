ghost use Rattle.std.specs.Prelude.{◌≡◌, Some};
ghost use Rattle.stack_machine.specs.Safe.{IsSound};
ghost use Rattle.stack_machine.specs.Run.{Pauses};
ghost use Rattle.stack_machine.specs.Shown.{shown, rooms, IsRoomy};

use crate::state::{Ask, Finish, Step, Store};
use crate::step::calls;
use solo_base::{ProgResult, SysCall};
use stack_code::Verified;

/// Why a machine paused.
#[derive(Clone, Copy, Debug)]
pub enum Pause {
    /// The program asks for a call, whose reply is handed to `answer`.
    Call(SysCall),
    /// The program ended.
    Finished(Finish),
}

impl Store {
    /// Runs on until the program asks for a call or ends.
    pub(crate) fn go(&mut self, code: &Verified, limit: u32) -> Pause
        requires sound { IsSound code.now limit (shown self.old) }
        requires roomy { IsRoomy code.now (rooms self.old) }
        ensures pauses { Pauses code.now limit (shown self.old) result (shown self.new) }
        ensures sound { IsSound code.now limit (shown self.new) }
        ensures room { rooms self.new ≡ rooms self.old }
    {
        if let Some(finish) = self.ended {
            return Pause::Finished(finish);
        }
        loop {
            let instr = self.instr(code);
            if calls(instr.op) {
                return match self.ask(code, limit, instr) {
                    Ask::Call(call) => Pause::Call(call),
                    Ask::Stopped(result_of, line) => Pause::Finished(self.end(result_of, line)),
                    Ask::Stuck => unreachable!(),
                };
            }
            match self.perform(code, limit, instr) {
                Step::Moved => {}
                Step::Stopped(result_of, line) => return Pause::Finished(self.end(result_of, line)),
                Step::Stuck => unreachable!(),
            }
        }
    }

    /// Ends the program with a result in a line.
    pub(crate) fn end(&mut self, result_of: ProgResult, line: u32) -> Finish
        ensures finish { result ≡ record { result = result_of; line = line; ticks = self.old.ticks } }
        ensures ended { self.new ≡ record self.old {
          ended =
              Some (record { result = result_of; line = line; ticks = self.old.ticks });
        } }
    {
        let finish = Finish {
            result: result_of,
            line,
            ticks: self.ticks,
        };
        self.ended = Some(finish);
        finish
    }
}
