ghost use Rattle.std.specs.Prelude.{◌≡◌, Result, IfOk, IfErr};
ghost use Rattle.solo_base.specs.declared.system_call.SysCall.{SysCall};
ghost use Rattle.solo_base.specs.declared.system_call.SysReply.{SysReply};
ghost use Rattle.solo_base.specs.Fits.{Fits};
ghost use Rattle.stack_machine.specs.Safe.{IsSound};
ghost use Rattle.stack_machine.specs.World.{RanToEnd, BrokeOff};
ghost use Rattle.stack_machine.specs.Shown.{shown, rooms, IsRoomy};

use crate::running::Pause;
use crate::state::{Finish, Store};
use solo_base::{SysCall, SysReply};
use stack_code::Verified;

/// The system that answers a program's calls.
pub trait World {
    /// Why the world can't answer.
    type Fault;

    /// What the world may answer to a call, and what it is then.
    ghost answers: { Self → SysCall → Result SysReply Self.Fault → Self → Type 0 };

    /// The reply to a call, which fits it.
    fn call(&mut self, call: SysCall) -> Result<SysReply, Self::Fault>
        ensures fits { IfOk result (λ reply. Fits call reply) }
        ensures answers { answers self.old call result self.new };
}

impl Store {
    /// Runs to the end, with a world that answers the calls.
    pub(crate) fn run<W: World>(
        &mut self,
        code: &Verified,
        limit: u32,
        world: &mut W,
    ) -> Result<Finish, W::Fault>
        requires sound { IsSound code.now limit (shown self.old) }
        requires roomy { IsRoomy code.now (rooms self.old) }
        ensures ends { IfOk result (λ finish. RanToEnd W.answers code.now limit
            (shown self.old) world.old finish (shown self.new) world.new) }
        ensures broke_off { IfErr result (λ fault. BrokeOff W.answers code.now limit
            (shown self.old) world.old fault (shown self.new) world.new) }
        ensures sound { IsSound code.now limit (shown self.new) }
        ensures room { rooms self.new ≡ rooms self.old }
    {
        loop {
            match self.go(code, limit) {
                Pause::Finished(finish) => return Ok(finish),
                Pause::Call(call) => match world.call(call) {
                    Ok(reply) => self.answer(code, reply),
                    Err(fault) => return Err(fault),
                },
            }
        }
    }
}
