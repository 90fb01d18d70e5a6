ghost use Rattle.std.specs.Prelude.{◌≡◌, ◌≤◌, List, [], ◌∷◌, ◌++◌, IfOk, IfErr, IfSome};
ghost use Rattle.solo_base.specs.declared.system_call.SysCall.{SysCall};
ghost use Rattle.solo_base.specs.declared.system_call.SysReply.{SysReply};
ghost use Rattle.stack_machine.specs.declared.running.Pause.TheVariants.{Finished};
ghost use Rattle.stack_machine.specs.declared.state.Finish.{Finish};
ghost use Rattle.stack_machine.specs.State.{Asks};
ghost use Rattle.stack_machine.specs.Machine.{next, start_state, answered};
ghost use Rattle.stack_machine.specs.Run.{Pauses, Runs};
ghost use Rattle.stack_machine.specs.World.{RanToEnd, BrokeOff};

use crate::room::Room;
use crate::running::Pause;
use crate::slot::Slot;
use crate::state::{Finish, Store};
use crate::waiting::Waiting;
use crate::words::routine_at;
use crate::world::World;
use crate::{Frame, Operands};
use solo_base::{NoMemory, SysReply};
use stack_code::Verified;
use std::alloc::Global;
use std::marker::Model;

/// The stack machine: a program that runs under a limit of ticks. Its whole store, as large as the
/// code needs, is taken when it is made.
#[derive(Debug, Drop)]
pub struct Machine {
    code: Verified,
    limit: u32,
    store: Store,
}

impl Model for Machine {
    ghost use Rattle.stack_machine.specs.Standing.{Standing, StandsWell};
    ghost use Rattle.stack_machine.specs.Shown.{shown, rooms, IsRoomy};

    ghost Value = { Standing };

    ghost view = { λ machine. record {
      code =
          machine.code;
      limit = machine.limit;
      state = shown machine.store;
    } };

    ghost invariant = { λ machine. StandsWell (record {
      code =
          machine.code;
      limit = machine.limit;
      state = shown machine.store;
    }) × IsRoomy machine.code (rooms machine.store) };
}

impl Machine {
    ghost use Rattle.stack_machine.specs.Standing.{Standing, StandsWell, Awaits};
    ghost use Rattle.stack_machine.specs.History.{StandsFor, CameTo, outcome_at};

    /// The machine at the program's first instruction. A refusal drops the code.
    pub fn make(alloc: Global, code: Verified, limit: u32) -> Result<Machine, NoMemory>
        ensures state { IfOk result (λ machine. machine ≡ record {
          code =
              code;
          limit = limit;
          state = start_state code;
        }) }
        ensures history { IfOk result (λ machine. StandsFor machine [] []) }
        ensures well { IfOk result (λ machine. StandsWell machine) }
    {
        let room = Room::of(&code);
        let mut words = Frame::new(alloc, room.words)?;
        words.begin(&[], routine_at(&code, 0).words as usize);
        let current = Slot {
            routine: 0,
            place: 0,
            line: 0,
            words,
            operands: Operands::new(alloc, room.height)?,
        };
        let store = Store {
            below: Waiting::new(alloc, room)?,
            current,
            ticks: 0,
            ended: None,
        };
        Ok(Machine { code, limit, store })
    }

    /// Runs on until the program asks for a call or ends. A program that asked asks again, and one
    /// that ended stays so.
    pub fn go(&mut self) -> Pause
        ensures pauses { Pauses self.old.code self.old.limit self.old.state result self.new.state }
        ensures runs { (replies : List SysReply) (calls : List SysCall) → StandsFor self.old replies calls
            → Runs self.old.code self.old.limit replies (outcome_at result calls) }
        ensures history { (replies : List SysReply) (calls : List SysCall) → StandsFor self.old replies calls
            → StandsFor self.new replies calls }
        ensures code { self.new.code ≡ self.old.code }
        ensures limit { self.new.limit ≡ self.old.limit }
        ensures ticks { (finish : Finish) → result ≡ Finished finish → finish.ticks ≤ self.new.limit }
        ensures well { StandsWell self.new }
    {
        self.store.go(&self.code, self.limit)
    }

    /// How the program ended, if it has.
    pub fn finished(&self) -> Option<Finish>
        ensures ended { result ≡ self.now.state.ended }
        ensures ticks { IfSome result (λ finish. finish.ticks ≤ self.now.limit) }
    {
        self.store.ended
    }

    /// Gives the reply to the call at which the program paused.
    pub fn answer(&mut self, reply: SysReply)
        requires { Awaits self.old reply }
        ensures answered { self.new ≡ record self.old {
          state =
              answered self.old.code self.old.state reply;
        } }
        ensures history { (replies : List SysReply) (calls : List SysCall) (call : SysCall)
            → next self.old.code self.old.limit self.old.state ≡ Asks call self.old.state
            → StandsFor self.old replies calls
            → StandsFor self.new (replies ++ reply ∷ []) (calls ++ call ∷ []) }
        ensures well { StandsWell self.new }
    {
        self.store.answer(&self.code, reply);
    }

    /// Runs to the end, with a world that answers the calls. Where the world can't answer one, the
    /// program still asks for it.
    pub fn run<W: World>(&mut self, world: &mut W) -> Result<Finish, W::Fault>
        ensures ends { IfOk result (λ finish. RanToEnd W.answers self.old.code self.old.limit self.old.state world.old finish self.new.state world.new) }
        ensures broke_off { IfErr result (λ fault. BrokeOff W.answers self.old.code self.old.limit self.old.state world.old fault self.new.state world.new) }
        // A machine that stood for a history stands for it with the replies and the calls of this run.
        ensures history { (replies : List SysReply) (calls : List SysCall) (before : List SysReply) (asked : List SysCall) →
            CameTo self.old.code self.old.limit self.old.state replies calls self.new.state →
            StandsFor self.old before asked → StandsFor self.new (before ++ replies) (asked ++ calls) }
        ensures code { self.new.code ≡ self.old.code }
        ensures limit { self.new.limit ≡ self.old.limit }
        ensures well { StandsWell self.new }
    {
        self.store.run(&self.code, self.limit, world)
    }
}
