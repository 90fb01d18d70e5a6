ghost use Rattle.std.specs.Prelude.{◌≡◌, ◌<◌, length};
ghost use Rattle.stack_machine.specs.State.{outcome, jump_to, Goes};
ghost use Rattle.stack_machine.specs.Effects.{jump_false, index, chr, tick, call, leave};
ghost use Rattle.stack_machine.specs.Shown.{shown, rooms, IsRoomy};

use crate::arithmetic::difference;
use crate::state::{Step, Store};
use crate::words::routine_at;
use solo_base::ProgResult;
use stack_code::Verified;

/// How many activations are open at most.
const ACTIVATIONS: usize = 64;

impl Store {
    /// INDEX.
    pub(crate) fn index(&mut self, a: u16, b: u16) -> Step
        requires { self.old.current.place < 8192 }
        ensures does { outcome result (shown self.new)
            ≡ index (shown self.old) a b self.old.current.operands.words }
        ensures room { rooms self.new ≡ rooms self.old }
    {
        let Some(value) = self.current.operands.pop() else {
            return Step::Stuck;
        };
        let low = a.cast_signed();
        if value < low || b.cast_signed() < value {
            return self.stop(ProgResult::RangeError);
        }
        let Some(index) = difference(value, low) else {
            return Step::Stuck;
        };
        self.current.operands.push(index);
        self.current.place += 1;
        Step::Moved
    }

    /// CHR.
    pub(crate) fn chr(&mut self) -> Step
        requires { self.old.current.place < 8192 }
        ensures does { outcome result (shown self.new)
            ≡ chr (shown self.old) self.old.current.operands.words }
        ensures room { rooms self.new ≡ rooms self.old }
    {
        let Some(value) = self.current.operands.pop() else {
            return Step::Stuck;
        };
        if value < 0 || 127 < value {
            return self.stop(ProgResult::RangeError);
        }
        self.current.operands.push(value);
        self.current.place += 1;
        Step::Moved
    }

    /// JUMP.
    pub(crate) fn jump(&mut self, a: u16) -> Step
        ensures does { outcome result (shown self.new)
            ≡ Goes (jump_to (shown self.old) a self.old.current.operands.words) }
        ensures room { rooms self.new ≡ rooms self.old }
    {
        self.current.place = a;
        Step::Moved
    }

    /// JUMPF.
    pub(crate) fn jump_false(&mut self, a: u16) -> Step
        requires { self.old.current.place < 8192 }
        ensures does { outcome result (shown self.new)
            ≡ jump_false (shown self.old) a self.old.current.operands.words }
        ensures room { rooms self.new ≡ rooms self.old }
    {
        let Some(value) = self.current.operands.pop() else {
            return Step::Stuck;
        };
        if value == 0 {
            self.current.place = a;
        } else {
            self.current.place += 1;
        }
        Step::Moved
    }

    /// TICK.
    pub(crate) fn tick(&mut self, limit: u32, a: u16, b: u16) -> Step
        requires { self.old.current.place < 8192 }
        ensures does { outcome result (shown self.new) ≡ tick limit (shown self.old) a b }
        ensures room { rooms self.new ≡ rooms self.old }
    {
        let line = u32::from(a) * 65536 + u32::from(b);
        if self.ticks >= limit {
            return Step::Stopped(ProgResult::TimeLimit, line);
        }
        self.ticks += 1;
        self.current.line = line;
        self.current.place += 1;
        Step::Moved
    }

    /// CALL.
    pub(crate) fn call(&mut self, code: &Verified, a: u16) -> Step
        requires some { 1 < length code.now.routines }
        requires place { self.old.current.place < 8192 }
        requires roomy { IsRoomy code.now (rooms self.old) }
        ensures does { outcome result (shown self.new) ≡ call code.now (shown self.old) a }
        ensures room { rooms self.new ≡ rooms self.old }
    {
        if self.below.len() + 1 >= ACTIVATIONS {
            return self.stop(ProgResult::StackLimit);
        }
        let routine = routine_at(code, a);
        if self.current.operands.len() < routine.params as usize {
            return Step::Stuck;
        }
        self.below.open(&mut self.current, routine, a);
        Step::Moved
    }

    /// RETURN.
    pub(crate) fn leave(&mut self, code: &Verified) -> Step
        requires roomy { IsRoomy code.now (rooms self.old) }
        ensures does { outcome result (shown self.new) ≡ leave code.now (shown self.old) }
        ensures room { rooms self.new ≡ rooms self.old }
    {
        if self.below.len() == 0 {
            return Step::Stuck;
        }
        let routine = routine_at(code, self.current.routine);
        if !routine.function {
            self.below.resume(&mut self.current);
            return Step::Moved;
        }
        let Some(word) = self.current.words.get(routine.params as usize) else {
            return Step::Stuck;
        };
        self.below.resume(&mut self.current);
        if !self.has_room(code) {
            return Step::Stuck;
        }
        self.current.operands.push(word);
        Step::Moved
    }
}
