ghost use Rattle.std.specs.Prelude.{◌≡◌, ◌<◌};
ghost use Rattle.stack_machine.specs.State.{outcome, push};
ghost use Rattle.stack_machine.specs.Effects.{load, store, load_at, store_at, index_in};
ghost use Rattle.stack_machine.specs.Shown.{shown, rooms, IsRoomy};

use crate::state::{Step, Store};
use solo_base::ProgResult;
use stack_code::Verified;

impl Store {
    /// Pushes a word, and goes on.
    pub(crate) fn push(&mut self, code: &Verified, word: i16) -> Step
        requires place { self.old.current.place < 8192 }
        requires roomy { IsRoomy code.now (rooms self.old) }
        ensures does { outcome result (shown self.new) ≡ push code.now (shown self.old) word }
        ensures room { rooms self.new ≡ rooms self.old }
    {
        if !self.has_room(code) {
            return Step::Stuck;
        }
        self.current.operands.push(word);
        self.current.place += 1;
        Step::Moved
    }

    /// LOADG, LOADL.
    pub(crate) fn load(&mut self, code: &Verified, program: bool, a: u16) -> Step
        requires place { self.old.current.place < 8192 }
        requires roomy { IsRoomy code.now (rooms self.old) }
        ensures does { outcome result (shown self.new) ≡ load code.now program (shown self.old) a }
        ensures room { rooms self.new ≡ rooms self.old }
    {
        match self.word(program, a as usize) {
            Some(word) => self.push(code, word),
            None => Step::Stuck,
        }
    }

    /// STOREG, STOREL.
    pub(crate) fn store(&mut self, program: bool, a: usize) -> Step
        requires { self.old.current.place < 8192 }
        ensures does { outcome result (shown self.new)
            ≡ store program (shown self.old) a self.old.current.operands.words }
        ensures room { rooms self.new ≡ rooms self.old }
    {
        let Some(word) = self.current.operands.pop() else {
            return Step::Stuck;
        };
        if a >= self.words_len(program) {
            return Step::Stuck;
        }
        self.set_word(program, a, word);
        self.current.place += 1;
        Step::Moved
    }

    /// LOADGX, LOADLX.
    pub(crate) fn load_at(&mut self, program: bool, a: u16, b: u16) -> Step
        requires { self.old.current.place < 8192 }
        ensures does { outcome result (shown self.new)
            ≡ load_at program (shown self.old) a b self.old.current.operands.words }
        ensures room { rooms self.new ≡ rooms self.old }
    {
        let Some(i) = self.current.operands.pop() else {
            return Step::Stuck;
        };
        let Some(i) = index_in(i, b) else {
            return self.stop(ProgResult::RangeError);
        };
        let Some(word) = self.word(program, a as usize + i as usize) else {
            return Step::Stuck;
        };
        self.current.operands.push(word);
        self.current.place += 1;
        Step::Moved
    }

    /// STOREGX, STORELX.
    pub(crate) fn store_at(&mut self, program: bool, a: u16, b: u16) -> Step
        requires { self.old.current.place < 8192 }
        ensures does { outcome result (shown self.new)
            ≡ store_at program (shown self.old) a b self.old.current.operands.words }
        ensures room { rooms self.new ≡ rooms self.old }
    {
        let Some((i, word)) = self.pop_two() else {
            return Step::Stuck;
        };
        let Some(i) = index_in(i, b) else {
            return self.stop(ProgResult::RangeError);
        };
        let place = a as usize + i as usize;
        if place >= self.words_len(program) {
            return Step::Stuck;
        }
        self.set_word(program, place, word);
        self.current.place += 1;
        Step::Moved
    }
}

// The place that an index means in an array of b elements.
fn index_in(i: i16, b: u16) -> Option<u16>
    ensures { result ≡ index_in i b }
{
    match u16::try_from(i) {
        Ok(place) if place < b => Some(place),
        _ => None,
    }
}
