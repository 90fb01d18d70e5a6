ghost use Rattle.std.specs.Prelude.{◌≡◌, ◌<◌, ◌≤◌, pos, length};
ghost use Rattle.stack_machine.specs.State.{outcome};
ghost use Rattle.stack_machine.specs.Effects.{refer, load_reference, store_reference, write_named, word_named, words_named};
ghost use Rattle.stack_machine.specs.Shown.{shown, rooms, IsRoomy};

use crate::state::{Step, Store};
use crate::words::routine_at;
use solo_base::ProgResult;
use stack_code::Verified;

impl Store {
    /// REFG, REFL: pushes the number of an activation and the place of a word.
    pub(crate) fn refer(&mut self, code: &Verified, number: usize, a: u16) -> Step
        requires place { self.old.current.place < 8192 }
        requires number { number ≤ 63 }
        requires roomy { IsRoomy code.now (rooms self.old) }
        ensures does { outcome result (shown self.new) ≡ refer code.now (shown self.old) number a }
        ensures room { rooms self.new ≡ rooms self.old }
    {
        let height = routine_at(code, self.current.routine).height as usize;
        if self.current.operands.len() + 1 >= height {
            return Step::Stuck;
        }
        self.current.operands.push(number as i16);
        self.current.operands.push(a.cast_signed());
        self.current.place += 1;
        Step::Moved
    }

    /// LOADR.
    pub(crate) fn load_reference(&mut self, code: &Verified, a: u16) -> Step
        requires place { self.old.current.place < 8192 }
        requires roomy { IsRoomy code.now (rooms self.old) }
        ensures does { outcome result (shown self.new)
            ≡ load_reference code.now (shown self.old) a }
        ensures room { rooms self.new ≡ rooms self.old }
    {
        let a = a as usize;
        let Some(number) = self.current.words.get(a) else {
            return Step::Stuck;
        };
        let Some(place) = self.current.words.get(a + 1) else {
            return Step::Stuck;
        };
        match self.word_named(number, place) {
            Some(word) => self.push(code, word),
            None => self.stop(ProgResult::RangeError),
        }
    }

    // The word that a number and a place name, if it is there.
    fn word_named(&self, number: i16, place: i16) -> Option<i16>
        ensures { result ≡ word_named (words_named (shown self.now) number) place }
    {
        match (usize::try_from(number), usize::try_from(place)) {
            (Ok(number), Ok(place)) => self.word_at(number, place),
            _ => None,
        }
    }

    /// STORER.
    pub(crate) fn store_reference(&mut self, a: u16) -> Step
        requires { self.old.current.place < 8192 }
        ensures does { outcome result (shown self.new)
            ≡ store_reference (shown self.old) a self.old.current.operands.words }
        ensures room { rooms self.new ≡ rooms self.old }
    {
        let a = a as usize;
        let Some(word) = self.current.operands.pop() else {
            return Step::Stuck;
        };
        let Some(number) = self.current.words.get(a) else {
            return Step::Stuck;
        };
        let Some(place) = self.current.words.get(a + 1) else {
            return Step::Stuck;
        };
        self.write_named(number, place, word)
    }

    // Makes the word that a number and a place name this one, and goes on.
    fn write_named(&mut self, number: i16, place: i16, word: i16) -> Step
        requires { self.old.current.place < 8192 }
        ensures does { outcome result (shown self.new)
            ≡ write_named (shown self.old) number place word self.old.current.operands.words }
        ensures room { rooms self.new ≡ rooms self.old }
    {
        let (Ok(number), Ok(place)) = (usize::try_from(number), usize::try_from(place)) else {
            return self.stop(ProgResult::RangeError);
        };
        if place >= self.words_len_at(number) {
            return self.stop(ProgResult::RangeError);
        }
        self.set_word_at(number, place, word);
        self.current.place += 1;
        Step::Moved
    }
}
