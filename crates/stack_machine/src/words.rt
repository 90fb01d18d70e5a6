ghost use Rattle.std.specs.Prelude.{◌≡◌, ◌<◌, ◌≤◌, ◌∷◌, ◌+◌, Bool, List, ℤ, [], length, slice_get, slice_set, IfSome, IfNone, IsTrue};
ghost use Rattle.stack_code.specs.CodeLists.{IsCode, routine_at};
ghost use Rattle.stack_code.specs.Rules.{IsGood};
ghost use Rattle.stack_machine.specs.State.{has_room, words_at, with_words_at, words_of, with_words};
ghost use Rattle.stack_machine.specs.Shown.{shown, rooms, IsRoomy, in_store};

use crate::state::Store;
use stack_code::{RoutineInfo, Verified};

/// The routine with this number, or an empty one where there is none.
pub(crate) fn routine_at(code: &Verified, number: u16) -> RoutineInfo
    ensures routine { result ≡ routine_at code.now number }
    ensures low { result.height ≤ 1536 }
    ensures small { result.words ≤ 4352 }
    ensures params { result.params ≤ result.words }
    ensures code { IsCode code.now }
    ensures good { IsGood code.now }
{
    code.code()
        .routines()
        .get(number as usize)
        .copied()
        .unwrap_or(RoutineInfo {
            start: 0,
            params: 0,
            function: false,
            words: 0,
            height: 0,
        })
}

impl Store {
    /// Whether the current activation's routine has room for one more operand.
    pub(crate) fn has_room(&self, code: &Verified) -> bool
        requires { IsRoomy code.now (rooms self.now) }
        ensures room { result ≡ has_room code.now (shown self.now).current }
        ensures bound { IsTrue result
            → length self.now.current.operands.words < self.now.current.operands.room }
    {
        self.current.operands.len() < routine_at(code, self.current.routine).height as usize
    }

    /// How many words the frame of the activation with this number has; 0 where none is open.
    pub(crate) fn words_len_at(&self, number: usize) -> usize
        ensures count { result ≡ length (words_at (shown self.now) number) }
        ensures bound { result ≤ 4352 }
    {
        if number < self.below.len() {
            self.below.words_len(number)
        } else if number == self.below.len() {
            self.current.words.len()
        } else {
            0
        }
    }

    /// A word of the frame of the activation with this number, if both are there.
    pub(crate) fn word_at(&self, number: usize, place: usize) -> Option<i16>
        ensures { result ≡ slice_get (words_at (shown self.now) number) place }
    {
        if number < self.below.len() {
            self.below.word(number, place)
        } else if number == self.below.len() {
            self.current.words.get(place)
        } else {
            None
        }
    }

    /// Changes a word of the frame of the activation with this number.
    pub(crate) fn set_word_at(&mut self, number: usize, place: usize, word: i16)
        requires { place < length (words_at (shown self.old) number) }
        ensures { self.new ≡ in_store self.old (with_words_at (shown self.old) number
            (slice_set (words_at (shown self.old) number) place word)) }
    {
        if number < self.below.len() {
            self.below.set_word(number, place, word);
        } else {
            self.current.words.set(place, word);
        }
    }

    /// How many words the program's frame, or the current activation's own, has.
    pub(crate) fn words_len(&self, program: bool) -> usize
        ensures count { result ≡ length (words_of program (shown self.now)) }
        ensures bound { result ≤ 4352 }
    {
        if program {
            self.words_len_at(0)
        } else {
            self.current.words.len()
        }
    }

    /// A word of the program's frame, or of the current activation's own.
    pub(crate) fn word(&self, program: bool, place: usize) -> Option<i16>
        ensures { result ≡ slice_get (words_of program (shown self.now)) place }
    {
        if program {
            self.word_at(0, place)
        } else {
            self.current.words.get(place)
        }
    }

    /// Changes a word of the program's frame, or of the current activation's own.
    pub(crate) fn set_word(&mut self, program: bool, place: usize, word: i16)
        requires { place < length (words_of program (shown self.old)) }
        ensures { self.new ≡ in_store self.old (with_words program (shown self.old)
            (slice_set (words_of program (shown self.old)) place word)) }
    {
        if program {
            self.set_word_at(0, place, word);
        } else {
            self.current.words.set(place, word);
        }
    }
}
