ghost use Rattle.std.specs.Prelude.{◌≤◌};
ghost use Rattle.stack_machine.specs.Store.{Needs};

use crate::words::routine_at;
use stack_code::Verified;

/// How many activations wait at most, where there is a routine to call.
const WAITING: usize = 63;

/// The room of a store: for the words of each frame, for the operands of each activation, and for
/// so many activations that wait.
#[derive(Clone, Copy, Debug)]
pub struct Room {
    pub(crate) words: usize,
    pub(crate) height: usize,
    pub(crate) waiting: usize,
}

impl Room {
    /// The room that the code needs, and no more.
    pub(crate) fn of(code: &Verified) -> Room
        ensures needs { Needs code.now result }
        ensures small { result.words ≤ 4352 }
        ensures low { result.height ≤ 1536 }
    {
        let count = code.code().routines().len();
        let program = routine_at(code, 0);
        let mut words = program.words;
        let mut height = program.height;
        for number in 1..count as u16 {
            let routine = routine_at(code, number);
            words = routine.words.max(words);
            height = routine.height.max(height);
        }
        Room {
            words: words as usize,
            height: height as usize,
            waiting: if 1 < count { WAITING } else { 0 },
        }
    }
}
