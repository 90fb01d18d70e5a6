ghost use Rattle.std.specs.Prelude.{◌≡◌, ◌<◌, ◌≤◌, ◌==◌, ◌^◌, None, length};
ghost use Rattle.stack_code.specs.CodeLists.{routine_at, instr_at, IsCode};
ghost use Rattle.stack_code.specs.Rules.{routine_of, broken_routine, program_words, goes_on};

use crate::{Code, Instr, Op, RoutineInfo};

/// The routine with this number, or an empty one where there is none.
pub(crate) fn routine_at(code: &Code, k: usize) -> RoutineInfo
    ensures { result ≡ routine_at code.now k }
{
    code.routines().get(k).copied().unwrap_or(RoutineInfo {
        start: 0,
        params: 0,
        function: false,
        words: 0,
        height: 0,
    })
}

/// The instruction at a place, or HALT where there is none.
pub(crate) fn instr_at(code: &Code, place: usize) -> Instr
    ensures { result ≡ instr_at code.now place }
{
    code.instrs().get(place).copied().unwrap_or(Instr {
        op: Op::Halt,
        a: 0,
        b: 0,
    })
}

/// Whether the routine with this number is the one of a place: it starts there or before, and the
/// next one behind it.
pub(crate) fn is_in(code: &Code, routine: usize, place: usize) -> bool
    requires rise { broken_routine code.now ≡ None }
    requires number { routine < length code.now.routines }
    ensures { result ≡ (routine_of code.now place == routine) }
{
    let count = code.routines().len();
    routine_at(code, routine).start as usize <= place
        && (routine + 1 == count || place < routine_at(code, routine + 1).start as usize)
}

/// How many words the program's frame has.
pub(crate) fn program_words(code: &Code) -> u16
    ensures { result ≡ program_words code.now }
{
    routine_at(code, 0).words
}

/// Whether the place behind this one is still in its routine.
pub(crate) fn goes_on(code: &Code, place: usize, routine: usize) -> bool
    requires rise { broken_routine code.now ≡ None }
    requires place { place < 2 ^ 32 }
    requires routine { routine ≡ routine_of code.now place }
    requires number { routine < length code.now.routines }
    ensures { result ≡ goes_on code.now place }
{
    place + 1 < code.instrs().len() && is_in(code, routine, place + 1)
}
