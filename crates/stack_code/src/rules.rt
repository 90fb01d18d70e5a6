ghost use Rattle.std.specs.Prelude.{◌≡◌, ◌<◌, ◌≤◌, ◌^◌, None, length};
ghost use Rattle.stack_code.specs.CodeLists.{IsCode};
ghost use Rattle.stack_code.specs.Rules.{routine_of, starts_well, routine_is_good, broken_routine, word_fits, reference_fits, array_fits, call_array_fits, bounds_fit, jump_fits, operands_fit, height_fits};

use crate::kinds::{is_tick, leaves_nothing, pops, pushes};
use crate::places::{instr_at, is_in, program_words, routine_at};
use crate::{Code, Instr, Op};
use solo_base::call_row;

/// Whether no rule on a routine is broken.
pub(crate) fn routine_is_good(code: &Code, k: usize) -> bool
    ensures { result ≡ routine_is_good code.now k }
{
    let routine = routine_at(code, k);
    starts_well(code, k)
        && (routine.start as usize) < code.instrs().len()
        && routine.params <= 16
        && u16::from(routine.params) + u16::from(routine.function) <= routine.words
        && routine.words <= 4352
        && routine.height <= 1536
}

fn starts_well(code: &Code, k: usize) -> bool
    ensures { result ≡ starts_well code.now k }
{
    let routine = routine_at(code, k);
    if k == 0 {
        routine.start == 0 && routine.params == 0 && !routine.function
    } else {
        routine_at(code, k - 1).start < routine.start
    }
}

/// Whether the operands of the instruction at a place of this routine are within their bounds.
pub(crate) fn operands_fit(code: &Code, place: usize, routine: usize, instr: Instr) -> bool
    requires rise { broken_routine code.now ≡ None }
    requires routine { routine ≡ routine_of code.now place }
    requires number { routine < length code.now.routines }
    ensures { result ≡ operands_fit code.now place instr.op instr.a instr.b }
{
    let Instr { op, a, b } = instr;
    match op {
        Op::LoadG | Op::StoreG | Op::RefG => a < program_words(code),
        Op::LoadL | Op::StoreL | Op::RefL => a < routine_at(code, routine).words,
        Op::LoadR | Op::StoreR => reference_fits(routine_at(code, routine).words, a),
        Op::LoadGX | Op::StoreGX => array_fits(program_words(code), a, b),
        Op::LoadLX | Op::StoreLX => array_fits(routine_at(code, routine).words, a, b),
        Op::Index => bounds_fit(a, b),
        Op::Jump | Op::JumpF => jump_fits(code, place, routine, a as usize),
        Op::Call => 1 <= a && (a as usize) < code.routines().len(),
        Op::Sys => call_row(a).is_some_and(|row| row.array == 0),
        Op::SysG => call_array_fits(program_words(code), a, b),
        Op::SysL => call_array_fits(routine_at(code, routine).words, a, b),
        Op::Return => 0 < routine,
        Op::Halt => routine == 0,
        _ => true,
    }
}

fn reference_fits(words: u16, a: u16) -> bool
    ensures { result ≡ reference_fits words a }
{
    u32::from(a) + 1 < u32::from(words)
}

fn array_fits(words: u16, a: u16, b: u16) -> bool
    ensures { result ≡ array_fits words a b }
{
    1 <= b && b <= 4096 && u32::from(a) + u32::from(b) <= u32::from(words)
}

fn call_array_fits(words: u16, a: u16, b: u16) -> bool
    ensures { result ≡ call_array_fits words a b }
{
    call_row(a).is_some_and(|row| {
        1 <= row.array && u32::from(b) + u32::from(row.array) <= u32::from(words)
    })
}

fn bounds_fit(a: u16, b: u16) -> bool
    ensures { result ≡ bounds_fit a b }
{
    let low = i32::from(a.cast_signed());
    let high = i32::from(b.cast_signed());
    low <= high && high - low <= 4095
}

fn jump_fits(code: &Code, place: usize, routine: usize, a: usize) -> bool
    requires rise { broken_routine code.now ≡ None }
    requires routine { routine ≡ routine_of code.now place }
    requires number { routine < length code.now.routines }
    ensures { result ≡ jump_fits code.now place a }
{
    a < code.instrs().len()
        && is_in(code, routine, a)
        && (place < a || is_tick(instr_at(code, a).op))
}

/// Whether the operand stack, of this height before the instruction at a place of the routine, has
/// what it needs.
pub(crate) fn height_fits(
    code: &Code,
    place: usize,
    routine: usize,
    instr: Instr,
    height: usize,
) -> bool
    requires routine { routine ≡ routine_of code.now place }
    requires height { height < 2 ^ 32 }
    ensures { result ≡ height_fits code.now place instr.op instr.a height }
{
    let popped = pops(code, instr.op, instr.a);
    let left = height.saturating_sub(popped);
    popped <= height
        && left + pushes(code, instr.op, instr.a) <= routine_at(code, routine).height as usize
        && (!leaves_nothing(instr.op) || left == 0)
}
