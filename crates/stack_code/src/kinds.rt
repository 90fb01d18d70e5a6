ghost use Rattle.std.specs.Prelude.{◌≡◌, ◌<◌, ◌≤◌};
ghost use Rattle.stack_code.specs.Rules.{is_jump, is_tick, is_call, may_be_last, leaves_nothing, pops, pushes};
ghost use Rattle.solo_base.specs.Interface.{values_of, results_of};

use crate::places::routine_at;
use crate::{Code, Op};
use solo_base::call_row;

pub(crate) fn is_jump(op: Op) -> bool
    ensures { result ≡ is_jump op }
{
    matches!(op, Op::Jump | Op::JumpF)
}

pub(crate) fn is_tick(op: Op) -> bool
    ensures { result ≡ is_tick op }
{
    matches!(op, Op::Tick)
}

pub(crate) fn is_call(op: Op) -> bool
    ensures { result ≡ is_call op }
{
    matches!(op, Op::Call)
}

/// Whether the operation may be a routine's last.
pub(crate) fn may_be_last(op: Op) -> bool
    ensures { result ≡ may_be_last op }
{
    matches!(op, Op::Jump | Op::Return | Op::Halt)
}

/// Whether nothing may be on the operand stack behind the operation.
pub(crate) fn leaves_nothing(op: Op) -> bool
    ensures { result ≡ leaves_nothing op }
{
    matches!(op, Op::Jump | Op::JumpF | Op::Return | Op::Halt)
}

/// How many words the instruction takes from the operand stack.
pub(crate) fn pops(code: &Code, op: Op, a: u16) -> usize
    ensures count { result ≡ pops code.now op a }
    ensures bound { result < 256 }
{
    match op {
        Op::Call => routine_at(code, a as usize).params as usize,
        Op::Sys | Op::SysG | Op::SysL => values_of(a),
        _ => op.row().pops as usize,
    }
}

/// How many words the instruction puts on the operand stack.
pub(crate) fn pushes(code: &Code, op: Op, a: u16) -> usize
    ensures count { result ≡ pushes code.now op a }
    ensures bound { result < 256 }
{
    match op {
        Op::Call => usize::from(routine_at(code, a as usize).function),
        Op::Sys | Op::SysG | Op::SysL => results_of(a),
        _ => op.row().pushes as usize,
    }
}

fn values_of(number: u16) -> usize
    ensures count { result ≡ values_of number }
    ensures bound { result < 256 }
{
    match call_row(number) {
        Some(row) => row.values as usize,
        None => 0,
    }
}

fn results_of(number: u16) -> usize
    ensures count { result ≡ results_of number }
    ensures bound { result < 256 }
{
    match call_row(number) {
        Some(row) => row.results as usize,
        None => 0,
    }
}
