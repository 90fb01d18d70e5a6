use crate::desk_runs::{PROGRAM, sure_run};
use crate::made_code::{HALT, TICK, WRITEINT, Written, push};
use solo_base::{NoMemory, ProgResult};
use stack_code::Op;
use std::alloc::Global;
use std::process::Abort;
use std::test::Fail;

/// Operands, an operation, and what it gives of them, or nothing where that is an Overflow.
type Row<'a> = (&'a [i16], Op, Option<i16>);

/// A program that writes what an operation gives of these operands.
fn written_of(alloc: Global, operands: &[i16], op: Op) -> Result<Vec<Written>, NoMemory> {
    let mut instrs = Vec::new(alloc);
    instrs.push(TICK)?;
    for operand in operands {
        instrs.push(push(*operand))?;
    }
    instrs.extend_from_slice(&[(op, 0, 0), WRITEINT, HALT])?;
    Ok(instrs)
}

/// What an operation gives of these operands, or nothing where that is an Overflow.
fn given(rt: &impl Abort, alloc: Global, operands: &[i16], op: Op) -> Option<i16> {
    let instrs = written_of(alloc, operands, op).ok().expect(rt, "memory");
    let (finish, numbers) = sure_run(rt, alloc, PROGRAM, &instrs, 10);
    if finish.result == ProgResult::Overflow {
        None
    } else {
        numbers.first().copied()
    }
}

/// Each row is so.
fn each_gives(rt: &impl Abort, alloc: Global, table: &[Row]) {
    for (operands, op, wanted) in table {
        let found = given(rt, alloc, operands, *op);
        assert!(rt; found == *wanted, "{op:?} {operands:?}");
    }
}

const TWO_OPERANDS_AT_THE_EDGES: [Row; 24] = [
    (&[32767, 1], Op::Add, None),
    (&[32766, 1], Op::Add, Some(32767)),
    (&[-32768, 1], Op::Sub, None),
    (&[-32767, 1], Op::Sub, Some(-32768)),
    (&[181, 181], Op::Mul, Some(32761)),
    (&[182, 182], Op::Mul, None),
    (&[-32768, -1], Op::Mul, None),
    (&[-32768, -1], Op::Div, None),
    (&[-7, 2], Op::Div, Some(-3)),
    (&[7, 0], Op::Div, None),
    (&[-7, 2], Op::Mod, Some(-1)),
    (&[7, -2], Op::Mod, Some(1)),
    (&[-32768, -1], Op::Mod, Some(0)),
    (&[7, 0], Op::Mod, None),
    (&[2, 0], Op::And, Some(0)),
    (&[2, 4], Op::And, Some(1)),
    (&[0, 0], Op::Or, Some(0)),
    (&[0, 5], Op::Or, Some(1)),
    (&[3, 3], Op::Eq, Some(1)),
    (&[3, 3], Op::Ne, Some(0)),
    (&[-1, 1], Op::Lt, Some(1)),
    (&[-1, 1], Op::Gt, Some(0)),
    (&[1, 1], Op::Le, Some(1)),
    (&[0, 1], Op::Ge, Some(0)),
];

#[test]
fn two_operands_at_the_edges(rt: HostRuntime) {
    each_gives(&rt, rt.alloc(), &TWO_OPERANDS_AT_THE_EDGES);
}

const ONE_OPERAND_AT_THE_EDGES: [Row; 11] = [
    (&[-32768], Op::Neg, None),
    (&[32767], Op::Neg, Some(-32767)),
    (&[-32768], Op::Abs, None),
    (&[-32767], Op::Abs, Some(32767)),
    (&[0], Op::Not, Some(1)),
    (&[-5], Op::Not, Some(0)),
    (&[32767], Op::Succ, None),
    (&[32766], Op::Succ, Some(32767)),
    (&[-32768], Op::Pred, None),
    (&[-32767], Op::Pred, Some(-32768)),
    (&[127], Op::Chr, Some(127)),
];

#[test]
fn one_operand_at_the_edges(rt: HostRuntime) {
    each_gives(&rt, rt.alloc(), &ONE_OPERAND_AT_THE_EDGES);
}
