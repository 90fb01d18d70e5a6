// How many operands routines have at most.

ghost use Rattle.std.specs.Prelude.{◌≡◌, ◌+◌, ◌-◌, ◌<◌, ◌^◌, length, drop, IfOk};
ghost use Rattle.solo_base.specs.Interface.{values_of, results_of};
ghost use Rattle.stack_code.specs.CodeLists.{routine_at};
ghost use Rattle.stack_code.specs.Rules.{pops, pushes};
ghost use Rattle.pascal_code.specs.Code.{greatest_height};
ghost use Rattle.pascal_compile.specs.WithHeights.{called_in, end_before, with_height, with_heights, HasHeight, HaveHeights};

use solo_base::{NoMemory, call_row};
use stack_code::{Instr, Op, RoutineInfo};
use std::alloc::Global;
use std::cmp::max;

/// Each routine with its height. The instructions of one end where those of the next begin.
pub fn with_heights(
    alloc: Global,
    routines: &[RoutineInfo],
    instrs: &[Instr],
) -> Result<Vec<RoutineInfo>, NoMemory>
    requires { HaveHeights (called_in routines.now) instrs.now routines.now }
    ensures { IfOk result (λ list. list.items
        ≡ with_heights (called_in routines.now) instrs.now routines.now) }
{
    let mut list = Vec::new(alloc);
    for place in 0..routines.len() {
        let end = end_of(routines, instrs.len(), place);
        list.push(with_height(routines, instrs, routines[place], end))?;
    }
    Ok(list)
}

/// The place behind the instructions of a routine, of so many.
fn end_of(routines: &[RoutineInfo], count: usize, place: usize) -> usize
    requires { place < length routines.now }
    ensures { result ≡ end_before count (drop (place + 1) routines.now) }
{
    match routines.get(place + 1) {
        Some(next) => next.start as usize,
        None => count,
    }
}

/// A routine with its height, whose instructions end at a place.
fn with_height(
    routines: &[RoutineInfo],
    instrs: &[Instr],
    routine: RoutineInfo,
    end: usize,
) -> RoutineInfo
    requires { HasHeight (called_in routines.now) instrs.now routine end }
    ensures { result ≡ with_height (called_in routines.now) instrs.now routine end }
{
    let own = &instrs[routine.start as usize..end];
    RoutineInfo {
        height: greatest_height(routines, own),
        ..routine
    }
}

/// The greatest number of operands along instructions, of a code with these routines.
fn greatest_height(routines: &[RoutineInfo], instrs: &[Instr]) -> u16
    requires { greatest_height (called_in routines.now) 0 instrs.now < 2 ^ 16 }
    ensures { result ≡ greatest_height (called_in routines.now) 0 instrs.now }
{
    let mut height = 0;
    let mut greatest = 0;
    for instr in instrs {
        height = height_behind(routines, *instr, height);
        greatest = max(greatest, height);
    }
    greatest
}

/// How many operands are behind an instruction.
fn height_behind(routines: &[RoutineInfo], instr: Instr, height: u16) -> u16
    requires { let c = called_in routines.now in
        height - pops c instr.op instr.a + pushes c instr.op instr.a < 2 ^ 16 }
    ensures { let c = called_in routines.now in
        result ≡ height - pops c instr.op instr.a + pushes c instr.op instr.a }
{
    height.saturating_sub(pops(routines, instr)) + pushes(routines, instr)
}

/// How many words an instruction takes from the operand stack.
fn pops(routines: &[RoutineInfo], instr: Instr) -> u16
    ensures { result ≡ pops (called_in routines.now) instr.op instr.a }
{
    match instr.op {
        Op::Call => u16::from(routine_at(routines, instr.a).params),
        Op::Sys | Op::SysG | Op::SysL => values_of(instr.a),
        _ => u16::from(instr.op.row().pops),
    }
}

/// How many words an instruction puts on the operand stack.
fn pushes(routines: &[RoutineInfo], instr: Instr) -> u16
    ensures { result ≡ pushes (called_in routines.now) instr.op instr.a }
{
    match instr.op {
        Op::Call => u16::from(routine_at(routines, instr.a).function),
        Op::Sys | Op::SysG | Op::SysL => results_of(instr.a),
        _ => u16::from(instr.op.row().pushes),
    }
}

/// The routine with this number, or an empty one where there is none.
fn routine_at(routines: &[RoutineInfo], number: u16) -> RoutineInfo
    ensures { result ≡ routine_at (called_in routines.now) number }
{
    routines
        .get(number as usize)
        .copied()
        .unwrap_or(RoutineInfo {
            start: 0,
            params: 0,
            function: false,
            words: 0,
            height: 0,
        })
}

fn values_of(row: u16) -> u16
    ensures { result ≡ values_of row }
{
    match call_row(row) {
        Some(row) => u16::from(row.values),
        None => 0,
    }
}

fn results_of(row: u16) -> u16
    ensures { result ≡ results_of row }
{
    match call_row(row) {
        Some(row) => u16::from(row.results),
        None => 0,
    }
}
