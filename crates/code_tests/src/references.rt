use crate::desk_runs::{PROGRAM, ends, runs, sure_run};
use crate::made_code::{HALT, Routine, TICK, WRITEINT, Written, load, push, store, tick};
use solo_base::ProgResult::{RangeError, Terminated};
use solo_base::{NoMemory, ProgResult};
use stack_code::Op;
use std::alloc::Global;
use std::process::Abort;
use std::test::Fail;

/// Stores a number of an activation and a place in words 0 and 1, and then reads or writes there.
fn reaching(
    alloc: Global,
    number: i16,
    place: i16,
    writes: bool,
) -> Result<Vec<Written>, NoMemory> {
    let mut instrs = Vec::new(alloc);
    instrs.extend_from_slice(&[TICK, push(number), store(0), push(place), store(1)])?;
    let reads = [(Op::LoadR, 0, 0), store(2), HALT];
    let write = [push(7), (Op::StoreR, 0, 0), HALT];
    instrs.extend_from_slice(if writes { &write } else { &reads })?;
    Ok(instrs)
}

/// Each row of a table: a number of an activation, a place, and what comes of reading and of writing
/// there.
fn each_is_reached(rt: &impl Abort, alloc: Global, table: &[(i16, i16, ProgResult)]) {
    for (number, place, result) in table {
        for writes in [false, true] {
            is_reached(rt, alloc, (*number, *place, writes), *result);
        }
    }
}

fn is_reached(
    rt: &impl Abort,
    alloc: Global,
    (number, place, writes): (i16, i16, bool),
    wanted: ProgResult,
) {
    let instrs = reaching(alloc, number, place, writes);
    let instrs = instrs.ok().expect(rt, "memory");
    let (finish, _) = sure_run(rt, alloc, PROGRAM, &instrs, 10);
    assert!(rt; finish.result == wanted, "{number} {place} {writes}");
}

#[test]
fn a_reference_leads_to_a_word_or_is_out_of_range(rt: HostRuntime) {
    let table = [
        (0, 0, Terminated),
        (0, 599, Terminated),
        (0, 600, RangeError),
        (0, 32767, RangeError),
        (1, 0, RangeError),
        (64, 0, RangeError),
        (-1, 0, RangeError),
        (0, -1, RangeError),
        (-32768, -32768, RangeError),
    ];
    each_is_reached(&rt, rt.alloc(), &table);
}

#[test]
fn a_reference_to_no_activation_ends_in_its_line(rt: HostRuntime) {
    let routines: &[Routine] = &[[0, 0, 0, 2, 1]];
    for (number, result) in [(5, RangeError), (0, Terminated)] {
        let instrs = [
            TICK,
            push(number),
            store(0),
            (Op::LoadR, 0, 0),
            store(1),
            HALT,
        ];
        let wanted = (ends(result, 1, 1), [].as_slice());
        runs(&rt, rt.alloc(), (routines, &instrs), wanted);
    }
}

#[test]
fn a_procedure_changes_a_word_of_the_program(rt: HostRuntime) {
    // word 7 of the program is 40, and the procedure adds 2 to it
    let routines: &[Routine] = &[[0, 0, 0, 8, 2], [8, 2, 0, 2, 2]];
    let instrs = [
        TICK,
        push(40),
        store(7),
        (Op::RefG, 7, 0),
        (Op::Call, 1, 0),
        load(7),
        WRITEINT,
        HALT,
        tick(2),
        (Op::LoadR, 0, 0),
        push(2),
        (Op::Add, 0, 0),
        (Op::StoreR, 0, 0),
        (Op::Return, 0, 0),
    ];
    let wanted = (ends(Terminated, 1, 2), [42].as_slice());
    runs(&rt, rt.alloc(), (routines, &instrs), wanted);
}

#[test]
fn a_procedure_changes_a_word_of_its_caller(rt: HostRuntime) {
    // The program's word 2 stays 1. The middle procedure's word 2 is 5, and the last one makes it 9.
    let routines: &[Routine] = &[[0, 0, 0, 3, 2], [7, 0, 0, 3, 2], [15, 2, 0, 3, 2]];
    let instrs = [
        TICK,
        push(1),
        store(2),
        (Op::Call, 1, 0),
        load(2),
        WRITEINT,
        HALT,
        TICK,
        push(5),
        (Op::StoreL, 2, 0),
        (Op::RefL, 2, 0),
        (Op::Call, 2, 0),
        (Op::LoadL, 2, 0),
        WRITEINT,
        (Op::Return, 0, 0),
        TICK,
        push(9),
        (Op::StoreR, 0, 0),
        (Op::Return, 0, 0),
    ];
    let wanted = (ends(Terminated, 1, 3), [9, 1].as_slice());
    runs(&rt, rt.alloc(), (routines, &instrs), wanted);
}
