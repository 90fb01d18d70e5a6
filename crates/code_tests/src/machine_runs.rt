ghost use Rattle.std.specs.Prelude.{◌≡◌, IfSome};

use crate::desk_runs::{PROGRAM, each_ends, ends, runs};
use crate::made_code::{
    HALT, READ, Routine, TICK, WRITE, WRITEINT, Written, load, push, store, sys, tick, verified,
};
use solo_base::ProgResult::{CallError, Overflow, RangeError, StackLimit, Terminated, TimeLimit};
use solo_base::{SysCall, SysReply};
use stack_code::{Code, Op, decode, encode};
use stack_machine::{Finish, Machine, Pause};
use std::alloc::Global;
use std::process::Abort;

#[test]
fn each_result_comes_with_its_line_and_ticks(rt: HostRuntime) {
    let table: [(&[Written], u32, Finish); 6] = [
        // BEGIN WRITE('A') END.
        (&[TICK, push(65), WRITE, HALT], 10, ends(Terminated, 1, 1)),
        (&[HALT], 0, ends(Terminated, 0, 0)),
        // an endless loop stops at its tick 8
        (
            &[TICK, push(65), WRITE, (Op::Jump, 0, 0)],
            7,
            ends(TimeLimit, 1, 7),
        ),
        (&[(Op::Tick, 1, 2), HALT], 0, ends(TimeLimit, 65538, 0)),
        (
            &[TICK, push(1), push(0), (Op::Div, 0, 0), store(0), HALT],
            9,
            ends(Overflow, 1, 1),
        ),
        (&[TICK, push(9), sys(6), HALT], 9, ends(CallError, 1, 1)),
    ];
    each_ends(&rt, rt.alloc(), &table);
}

const OUT_OF_RANGE: Finish = Finish {
    result: RangeError,
    line: 1,
    ticks: 1,
};

#[test]
fn numbers_out_of_range_are_refused(rt: HostRuntime) {
    let table: [(&[Written], u32, Finish); 8] = [
        // past an array and before it
        (
            &[TICK, push(3), (Op::LoadGX, 0, 3), store(0), HALT],
            9,
            OUT_OF_RANGE,
        ),
        (
            &[TICK, push(-1), push(5), (Op::StoreGX, 0, 3), HALT],
            9,
            OUT_OF_RANGE,
        ),
        // the bounds are -2 and 10
        (
            &[TICK, push(11), (Op::Index, 65534, 10), store(0), HALT],
            9,
            OUT_OF_RANGE,
        ),
        (
            &[TICK, push(-3), (Op::Index, 65534, 10), store(0), HALT],
            9,
            OUT_OF_RANGE,
        ),
        (
            &[TICK, push(128), (Op::Chr, 0, 0), store(0), HALT],
            9,
            OUT_OF_RANGE,
        ),
        // what is written, displayed, and put into a file
        (&[TICK, push(-1), WRITE, HALT], 9, OUT_OF_RANGE),
        (&[TICK, push(256), sys(4), HALT], 9, OUT_OF_RANGE),
        (
            &[
                TICK,
                push(256),
                store(511),
                push(1),
                push(1),
                (Op::SysG, 8, 0),
                HALT,
            ],
            9,
            OUT_OF_RANGE,
        ),
    ];
    each_ends(&rt, rt.alloc(), &table);
}

#[test]
fn the_65th_activation_is_one_too_many(rt: HostRuntime) {
    // a procedure that calls itself: the program and 63 calls of it take a tick each
    let routines: &[Routine] = &[[0, 0, 0, 0, 0], [3, 0, 0, 0, 0]];
    let call = (Op::Call, 1, 0);
    let instrs = [TICK, call, HALT, tick(2), call, (Op::Return, 0, 0)];
    let wanted = (ends(StackLimit, 2, 64), [].as_slice());
    runs(&rt, rt.alloc(), (routines, &instrs), wanted);
}

#[test]
fn a_loop_goes_on_to_its_end(rt: HostRuntime) {
    // word 0 counts to 3
    let instrs = [
        TICK,
        load(0),
        (Op::Succ, 0, 0),
        store(0),
        load(0),
        push(3),
        (Op::Ge, 0, 0),
        (Op::JumpF, 0, 0),
        load(0),
        WRITEINT,
        HALT,
    ];
    let wanted = (ends(Terminated, 1, 3), [3].as_slice());
    runs(&rt, rt.alloc(), (PROGRAM, &instrs), wanted);
}

#[test]
fn a_function_gives_the_word_behind_its_parameters(rt: HostRuntime) {
    // 10 - 4, in a function of two parameters
    let routines: &[Routine] = &[[0, 0, 0, 0, 2], [6, 2, 1, 3, 2]];
    let instrs = [
        TICK,
        push(10),
        push(4),
        (Op::Call, 1, 0),
        WRITEINT,
        HALT,
        tick(2),
        (Op::LoadL, 0, 0),
        (Op::LoadL, 1, 0),
        (Op::Sub, 0, 0),
        (Op::StoreL, 2, 0),
        (Op::Return, 0, 0),
    ];
    let wanted = (ends(Terminated, 1, 2), [6].as_slice());
    runs(&rt, rt.alloc(), (routines, &instrs), wanted);
}

#[test]
fn a_procedure_has_words_of_its_own(rt: HostRuntime) {
    // LOOKUP of a name in words 1 to 12 of the procedure; FOUND is written first, and then KIND
    let routines: &[Routine] = &[[0, 0, 0, 0, 0], [3, 0, 0, 14, 2]];
    let instrs = [
        TICK,
        (Op::Call, 1, 0),
        HALT,
        TICK,
        push(72),
        (Op::StoreL, 1, 0),
        push(73),
        (Op::StoreL, 12, 0),
        (Op::SysL, 10, 1),
        WRITEINT,
        WRITEINT,
        (Op::Return, 0, 0),
    ];
    let wanted = (ends(Terminated, 1, 2), [72, 73, 1, 3].as_slice());
    runs(&rt, rt.alloc(), (routines, &instrs), wanted);
}

/// A machine for these instructions of a program of 600 words.
fn machine_of(rt: &impl Abort, alloc: Global, instrs: &[Written]) -> Machine {
    let code = verified(alloc, PROGRAM, instrs).expect(rt, "good code");
    Machine::make(alloc, code, 10).ok().expect(rt, "memory")
}

/// Whether the program has ended so.
fn has_ended(machine: &mut Machine, wanted: Finish) -> bool {
    match machine.go() {
        Pause::Finished(finish) => finish == wanted,
        Pause::Call(_) => false,
    }
}

#[test]
fn a_program_that_ended_stays_so(rt: HostRuntime) {
    let mut machine = machine_of(&rt, rt.alloc(), &[TICK, READ, WRITE, HALT]);
    // the program asks until it is answered
    assert!(rt; matches!(machine.go(), Pause::Call(SysCall::Read)));
    assert!(rt; matches!(machine.go(), Pause::Call(SysCall::Read)));
    machine.answer(SysReply::CallError);
    assert!(rt; has_ended(&mut machine, ends(CallError, 1, 1)));
    assert!(rt; has_ended(&mut machine, ends(CallError, 1, 1)));
}

/// The code, written and read again.
fn read_again(alloc: Global, code: &Code) -> Option<Code>
    ensures { IfSome result (λ again. again ≡ code.now) }
{
    let Ok(bytes) = encode(alloc, code) else {
        return None;
    };
    decode(alloc, &bytes).ok()
}

#[test]
fn code_that_is_written_is_read_again(rt: HostRuntime) {
    let instrs = [TICK, push(-3), WRITEINT, HALT];
    let code = verified(rt.alloc(), PROGRAM, &instrs).expect(&rt, "good code");
    let again = read_again(rt.alloc(), code.code()).expect(&rt, "code");
    assert!(rt; again.instrs() == code.code().instrs());
    assert!(rt; again.routines() == code.code().routines());
}
