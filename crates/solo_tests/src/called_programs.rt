use crate::made_files::{Stored, add_files, add_programs, blank_files};
use crate::made_programs::Step;
use crate::made_programs::Step::{
    Close, Get, Length, Open, Pass, PassIn, Put, ReadArg, Repeat, Run, Write, WriteArg, WriteBack,
    WriteLine, WriteResult,
};
use crate::stack_runs::{NO_ARGUMENTS, Row, each_tells, tells};
use disk_files::FileArea;
use prog_stack::ProgStack;
use solo_devices::SureArea;
use std::alloc::Global;
use std::process::Abort;

const PROGRAMS: [Stored; 11] = [
    (
        "ECHO",
        &[
            ReadArg, WriteBack, ReadArg, WriteBack, ReadArg, WriteBack, ReadArg, WriteBack, ReadArg,
        ],
    ),
    ("ONE", &[ReadArg]),
    ("GIVE", &[WriteArg(2, 9, "")]),
    ("OPENER", &[Open(1, "EMPTY"), Open(2, "TEXT")]),
    ("CLOSER", &[Close(1)]),
    ("WRONG", &[Open(1, "TEXT"), Put(1, 1, 256)]),
    ("FAR", &[PassIn(40000)]),
    ("PASS", &[Pass]),
    ("LOOP", &[Repeat]),
    ("NEST", &[Pass, Run("LOOP")]),
    ("DEEP", &[Run("DEEP"), WriteResult, Write(10)]),
];

fn all_files(rt: &impl Abort, alloc: Global) -> FileArea<SureArea> {
    let mut files = blank_files(rt, alloc);
    add_files(rt, &mut files).expect(rt, "the files");
    add_programs(rt, alloc, &mut files, &PROGRAMS).expect(rt, "the programs");
    files
}

const RUNS: [Row; 6] = [
    // arguments there and back; the next program gets none
    (
        &[
            WriteArg(0, 0, ""),
            WriteArg(1, 1, ""),
            WriteArg(2, -7, ""),
            WriteArg(3, 0, "prog"),
            Run("ECHO"),
            ReadArg,
            ReadArg,
            ReadArg,
            ReadArg,
            ReadArg,
            Run("ONE"),
        ],
        "done;done;done;done;pushed;\
         argument 0 0 '';done;argument 1 1 '';done;argument 2 -7 '';done;argument 3 0 'PROG';done;\
         argument 0 0 '';terminated 9 9;\
         argument 0 0 '';argument 1 1 '';argument 2 -7 '';argument 3 0 'PROG';argument 0 0 '';\
         pushed;argument 0 0 '';terminated 1 1;terminated 11 21;",
    ),
    // no file, a text, an empty file, the code of another machine, bad code and no names: nothing is run,
    // and the argument stays for the next program
    (
        &[
            WriteArg(2, 5, ""),
            Run("NONE"),
            Run("TEXT"),
            Run("EMPTY"),
            Run("CON"),
            Run("BAD"),
            Run("2X"),
            Run(""),
            WriteLine,
            Write(32),
            WriteResult,
            Run("ONE"),
        ],
        "done;ran 0 6 0;ran 0 6 0;ran 0 6 0;ran 0 6 0;ran 0 6 0;ran 0 6 0;ran 0 6 0;0 6\
         pushed;argument 2 5 '';terminated 1 1;terminated 12 13;",
    ),
    // each program has its own open files, and they are closed when it ends
    (
        &[
            Open(1, "TEXT"),
            Run("OPENER"),
            Run("OPENER"),
            Get(1, 2),
            Open(2, "EMPTY"),
            Run("CLOSER"),
            WriteLine,
            Write(32),
            WriteResult,
            Length(1),
        ],
        "opened true;pushed;opened true;opened true;terminated 2 2;\
         pushed;opened true;opened true;terminated 2 2;page 66 66;opened true;\
         pushed;refused;call error 1 1;1 6length 2;terminated 10 15;",
    ),
    (
        &[Run("WRONG"), WriteLine, Write(32), WriteResult],
        "pushed;opened true;range error 2 2;2 2terminated 4 6;",
    ),
    (
        &[Run("FAR"), WriteLine],
        "pushed;terminated 40000 2;32767terminated 2 4;",
    ),
    // a program that runs itself: the fifth is refused a sixth
    (
        &[Run("DEEP"), WriteResult, Write(10)],
        "pushed;pushed;pushed;pushed;ran 0 6 0;6/terminated 3 3;\
         0/terminated 3 6;0/terminated 3 9;0/terminated 3 12;0/terminated 3 15;",
    ),
];

#[test]
fn a_program_runs_others(rt: HostRuntime) {
    let mut files = all_files(&rt, rt.alloc());
    each_tells(&rt, rt.alloc(), &mut files, &RUNS);
}

// What a command does, the numbers that are its arguments, its limit of ticks, and what is told of it.
type Limited = (&'static [Step], &'static [i16], u32, &'static str);

fn each_limited_tells(rt: &impl Abort, alloc: Global, rows: &[Limited]) {
    let mut files = all_files(rt, alloc);
    for (steps, args, limit, wanted) in rows {
        tells(rt, alloc, &mut files, (steps, args, *limit), wanted);
    }
}

const TICKS: [Limited; 6] = [
    // the called program takes all ticks that are left
    (
        &[Run("LOOP"), Pass],
        NO_ARGUMENTS,
        10,
        "pushed;time limit 1 9;time limit 2 10;",
    ),
    (
        &[Run("NEST"), Pass],
        NO_ARGUMENTS,
        7,
        "pushed;pushed;time limit 1 4;terminated 2 6;time limit 2 7;",
    ),
    (
        &[Run("PASS"), Pass],
        NO_ARGUMENTS,
        3,
        "pushed;terminated 1 1;terminated 2 3;",
    ),
    (
        &[Run("PASS"), Pass],
        NO_ARGUMENTS,
        2,
        "pushed;terminated 1 1;time limit 2 2;",
    ),
    (
        &[Run("PASS"), Pass],
        NO_ARGUMENTS,
        1,
        "pushed;time limit 1 0;time limit 2 1;",
    ),
    (&[Run("PASS"), Pass], NO_ARGUMENTS, 0, "time limit 1 0;"),
];

#[test]
fn ticks_are_shared_to_the_last(rt: HostRuntime) {
    each_limited_tells(&rt, rt.alloc(), &TICKS);
}

const TWO: &[i16] = &[1, 2];

const ARGUMENTS: [Limited; 2] = [
    // what wasn't read is replaced by what the called program wrote
    (
        &[ReadArg, Run("GIVE"), ReadArg, ReadArg],
        TWO,
        100,
        "argument 2 1 '';pushed;done;terminated 1 1;argument 2 9 '';argument 0 0 '';terminated 4 5;",
    ),
    // and stays where nothing is run
    (
        &[Run("NONE"), ReadArg, ReadArg],
        TWO,
        100,
        "ran 0 6 0;argument 2 1 '';argument 2 2 '';terminated 3 3;",
    ),
];

#[test]
fn arguments_that_were_not_read_are_replaced_by_a_run(rt: HostRuntime) {
    each_limited_tells(&rt, rt.alloc(), &ARGUMENTS);
}

#[test]
fn a_new_stack_has_no_program(rt: HostRuntime) {
    let mut stack = ProgStack::<5>::new(rt.alloc());
    assert!(rt; stack.is_empty());
    assert!(rt; !stack.full());
    assert!(rt; stack.pop().is_none());
    assert!(rt; stack.top().is_none());
}
