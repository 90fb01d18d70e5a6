use crate::made_files::{add_files, blank_files};
use crate::made_programs::Step;
use crate::made_programs::Step::{
    Accept, Close, Display, Get, Length, Lookup, Open, Put, Read, ReadArg, Write, WriteArg,
    WriteLine,
};
use crate::stack_runs::{NO_ARGUMENTS, Row, tells};
use std::alloc::Global;
use std::process::Abort;

// Of a command this is told over the files of the tests, which are made for it.
fn tells_anew(rt: &impl Abort, alloc: Global, steps: &[Step], wanted: &str) {
    let mut files = blank_files(rt, alloc);
    add_files(rt, &mut files).expect(rt, "the files");
    tells(rt, alloc, &mut files, (steps, NO_ARGUMENTS, 1000), wanted);
}

fn each_tells_anew(rt: &impl Abort, alloc: Global, rows: &[Row]) {
    for (steps, wanted) in rows {
        tells_anew(rt, alloc, steps, wanted);
    }
}

const FILES: [Row; 10] = [
    (
        &[
            Open(1, "TEXT"),
            Open(2, "EMPTY"),
            Close(1),
            Open(1, "LOCKED"),
        ],
        "opened true;opened true;done;opened true;terminated 4 4;",
    ),
    (
        &[Open(1, "NONE"), Open(1, "text")],
        "opened false;opened true;terminated 2 2;",
    ),
    // no names, and then one
    (
        &[Open(2, ""), Open(2, "2X"), Open(2, "A B"), Open(2, "TEXT")],
        "opened false;opened false;opened false;opened true;terminated 4 4;",
    ),
    (
        &[Open(1, "TEXT"), Get(1, 1), Get(1, 2)],
        "opened true;page 65 65;page 66 66;terminated 3 3;",
    ),
    (
        &[
            Open(1, "TEXT"),
            Put(1, 1, 88),
            Get(1, 1),
            Get(1, 2),
            Length(1),
        ],
        "opened true;done;page 88 0;page 66 66;length 2;terminated 5 5;",
    ),
    (
        &[
            Open(2, "TEXT"),
            Put(2, 3, 67),
            Length(2),
            Get(2, 3),
            Get(2, 2),
        ],
        "opened true;done;length 3;page 67 0;page 66 66;terminated 5 5;",
    ),
    (
        &[
            Open(2, "EMPTY"),
            Length(2),
            Put(2, 1, 255),
            Length(2),
            Get(2, 1),
        ],
        "opened true;length 0;done;length 1;page 255 0;terminated 5 5;",
    ),
    // one file, open as both
    (
        &[Open(1, "TEXT"), Open(2, "TEXT"), Put(1, 1, 90), Get(2, 1)],
        "opened true;opened true;done;page 90 0;terminated 4 4;",
    ),
    (
        &[Open(1, "LOCKED"), Length(1), Get(1, 1)],
        "opened true;length 1;page 76 76;terminated 3 3;",
    ),
    // no byte
    (
        &[Open(1, "TEXT"), Put(1, 1, 256)],
        "opened true;range error 2 2;",
    ),
];

#[test]
fn calls_of_files_are_answered(rt: HostRuntime) {
    each_tells_anew(&rt, rt.alloc(), &FILES);
}

const OTHERS: [Row; 5] = [
    (
        &[
            Lookup("EMPTY"),
            Lookup("text"),
            Lookup("BAD"),
            Lookup("CON"),
        ],
        "kind 1 true;kind 2 true;kind 3 true;kind 4 true;terminated 4 4;",
    ),
    (
        &[Lookup("NONE"), Lookup("2X"), Lookup("")],
        "kind 0 false;kind 0 false;kind 0 false;terminated 3 3;",
    ),
    (&[ReadArg], "argument 0 0 '';terminated 1 1;"),
    // of a nil argument neither the number nor the name matters
    (
        &[
            WriteArg(0, 5, "2X"),
            WriteArg(1, 1, ""),
            WriteArg(1, 0, ""),
            WriteArg(2, -7, ""),
            WriteArg(3, 9, "prog"),
        ],
        "done;done;done;done;done;terminated 5 5;gives nil;gives true;gives false;gives -7;gives a name;",
    ),
    (
        &[Read, Accept, Write(65), WriteLine, Write(10), Display(66)],
        "read;accept;A63/display 66;terminated 6 6;",
    ),
];

#[test]
fn calls_of_names_arguments_and_devices_are_answered(rt: HostRuntime) {
    each_tells_anew(&rt, rt.alloc(), &OTHERS);
}

const TWO: [i16; 2] = [-32768, 7];

#[test]
fn a_command_reads_its_arguments(rt: HostRuntime) {
    let mut files = blank_files(&rt, rt.alloc());
    tells(
        &rt,
        rt.alloc(),
        &mut files,
        (&[ReadArg, ReadArg, ReadArg], &TWO, 3),
        "argument 2 -32768 '';argument 2 7 '';argument 0 0 '';terminated 3 3;",
    );
}
