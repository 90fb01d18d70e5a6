use crate::made_files::{add_files, blank_files};
use crate::made_programs::Step::{Close, Get, Length, Open, Put, WriteArg};
use crate::stack_runs::{Row, each_tells};
use std::alloc::Global;
use std::process::Abort;

// What is told where the first, the second and the third call is refused.
const FIRST: &str = "refused;call error 1 1;";

const SECOND: &str = "opened true;refused;call error 2 2;";

const THIRD: &str = "opened true;done;refused;call error 3 3;";

const FILES: [Row; 34] = [
    (&[Open(0, "TEXT")], FIRST),
    (&[Open(3, "TEXT")], FIRST),
    (&[Open(-1, "TEXT")], FIRST),
    (&[Open(3, "NONE")], FIRST),
    (&[Open(1, "TEXT"), Open(1, "EMPTY")], SECOND),
    (&[Open(2, "TEXT"), Open(2, "NONE")], SECOND),
    (&[Close(1)], FIRST),
    (&[Close(2)], FIRST),
    (&[Close(0)], FIRST),
    (&[Close(3)], FIRST),
    (&[Open(1, "TEXT"), Close(2)], SECOND),
    (&[Open(1, "TEXT"), Close(1), Close(1)], THIRD),
    (&[Get(1, 1)], FIRST),
    (&[Get(0, 1)], FIRST),
    (&[Get(3, 1)], FIRST),
    (&[Open(1, "TEXT"), Get(2, 1)], SECOND),
    (&[Open(1, "TEXT"), Get(1, 0)], SECOND),
    (&[Open(1, "TEXT"), Get(1, 3)], SECOND),
    (&[Open(1, "TEXT"), Get(1, -1)], SECOND),
    (&[Open(1, "EMPTY"), Get(1, 1)], SECOND),
    (&[Open(1, "TEXT"), Close(1), Get(1, 1)], THIRD),
    (&[Put(1, 1, 65)], FIRST),
    (&[Put(3, 1, 65)], FIRST),
    (&[Open(1, "TEXT"), Put(2, 1, 65)], SECOND),
    (&[Open(1, "TEXT"), Put(1, 0, 65)], SECOND),
    (&[Open(1, "TEXT"), Put(1, 4, 65)], SECOND),
    (&[Open(1, "TEXT"), Put(1, -1, 65)], SECOND),
    (&[Open(1, "EMPTY"), Put(1, 2, 65)], SECOND),
    (&[Open(1, "LOCKED"), Put(1, 1, 65)], SECOND),
    (&[Open(1, "LOCKED"), Put(1, 2, 65)], SECOND),
    (&[Length(1)], FIRST),
    (&[Length(0)], FIRST),
    (&[Length(3)], FIRST),
    (&[Open(1, "TEXT"), Length(2)], SECOND),
];

const ARGUMENTS: [Row; 8] = [
    (&[WriteArg(4, 0, "A")], FIRST),
    (&[WriteArg(-1, 0, "A")], FIRST),
    (&[WriteArg(1, 2, "A")], FIRST),
    (&[WriteArg(1, -1, "A")], FIRST),
    (&[WriteArg(3, 0, "")], FIRST),
    (&[WriteArg(3, 0, "2X")], FIRST),
    (&[WriteArg(3, 0, "A B")], FIRST),
    // ten arguments, and one more
    (
        &[
            WriteArg(2, 1, ""),
            WriteArg(2, 2, ""),
            WriteArg(2, 3, ""),
            WriteArg(2, 4, ""),
            WriteArg(2, 5, ""),
            WriteArg(2, 6, ""),
            WriteArg(2, 7, ""),
            WriteArg(2, 8, ""),
            WriteArg(2, 9, ""),
            WriteArg(2, 10, ""),
            WriteArg(2, 11, ""),
        ],
        "done;done;done;done;done;done;done;done;done;done;refused;call error 11 11;\
         gives 1;gives 2;gives 3;gives 4;gives 5;gives 6;gives 7;gives 8;gives 9;gives 10;",
    ),
];

// Behind them the files are as they were.
const AFTERWARDS: [Row; 2] = [
    (
        &[Open(1, "TEXT"), Length(1), Get(1, 1), Get(1, 2)],
        "opened true;length 2;page 65 65;page 66 66;terminated 4 4;",
    ),
    (
        &[
            Open(1, "LOCKED"),
            Length(1),
            Get(1, 1),
            Open(2, "EMPTY"),
            Length(2),
        ],
        "opened true;length 1;page 76 76;opened true;length 0;terminated 5 5;",
    ),
];

// Of each command this is told, one after the other over the same files.
fn all_tell(rt: &impl Abort, alloc: Global, rows: &[Row]) {
    let mut files = blank_files(rt, alloc);
    add_files(rt, &mut files).expect(rt, "the files");
    each_tells(rt, alloc, &mut files, rows);
    each_tells(rt, alloc, &mut files, &AFTERWARDS);
}

#[test]
fn calls_of_files_that_are_wrong_end_the_program(rt: HostRuntime) {
    all_tell(&rt, rt.alloc(), &FILES);
}

#[test]
fn arguments_that_are_wrong_end_the_program(rt: HostRuntime) {
    all_tell(&rt, rt.alloc(), &ARGUMENTS);
}
