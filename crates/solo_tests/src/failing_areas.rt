use crate::made_files::{Stored, add_file, add_programs, failing_files, name};
use crate::made_programs::Step;
use crate::made_programs::Step::{Close, Get, Length, Lookup, Open, Pass, Put, Run};
use crate::stack_runs::{NO_ARGUMENTS, told_of};
use disk_files::{FileArea, FileKind};
use solo_devices::MemArea;
use std::alloc::Global;
use std::process::Abort;

// Each call that reads or writes the area, and one that doesn't.
const SCRIPT: [Step; 9] = [
    Open(1, "TEXT"),
    Get(1, 1),
    Put(1, 2, 88),
    Put(1, 3, 67),
    Length(1),
    Lookup("TEXT"),
    Close(1),
    Run("PASS"),
    Open(1, "TEXT"),
];

// What is told of it where nothing fails.
const WHOLE: &str = "opened true;page 65 65;done;done;length 3;kind 2 true;done;\
                     pushed;terminated 1 1;opened true;terminated 9 10;";

const PROGRAMS: [Stored; 1] = [("PASS", &[Pass])];

fn add_all(rt: &impl Abort, alloc: Global, files: &mut FileArea<MemArea>) -> Option<()> {
    add_file(files, &name(rt, "TEXT"), FileKind::Ascii, b"AB")?;
    add_programs(rt, alloc, files, &PROGRAMS)
}

// How the script came out.
#[derive(Clone, Copy)]
enum Came {
    /// A read or a write failed before it began.
    Early,
    /// The area failed where so many characters of the whole were told.
    FailedAt(usize),
    Ended,
}

// What is told is the whole, or a first part of it and the fault.
fn came_so(rt: &impl Abort, told: &str) -> Came {
    match told.strip_suffix("disk fault;") {
        Some(first) => {
            assert!(rt; WHOLE.starts_with(first), "{told}");
            Came::FailedAt(first.len())
        }
        None => {
            assert!(rt; told == WHOLE, "{told}");
            Came::Ended
        }
    }
}

// The script over an area whose reads and writes with these numbers fail.
fn script_over(rt: &impl Abort, alloc: Global, (read, write): (u64, u64)) -> Came {
    match failing_files(rt, alloc, read, write) {
        Some(mut files) => came_over(rt, alloc, &mut files),
        None => Came::Early,
    }
}

fn came_over(rt: &impl Abort, alloc: Global, files: &mut FileArea<MemArea>) -> Came {
    if add_all(rt, alloc, files).is_none() {
        return Came::Early;
    }
    let told = told_of(rt, alloc, files, (&SCRIPT, NO_ARGUMENTS, 100));
    came_so(rt, told.as_str())
}

// A number of a read or a write that isn't made.
const NEVER: u64 = 1_000_000;

// How many calls of the script a read, or a write, fails in, each in its turn.
fn calls_that_fail(rt: &impl Abort, alloc: Global, reads: bool) -> u32 {
    let mut calls = 0u32;
    let mut last = WHOLE.len();
    for number in 1..1000u64 {
        let failing = if reads {
            (number, NEVER)
        } else {
            (NEVER, number)
        };
        match script_over(rt, alloc, failing) {
            Came::Early => {}
            Came::FailedAt(place) => {
                calls = calls.saturating_add(u32::from(place != last));
                last = place;
            }
            Came::Ended => return calls,
        }
    }
    0
}

#[test]
fn each_read_that_fails_is_a_disk_fault(rt: HostRuntime) {
    // all but CLOSE
    assert!(rt; calls_that_fail(&rt, rt.alloc(), true) == 8);
}

#[test]
fn each_write_that_fails_is_a_disk_fault(rt: HostRuntime) {
    // PUT of a page that is there, and of one behind the last
    assert!(rt; calls_that_fail(&rt, rt.alloc(), false) == 2);
}
