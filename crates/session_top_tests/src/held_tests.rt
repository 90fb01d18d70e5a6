// Sessions over keys and a paper that wait for each other.

use crate::running::{Session, formatted, run_over, sink, source};
use held_devices::{HeldSink, HeldSource};
use std::process::Abort;
use std::sync::atomic::AtomicU64;
use std::sync::{Arc, Wait};
use std::test::Fail;
use std::thread::Threads;

/// How many turns a held device waits at most.
const TURNS: u32 = 1_000_000;

/// The program prints lines while it accepts what is typed, so pages of them are put before its end.
const KEYS: &[u8] = b"copy(cards, text)\ncompile(text, prog)\nprog\ngo\n";

/// The line that the keys hold back.
const LAST: &[u8] = b"go\n";

const CARDS: &[u8] = b"VAR I: INTEGER; C: CHAR;\n\
    BEGIN FOR I := 1 TO 600 DO WRITE('A'); ACCEPT(C) END.\n#END\n";

const CONSOLE: &[u8] = b"COPY: OK\nCOMPILE: OK\nPROG: TERMINATED\n";

/// How many characters the lines of the paper have.
const LINES: [usize; 5] = [132, 132, 132, 132, 72];

/// Whether the session is whole over keys and a paper of which each waits at most so many turns for the
/// other.
fn is_told_held(
    rt: &(impl Threads + Wait + Sync + AllocGlobal + Abort),
    turns: (u32, u32),
) -> Result<bool, Fail> {
    let alloc = rt.alloc();
    let mut paper = Vec::new(alloc);
    for length in LINES {
        paper.extend_from_slice([b'A'; 132].get(..length).unwrap_or(&[]))?;
        paper.push(b'\n')?;
    }
    let session = Session {
        keys: KEYS,
        cards: CARDS,
        console: CONSOLE,
        paper: &paper,
    };
    let (keys_turns, paper_turns) = turns;
    let marks = Arc::new(alloc, AtomicU64::new(0))?;
    let free = KEYS.len().saturating_sub(LAST.len());
    let came = run_over(
        rt,
        source(rt, alloc, CARDS, 512, 0)?,
        HeldSource::new(KEYS.to_vec(alloc)?, free, keys_turns, marks.clone()?),
        HeldSink::new(alloc, paper_turns, marks),
        sink(alloc, 0)?,
        formatted(alloc, 0, 0)?,
    )?;
    Ok(came.is_whole(session))
}

#[test]
fn the_fourth_line_is_typed_before_the_first_one_is_printed(rt: HostRuntime) -> Result<(), Fail> {
    assert!(rt; is_told_held(&rt, (0, TURNS))?);
    Ok(())
}

#[test]
fn the_first_line_is_printed_before_the_fourth_one_is_typed(rt: HostRuntime) -> Result<(), Fail> {
    assert!(rt; is_told_held(&rt, (TURNS, 0))?);
    Ok(())
}
