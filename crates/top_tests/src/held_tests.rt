// Batches over devices that wait for each other.

use crate::made_area::{formatted, readable};
use crate::running::{Printed, run_over, spool};
use held_devices::{HeldSink, HeldSource};
use solo_devices::{Gave, Sink, Source, Took};
use std::alloc::Global;
use std::process::Abort;
use std::sync::atomic::AtomicU64;
use std::sync::{Arc, Wait};
use std::test::Fail;
use std::thread::Threads;

#[test]
fn held_devices_wait_for_each_other(rt: HostRuntime) -> Result<(), Fail> {
    let marks = Arc::new(rt.alloc(), AtomicU64::new(0))?;
    let text = b"ONE\nTWO\n".to_vec(rt.alloc())?;
    let mut source = HeldSource::new(text, 4, 10, marks.clone()?);
    let mut sink = HeldSink::new(rt.alloc(), 10, marks);
    let mut piece = [0; 16];
    assert_eq!(rt; source.take(&mut piece), Took::Bytes(4));
    assert_eq!(rt; sink.give(b"JOB A\n"), Gave::Failed);
    assert_eq!(rt; source.take(&mut piece), Took::Failed);
    assert_eq!(rt; sink.give(b"JOB A\n"), Gave::Bytes(6));
    assert_eq!(rt; source.take(&mut piece), Took::Bytes(4));
    assert_eq!(rt; source.take(&mut piece), Took::Bytes(0));
    assert_eq!(rt; sink.printed(), b"JOB A\n".as_slice());
    Ok(())
}

/// Two lists of 40 cards of 80 columns, and their paper.
fn two_lists(alloc: Global) -> Result<(Vec<u8>, Vec<u8>), Fail> {
    let (mut deck, mut paper) = (Vec::new(alloc), Vec::new(alloc));
    for name in ["A", "B"] {
        deck.extend_from_slice(format!(in alloc; "#LIST {name}\n")?.as_bytes())?;
        paper.extend_from_slice(format!(in alloc; "JOB {name}\n")?.as_bytes())?;
        for _ in 0..40 {
            let card = format!(in alloc; "{name:->80}\n")?;
            deck.extend_from_slice(card.as_bytes())?;
            paper.extend_from_slice(card.as_bytes())?;
        }
        deck.extend_from_slice(b"#END\n")?;
        paper.extend_from_slice(format!(in alloc; "{name}: LISTED 40 CARDS\n")?.as_bytes())?;
    }
    Ok((deck, paper))
}

/// How many turns a held device waits at most.
const TURNS: u32 = 1_000_000;

/// The last card.
const LAST: &[u8] = b"#END\n";

/// Whether a batch of this deck, of which so many bytes come freely, has this paper, over devices of which
/// each waits at most so many turns for the other.
fn prints_held(
    rt: &(impl Threads + Wait + Sync + AllocGlobal + Abort),
    deck: Vec<u8>,
    free: usize,
    turns: (u32, u32),
    paper: &[u8],
) -> Result<bool, Fail> {
    let alloc = rt.alloc();
    let (source_turns, sink_turns) = turns;
    let marks = Arc::new(alloc, AtomicU64::new(0))?;
    let came = run_over(
        rt,
        &["batch"],
        HeldSource::new(deck, free, source_turns, marks.clone()?),
        HeldSink::new(alloc, sink_turns, marks),
        readable(alloc, formatted(alloc)?, 0)?,
        spool(rt, alloc, 256, 0, 0)?,
        spool(rt, alloc, 256, 0, 0)?,
    )?;
    Ok(came.has(paper, b""))
}

/// Whether the two lists are printed so.
fn prints_lists(
    rt: &(impl Threads + Wait + Sync + AllocGlobal + Abort),
    turns: (u32, u32),
) -> Result<bool, Fail> {
    let (deck, paper) = two_lists(rt.alloc())?;
    let free = deck.len().saturating_sub(LAST.len());
    prints_held(rt, deck, free, turns, paper.as_slice())
}

#[test]
fn the_last_card_is_read_before_the_first_line_is_printed(rt: HostRuntime) -> Result<(), Fail> {
    assert!(rt; prints_lists(&rt, (0, TURNS))?);
    Ok(())
}

#[test]
fn the_first_line_is_printed_before_the_last_card_is_read(rt: HostRuntime) -> Result<(), Fail> {
    assert!(rt; prints_lists(&rt, (TURNS, 0))?);
    Ok(())
}

/// A program that copies its input, under a limit of ticks, and 40 cards of it; and how many bytes stand
/// before the last one.
fn copying(alloc: Global, limit: &str) -> Result<(Vec<u8>, usize), Fail> {
    let mut deck = Vec::new(alloc);
    deck.extend_from_slice(format!(in alloc; "#JOB C {limit}\n")?.as_bytes())?;
    deck.extend_from_slice(b"VAR C: CHAR;\nBEGIN READ(C);\n")?;
    deck.extend_from_slice(b"WHILE C <> EM DO BEGIN WRITE(C); READ(C) END\nEND.\n#DATA\n")?;
    let mut free = 0;
    for _ in 0..40 {
        free = deck.len();
        deck.extend_from_slice([b'D'; 80].as_slice())?;
        deck.push(b'\n')?;
    }
    deck.extend_from_slice(LAST)?;
    Ok((deck, free))
}

/// The paper of a copy, with this line at its end.
fn copied(alloc: Global, end: &str) -> Result<Vec<u8>, Fail> {
    let mut paper = b"JOB C\n".to_vec(alloc)?;
    for _ in 0..40 {
        paper.extend_from_slice([b'D'; 80].as_slice())?;
        paper.push(b'\n')?;
    }
    paper.extend_from_slice(end.as_bytes())?;
    Ok(paper)
}

// Each of 3,240 characters takes three ticks, and three more are taken at the ends. The last card comes
// only once something was printed.
#[test]
fn a_program_prints_before_the_last_card_of_its_input_comes(rt: HostRuntime) -> Result<(), Fail> {
    let alloc = rt.alloc();
    for (limit, end) in [
        ("", "C: TERMINATED\n"),
        ("9723", "C: TERMINATED\n"),
        ("9722", "C: TIME LIMIT IN LINE 3\n"),
    ] {
        let (deck, free) = copying(alloc, limit)?;
        let paper = copied(alloc, end)?;
        assert!(rt;
            prints_held(&rt, deck, free, (TURNS, 0), paper.as_slice())?,
            "{limit}"
        );
    }
    Ok(())
}
