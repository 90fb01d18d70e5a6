// Code by hand that runs in the batch, and what is told of it.

ghost use Rattle.batch_program.specs.Progress.{NeedsCard};

use crate::made_code::{Routine, Written, verified};
use batch_program::{BatchProgram, Told};
use solo_base::{Line, NoMemory, ProgResult};
use std::alloc::Global;
use std::process::Abort;

/// A program of two words.
const PROGRAM: &[Routine] = &[[0, 0, 0, 2, 4]];

fn end_text(how: ProgResult) -> &'static [u8] {
    match how {
        ProgResult::Terminated => b"terminated ",
        ProgResult::TimeLimit => b"time limit ",
        ProgResult::CallError => b"call error ",
        _ => b"other ",
    }
}

/// What is told in order: each line in quotes, `card` where one is needed, and the end.
fn told(alloc: Global, instrs: &[Written], limit: u32, cards: &[&[u8]]) -> Option<Vec<u8>> {
    let code = verified(alloc, PROGRAM, instrs)?;
    match BatchProgram::make(alloc, code, limit) {
        Ok(mut program) => told_of(alloc, &mut program, cards),
        Err(_) => None,
    }
}

fn told_of(alloc: Global, program: &mut BatchProgram, cards: &[&[u8]]) -> Option<Vec<u8>> {
    let mut all = Vec::new(alloc);
    tell_all(program, &mut all, cards)?;
    Some(all)
}

fn tell_all(program: &mut BatchProgram, all: &mut Vec<u8>, cards: &[&[u8]]) -> Option<()> {
    let mut fed = 0;
    for _ in 0..1000 {
        match tell(program, all, cards, fed)? {
            Some(next) => fed = next,
            None => return Some(()),
        }
    }
    Some(())
}

/// What is told next, and which card is needed then, unless the program has ended.
fn tell(
    program: &mut BatchProgram,
    all: &mut Vec<u8>,
    cards: &[&[u8]],
    fed: usize,
) -> Option<Option<usize>> {
    match program.next() {
        Told::Line(line) => {
            put_line(all, &line).ok()?;
            Some(Some(fed))
        }
        Told::WaitsForCard => {
            give(program, cards.get(fed).copied())?;
            all.extend_from_slice(b"card ").ok()?;
            Some(Some(fed.saturating_add(1)))
        }
        Told::Ended { how, line } => {
            all.extend_from_slice(end_text(how)).ok()?;
            all.push((line % 10) as u8 + b'0').ok()?;
            Some(None)
        }
    }
}

fn put_line(all: &mut Vec<u8>, line: &Line) -> Result<(), NoMemory> {
    all.push(b'"')?;
    all.extend_from_slice(line.bytes())?;
    Ok(all.extend_from_slice(b"\" ")?)
}

/// A card for a program that needs one, or that no further one comes.
fn give(program: &mut BatchProgram, card: Option<&[u8]>) -> Option<()>
    requires { NeedsCard program.old }
{
    match card {
        Some(bytes) => {
            program.feed(&Line::of(bytes)?);
            Some(())
        }
        None => {
            program.close();
            Some(())
        }
    }
}

/// Instructions, the limit of ticks, the cards, and what is told.
pub type Row = (
    &'static [Written],
    u32,
    &'static [&'static [u8]],
    &'static [u8],
);

/// Each row is so.
pub fn each_tells(rt: &impl Abort, alloc: Global, table: &[Row]) {
    for (instrs, limit, cards, wanted) in table {
        tells(rt, alloc, (instrs, *limit, cards), wanted);
    }
}

/// This is told of these instructions with a limit of ticks and with these cards.
pub fn tells(
    rt: &impl Abort,
    alloc: Global,
    (instrs, limit, cards): (&[Written], u32, &[&[u8]]),
    wanted: &[u8],
) {
    let found = told(alloc, instrs, limit, cards).expect(rt, "all that is told");
    assert!(rt; found.as_slice() == wanted, "{found:?}");
}
