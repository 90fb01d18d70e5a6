//! A source and a sink that wait for each other, so that one thread alone can't serve both.
#![tactic(auto)]

ghost use Rattle.std.specs.Prelude.{None, ◌≡◌, ◌≤◌, length};

use solo_devices::{Gave, Sink, Source, Took};
use std::alloc::Global;
use std::sync::Arc;
use std::sync::atomic::{AtomicU64, Ordering};
use std::thread::yield_now;

/// The source was asked for what it holds back.
const ASKED: u64 = 1;

/// The sink was given its first piece.
const GIVEN: u64 = 2;

/// What a source and a sink tell each other.
pub type Marks = Arc<AtomicU64, Global>;

/// A source that gives one line in a call. So many bytes come freely. It marks that it is asked for those
/// behind them, and then waits for so many turns, each a yield of its thread, until the sink was given
/// something; else the call fails. With no turns it waits for nothing.
#[derive(Drop)]
pub struct HeldSource {
    text: Vec<u8>,
    place: usize,
    free: usize,
    turns: u32,
    marks: Marks,
    taken: u64,
    faults: u64,
}

/// A sink that waits so until the source was asked for what it holds back. It marks that it was given a
/// piece.
#[derive(Drop)]
pub struct HeldSink {
    text: Vec<u8>,
    turns: u32,
    marks: Marks,
    faults: u64,
}

impl HeldSource {
    /// A source of this text, of which nothing was taken.
    pub fn new(text: Vec<u8>, free: usize, turns: u32, marks: Marks) -> HeldSource
        ensures { ⟦<HeldSource as Source>⟧.taken result ≡ 0 }
    {
        HeldSource {
            text,
            place: 0,
            free,
            turns,
            marks,
            taken: 0,
            faults: 0,
        }
    }

    /// How often a call failed so far.
    pub fn faults(&self) -> u64 {
        self.faults
    }

    /// The line that is next, with its line feed.
    fn next_line(&self) -> &[u8] {
        let rest = self.text.get(self.place..).unwrap_or(&[]);
        match rest.iter().position(|byte| *byte == b'\n') {
            Some(end) if end < rest.len() => &rest[..end + 1],
            _ => rest,
        }
    }
}

impl Source for HeldSource {
    ghost left = { λ _. None };

    ghost taken = { λ source. source.taken };

    ghost faults = { λ source. source.faults };

    fn take(&mut self, piece: &mut [u8]) -> Took {
        let taken = self.taken;
        if self.place >= self.free {
            mark(&self.marks, ASKED);
            if !comes(&self.marks, GIVEN, self.turns) {
                self.faults = self.faults.saturating_add(1);
                return Took::Failed;
            }
        }
        let count = copy(self.next_line(), piece);
        self.place = self.place.saturating_add(count);
        self.taken = taken.saturating_add(count as u64);
        Took::Bytes(count)
    }
}

impl HeldSink {
    /// A sink that was given nothing.
    pub fn new(alloc: Global, turns: u32, marks: Marks) -> HeldSink {
        HeldSink {
            text: Vec::new(alloc),
            turns,
            marks,
            faults: 0,
        }
    }

    /// What it was given.
    pub fn bytes(&self) -> &[u8] {
        self.text.as_slice()
    }

    /// How often a call failed so far.
    pub fn faults(&self) -> u64 {
        self.faults
    }
}

impl Sink for HeldSink {
    ghost given = { λ _. None };

    ghost faults = { λ sink. sink.faults };

    fn give(&mut self, piece: &[u8]) -> Gave {
        if !comes(&self.marks, ASKED, self.turns) {
            self.faults = self.faults.saturating_add(1);
            return Gave::Failed;
        }
        if self.text.extend_from_slice(piece).is_err() {
            return Gave::NoMemory;
        }
        mark(&self.marks, GIVEN);
        Gave::Bytes(piece.len())
    }
}

/// Sets a mark.
fn mark(marks: &Marks, mark: u64) {
    marks.fetch_or(mark, Ordering::SeqCst);
}

/// Waits so many turns for a mark, and answers whether it came, or there were none.
fn comes(marks: &Marks, mark: u64, turns: u32) -> bool {
    for _ in 0..turns {
        if marks.load(Ordering::SeqCst) & mark != 0 {
            return true;
        }
        yield_now();
    }
    turns == 0
}

/// Copies the beginning of a line into the beginning of a piece, and answers how much of it.
fn copy(line: &[u8], piece: &mut [u8]) -> usize
    ensures piece { result ≤ length piece.new }
    ensures line { result ≤ length line.now }
{
    let count = line.len().min(piece.len());
    piece[..count].copy_from_slice(&line[..count]);
    count
}
