//! Runs of commands over devices, and what they came to.
ghost use Rattle.std.specs.Prelude.{◌≡◌, ◌<◌, ◌≤◌, IfOk};

use crate::made_area::{formatted, readable};
use held_devices::{HeldSink, HeldSource};
use solo_base::Cause;
use solo_cli::{Finished, Refusal, top};
use solo_devices::{
    Area, BlankArea, HurtArea, MemArea, MemSink, MemSource, Sink, Source, SureSource, Took,
};
use solo_edge::{DriveArea, Recorded, Unknown};
use std::alloc::Global;
use std::fs::File;
use std::process::Abort;
use std::sync::Wait;
use std::test::Fail;
use std::thread::Threads;

/// The calls of the devices that fail, by number from 1 on; no call has the number 0.
#[derive(Clone, Copy)]
pub struct Failing {
    pub deck_read: u64,
    pub input_write: u64,
    pub input_read: u64,
    pub output_write: u64,
    pub output_read: u64,
    pub paper_write: u64,
    pub files_read: u64,
}

pub const NONE_FAILS: Failing = Failing {
    deck_read: 0,
    input_write: 0,
    input_read: 0,
    output_write: 0,
    output_read: 0,
    paper_write: 0,
    files_read: 0,
};

/// What a command runs over: a deck that comes in pieces of so many bytes, and areas of so many pages for the
/// spools, where these calls fail.
#[derive(Clone, Copy)]
pub struct Setting<'a> {
    pub deck: &'a [u8],
    pub piece: usize,
    pub pages: u16,
    pub failing: Failing,
}

/// A deck whose calls all succeed.
pub fn undisturbed(deck: &[u8]) -> Setting {
    Setting {
        deck,
        piece: 512,
        pages: 256,
        failing: NONE_FAILS,
    }
}

/// How often each device failed.
#[derive(Clone, Copy)]
pub struct Failures {
    pub deck: u64,
    pub paper: u64,
    pub files: u64,
    pub input: u64,
    pub output: u64,
}

/// What a command came to.
#[derive(Drop)]
pub struct Came {
    pub status: u8,
    pub cause: Option<Refusal>,
    pub paper: Vec<u8>,
    pub failures: Failures,
    /// What the deck gives next.
    pub next: Took,
}

impl Came {
    /// Whether it did its whole work, and printed this report, and behind it what begins so.
    pub fn has(&self, report: &[u8], behind: &[u8]) -> bool {
        let rest = self.paper.as_slice().strip_prefix(report);
        self.status == 0
            && rest.is_some_and(|rest| rest.starts_with(behind)
                && rest.is_empty() == behind.is_empty())
    }

    /// Whether it ended with this status and cause, before it printed anything.
    pub fn is_refused(&self, status: u8, cause: Cause) -> bool {
        self.status == status && self.cause == Some(Refusal::Fault(cause)) && self.paper.is_empty()
    }
}

/// A device that counts its failures.
pub trait Counted {
    fn failures(&self) -> u64;
}

/// A sink that tells what it was given.
pub trait Printed {
    fn printed(&self) -> &[u8];
}

impl Counted for MemSource {
    fn failures(&self) -> u64 {
        self.faults()
    }
}

impl Counted for MemSink {
    fn failures(&self) -> u64 {
        self.faults()
    }
}

impl Printed for MemSink {
    fn printed(&self) -> &[u8] {
        self.bytes()
    }
}

impl Counted for HeldSource {
    fn failures(&self) -> u64 {
        self.faults()
    }
}

impl Counted for HeldSink {
    fn failures(&self) -> u64 {
        self.faults()
    }
}

impl Printed for HeldSink {
    fn printed(&self) -> &[u8] {
        self.bytes()
    }
}

impl Counted for MemArea {
    fn failures(&self) -> u64 {
        self.faults()
    }
}

impl Counted for DriveArea<Recorded<File>, Unknown> {
    fn failures(&self) -> u64 {
        self.faults()
    }
}

/// It never fails.
impl Counted for HurtArea {
    fn failures(&self) -> u64 {
        0
    }
}

/// It never fails.
impl Counted for BlankArea {
    fn failures(&self) -> u64 {
        0
    }
}

/// A deck in memory.
pub fn source(
    rt: &impl Abort,
    alloc: Global,
    deck: &[u8],
    piece: usize,
    read: u64,
) -> Result<MemSource, Fail>
    ensures { IfOk result (λ deck. ⟦<MemSource as Source>⟧.taken deck ≡ 0) }
{
    assert!(rt; piece > 0);
    let reads = [read].to_vec(alloc)?;
    Ok(MemSource::new(deck.to_vec(alloc)?, piece, reads))
}

/// A paper in memory.
pub fn sink(alloc: Global, write: u64) -> Result<MemSink, Fail> {
    Ok(MemSink::new(alloc, [write].to_vec(alloc)?))
}

/// An area in memory for a spool, of 1 to 256 pages.
pub fn spool(
    rt: &impl Abort,
    alloc: Global,
    pages: u16,
    read: u64,
    write: u64,
) -> Result<MemArea, Fail>
    ensures some { IfOk result (λ area. 0 < ⟦<MemArea as Area>⟧.size area) }
    ensures few { IfOk result (λ area. ⟦<MemArea as Area>⟧.size area ≤ 256) }
{
    assert!(rt; pages > 0);
    assert!(rt; pages <= 256);
    let reads = [read].to_vec(alloc)?;
    let writes = [write].to_vec(alloc)?;
    match MemArea::new(alloc, pages, reads, writes) {
        Ok(area) => Ok(area),
        Err(_) => Err("no memory".into()),
    }
}

/// Runs these words over devices in memory, and files of which there are none.
pub fn run(
    rt: &(impl Threads + Wait + Sync + AllocGlobal + Abort),
    texts: &[&str],
    setting: Setting,
) -> Result<Came, Fail> {
    let files = formatted(rt.alloc())?;
    let files = readable(rt.alloc(), files, setting.failing.files_read)?;
    run_over_files(rt, texts, setting, files)
}

/// Runs these words over devices in memory, with these files.
pub fn run_over_files<F: Area + Counted + Drop + Send>(
    rt: &(impl Threads + Wait + Sync + AllocGlobal + Abort),
    texts: &[&str],
    setting: Setting,
    files: F,
) -> Result<Came, Fail>
    requires { F.size files ≡ 4288 }
{
    let alloc = rt.alloc();
    let failing = setting.failing;
    let deck = source(rt, alloc, setting.deck, setting.piece, failing.deck_read)?;
    let paper = sink(alloc, failing.paper_write)?;
    let input = spool(
        rt,
        alloc,
        setting.pages,
        failing.input_read,
        failing.input_write,
    )?;
    let output = spool(
        rt,
        alloc,
        setting.pages,
        failing.output_read,
        failing.output_write,
    )?;
    run_over(rt, texts, deck, paper, files, input, output)
}

/// The words of a command line.
pub fn words_of(alloc: Global, texts: &[&str]) -> Result<Vec<String>, Fail> {
    let mut words = Vec::new(alloc);
    for text in texts {
        words.push(String::from_str(alloc, text)?)?;
    }
    Ok(words)
}

/// Runs these words over these devices.
pub fn run_over<
    S: Source + Counted + Drop + Send,
    K: Sink + Counted + Printed + Drop + Send,
    F: Area + Counted + Drop + Send,
    I: Area + Counted + Drop + Send,
    O: Area + Counted + Drop + Send,
>(
    rt: &(impl Threads + Wait + Sync + AllocGlobal),
    texts: &[&str],
    deck: S,
    paper: K,
    files: F,
    input: I,
    output: O,
) -> Result<Came, Fail>
    requires deck { S.taken deck ≡ 0 }
    requires files { F.size files ≡ 4288 }
    requires input { (0 < I.size input) × (I.size input ≤ 256) }
    requires output { (0 < O.size output) × (O.size output ≤ 256) }
{
    let alloc = rt.alloc();
    let words = words_of(alloc, texts)?;
    let finished = top(
        rt,
        alloc,
        words.as_slice(),
        deck,
        SureSource::new(Vec::new(alloc), 1),
        paper,
        MemSink::new(alloc, Vec::new(alloc)),
        files,
        input,
        output,
    );
    seen(alloc, finished)
}

/// What is seen of a command that has ended.
fn seen<
    S: Source + Counted + Drop,
    K: Counted + Printed + Drop,
    F: Counted + Drop,
    I: Counted + Drop,
    O: Counted + Drop,
>(alloc: Global, mut finished: Finished<S, SureSource, K, MemSink, F, I, O>) -> Result<Came, Fail> {
    let failures = Failures {
        deck: finished.deck.failures(),
        paper: finished.paper.failures(),
        files: finished.files.failures(),
        input: finished.input.failures(),
        output: finished.output.failures(),
    };
    let mut piece = [0; 512];
    let next = finished.deck.take(piece.as_mut_slice());
    let paper = finished.paper.printed().to_vec(alloc)?;
    Ok(Came {
        status: finished.status,
        cause: finished.cause,
        paper,
        failures,
        next,
    })
}
