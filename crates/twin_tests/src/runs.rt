// Whole runs of the six over devices in memory, and what they came to.
ghost use Rattle.std.specs.Prelude.{◌≡◌, ◌<◌, ◌≤◌, true};

use crate::failing::Failing;
use deck_work::{DeckFiles, DeckWork};
use disk_files::FileArea;
use network_run::{Counts, Rule};
use solo_base::{Outcome, Side};
use solo_devices::{
    Area, CardUnit, HurtArea, MemArea, MemSink, MemSource, PrinterUnit, Source, SureArea,
};
use std::alloc::Global;
use std::process::Abort;
use twin_ends::{TwinOutcomes, TwinRan, TwinUnits};
use twin_net::run_twin;

/// All six processes with their work done.
pub const DONE: TwinOutcomes = TwinOutcomes {
    card: Outcome::Done,
    input: Outcome::Done,
    job_a: Outcome::Done,
    job_b: Outcome::Done,
    output: Outcome::Done,
    printer: Outcome::Done,
};

/// What is run: a deck over areas of so many pages for the four spools.
#[derive(Clone, Copy)]
pub struct Setting<'a> {
    pub deck: &'a [u8],
    pub pages: [u16; 4],
}

/// What a run came to.
#[derive(Drop)]
pub struct Came {
    pub outcomes: TwinOutcomes,
    pub stopped_by: [Option<Side>; 6],
    pub paper: Vec<u8>,
    /// Whether a call of the deck, of a spool or of the paper failed.
    pub unit_failed: bool,
    /// Whether a call of the area of the files failed.
    pub files_failed: bool,
    pub counts: Counts,
}

/// An area that counts its failures.
pub trait Counted {
    fn failures(&self) -> u64;
}

impl Counted for MemArea {
    fn failures(&self) -> u64 {
        self.faults()
    }
}

/// It never fails.
impl Counted for HurtArea {
    fn failures(&self) -> u64 {
        0
    }
}

/// The files, whose calls may fail.
pub type Files = FileArea<MemArea>;

/// The spools' areas: to the two job processes, and from them.
#[derive(Drop)]
pub struct Spools<A: Area> {
    pub to_a: A,
    pub to_b: A,
    pub from_a: A,
    pub from_b: A,
}

fn calls(rt: &impl Abort, alloc: Global, failing: u64) -> Vec<u64> {
    [failing].to_vec(alloc).ok().expect(rt, "ample memory")
}

// The deck in pieces of seven bytes, of which one call fails.
fn source(rt: &impl Abort, alloc: Global, deck: &[u8], failing: u64) -> MemSource
    ensures { ⟦<MemSource as Source>⟧.taken result ≡ 0 }
{
    let bytes = deck.to_vec(alloc).ok().expect(rt, "ample memory");
    MemSource::new(bytes, 7, calls(rt, alloc, failing))
}

// An area for a spool.
fn area(rt: &impl Abort, alloc: Global, pages: u16, read: u64, write: u64) -> MemArea
    ensures some { 0 < ⟦<MemArea as Area>⟧.size result }
    ensures few { ⟦<MemArea as Area>⟧.size result ≤ 256 }
{
    assert!(rt; pages > 0);
    assert!(rt; pages <= 256);
    let (reads, writes) = (calls(rt, alloc, read), calls(rt, alloc, write));
    MemArea::new(alloc, pages, reads, writes)
        .ok()
        .expect(rt, "ample memory")
}

// An area of two pages for a spool, of which the read of this number gives a wrong byte behind the mark.
fn hurt(rt: &impl Abort, alloc: Global, read: u64) -> HurtArea
    ensures some { 0 < ⟦<HurtArea as Area>⟧.size result }
    ensures few { ⟦<HurtArea as Area>⟧.size result ≤ 256 }
{
    let area = SureArea::new(alloc, 2).ok().expect(rt, "ample memory");
    HurtArea::new(area, read, 3, 7)
}

/// Runs a setting by a rule with these files, where these calls fail.
pub fn run(
    rt: &impl Abort,
    alloc: Global,
    setting: Setting,
    files: Files,
    failing: Failing,
    rule: Rule,
) -> Came
    requires { files.sound ≡ true }
{
    let [to_a, to_b, from_a, from_b] = setting.pages;
    let [read_1, read_2, read_3, read_4] = failing.reads;
    let [write_1, write_2, write_3, write_4] = failing.writes;
    let spools = Spools {
        to_a: area(rt, alloc, to_a, read_1, write_1),
        to_b: area(rt, alloc, to_b, read_2, write_2),
        from_a: area(rt, alloc, from_a, read_3, write_3),
        from_b: area(rt, alloc, from_b, read_4, write_4),
    };
    let deck = source(rt, alloc, setting.deck, failing.take);
    let paper = MemSink::new(alloc, calls(rt, alloc, failing.give));
    run_over(rt, alloc, deck, paper, files, spools, rule)
}

/// Runs a deck over spools of two pages, of which the reads of these numbers give a wrong byte.
pub fn run_hurt(
    rt: &impl Abort,
    alloc: Global,
    deck: &[u8],
    files: Files,
    reads: [u64; 4],
    rule: Rule,
) -> Came
    requires { files.sound ≡ true }
{
    let [read_1, read_2, read_3, read_4] = reads;
    let spools = Spools {
        to_a: hurt(rt, alloc, read_1),
        to_b: hurt(rt, alloc, read_2),
        from_a: hurt(rt, alloc, read_3),
        from_b: hurt(rt, alloc, read_4),
    };
    let deck = source(rt, alloc, deck, 0);
    let paper = MemSink::new(alloc, calls(rt, alloc, 0));
    run_over(rt, alloc, deck, paper, files, spools, rule)
}

// Runs over these devices.
fn run_over<A: Area + Counted + Drop>(
    rt: &impl Abort,
    alloc: Global,
    deck: MemSource,
    paper: MemSink,
    files: Files,
    spools: Spools<A>,
    rule: Rule,
) -> Came
    requires unread { ⟦<MemSource as Source>⟧.taken deck ≡ 0 }
    requires files { files.sound ≡ true }
    requires to_a { (0 < A.size spools.to_a) × (A.size spools.to_a ≤ 256) }
    requires to_b { (0 < A.size spools.to_b) × (A.size spools.to_b ≤ 256) }
    requires from_a { (0 < A.size spools.from_a) × (A.size spools.from_a ≤ 256) }
    requires from_b { (0 < A.size spools.from_b) × (A.size spools.from_b ≤ 256) }
{
    let Spools {
        to_a,
        to_b,
        from_a,
        from_b,
    } = spools;
    let units = TwinUnits {
        deck: CardUnit::new(deck),
        paper: PrinterUnit::new(paper),
        files: DeckFiles { files },
        to_a,
        to_b,
        from_a,
        from_b,
    };
    let (ran, counts) = run_twin::<DeckWork, MemSource, MemSink, DeckFiles<MemArea>, A>(
        alloc, units, rule,
    );
    seen(rt, alloc, ran, counts)
}

// What is seen of a run that has ended.
fn seen<A: Area + Counted + Drop>(
    rt: &impl Abort,
    alloc: Global,
    ran: TwinRan<MemSource, MemSink, DeckFiles<MemArea>, A>,
    counts: Counts,
) -> Came {
    let TwinRan {
        outcomes,
        stopped_by,
        units,
    } = ran;
    let TwinUnits {
        deck,
        paper,
        files: DeckFiles { files },
        to_a,
        to_b,
        from_a,
        from_b,
    } = units;
    let (source, sink) = (deck.into_inner(), paper.into_inner());
    let paper = sink.bytes().to_vec(alloc).ok().expect(rt, "ample memory");
    Came {
        outcomes,
        stopped_by,
        unit_failed: source.faults() > 0
            || sink.faults() > 0
            || to_a.failures() > 0
            || to_b.failures() > 0
            || from_a.failures() > 0
            || from_b.failures() > 0,
        files_failed: files.into_inner().failures() > 0,
        counts,
        paper,
    }
}
