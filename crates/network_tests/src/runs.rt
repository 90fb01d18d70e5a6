// Whole runs over devices in memory, by the core or on threads, and what they came to.
ghost use Rattle.std.specs.Prelude.{◌≡◌, ◌<◌, ◌≤◌, true, [], IfOk};
ghost use Rattle.solo_devices.specs.CardUnit.{fresh_unit};

use crate::failing::Failing;
use batch_ends::{Outcomes, Ran, Units};
use batch_run::run_batch;
use deck_work::{DeckFiles, DeckWork};
use disk_files::FileArea;
use net_core::run_core;
use network_run::{Counts, Rule};
use schedule_law::run_schedule;
use solo_base::{Outcome, Side};
use solo_devices::{
    Area, BlankArea, CardUnit, HurtArea, MemArea, MemSink, MemSource, PrinterUnit, Source, SureArea,
};
use std::alloc::Global;
use std::process::Abort;
use std::sync::Wait;
use std::test::Fail;
use std::thread::Threads;

/// All five processes with their work done.
pub const DONE: Outcomes = Outcomes {
    card: Outcome::Done,
    input: Outcome::Done,
    job: Outcome::Done,
    output: Outcome::Done,
    printer: Outcome::Done,
};

/// Who runs the processes: the core by a rule, the same as the run of a schedule, or five threads.
#[derive(Clone, Copy)]
pub enum By {
    Core(Rule),
    Schedule(u32),
    Threads,
}

/// What is run: a deck that comes in pieces of so many bytes, over areas of so many pages for the two spools,
/// where these calls fail.
#[derive(Clone, Copy)]
pub struct Setting<'a> {
    pub deck: &'a [u8],
    pub piece: usize,
    pub pages: (u16, u16),
    pub failing: Failing,
}

/// What a run came to.
#[derive(Drop)]
pub struct Came {
    pub outcomes: Outcomes,
    pub stopped_by: [Option<Side>; 4],
    pub paper: Vec<u8>,
    /// Whether a call of the deck, of a spool or of the paper failed.
    pub unit_failed: bool,
    /// Whether a call of the area of the files failed, and whether the files are sound.
    pub files_failed: bool,
    pub files_sound: bool,
    /// What the core counted.
    pub counts: Option<Counts>,
}

/// An area that counts its failures.
pub trait Counted {
    fn failures(&self) -> u64;
}

impl Counted for MemArea {
    fn failures(&self) -> u64 {
        self.faults()
    }
}

impl Counted for SureArea {
    fn failures(&self) -> u64 {
        self.faults()
    }
}

/// It never fails.
impl Counted for HurtArea {
    fn failures(&self) -> u64 {
        0
    }
}

/// It never fails.
impl Counted for BlankArea {
    fn failures(&self) -> u64 {
        0
    }
}

/// The deck of this setting.
pub fn source(rt: &impl Abort, alloc: Global, setting: Setting) -> Result<MemSource, Fail>
    ensures { IfOk result (λ deck. ⟦<MemSource as Source>⟧.taken deck ≡ 0) }
{
    let piece = setting.piece;
    assert!(rt; piece > 0);
    let takes = [setting.failing.take].to_vec(alloc)?;
    Ok(MemSource::new(setting.deck.to_vec(alloc)?, piece, takes))
}

/// An area for a spool, of 1 to 256 pages.
pub fn area(
    rt: &impl Abort,
    alloc: Global,
    pages: u16,
    read: u64,
    write: u64,
) -> Result<MemArea, Fail>
    ensures some { IfOk result (λ area. 0 < ⟦<MemArea as Area>⟧.size area) }
    ensures few { IfOk result (λ area. ⟦<MemArea as Area>⟧.size area ≤ 256) }
{
    assert!(rt; pages > 0);
    assert!(rt; pages <= 256);
    let reads = [read].to_vec(alloc)?;
    let writes = [write].to_vec(alloc)?;
    Ok(
        MemArea::new(alloc, pages, reads, writes)
            .ok()
            .expect(rt, "ample memory"),
    )
}

/// Runs this setting with these files.
pub fn run<R: Threads + Wait + Sync + AllocGlobal + Abort, F: Area + Counted + Drop + Send>(
    rt: &R,
    by: By,
    setting: Setting,
    files: FileArea<F>,
) -> Result<Came, Fail>
    requires { files.sound ≡ true }
{
    let alloc = rt.alloc();
    let failing = setting.failing;
    let (input_pages, output_pages) = setting.pages;
    let deck = source(rt, alloc, setting)?;
    let input = area(
        rt,
        alloc,
        input_pages,
        failing.input_read,
        failing.input_write,
    )?;
    let output = area(
        rt,
        alloc,
        output_pages,
        failing.output_read,
        failing.output_write,
    )?;
    let paper = MemSink::new(alloc, [failing.give].to_vec(alloc)?);
    run_over(rt, by, units(deck, paper, files, input, output))
}

/// What the five run on.
pub type Devices<F, A, B> = Units<MemSource, MemSink, DeckFiles<F>, A, B>;

/// These devices, as the five run on them.
pub fn units<F: Area + Drop, A: Area, B: Area>(
    deck: MemSource,
    paper: MemSink,
    files: FileArea<F>,
    input: A,
    output: B,
) -> Devices<F, A, B>
    requires { ⟦<MemSource as Source>⟧.taken deck ≡ 0 }
    ensures deck { result.deck ≡ fresh_unit deck }
    ensures paper { (result.paper.live ≡ true) }
    ensures files { result.files.files ≡ files }
    ensures areas { (result.input ≡ input) × (result.output ≡ output) }
{
    Units {
        deck: CardUnit::new(deck),
        paper: PrinterUnit::new(paper),
        files: DeckFiles { files },
        input,
        output,
    }
}

/// Runs over these devices.
pub fn run_over<
    R: Threads + Wait + Sync + AllocGlobal + Abort,
    F: Area + Counted + Drop + Send,
    A: Area + Counted + Drop + Send,
    B: Area + Counted + Drop + Send,
>(rt: &R, by: By, units: Devices<F, A, B>) -> Result<Came, Fail>
    requires deck { (units.deck.live ≡ true) × (units.deck.pending ≡ []) }
    requires unread { ⟦<MemSource as Source>⟧.taken units.deck.source ≡ 0 }
    requires paper { units.paper.live ≡ true }
    requires input { (0 < A.size units.input) × (A.size units.input ≤ 256) }
    requires output { (0 < B.size units.output) × (B.size units.output ≤ 256) }
    requires files { units.files.files.sound ≡ true }
{
    let alloc = rt.alloc();
    match by {
        By::Core(rule) => {
            let (ran, counts) = run_core::<DeckWork, MemSource, MemSink, DeckFiles<F>, A, B>(
                alloc, units, rule,
            );
            seen(alloc, ran, Some(counts))
        }
        By::Schedule(number) => {
            let (ran, counts) = run_schedule::<DeckWork, MemSource, MemSink, DeckFiles<F>, A, B>(
                alloc, units, number,
            );
            seen(alloc, ran, Some(counts))
        }
        By::Threads => {
            let ran = run_batch::<DeckWork, MemSource, MemSink, DeckFiles<F>, A, B, R>(
                rt, alloc, units,
            ).ok()
                .expect(rt, "ample memory");
            seen(alloc, ran, None)
        }
    }
}

/// What is seen of a run that has ended.
fn seen<F: Area + Counted + Drop, A: Area + Counted + Drop, B: Area + Counted + Drop>(
    alloc: Global,
    ran: Ran<MemSource, MemSink, DeckFiles<F>, A, B>,
    counts: Option<Counts>,
) -> Result<Came, Fail> {
    let Ran {
        outcomes,
        stopped_by,
        units,
    } = ran;
    let Units {
        deck,
        paper,
        files: DeckFiles { files },
        input,
        output,
    } = units;
    let (source, sink) = (deck.into_inner(), paper.into_inner());
    let files_sound = files.sound();
    let paper = sink.bytes().to_vec(alloc)?;
    Ok(Came {
        outcomes,
        stopped_by,
        unit_failed: source.faults() > 0
            || sink.faults() > 0
            || input.failures() > 0
            || output.failures() > 0,
        files_failed: files.into_inner().failures() > 0,
        files_sound,
        counts,
        paper,
    })
}
