//! Sessions over devices, and what they came to.
ghost use Rattle.std.specs.Prelude.{◌≡◌, IfOk};

use disk_pages::AREA_PAGES;
use disk_system::format;
use held_devices::{HeldSink, HeldSource};
use solo_base::{Cause, Page};
use solo_cli::{Finished, Refusal, top};
use solo_devices::{Area, BlankArea, MemArea, MemSink, MemSource, Sink, Source, SureArea, Took};
use std::alloc::Global;
use std::process::Abort;
use std::sync::Wait;
use std::test::Fail;
use std::thread::Threads;

/// The calls of the devices that fail, by number from 1 on; no call has the number 0.
#[derive(Clone, Copy)]
pub struct Failing {
    pub cards: u64,
    pub keys: u64,
    pub paper: u64,
    pub console: u64,
    pub files_read: u64,
    pub files_write: u64,
}

pub const NONE_FAILS: Failing = Failing {
    cards: 0,
    keys: 0,
    paper: 0,
    console: 0,
    files_read: 0,
    files_write: 0,
};

/// What is typed, the cards, and what console and paper have to gain of them.
#[derive(Clone, Copy)]
pub struct Session<'a> {
    pub keys: &'a [u8],
    pub cards: &'a [u8],
    pub console: &'a [u8],
    pub paper: &'a [u8],
}

/// How often each device failed.
#[derive(Clone, Copy)]
pub struct Failures {
    pub cards: u64,
    pub keys: u64,
    pub paper: u64,
    pub console: u64,
    pub files: u64,
}

impl Failures {
    /// How many failures there were in all.
    pub fn count(self) -> u64 {
        self.cards
            .saturating_add(self.keys)
            .saturating_add(self.paper)
            .saturating_add(self.console)
            .saturating_add(self.files)
    }
}

/// What a session came to.
#[derive(Drop)]
pub struct Came {
    pub status: u8,
    pub cause: Option<Refusal>,
    pub console: Vec<u8>,
    pub paper: Vec<u8>,
    pub failures: Failures,
    /// What the keys give next.
    pub next: Took,
}

impl Came {
    /// Whether the whole session was told.
    pub fn is_told(&self, session: Session) -> bool {
        self.status == 0
            && self.console.as_slice() == session.console
            && self.paper.as_slice() == session.paper
    }

    /// Whether it was told, and no typed line is left.
    pub fn is_whole(&self, session: Session) -> bool {
        self.is_told(session) && self.next == Took::Bytes(0)
    }

    /// Whether console and paper gained a part of those of the session.
    pub fn is_part(&self, session: Session) -> bool {
        session.console.starts_with(self.console.as_slice())
            && session.paper.starts_with(self.paper.as_slice())
    }

    /// Whether it ended with this status and cause, before anything was displayed or printed.
    pub fn is_refused(&self, status: u8, cause: Cause) -> bool {
        self.status == status
            && self.cause == Some(Refusal::Fault(cause))
            && self.console.is_empty()
            && self.paper.is_empty()
    }
}

/// A device that counts its failures.
pub trait Counted {
    fn failures(&self) -> u64;
}

impl Counted for MemSource {
    fn failures(&self) -> u64 {
        self.faults()
    }
}

impl Counted for HeldSource {
    fn failures(&self) -> u64 {
        self.faults()
    }
}

/// A sink that tells what it was given, and counts its failures.
pub trait Printed {
    fn printed(&self) -> &[u8];

    fn failures(&self) -> u64;
}

impl Printed for MemSink {
    fn printed(&self) -> &[u8] {
        self.bytes()
    }

    fn failures(&self) -> u64 {
        self.faults()
    }
}

impl Printed for HeldSink {
    fn printed(&self) -> &[u8] {
        self.bytes()
    }

    fn failures(&self) -> u64 {
        self.faults()
    }
}

/// Cards or keys in memory, which come in pieces of so many bytes, and whose read of this number fails.
pub fn source(
    rt: &impl Abort,
    alloc: Global,
    bytes: &[u8],
    piece: usize,
    read: u64,
) -> Result<MemSource, Fail>
    ensures { IfOk result (λ source. ⟦<MemSource as Source>⟧.taken source ≡ 0) }
{
    assert!(rt; piece > 0);
    let reads = [read].to_vec(alloc)?;
    Ok(MemSource::new(bytes.to_vec(alloc)?, piece, reads))
}

/// A paper or a console in memory, whose write of this number fails.
pub fn sink(alloc: Global, write: u64) -> Result<MemSink, Fail> {
    Ok(MemSink::new(alloc, [write].to_vec(alloc)?))
}

/// How many pages the files are copied by, which a formatted area has behind its label.
const COPIED: u64 = 18;

/// An area of files of which there are none. Behind those by which it is made, the read and the write of
/// these numbers fail.
pub fn formatted(alloc: Global, read: u64, write: u64) -> Result<MemArea, Fail>
    ensures { IfOk result (λ area. ⟦<MemArea as Area>⟧.size area ≡ AREA_PAGES) }
{
    let reads = [read].to_vec(alloc)?;
    let behind = if write == 0 {
        0
    } else {
        write.saturating_add(COPIED)
    };
    let writes = [behind].to_vec(alloc)?;
    let Ok(mut whole) = SureArea::new(alloc, AREA_PAGES) else {
        return Err("no memory".into());
    };
    let Ok(area) = MemArea::new(alloc, AREA_PAGES, reads, writes) else {
        return Err("no memory".into());
    };
    if format(&mut whole).is_err() {
        return Err("a fault".into());
    }
    copied(whole, area)
}

/// The second area with the first pages of the first one.
fn copied(from: SureArea, to: MemArea) -> Result<MemArea, Fail>
    requires from { ⟦<SureArea as Area>⟧.size from ≡ AREA_PAGES }
    requires to { ⟦<MemArea as Area>⟧.size to ≡ AREA_PAGES }
    ensures { IfOk result (λ area. ⟦<MemArea as Area>⟧.size area ≡ AREA_PAGES) }
{
    let (mut from, mut to) = (from, to);
    for n in 0..COPIED as u16 {
        copy_page(&mut from, &mut to, n);
    }
    if to.size() == AREA_PAGES {
        return Ok(to);
    }
    Err("not of that size".into())
}

/// Makes page n of one area that of another.
fn copy_page(from: &mut SureArea, to: &mut MemArea, n: u16)
    ensures { ⟦<MemArea as Area>⟧.size to.new ≡ ⟦<MemArea as Area>⟧.size to.old }
{
    let mut page = Page::zeros();
    if n < from.size() && n < to.size() {
        from.read(n, &mut page);
        to.write(n, &page);
    }
}

/// Runs a session in pieces of so many bytes, where these calls fail.
pub fn run(
    rt: &(impl Threads + Wait + Sync + AllocGlobal + Abort),
    session: Session,
    piece: usize,
    failing: Failing,
) -> Result<Came, Fail> {
    let alloc = rt.alloc();
    run_over(
        rt,
        source(rt, alloc, session.cards, piece, failing.cards)?,
        source(rt, alloc, session.keys, piece, failing.keys)?,
        sink(alloc, failing.paper)?,
        sink(alloc, failing.console)?,
        formatted(alloc, failing.files_read, failing.files_write)?,
    )
}

/// Runs a session over these devices. The areas of the spools read zeros.
pub fn run_over<Y: Source + Counted + Drop + Send, K: Sink + Printed + Drop + Send>(
    rt: &(impl Threads + Wait + Sync + AllocGlobal),
    cards: MemSource,
    keys: Y,
    paper: K,
    console: MemSink,
    files: MemArea,
) -> Result<Came, Fail>
    requires cards { ⟦<MemSource as Source>⟧.taken cards ≡ 0 }
    requires keys { Y.taken keys ≡ 0 }
    requires files { ⟦<MemArea as Area>⟧.size files ≡ AREA_PAGES }
{
    let alloc = rt.alloc();
    let mut words = Vec::new(alloc);
    words.push(String::from_str(alloc, "solo")?)?;
    let finished = top(
        rt,
        alloc,
        words.as_slice(),
        cards,
        keys,
        paper,
        console,
        files,
        BlankArea::new(1),
        BlankArea::new(1),
    );
    seen(alloc, finished)
}

/// What is seen of a session that has ended.
fn seen<Y: Source + Counted + Drop, K: Printed + Drop>(
    alloc: Global,
    mut finished: Finished<MemSource, Y, K, MemSink, MemArea, BlankArea, BlankArea>,
) -> Result<Came, Fail> {
    let failures = Failures {
        cards: finished.deck.failures(),
        keys: finished.keys.failures(),
        paper: finished.paper.failures(),
        console: finished.console.failures(),
        files: finished.files.faults(),
    };
    let mut piece = [0; 512];
    let next = finished.keys.take(piece.as_mut_slice());
    let console = finished.console.printed().to_vec(alloc)?;
    let paper = finished.paper.printed().to_vec(alloc)?;
    Ok(Came {
        status: finished.status,
        cause: finished.cause,
        console,
        paper,
        failures,
        next,
    })
}
