// Whole runs of the network by a rule, and what they came to.
ghost use Rattle.std.specs.Prelude.{◌≡◌, true, IfSome, IsTrue};
ghost use Rattle.network_run.specs.Law.{Placed, MayStep, AllEnded};

use disk_files::FileArea;
use disk_pages::AREA_PAGES;
use disk_system::format;
use network_run::{Network, Rule, next_by};
use session_work::SessionCommands;
use solo_base::{Cause, Outcome, ProcNo};
use solo_devices::{Area, CardUnit, MemArea, MemSink, MemSource, PrinterUnit, Source, Typewriter};
use solo_ends::{SoloRan, SoloUnits};
use solo_net::SoloNet;
use std::alloc::Global;
use std::process::Abort;

/// Which call of each device fails, from 1 on; none where it is 0.
#[derive(Clone, Copy)]
pub struct Failing {
    pub cards: u64,
    pub keys: u64,
    pub console: u64,
    pub paper: u64,
    pub reads: u64,
    pub writes: u64,
}

pub const NONE_FAILS: Failing = Failing {
    cards: 0,
    keys: 0,
    console: 0,
    paper: 0,
    reads: 0,
    writes: 0,
};

/// What is typed, and the cards. The sources give so many characters in each piece.
#[derive(Clone, Copy)]
pub struct Session {
    pub keys: &'static str,
    pub cards: &'static str,
    pub piece: usize,
}

/// What a run came to: how the three ended, and what was displayed and printed.
#[derive(Drop)]
pub struct Came {
    pub ended: String,
    pub console: Vec<u8>,
    pub paper: Vec<u8>,
}

type Files = FileArea<MemArea>;

type Devices = SoloUnits<MemSource, MemSource, MemSink, MemSink, Files>;

type Ran = SoloRan<MemSource, MemSource, MemSink, MemSink, Files>;

type Net = SoloNet<SessionCommands<MemArea>, MemSource, MemSource, MemSink, MemSink>;

// The bytes of a text in pieces, of which one call fails.
fn source(rt: &impl Abort, alloc: Global, text: &str, piece: usize, failing: u64) -> MemSource
    ensures { ⟦<MemSource as Source>⟧.taken result ≡ 0 }
{
    assert!(rt; piece > 0);
    let bytes = text.as_bytes().to_vec(alloc).ok().expect(rt, "memory");
    MemSource::new(bytes, piece, calls(rt, alloc, failing))
}

fn sink(rt: &impl Abort, alloc: Global, failing: u64) -> MemSink {
    MemSink::new(alloc, calls(rt, alloc, failing))
}

fn calls(rt: &impl Abort, alloc: Global, failing: u64) -> Vec<u64> {
    [failing].to_vec(alloc).ok().expect(rt, "memory")
}

// Makes an area one without a file. `None` where one of its writes failed.
fn formatted<A: Area>(area: &mut A) -> Option<()> {
    if area.size() != AREA_PAGES {
        return None;
    }
    format(area).ok()
}

// The files of an area. `None` where one of its reads failed.
fn mounted<A: Area + Drop>(alloc: Global, area: A) -> Option<FileArea<A>> {
    if area.size() != AREA_PAGES {
        return None;
    }
    FileArea::mount(alloc, area).ok()
}

// No files, over an area whose reads and writes with these numbers fail. `None` where one of them was met.
fn no_files(rt: &impl Abort, alloc: Global, reads: u64, writes: u64) -> Option<Files> {
    let reads = calls(rt, alloc, reads);
    let writes = calls(rt, alloc, writes);
    let area = MemArea::new(alloc, AREA_PAGES, reads, writes);
    let mut area = area.ok().expect(rt, "memory");
    formatted(&mut area)?;
    mounted(alloc, area)
}

// Lets a process take its turn.
fn turn<N: Network>(net: &mut N, p: ProcNo)
    requires { MayStep N.law (N.Stands net.old) p }
    ensures { Placed N.law (N.Stands net.new) }
{
    let _ = net.step(p);
}

// Runs to the end by a rule, within 10,000 events.
fn run_on<N: Network>(net: &mut N, rule: Rule) -> Option<()>
    requires before { Placed N.law (N.Stands net.old) }
    ensures after { IfSome result (λ _. Placed N.law (N.Stands net.new)) }
    ensures ended { IfSome result (λ _. (at : Placed N.law (N.Stands net.new)) → AllEnded N.law at.state) }
{
    let mut now = rule;
    for _ in 0..10000 {
        match next_by(net, &mut now) {
            Some(p) => turn(net, p),
            None => return Some(()),
        }
    }
    None
}

// Runs over these devices to the end.
fn run_over(rt: &impl Abort, alloc: Global, units: Devices, rule: Rule) -> Ran
    requires cards { units.cards.live ≡ true }
    requires keys { units.typewriter.keys.live ≡ true }
    requires console { units.typewriter.console.live ≡ true }
    requires paper { units.paper.live ≡ true }
    requires files { IsTrue units.files.sound }
{
    let mut net = Net::make(alloc, units);
    match run_on(&mut net, rule) {
        Some(()) => net.finish(),
        None => panic!(rt; "no end within 10,000 events"),
    }
}

/// Runs a session by a rule, where these calls fail. `None` where the area failed before it began.
pub fn run(
    rt: &impl Abort,
    alloc: Global,
    session: Session,
    rule: Rule,
    failing: Failing,
) -> Option<Came> {
    let files = no_files(rt, alloc, failing.reads, failing.writes)?;
    assert!(rt; files.sound());
    let units = SoloUnits {
        cards: CardUnit::new(source(rt, alloc, session.cards, session.piece, failing.cards)),
        typewriter: Typewriter::new(
            source(rt, alloc, session.keys, session.piece, failing.keys),
            sink(rt, alloc, failing.console),
        ),
        paper: PrinterUnit::new(sink(rt, alloc, failing.paper)),
        files,
    };
    Some(seen(rt, alloc, run_over(rt, alloc, units, rule)))
}

// What is seen of a run.
fn seen(rt: &impl Abort, alloc: Global, ran: Ran) -> Came {
    let mut ended = String::new(alloc);
    tell_end(&mut ended, &ran).expect(rt, "memory");
    let SoloRan {
        outcomes: _,
        stopped_by: _,
        units,
    } = ran;
    let SoloUnits {
        cards: _,
        typewriter,
        paper,
        files: _,
    } = units;
    let (_, console) = typewriter.into_inner();
    let paper = paper.into_inner();
    Came {
        ended,
        console: console.bytes().to_vec(alloc).ok().expect(rt, "memory"),
        paper: paper.bytes().to_vec(alloc).ok().expect(rt, "memory"),
    }
}

fn tell_end(text: &mut String, ran: &Ran) -> Option<()> {
    for outcome in &ran.outcomes {
        text.push_str(outcome_text(*outcome)).ok()?;
        text.push(' ').ok()?;
    }
    Some(())
}

fn outcome_text(outcome: Outcome) -> &'static str {
    match outcome {
        Outcome::Done => "Done",
        Outcome::Stopped => "Stopped",
        Outcome::Fault(Cause::ReadFault) => "ReadFault",
        Outcome::Fault(Cause::DiskFault) => "DiskFault",
        Outcome::Fault(Cause::PrintFault) => "PrintFault",
        Outcome::Fault(Cause::ConsoleFault) => "ConsoleFault",
        Outcome::Fault(_) => "another fault",
    }
}
