// Whole runs of the network by a rule, and what they came to.
ghost use Rattle.std.specs.Prelude.{◌≡◌, ◌<◌, true, IfSome};
ghost use Rattle.network_run.specs.Law.{Placed, MayStep, AllEnded};

use crate::deeds::Deeds;
use crate::telling::{Shown, outcome_text, side_text};
use network_run::{Network, Rule, Stepped, next_by};
use solo_base::ProcNo;
use solo_devices::{Area, CardUnit, MemArea, MemSink, MemSource, PrinterUnit, Source, Typewriter};
use solo_ends::{SoloRan, SoloUnits};
use solo_net::SoloNet;
use std::alloc::Global;
use std::process::Abort;

/// Which call of each device fails, from 1 on; none where it is 0.
#[derive(Clone, Copy)]
pub struct Failing {
    pub cards: u64,
    pub keys: u64,
    pub console: u64,
    pub paper: u64,
    pub files: u64,
}

pub const NONE_FAILS: Failing = Failing {
    cards: 0,
    keys: 0,
    console: 0,
    paper: 0,
    files: 0,
};

/// What is typed, and the cards. Each source gives a line in each piece.
#[derive(Clone, Copy)]
pub struct Session {
    pub keys: &'static str,
    pub key_piece: usize,
    pub cards: &'static str,
    pub card_piece: usize,
}

/// What a run came to: its events, each as three characters, how many of them were delays, how it ended, and
/// what was displayed and printed.
#[derive(Drop)]
pub struct Came {
    pub story: Story,
    pub ended: String,
    pub console: Vec<u8>,
    pub paper: Vec<u8>,
}

/// The events so far.
#[derive(Drop)]
pub struct Story {
    pub text: Vec<u8>,
    pub delays: u32,
}

pub type Devices = SoloUnits<MemSource, MemSource, MemSink, MemSink, MemArea>;

pub type Ran = SoloRan<MemSource, MemSource, MemSink, MemSink, MemArea>;

// The bytes of a text in pieces, of which one call fails.
fn source(rt: &impl Abort, alloc: Global, text: &str, piece: usize, failing: u64) -> MemSource
    ensures { ⟦<MemSource as Source>⟧.taken result ≡ 0 }
{
    assert!(rt; piece > 0);
    let bytes = text.as_bytes().to_vec(alloc).ok().expect(rt, "memory");
    MemSource::new(bytes, piece, calls(rt, alloc, failing))
}

fn sink(rt: &impl Abort, alloc: Global, failing: u64) -> MemSink {
    MemSink::new(alloc, calls(rt, alloc, failing))
}

fn calls(rt: &impl Abort, alloc: Global, failing: u64) -> Vec<u64> {
    [failing].to_vec(alloc).ok().expect(rt, "memory")
}

fn area(rt: &impl Abort, alloc: Global, failing: u64) -> MemArea
    ensures { 0 < ⟦<MemArea as Area>⟧.size result }
{
    let reads = calls(rt, alloc, failing);
    MemArea::new(alloc, 1, reads, Vec::new(alloc))
        .ok()
        .expect(rt, "memory")
}

// Lets a process take its turn.
fn turn<N: Network + Shown>(rt: &impl Abort, net: &mut N, p: ProcNo, story: &mut Story)
    requires { MayStep N.law (N.Stands net.old) p }
    ensures { Placed N.law (N.Stands net.new) }
{
    let event = net.event(p);
    story
        .text
        .extend_from_slice(&event)
        .ok()
        .expect(rt, "memory");
    let stepped = net.step(p);
    story.delays = story
        .delays
        .saturating_add(u32::from(stepped == Stepped::Delayed));
}

// Runs to the end by a rule, within 1,000 events.
fn run_on<N: Network + Shown>(
    rt: &impl Abort,
    net: &mut N,
    rule: Rule,
    story: &mut Story,
) -> Option<()>
    requires before { Placed N.law (N.Stands net.old) }
    ensures after { IfSome result (λ _. Placed N.law (N.Stands net.new)) }
    ensures ended { IfSome result (λ _. (at : Placed N.law (N.Stands net.new)) → AllEnded N.law at.state) }
{
    let mut now = rule;
    for _ in 0..1000 {
        match next_by(net, &mut now) {
            Some(p) => turn(rt, net, p, story),
            None => return Some(()),
        }
    }
    None
}

// Runs over these devices to the end.
fn run_over(rt: &impl Abort, alloc: Global, units: Devices, rule: Rule, story: &mut Story) -> Ran
    requires cards { units.cards.live ≡ true }
    requires keys { units.typewriter.keys.live ≡ true }
    requires console { units.typewriter.console.live ≡ true }
    requires paper { units.paper.live ≡ true }
    requires files { 0 < ⟦<MemArea as Area>⟧.size units.files }
{
    let mut net = SoloNet::<Deeds, MemSource, MemSource, MemSink, MemSink>::make(alloc, units);
    match run_on(rt, &mut net, rule, story) {
        Some(()) => net.finish(),
        None => panic!(rt; "no end within 1,000 events"),
    }
}

/// The devices of a session, of which these calls fail.
pub fn devices(rt: &impl Abort, alloc: Global, session: Session, failing: Failing) -> Devices
    ensures cards { result.cards.live ≡ true }
    ensures keys { result.typewriter.keys.live ≡ true }
    ensures console { result.typewriter.console.live ≡ true }
    ensures paper { result.paper.live ≡ true }
    ensures files { 0 < ⟦<MemArea as Area>⟧.size result.files }
{
    SoloUnits {
        cards: CardUnit::new(source(rt, alloc, session.cards, session.card_piece, failing.cards)),
        typewriter: Typewriter::new(
            source(rt, alloc, session.keys, session.key_piece, failing.keys),
            sink(rt, alloc, failing.console),
        ),
        paper: PrinterUnit::new(sink(rt, alloc, failing.paper)),
        files: area(rt, alloc, failing.files),
    }
}

/// Runs a session by a rule, where these calls fail.
pub fn run(rt: &impl Abort, alloc: Global, session: Session, rule: Rule, failing: Failing) -> Came {
    let units = devices(rt, alloc, session, failing);
    let mut story = Story {
        text: Vec::new(alloc),
        delays: 0,
    };
    let ran = run_over(rt, alloc, units, rule, &mut story);
    seen(rt, alloc, ran, story)
}

/// What is seen of a run.
pub fn seen(rt: &impl Abort, alloc: Global, ran: Ran, story: Story) -> Came {
    let mut ended = String::new(alloc);
    tell_end(&mut ended, &ran).expect(rt, "memory");
    let SoloRan {
        outcomes: _,
        stopped_by: _,
        units,
    } = ran;
    let SoloUnits {
        cards: _,
        typewriter,
        paper,
        files: _,
    } = units;
    let (_, console) = typewriter.into_inner();
    let paper = paper.into_inner();
    Came {
        story,
        ended,
        console: console.bytes().to_vec(alloc).ok().expect(rt, "memory"),
        paper: paper.bytes().to_vec(alloc).ok().expect(rt, "memory"),
    }
}

fn tell_end(text: &mut String, ran: &Ran) -> Option<()> {
    for outcome in &ran.outcomes {
        text.push_str(outcome_text(*outcome)).ok()?;
        text.push(' ').ok()?;
    }
    for side in &ran.stopped_by {
        text.push(side_text(*side)).ok()?;
    }
    Some(())
}
