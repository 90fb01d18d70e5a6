// A running spool.
ghost use Rattle.std.specs.Prelude.{◌≡◌, ◌<◌, ◌≤◌, [], IfOk, IfErr};
ghost use Rattle.queue_var.specs.BetweenTwo.{by_side};
ghost use Rattle.disk_spool.specs.Ends.{Meets, MeetsRoom, known};

use crate::receive_end::SpoolRecv;
use crate::ring::MOST_PAGES;
use crate::send_end::SpoolSend;
use crate::{Spool, SpoolCall, SpoolKind};
use monitor_gate::{Gate, GatePass};
use solo_base::{NoMemory, Page, Side};
use solo_devices::Area;
use std::alloc::Global;
use std::marker::Model;
use std::snapshot::Snapshot;

pub(crate) type SpoolPass<A> = GatePass<Spool<A>, SpoolCall<Snapshot<Page>>>;

/// A spool between two processes that run side by side. Contracts see which it is, and the area that it was made with.
pub struct SpoolGate<A: Area + Send> {
    pub(crate) gate: Gate<SpoolKind<A>>,
}

impl<A: Area + Send> Model for SpoolGate<A> {
    ghost use Rattle.std.specs.Prelude.{◌≡◌};
    ghost use Rattle.disk_spool.specs.Spool.{empty_spool};
    ghost use Rattle.disk_spool.specs.Ends.{Opened};

    ghost Value = { Opened A };

    ghost view = { λ g. record { name = g.gate.name; area = g.gate.opening.area } };

    ghost invariant = { λ g. (g.gate.opening ≡ empty_spool g.gate.opening.area (A.size g.gate.opening.area)) × (g.gate.passes ≡ 2) };
}

/// What is left when both ends of a spool have met.
#[derive(Drop)]
pub struct SpoolMet<A> {
    pub area: A,
    /// How many pages were put and not taken.
    pub left: u16,
    /// The side that stopped first.
    pub stopped_by: Option<Side>,
}

impl<A: Area + Send> SpoolGate<A> {
    /// An empty spool on an area of 1 to 256 pages, and its two ends. Where memory is refused the area comes back.
    pub fn make(
        alloc: Global,
        area: A,
    ) -> Result<(SpoolGate<A>, SpoolSend<A>, SpoolRecv<A>), (A, NoMemory)>
        requires some { 0 < A.size area }
        requires few { A.size area ≤ MOST_PAGES }
        ensures area { IfOk result (λ r. r.0.area ≡ area) }
        ensures sender { IfOk result (λ r. r.1 ≡ record { gate = known (A.size area) r.0; calls = [] }) }
        ensures receiver { IfOk result (λ r. r.2 ≡ record { gate = known (A.size area) r.0; calls = [] }) }
        ensures refused { IfErr result (λ e. e.0 ≡ area) }
    {
        let (gate, mut passes) = match monitor_gate::make::<SpoolKind<A>>(
            alloc,
            Spool::make(area),
            2,
        ) {
            Ok(made) => made,
            Err((spool, refused)) => return Err((spool.into_inner(), refused)),
        };
        let receiver = passes.pop().unwrap();
        let sender = passes.pop().unwrap();
        Ok((
            SpoolGate { gate },
            SpoolSend::of(sender),
            SpoolRecv::of(receiver),
        ))
    }
}

/// Both ends meet, and the spool is at its end: the area comes back. It never waits.
pub fn meet<A: Area + Send>(
    gate: SpoolGate<A>,
    sender: SpoolSend<A>,
    receiver: SpoolRecv<A>,
) -> SpoolMet<A>
    requires sender { sender.gate ≡ known (A.size gate.area) gate }
    requires receiver { receiver.gate ≡ known (A.size gate.area) gate }
    ensures rooms { MeetsRoom (A.size gate.area) (by_side sender.calls receiver.calls) result.left }
    ensures meets { Meets A.pages A.faults gate.area result.area (by_side sender.calls receiver.calls) result.left result.stopped_by }
{
    let SpoolGate { gate } = gate;
    let mut into = sender.into_pass();
    gate.join(&mut into, receiver.into_pass());
    let spool = gate.close(into);
    let left = spool.left();
    let stopped_by = spool.stopped_by();
    SpoolMet {
        area: spool.into_inner(),
        left,
        stopped_by,
    }
}
