// A running disk resource.
ghost use Rattle.std.specs.Prelude.{◌≡◌, ◌<◌, ◌≤◌, [], false, true, IfOk};
ghost use Rattle.monitor_gate.specs.Ends.{left};
ghost use Rattle.resource_mon.specs.declared.call.DiskCall.TheVariants.{Request, Release};
ghost use Rattle.resource_mon.specs.DiskCalls.{has_grant};
ghost use Rattle.resource_mon.specs.Seats.{FindsNoGrant, HasJoinedAll, HasOneGrant, IsIdle, IsSeatOf, after_call, after_join, calls_of, new_seats};

use crate::seat::{DiskPass, DiskSeat, SeatPass};
use crate::{DiskCall, DiskKind, Grant, Resource};
use monitor_gate::Gate;
use solo_base::NoMemory;
use std::alloc::Global;
use std::marker::Model;
use std::snapshot::Snapshot;
use std::sync::Wait;
use std::thread::Threads;

/// A resource for at most eight processes that run side by side: at most one has it, and the others wait for it.
pub struct DiskResource {
    gate: Gate<DiskKind>,
}

impl Model for DiskResource {
    ghost use Rattle.std.specs.Prelude.{◌≡◌};
    ghost use Rattle.resource_mon.specs.Claims.{unclaimed};
    ghost use Rattle.resource_mon.specs.Seats.{Desk};

    ghost Value = { Desk };

    ghost view = { λ d. record { gate = d.gate.name; seats = d.gate.passes } };

    ghost invariant = { λ d. d.gate.opening ≡ unclaimed };
}

impl DiskResource {
    /// A resource that nobody has, and its seats, in order of the numbers of their processes.
    pub fn make(alloc: Global, seats: u8) -> Result<(DiskResource, Vec<DiskSeat>), NoMemory>
        requires some { 0 < seats }
        requires few { seats ≤ 8 }
        ensures desk { IfOk result (λ r. r.0.seats ≡ seats) }
        ensures seats { IfOk result (λ r. r.1.items ≡ new_seats r.0.gate seats) }
    {
        let mut dealt = Vec::with_capacity(alloc, usize::from(seats))?;
        let (gate, passes) = match monitor_gate::make::<DiskKind>(alloc, Resource::new(), seats) {
            Ok(made) => made,
            Err((_, refused)) => return Err(refused),
        };
        for pass in passes {
            dealt.push_reserved(DiskSeat::of(pass));
        }
        Ok((DiskResource { gate }, dealt))
    }

    /// Waits until it has the resource: no other process has a grant then.
    pub fn request<R: Threads + Wait + Sync>(&self, seat: &mut DiskSeat, rt: &R) -> DiskPass
        requires { IsIdle self.now seat.old }
        ensures call { seat.new ≡ after_call seat.old Request }
        ensures pass { result ≡ record { gate = self.now.gate; number = seat.old.number } }
        ensures has_grant { has_grant seat.new.calls ≡ true }
        ensures no_other { FindsNoGrant seat.old.number seat.old.calls }
    {
        request(&self.gate, &mut seat.pass, rt);
        DiskPass {
            number: seat.number(),
            desk: Snapshot::of(self),
        }
    }

    /// Gives the resource up to the process that has waited longest.
    pub fn release<R: Threads + Wait + Sync>(&self, seat: &mut DiskSeat, pass: DiskPass, rt: &R)
        requires gate { seat.old.gate ≡ self.now.gate }
        requires pass { pass ≡ record { gate = seat.old.gate; number = seat.old.number } }
        requires has_grant { has_grant seat.old.calls ≡ true }
        requires alone { seat.old.joined ≡ [] }
        ensures call { seat.new ≡ after_call seat.old Release }
        ensures idle { IsIdle self.now seat.new }
    {
        let DiskPass { number: _, desk: _ } = pass;
        release(&self.gate, &mut seat.pass, rt);
    }

    /// Takes in the calls of another seat, which is spent.
    pub fn join(&self, into: &mut DiskSeat, other: DiskSeat)
        requires { (into.old.gate ≡ self.now.gate) × (other.gate ≡ self.now.gate) }
        ensures { into.new ≡ after_join into.old other }
    {
        self.gate.join(&mut into.pass, other.into_pass());
    }

    /// Ends the resource, by the seat that has joined all others.
    pub fn close(self, seat: DiskSeat)
        requires gate { seat.gate ≡ self.gate }
        requires all { HasJoinedAll self seat }
        ensures { HasOneGrant (calls_of seat) }
    {
        let DiskResource { gate } = self;
        let _state = gate.close(seat.into_pass());
    }
}

fn request<R: Threads + Wait + Sync>(gate: &Gate<DiskKind>, pass: &mut SeatPass, rt: &R)
    requires seat { IsSeatOf gate.now pass.old }
    requires no_pass { has_grant pass.old.view.entries ≡ false }
    ensures call { pass.new ≡ left pass.old Request }
    ensures no_other { FindsNoGrant pass.old.view.number pass.old.view.entries }
{
    let process = pass.number();
    let mut inside = gate.enter(pass, rt);
    match inside.state().request(process) {
        Grant::Got => inside.leave(DiskCall::Request),
        Grant::Wait => {
            let mut inside = inside.delay(rt);
            inside.state().resumed(process);
            inside.leave(DiskCall::Request);
        }
    }
}

fn release<R: Threads + Wait + Sync>(gate: &Gate<DiskKind>, pass: &mut SeatPass, rt: &R)
    requires seat { IsSeatOf gate.now pass.old }
    requires has_grant { has_grant pass.old.view.entries ≡ true }
    ensures { pass.new ≡ left pass.old Release }
{
    let mut inside = gate.enter(pass, rt);
    inside.state().release();
    inside.leave(DiskCall::Release);
}
