// The seats at a running disk resource, and the pass of whoever has it.
ghost use Rattle.std.specs.Prelude.{◌≡◌, Some};
ghost use Rattle.monitor_gate.specs.declared.view.Stage.TheVariants.{Outside};
ghost use Rattle.resource_mon.specs.Claims.{unclaimed};
ghost use Rattle.resource_mon.specs.DiskCalls.{IsSeated};

use crate::{DiskCall, DiskResource, Resource};
use monitor_gate::GatePass;
use solo_base::ProcNo;
use std::marker::Model;
use std::snapshot::Snapshot;

pub(crate) type SeatPass = GatePass<Resource<8>, DiskCall>;

/// The right of one process to ask for the resource. Contracts see its calls, and those of the seats that it has joined.
pub struct DiskSeat {
    pub(crate) pass: SeatPass,
}

impl Model for DiskSeat {
    ghost use Rattle.std.specs.Prelude.{◌≡◌, Some};
    ghost use Rattle.monitor_gate.specs.declared.view.Stage.TheVariants.{Outside};
    ghost use Rattle.resource_mon.specs.Claims.{unclaimed};
    ghost use Rattle.resource_mon.specs.DiskCalls.{IsSeated};
    ghost use Rattle.resource_mon.specs.Seats.{Seat};

    ghost Value = { Seat };

    ghost view = { λ s. record { gate = s.pass.gate; number = s.pass.view.number; calls = s.pass.view.entries; joined = s.pass.view.joined } };

    ghost invariant = { λ s. (s.pass.view.opening ≡ Some unclaimed) × (s.pass.view.stage ≡ Outside) × IsSeated s.pass.view.number };
}

impl DiskSeat {
    /// The process that the seat stands for.
    pub fn number(&self) -> ProcNo
        ensures { result ≡ self.now.number }
    {
        self.pass.number()
    }

    pub(crate) fn of(pass: SeatPass) -> DiskSeat
        requires { (pass.view.opening ≡ Some unclaimed) × (pass.view.stage ≡ Outside) × IsSeated pass.view.number }
        ensures { result ≡ record { gate = pass.gate; number = pass.view.number; calls = pass.view.entries; joined = pass.view.joined } }
    {
        DiskSeat { pass }
    }

    pub(crate) fn into_pass(self) -> SeatPass
        ensures pass { self ≡ record { gate = result.gate; number = result.view.number; calls = result.view.entries; joined = result.view.joined } }
        ensures outside { (result.view.opening ≡ Some unclaimed) × (result.view.stage ≡ Outside) }
    {
        let DiskSeat { pass } = self;
        pass
    }
}

impl Drop for DiskSeat {
    fn drop(self) {
        let Self { pass: _ } = self;
    }
}

/// Whoever has it has the resource. It isn't copied, and is spent by the release.
pub struct DiskPass {
    pub(crate) number: ProcNo,
    pub(crate) desk: Snapshot<DiskResource>,
}

impl Model for DiskPass {
    ghost use Rattle.resource_mon.specs.Seats.{Pass};

    ghost Value = { Pass };

    ghost view = { λ p. record { gate = p.desk.value.gate; number = p.number } };
}
