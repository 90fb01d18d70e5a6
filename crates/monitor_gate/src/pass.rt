//! The right of one process to make entries in the monitor of a gate.
ghost use Rattle.std.specs.Prelude.{◌≡◌};
ghost use Rattle.monitor_gate.specs.Views.{in_hand};

use crate::kept::Kept;
use crate::kind::MonitorKind;
use crate::patience::Patience;
use crate::view::View;
use atomic_table::Seat;
use solo_base::ProcNo;
use std::marker::Model;

/// A pass, by the types of its state and its entries. Contracts see its gate and what it knows of it, the list of its completed entries above all.
pub struct GatePass<S, E> {
    pub(crate) number: ProcNo,
    pub(crate) seat: Seat<Option<Kept<S>>, View<S, E>>,
    pub(crate) patience: Patience,
}

/// A pass of a gate for the monitors of a kind.
pub type Pass<M> = GatePass<<M as MonitorKind>::State, <M as MonitorKind>::Entry>;

impl<S, E> Model for GatePass<S, E> {
    ghost use Rattle.std.specs.Prelude.{◌≡◌};
    ghost use Rattle.monitor_gate.specs.Ends.{PassView};
    ghost use Rattle.monitor_gate.specs.Views.{in_hand};

    ghost Value = { PassView S E };

    ghost view = { λ p. record { gate = p.seat.table_id; view = p.seat.me.0 } };

    ghost invariant = { λ p. (p.number ≡ p.seat.me.0.number) × (p.seat.me.1 ≡ in_hand p.seat.me.0.stage) };
}

impl<S, E> GatePass<S, E> {
    /// The process that the pass stands for.
    pub fn number(&self) -> ProcNo
        ensures { result ≡ self.now.view.number }
    {
        self.number
    }

    pub(crate) fn into_seat(self) -> Seat<Option<Kept<S>>, View<S, E>>
        ensures { (result.table_id ≡ self.gate) × (result.me ≡ (self.view, in_hand self.view.stage)) }
    {
        let GatePass {
            number: _,
            seat,
            patience: _,
        } = self;
        seat
    }
}

impl<S, E> Drop for GatePass<S, E> {
    fn drop(self) {
        let Self {
            number: _,
            seat: _,
            patience: _,
        } = self;
    }
}
