// A one-slot buffer as a kind of monitor.

use crate::{SlotBuffer, SlotCall};
use monitor_gate::MonitorKind;
use solo_base::ProcNo;
use std::marker::PhantomData;
use std::snapshot::Snapshot;

/// The kind of a one-slot buffer between two processes: the sender is process 1, and the receiver process 2.
pub struct SlotKind<T> {
    item: PhantomData<T>,
}

impl<T: Send> MonitorKind for SlotKind<T> {
    ghost use Rattle.slot_buffer.specs.Calls.{handed_to, IsTied, is_waiting, IsWoken, value, Moves, Rests};
    ghost use Rattle.queue_var.specs.BetweenTwo.{calls_of};
    ghost use Rattle.slot_buffer.specs.Laws.{moves_tied, moves_done, rests_tied, rests_done};

    type State = SlotBuffer<T>;

    type Entry = SlotCall<Snapshot<T>>;

    ghost handed_to = { handed_to };

    ghost ties = { λ opening state lists. IsTied (calls_of value lists) state };

    ghost waits = { is_waiting };

    ghost wakes = { IsWoken };

    ghost moves = { λ p before entry after. Moves p before (value entry) after };

    ghost rests = { Rests };

    fn handed(state: &SlotBuffer<T>) -> Option<ProcNo> {
        state.handed()
    }

    fn would_wait(state: &SlotBuffer<T>) -> Option<ProcNo> {
        state.would_wait()
    }

    ghost completes = { λ opening before after lists p entry tied moved.
        (moves_tied before after lists p entry tied moved, moves_done before after p (calls_of value lists) (value entry) tied moved) };

    ghost suspends = { λ opening before after lists p tied rested.
        (rests_tied before after p (calls_of value lists) tied rested, rests_done before after p (calls_of value lists) tied rested) };
}
