// A spool as a kind of monitor.

use crate::{Spool, SpoolCall};
use monitor_gate::MonitorKind;
use solo_base::{Page, ProcNo};
use solo_devices::Area;
use std::marker::PhantomData;
use std::snapshot::Snapshot;

/// The kind of a spool between two processes: the sender is process 1, and the receiver process 2.
pub struct SpoolKind<A> {
    area: PhantomData<A>,
}

impl<A: Area + Send> MonitorKind for SpoolKind<A> {
    ghost use Rattle.queue_var.specs.BetweenTwo.{calls_of};
    ghost use Rattle.disk_spool.specs.Calls.{handed_to, IsTied, is_waiting, IsWoken, value, Moves, Rests};
    ghost use Rattle.disk_spool.specs.Laws.{moves_tied, moves_done, rests_tied, rests_done};

    type State = Spool<A>;

    type Entry = SpoolCall<Snapshot<Page>>;

    ghost handed_to = { handed_to };

    ghost ties = { λ opening state lists. IsTied A.pages A.faults opening.ring.capacity opening.area (calls_of value lists) state };

    ghost waits = { is_waiting };

    ghost wakes = { IsWoken };

    ghost moves = { λ p before entry after. Moves A.pages A.faults p before (value entry) after };

    ghost rests = { Rests };

    fn handed(state: &Spool<A>) -> Option<ProcNo> {
        state.handed()
    }

    fn would_wait(state: &Spool<A>) -> Option<ProcNo> {
        state.would_wait()
    }

    ghost completes = { λ opening before after lists p entry tied moved. (
      moves_tied A.pages A.faults opening.ring.capacity opening.area before after lists p entry tied moved,
      moves_done A.pages A.faults opening.ring.capacity opening.area before after p (calls_of value lists) (value entry) tied moved,
    ) };

    ghost suspends = { λ opening before after lists p tied rested. (
      rests_tied A.pages A.faults opening.ring.capacity opening.area before after p (calls_of value lists) tied rested,
      rests_done A.pages A.faults opening.ring.capacity opening.area before after p (calls_of value lists) tied rested,
    ) };
}
