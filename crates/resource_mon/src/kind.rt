// The disk resource as a kind of monitor.

use crate::{DiskCall, Resource};
use monitor_gate::MonitorKind;
use solo_base::ProcNo;

/// The kind of a resource that at most eight processes share.
pub struct DiskKind;

impl MonitorKind for DiskKind {
    ghost use Rattle.resource_mon.specs.DiskCalls.{IsTied, is_waiting, IsWoken, Moves, Rests};
    ghost use Rattle.resource_mon.specs.Laws.{moves_tied, moves_done, rests_tied, rests_done};

    type State = Resource<8>;

    type Entry = DiskCall;

    ghost handed_to = { λ state. state.handed };

    ghost ties = { λ opening state lists. IsTied lists state };

    ghost waits = { is_waiting };

    ghost wakes = { IsWoken };

    ghost moves = { Moves };

    ghost rests = { Rests };

    fn handed(state: &Resource<8>) -> Option<ProcNo> {
        state.handed()
    }

    ghost completes = { λ opening before after lists p entry tied moved.
        (moves_tied before after lists p entry tied moved, moves_done before after lists p entry tied moved) };

    ghost suspends = { λ opening before after lists p tied rested.
        (rests_tied before after lists p tied rested, rests_done before after lists p tied rested) };
}
