//! The room as a monitor kind.
use crate::room::{Room, Use};
use monitor_gate::MonitorKind;
use solo_base::ProcNo;

/// The kind of monitor that the room of readers and writers is.
pub struct RoomKind;

impl MonitorKind for RoomKind {
    ghost use Rattle.readers_writers.specs.Room.{IsTied, is_waiting, IsWoken, Moves, Rests};
    ghost use Rattle.readers_writers.specs.Laws.{moves_tied, moves_done, rests_tied, rests_done};

    type State = Room;

    type Entry = Use;

    ghost handed_to = { λ state. state.turn };

    ghost ties = { λ opening. IsTied };

    ghost waits = { is_waiting };

    ghost wakes = { IsWoken };

    ghost moves = { Moves };

    ghost rests = { Rests };

    fn handed(state: &Room) -> Option<ProcNo> {
        state.turn
    }

    ghost completes = { λ opening before after lists p entry tied moved.
        (moves_tied before after lists p entry tied moved, moves_done before after lists p entry tied moved) };

    ghost suspends = { λ opening before after lists p tied rested.
        (rests_tied before after lists p tied rested, rests_done before after lists p tied rested) };
}
