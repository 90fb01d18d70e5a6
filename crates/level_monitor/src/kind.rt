//! The level as a monitor kind.
use crate::level::{Change, Level};
use monitor_gate::MonitorKind;
use solo_base::ProcNo;

/// The kind of monitor that a level is.
pub struct LevelKind;

impl MonitorKind for LevelKind {
    ghost use Rattle.level_monitor.specs.Level.{IsTied, is_waiting, IsWoken, Moves, Rests};
    ghost use Rattle.level_monitor.specs.Laws.{moves_tied, moves_done, rests_tied, rests_done};

    type State = Level;

    type Entry = Change;

    ghost handed_to = { λ state. state.turn };

    ghost ties = { IsTied };

    ghost waits = { is_waiting };

    ghost wakes = { IsWoken };

    ghost moves = { Moves };

    ghost rests = { Rests };

    fn handed(state: &Level) -> Option<ProcNo> {
        state.turn
    }

    ghost completes = { λ opening before after lists p entry tied moved. (moves_tied opening before after lists p entry tied moved, moves_done opening before after lists p entry tied moved) };

    ghost suspends = { λ opening before after lists p tied rested. (rests_tied opening before after lists p tied rested, rests_done opening before after lists p tied rested) };
}
