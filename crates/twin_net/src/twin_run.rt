//! A run of the six on one thread, from the making of their network to its end.
ghost use Rattle.std.specs.Prelude.{◌≡◌, ◌≤◌, ◌<◌, true, List, [], Some};
ghost use Rattle.solo_base.specs.declared.item.Item.{Item};
ghost use Rattle.solo_base.specs.Text.{text};
ghost use Rattle.solo_devices.specs.CardUnit.{bytes_total};
ghost use Rattle.solo_devices.specs.PrinterUnit.{Gains};
ghost use Rattle.batch_procs.specs.Jobs.{FilesAs, one_thread};
ghost use Rattle.twin_law.specs.Bound.{longest_run};
ghost use Rattle.twin_law.specs.Opening.{AreTold};
ghost use Rattle.twin_law.specs.UnitWork.{AreByUnits};
ghost use Rattle.twin_ends.specs.TwinTells.{cards_ahead, twin_devices, twin_spools, twin_opened};
ghost use Rattle.twin_net.specs.Counted.{TwinFaultsAreCounted};
ghost use Rattle.twin_net.specs.Ended.{TwinFaultsAre, TwinStoppedSo, TwinTogether, TwinNoneDamaged, twin_all_done};
ghost use Rattle.twin_net.specs.TwinRuns.{TwinRunsToEnd};

use crate::TwinNet;
use batch_procs::{JobWork, Loader};
use network_run::{Counts, Falling, Rule};
use solo_devices::{Area, Sink, Source};
use std::alloc::Global;
use twin_ends::{TwinPeripherals, TwinRan, TwinUnits};

/// Runs a deck of which nothing was read to the paper, over an area of 1 to 256 pages for each spool, where a
/// file may be loaded. A rule picks the process that steps next, until all six have ended.
pub fn run_twin<J: JobWork, S: Source, K: Sink, F: Loader<J>, A: Area>(
    alloc: Global,
    units: TwinUnits<S, K, F, A>,
    rule: Rule,
) -> (TwinRan<S, K, F, A>, Counts)
    requires deck { (units.deck.live ≡ true) × (units.deck.pending ≡ []) }
    requires unread { S.taken units.deck.source ≡ 0 }
    requires paper { units.paper.live ≡ true }
    requires to_a { (0 < A.size units.to_a) × (A.size units.to_a ≤ 256) }
    requires to_b { (0 < A.size units.to_b) × (A.size units.to_b ≤ 256) }
    requires from_a { (0 < A.size units.from_a) × (A.size units.from_a ≤ 256) }
    requires from_b { (0 < A.size units.from_b) × (A.size units.from_b ≤ 256) }
    requires sound { F.sound units.files }

    // What is counted is the run of the rule from the opening over these devices, and the deck and the paper
    // are as this run leaves them.
    ensures runs { TwinRunsToEnd J.jobs rule
        (twin_opened ⟦<TwinUnits<S, K, F, A> as TwinPeripherals<J>>⟧.tells units)
        result.1 result.0.outcomes result.0.stopped_by
        (twin_devices ⟦<TwinUnits<S, K, F, A> as TwinPeripherals<J>>⟧.tells result.0.units) }

    // Where their faults come from, and who was told to stop.
    ensures faults { TwinFaultsAre result.0.outcomes }
    ensures counted { TwinFaultsAreCounted ⟦<TwinUnits<S, K, F, A> as TwinPeripherals<J>>⟧.counts units
        result.0.units result.0.outcomes }
    ensures stopped { TwinStoppedSo result.0.outcomes result.0.stopped_by }

    // The paper gained what one thread prints or a part of it, all of it where all are done, and then nothing
    // is left of the deck.
    ensures prints { AreByUnits J.jobs →
        AreTold (twin_spools ⟦<TwinUnits<S, K, F, A> as TwinPeripherals<J>>⟧.tells units) →
        (items : List Item) (found : FilesAs J.Load) →
        cards_ahead ⟦<TwinUnits<S, K, F, A> as TwinPeripherals<J>>⟧.tells units.deck ≡ Some items →
        F.found units.files ≡ Some found →
        Gains (K.given units.paper.sink) (K.given result.0.units.paper.sink)
        (text (one_thread J.jobs items found)) (result.0.outcomes ≡ twin_all_done) }
    ensures reads { (items : List Item) →
        cards_ahead ⟦<TwinUnits<S, K, F, A> as TwinPeripherals<J>>⟧.tells units.deck ≡ Some items →
        result.0.outcomes ≡ twin_all_done →
        cards_ahead ⟦<TwinUnits<S, K, F, A> as TwinPeripherals<J>>⟧.tells result.0.units.deck ≡ Some [] }
    ensures total { bytes_total (S.taken result.0.units.deck.source) (S.left result.0.units.deck.source)
        ≡ bytes_total (S.taken units.deck.source) (S.left units.deck.source) }

    // Over told devices none was stopped where no process has a fault, and over told spools no page was
    // damaged.
    ensures together { AreByUnits J.jobs →
        AreTold (twin_spools ⟦<TwinUnits<S, K, F, A> as TwinPeripherals<J>>⟧.tells units) →
        (items : List Item) (found : FilesAs J.Load) →
        cards_ahead ⟦<TwinUnits<S, K, F, A> as TwinPeripherals<J>>⟧.tells units.deck ≡ Some items →
        F.found units.files ≡ Some found → TwinTogether result.0.outcomes }
    ensures undamaged { AreTold (twin_spools ⟦<TwinUnits<S, K, F, A> as TwinPeripherals<J>>⟧.tells units) →
        TwinNoneDamaged result.0.outcomes }

    // No file is changed.
    ensures files { F.pages result.0.units.files ≡ F.pages units.files }

    // Over told devices there were no more events than the cards, lines and units of the deck allow.
    ensures bound { AreByUnits J.jobs →
        AreTold (twin_spools ⟦<TwinUnits<S, K, F, A> as TwinPeripherals<J>>⟧.tells units) →
        (items : List Item) (found : FilesAs J.Load) →
        cards_ahead ⟦<TwinUnits<S, K, F, A> as TwinPeripherals<J>>⟧.tells units.deck ≡ Some items →
        F.found units.files ≡ Some found → result.1.events ≤ longest_run J.jobs found items }
{
    let mut net = TwinNet::<J, S, K, F, A>::make(alloc, units);
    let counts = net.run_by(rule);
    (net.finish(), counts)
}
