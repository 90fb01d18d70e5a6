//! A run of the core on one thread, from the making of its network to its end.
ghost use Rattle.std.specs.Prelude.{◌≡◌, ◌≤◌, ◌<◌, true, List, [], Some};
ghost use Rattle.solo_base.specs.declared.item.Item.{Item};
ghost use Rattle.solo_base.specs.Text.{text};
ghost use Rattle.solo_devices.specs.CardUnit.{bytes_total, IsAllTaken};
ghost use Rattle.solo_devices.specs.PrinterUnit.{Gains};
ghost use Rattle.batch_procs.specs.Jobs.{FilesAs, one_thread};
ghost use Rattle.core_law.specs.Bound.{longest_run};
ghost use Rattle.core_law.specs.Holds.{AreTold, AreFound};
ghost use Rattle.batch_ends.specs.Ended.{all_done, EndTogether, FaultsAre, NoneDamaged};
ghost use Rattle.batch_ends.specs.Faults.{FaultsAreCounted};
ghost use Rattle.batch_ends.specs.Tells.{deck_ahead, devices_of, spools_of, opened_over};
ghost use Rattle.net_core.specs.Faults.{JobFaultIsOwn};
ghost use Rattle.net_core.specs.WholeRuns.{RunsToEnd};

use crate::Net;
use batch_ends::{Peripherals, Ran, Units};
use batch_procs::{JobWork, Loader};
use network_run::{Counts, Falling, Rule};
use solo_devices::{Area, Sink, Source};
use std::alloc::Global;

/// Runs a deck of which nothing was read to the paper, over an area of 1 to 256 pages for each spool, where a
/// file may be loaded. A rule picks the process that steps next, until all five have ended.
pub fn run_core<J: JobWork, S: Source, K: Sink, F: Loader<J>, A: Area, B: Area>(
    alloc: Global,
    units: Units<S, K, F, A, B>,
    rule: Rule,
) -> (Ran<S, K, F, A, B>, Counts)
    requires deck { (units.deck.live ≡ true) × (units.deck.pending ≡ []) }
    requires unread { S.taken units.deck.source ≡ 0 }
    requires paper { units.paper.live ≡ true }
    requires input { (0 < A.size units.input) × (A.size units.input ≤ 256) }
    requires output { (0 < B.size units.output) × (B.size units.output ≤ 256) }
    requires sound { F.sound units.files }

    // What is counted is the run of the rule from the opening over these devices, and the deck and the paper
    // are as this run leaves them.
    ensures runs { RunsToEnd J.jobs rule (opened_over ⟦<Units<S, K, F, A, B> as Peripherals<J>>⟧.tells units)
        result.1 result.0.outcomes result.0.stopped_by
        (devices_of ⟦<Units<S, K, F, A, B> as Peripherals<J>>⟧.tells result.0.units) }

    // How the five ended together, and where their faults come from.
    ensures together { EndTogether result.0.outcomes result.0.stopped_by }
    ensures faults { FaultsAre result.0.outcomes }
    ensures counted { FaultsAreCounted ⟦<Units<S, K, F, A, B> as Peripherals<J>>⟧.counts units result.0 }
    ensures own { JobFaultIsOwn ⟦<Units<S, K, F, A, B> as Peripherals<J>>⟧.counts units result.0.units
        result.0.outcomes }

    // The paper gained what one thread prints or a part of it, all of it where all are done, and then nothing
    // is left of the deck.
    ensures prints { (items : List Item) (found : FilesAs J.Load) →
        deck_ahead ⟦<Units<S, K, F, A, B> as Peripherals<J>>⟧.tells units.deck ≡ Some items →
        AreFound J.jobs (F.found units.files) found items →
        AreTold (spools_of ⟦<Units<S, K, F, A, B> as Peripherals<J>>⟧.tells units) →
        Gains (K.given units.paper.sink) (K.given result.0.units.paper.sink)
        (text (one_thread J.jobs items found)) (result.0.outcomes ≡ all_done) }
    ensures reads { (items : List Item) →
        deck_ahead ⟦<Units<S, K, F, A, B> as Peripherals<J>>⟧.tells units.deck ≡ Some items →
        result.0.outcomes ≡ all_done →
        deck_ahead ⟦<Units<S, K, F, A, B> as Peripherals<J>>⟧.tells result.0.units.deck ≡ Some [] }
    ensures all_taken { result.0.outcomes ≡ all_done → IsAllTaken (S.left result.0.units.deck.source) }
    ensures total { bytes_total (S.taken result.0.units.deck.source) (S.left result.0.units.deck.source)
        ≡ bytes_total (S.taken units.deck.source) (S.left units.deck.source) }

    // No file is changed.
    ensures files { F.pages result.0.units.files ≡ F.pages units.files }

    // Over told spools no page was damaged, and over told devices there were no more events than the cards
    // and lines of the deck allow.
    ensures undamaged { AreTold (spools_of ⟦<Units<S, K, F, A, B> as Peripherals<J>>⟧.tells units) →
        NoneDamaged result.0.outcomes }
    ensures bound { (items : List Item) (found : FilesAs J.Load) →
        deck_ahead ⟦<Units<S, K, F, A, B> as Peripherals<J>>⟧.tells units.deck ≡ Some items →
        AreFound J.jobs (F.found units.files) found items →
        AreTold (spools_of ⟦<Units<S, K, F, A, B> as Peripherals<J>>⟧.tells units) →
        result.1.events ≤ longest_run J.jobs found items }
{
    let mut net = Net::<J, S, K, F, A, B>::make(alloc, units);
    let counts = net.run_by(rule);
    (net.finish(), counts)
}
