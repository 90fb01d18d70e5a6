ghost use Rattle.std.specs.Prelude.{◌≡◌, ◌≤◌, ◌<◌, true, List, [], Some};
ghost use Rattle.solo_base.specs.declared.item.Item.{Item};
ghost use Rattle.network_run.specs.declared.rules.Rule.TheVariants as rule;
ghost use Rattle.network_run.specs.OneRun.{AreItsCounts};
ghost use Rattle.core_law.specs.FilesKnown.{AreFilesKnown};
ghost use Rattle.core_law.specs.Holds.{AreTold};
ghost use Rattle.core_law.specs.TheLaw.{the_law};
ghost use Rattle.batch_ends.specs.Ended.{all_done};
ghost use Rattle.batch_ends.specs.Tells.{deck_ahead, devices_of, spools_of, opened_over};
ghost use Rattle.net_core.specs.WholeRuns.{RunsToEnd};
ghost use Rattle.schedule_law.specs.NoneCounted.{NoneCounted, NoneLacked};

use batch_ends::{Peripherals, Ran, Units};
use batch_procs::{JobWork, Loader};
use net_core::run_core;
use network_run::{Counts, Rule};
use solo_devices::{Area, Sink, Source};
use std::alloc::Global;

/// Runs a deck of which nothing was read to the paper under the schedule of a number, over an area of 1 to
/// 256 pages for each spool, where a file may be loaded. Over told devices the answer has the counts of the
/// one run of this schedule, where no device failed and no memory was refused.
pub fn run_schedule<J: JobWork, S: Source, K: Sink, F: Loader<J>, A: Area, B: Area>(
    alloc: Global,
    units: Units<S, K, F, A, B>,
    number: u32,
) -> (Ran<S, K, F, A, B>, Counts)
    requires deck { (units.deck.live ≡ true) × (units.deck.pending ≡ []) }
    requires unread { S.taken units.deck.source ≡ 0 }
    requires paper { units.paper.live ≡ true }
    requires input { (0 < A.size units.input) × (A.size units.input ≤ 256) }
    requires output { (0 < B.size units.output) × (B.size units.output ≤ 256) }
    requires sound { F.sound units.files }

    // However it ended, what is counted is a run of this schedule from the opening over these devices, which
    // ended with these outcomes and left the deck and the paper so.
    ensures runs { RunsToEnd J.jobs (rule.Numbered number)
        (opened_over ⟦<Units<S, K, F, A, B> as Peripherals<J>>⟧.tells units)
        result.1 result.0.outcomes result.0.stopped_by
        (devices_of ⟦<Units<S, K, F, A, B> as Peripherals<J>>⟧.tells result.0.units) }

    // Over told devices it is the one run of the schedule, where no device failed and no memory was refused.
    // That none did is seen from the outcomes,
    ensures done { (items : List Item) →
        deck_ahead ⟦<Units<S, K, F, A, B> as Peripherals<J>>⟧.tells units.deck ≡ Some items →
        AreFilesKnown J.jobs (F.found units.files) items →
        AreTold (spools_of ⟦<Units<S, K, F, A, B> as Peripherals<J>>⟧.tells units) →
        result.0.outcomes ≡ all_done →
        AreItsCounts (the_law J.jobs) (rule.Numbered number)
        (opened_over ⟦<Units<S, K, F, A, B> as Peripherals<J>>⟧.tells units) result.1 }

    // or from the devices, none of which counted a failure, where no process ended for want of memory.
    ensures uncounted { (items : List Item) →
        deck_ahead ⟦<Units<S, K, F, A, B> as Peripherals<J>>⟧.tells units.deck ≡ Some items →
        AreFilesKnown J.jobs (F.found units.files) items →
        AreTold (spools_of ⟦<Units<S, K, F, A, B> as Peripherals<J>>⟧.tells units) →
        NoneCounted ⟦<Units<S, K, F, A, B> as Peripherals<J>>⟧.counts units result.0.units →
        NoneLacked result.0.outcomes →
        AreItsCounts (the_law J.jobs) (rule.Numbered number)
        (opened_over ⟦<Units<S, K, F, A, B> as Peripherals<J>>⟧.tells units) result.1 }
{
    run_core::<J, S, K, F, A, B>(alloc, units, Rule::Numbered { number })
}
