ghost use Rattle.std.specs.Prelude.{◌≡◌, List, [], Some};
ghost use Rattle.solo_base.specs.declared.item.Item.{Item};
ghost use Rattle.solo_base.specs.Text.{text};
ghost use Rattle.solo_devices.specs.CardUnit.{IsAllTaken, items_ahead};
ghost use Rattle.solo_devices.specs.PrinterUnit.{Gains};
ghost use Rattle.network_run.specs.OneRun.{AreItsCounts};
ghost use Rattle.real_time.specs.Starts.{times};
ghost use Rattle.real_time.specs.States.{opened};
ghost use Rattle.real_time.specs.TimesLaw.{timing};
ghost use Rattle.time_net.specs.TimeStands.{IsCounted, IsFaultOfTimes, outcome_with, tellers};
ghost use Rattle.time_net.specs.TimesRuns.{TimesRun, fault_told};

use crate::{TimeNet, TimeRan};
use network_run::{Counts, Falling, Rule};
use solo_base::Outcome;
use solo_devices::{Sink, Source};

/// Runs what is typed at keys on which nothing was typed, to a console. A rule picks the process that steps
/// next, until all nine have ended.
pub fn run_times<Y: Source, T: Sink>(source: Y, sink: T, rule: Rule) -> (TimeRan<Y, T>, Counts)
    requires { Y.taken source ≡ 0 }

    // What is counted is the run of the rule from the opening over these devices, and so is how often each
    // task started.
    ensures runs { TimesRun rule
        (opened record { keys = items_ahead (Y.left source) []; console = T.given sink }) result.1
        result.0.runs (items_ahead (Y.left result.0.typewriter.keys.source) result.0.typewriter.keys.pending)
        (T.given result.0.typewriter.console.sink) }
    ensures counts { (items : List Item) → items_ahead (Y.left source) [] ≡ Some items →
        result.0.outcome ≡ Outcome.Done → AreItsCounts timing rule
        (opened record { keys = items_ahead (Y.left source) []; console = T.given sink }) result.1 }
    ensures grants { result.1.grants ≡ 0 }

    // The console gained the lines of what was typed or a part of them, and all of them where the operator is
    // done; then nothing is left of the keys.
    ensures shows { (items : List Item) → items_ahead (Y.left source) [] ≡ Some items →
        Gains (T.given sink) (T.given result.0.typewriter.console.sink) (text (times items))
        (result.0.outcome ≡ Outcome.Done) }
    ensures all_taken { result.0.outcome ≡ Outcome.Done →
        IsAllTaken (Y.left result.0.typewriter.keys.source) }

    // The operator is never stopped. Where a fault comes from.
    ensures ends { result.0.outcome ≡ outcome_with (fault_told result.0.outcome) }
    ensures counted { IsCounted (tellers Y.left Y.taken Y.faults T.given T.faults) source sink
        (fault_told result.0.outcome) result.0.typewriter }
    ensures known { IsFaultOfTimes (fault_told result.0.outcome) }
{
    let mut net = TimeNet::make(source, sink);
    let counts = net.run_by(rule);
    (net.finish(), counts)
}
