ghost use Rattle.std.specs.Prelude.{◌≡◌, List, [], Some};
ghost use Rattle.solo_base.specs.declared.item.Item.{Item};
ghost use Rattle.solo_base.specs.Text.{text};
ghost use Rattle.solo_devices.specs.CardUnit.{IsAllTaken, items_ahead};
ghost use Rattle.solo_devices.specs.PrinterUnit.{Gains};
ghost use Rattle.network_run.specs.Law.{Placed};
ghost use Rattle.real_time.specs.Starts.{times};
ghost use Rattle.real_time.specs.TimesLaw.{timing};
ghost use Rattle.time_net.specs.TimeStands.{NineHaveEnded, TimesStand, all_runs, outcome_with, tellers};

use crate::TimeNet;
use real_time::MOST_TASKS;
use solo_base::{Cause, Outcome};
use solo_devices::{Sink, Source, Typewriter};

/// How the nine ended: the operator's outcome, how often each task started, and the typewriter.
#[derive(Drop)]
pub struct TimeRan<Y: Source, T: Sink> {
    pub outcome: Outcome,
    pub runs: [u32; MOST_TASKS],
    pub typewriter: Typewriter<Y, T>,
}

impl<Y: Source, T: Sink> TimeNet<Y, T> {
    /// How the nine ended, once all have.
    pub fn finish(self) -> TimeRan<Y, T>
        requires ended { NineHaveEnded (tellers Y.left Y.taken Y.faults T.given T.faults) self }

        // For each place where it stands: the console gained a part of the lines of what was typed, and all
        // of them where the outcome is Done; then nothing is left of the keys.
        ensures shows { (at : Placed timing
            (TimesStand (tellers Y.left Y.taken Y.faults T.given T.faults) self)) →
            (items : List Item) → at.opening.keys ≡ Some items →
            Gains at.opening.console (T.given result.typewriter.console.sink) (text (times items))
            (result.outcome ≡ Outcome.Done) }
        ensures reads { (at : Placed timing
            (TimesStand (tellers Y.left Y.taken Y.faults T.given T.faults) self)) →
            (items : List Item) → at.opening.keys ≡ Some items → result.outcome ≡ Outcome.Done →
            items_ahead (Y.left result.typewriter.keys.source) result.typewriter.keys.pending ≡ Some [] }
        ensures all_taken { result.outcome ≡ Outcome.Done →
            IsAllTaken (Y.left result.typewriter.keys.source) }

        // Each task counted the starts that it saw: a first part of those of the script, all of them where
        // the outcome is Done.
        ensures runs { (at : Placed timing
            (TimesStand (tellers Y.left Y.taken Y.faults T.given T.faults) self)) →
            result.runs ≡ all_runs at.state }

        // The outcome, and where a fault comes from.
        ensures outcome { result.outcome ≡ outcome_with self.operator.fault }
        ensures typewriter { result.typewriter ≡ self.typewriter }
    {
        let TimeNet {
            typewriter,
            table: _,
            operator,
            waits: _,
            tasks,
        } = self;
        let [a, b, c, d, e, f, g, h] = tasks;
        TimeRan {
            outcome: outcome_with(operator.fault()),
            runs: [
                a.runs(),
                b.runs(),
                c.runs(),
                d.runs(),
                e.runs(),
                f.runs(),
                g.runs(),
                h.runs(),
            ],
            typewriter,
        }
    }
}

// The outcome of an operator with this fault, or none.
fn outcome_with(fault: Option<Cause>) -> Outcome
    ensures { result ≡ outcome_with fault }
{
    match fault {
        None => Outcome::Done,
        Some(cause) => Outcome::Fault(cause),
    }
}
