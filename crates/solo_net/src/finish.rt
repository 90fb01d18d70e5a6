ghost use Rattle.std.specs.Prelude.{◌≡◌, List, Some};
ghost use Rattle.solo_base.specs.declared.item.Item.{Item};
ghost use Rattle.solo_base.specs.Text.{text};
ghost use Rattle.solo_devices.specs.PrinterUnit.{Gains};
ghost use Rattle.network_run.specs.Law.{Placed};
ghost use Rattle.place_law.specs.Process.{Entry, caused};
ghost use Rattle.place_law.specs.Ending.{outcome_by};
ghost use Rattle.solo_law.specs.Actions.{Action, Reply};
ghost use Rattle.solo_law.specs.Replies.{view};
ghost use Rattle.solo_law.specs.Work.{Plan};
ghost use Rattle.solo_law.specs.Told.{on_console, on_paper, lines_of_all, needs};
ghost use Rattle.solo_law.specs.Solo.{SoloState, the_law};
ghost use Rattle.solo_procs.specs.Machine.{StandsFor};
ghost use Rattle.solo_net.specs.Telling.{solo_telling};
ghost use Rattle.solo_ends.specs.Ends.{EndTogether, FaultsAre};
ghost use Rattle.solo_ends.specs.Faults.{Peripherals, FaultsAreCounted};
ghost use Rattle.solo_net.specs.Net.{commands_of, SoloNetStands, SoloIsCounted};
ghost use Rattle.solo_net.specs.Ended.{SoloHaveEnded, EndsSo, AreLedTo};
ghost use Rattle.solo_ends.specs.Told.{JobDone, BothDone, TellsPlan};
ghost use Rattle.solo_net.specs.Telling.{solo_counts_of};

use crate::{Shared, SoloNet};
use solo_base::Outcome;
use solo_devices::{Sink, Source};
use solo_ends::SoloRan;
use solo_procs::{Commands, Machine, Proc};

impl<C: Commands + Drop, S: Source, Y: Source, K: Sink, T: Sink> SoloNet<C, S, Y, K, T> {
    /// How Solo ended, once all three processes have.
    pub fn finish(self) -> SoloRan<S, Y, K, T, C::Files>
        requires ended { SoloHaveEnded
            (commands_of C.awaits C.plans C.sound C.faults C.follows C.passes)
            (solo_telling S.left S.taken S.faults Y.left Y.taken Y.faults
            K.given K.faults T.given T.faults) self }

        // In each state that it stands for, the three ended so and the buffers handed over in order.
        ensures ends { (at : Placed the_law (SoloNetStands
            (commands_of C.awaits C.plans C.sound C.faults C.follows C.passes)
            (solo_telling S.left S.taken S.faults Y.left Y.taken Y.faults
            K.given K.faults T.given T.faults) self)) →
            EndsSo at.state result.outcomes result.stopped_by }
        ensures together { EndTogether result.outcomes result.stopped_by }
        ensures faults { FaultsAre result.outcomes }
        ensures counted { (before : Peripherals S Y K T C.Files) →
            SoloIsCounted (commands_of C.awaits C.plans C.sound C.faults C.follows C.passes)
            (solo_telling S.left S.taken S.faults Y.left Y.taken Y.faults
            K.given K.faults T.given T.faults)
            before self →
            FaultsAreCounted (solo_counts_of
            (solo_telling S.left S.taken S.faults Y.left Y.taken Y.faults
            K.given K.faults T.given T.faults)
            C.faults) before result }

        // For each place where it stands: the console gained what the needs of the commands show or a
        // part of it, and all of it where the job process is done; and so did the paper what they print,
        // all of it where the output process is done too.
        ensures shows { (at : Placed the_law (SoloNetStands
            (commands_of C.awaits C.plans C.sound C.faults C.follows C.passes)
            (solo_telling S.left S.taken S.faults Y.left Y.taken Y.faults
            K.given K.faults T.given T.faults) self)) →
            Gains at.opening.devices.console (T.given result.units.typewriter.console.sink)
            (text (lines_of_all on_console (needs (at.state.histories 2))))
            (JobDone result.outcomes) }
        ensures prints { (at : Placed the_law (SoloNetStands
            (commands_of C.awaits C.plans C.sound C.faults C.follows C.passes)
            (solo_telling S.left S.taken S.faults Y.left Y.taken Y.faults
            K.given K.faults T.given T.faults) self)) →
            Gains at.opening.devices.paper (K.given result.units.paper.sink)
            (text (lines_of_all on_paper (needs (at.state.histories 2))))
            (BothDone result.outcomes) }

        // Over told cards, typed lines and files these needs are those of the plan.
        ensures tells { (at : Placed the_law (SoloNetStands
            (commands_of C.awaits C.plans C.sound C.faults C.follows C.passes)
            (solo_telling S.left S.taken S.faults Y.left Y.taken Y.faults
            K.given K.faults T.given T.faults) self)) →
            (cards keys : List Item) (plan : Plan) → at.opening.devices.cards ≡ Some cards →
            at.opening.devices.keys ≡ Some keys → at.opening.devices.work ≡ Some plan →
            TellsPlan Y.left T.given K.given cards keys plan at.opening.devices.console
            at.opening.devices.paper result }

        // Where no call on the files failed they are some to which the work comes, from those with which
        // it began.
        ensures files { (at : Placed the_law (SoloNetStands
            (commands_of C.awaits C.plans C.sound C.faults C.follows C.passes)
            (solo_telling S.left S.taken S.faults Y.left Y.taken Y.faults
            K.given K.faults T.given T.faults) self)) →
            AreLedTo (C.passes self.first_files.value) (at.state.histories 2) result }
        ensures units { result.units ≡ self.shared.units }
    {
        let SoloNet {
            input,
            job,
            output,
            shared,
            first_files: _,
        } = self;
        let outcomes = [outcome(input), outcome(job), outcome(output)];
        let Shared { units, buffers } = shared;
        SoloRan {
            outcomes,
            stopped_by: buffers.stopped_by(),
            units,
        }
    }
}

/// How a process ended, by its cause.
// By value: what a machine keeps is dropped here, whatever its process is.
fn outcome<P: Proc + Drop>(machine: Machine<P>) -> Outcome
    ensures { (h : List (Entry Action Reply)) → StandsFor P.process P.is_at P.ready machine h
        → result ≡ outcome_by (caused view P.process h) }
{
    match machine.cause() {
        Some(cause) => cause,
        None => Outcome::Done,
    }
}
