ghost use Rattle.std.specs.Prelude.{◌≡◌, List, [], Some};
ghost use Rattle.solo_base.specs.declared.item.Item.{Item};
ghost use Rattle.solo_base.specs.Text.{text};
ghost use Rattle.solo_devices.specs.PrinterUnit.{Gains};
ghost use Rattle.batch_procs.specs.Causes.{caused};
ghost use Rattle.batch_procs.specs.History.{Entry};
ghost use Rattle.batch_procs.specs.Jobs.{FilesAs, one_thread};
ghost use Rattle.batch_procs.specs.Machine.{StandsFor};
ghost use Rattle.network_run.specs.Law.{Placed};
ghost use Rattle.core_law.specs.Core.{CoreState};
ghost use Rattle.core_law.specs.Ends.{outcome_by};
ghost use Rattle.core_law.specs.Holds.{AreTold, AreFound};
ghost use Rattle.core_law.specs.TheLaw.{the_law};
ghost use Rattle.batch_ends.specs.Ended.{EndTogether, FaultsAre, NoneDamaged, all_done};
ghost use Rattle.batch_ends.specs.Faults.{FaultsAreCounted};
ghost use Rattle.batch_ends.specs.Tells.{deck_ahead};
ghost use Rattle.net_core.specs.Ended.{HaveEnded, EndsSo};
ghost use Rattle.net_core.specs.Faults.{CausesAreCounted, JobFaultIsOwn, units_of};
ghost use Rattle.net_core.specs.Net.{NetStands, the_keeps};

use crate::{Net, Shared};
use batch_ends::{Outcomes, Peripherals, Ran, Units};
use batch_procs::{JobWork, Loader, Machine, Work};
use network_run::Network;
use solo_base::Outcome;
use solo_devices::{Area, Sink, Source};

impl<J: JobWork, S: Source, K: Sink, F: Loader<J>, A: Area, B: Area> Net<J, S, K, F, A, B> {
    /// How the network ended, once all five processes have.
    pub fn finish(self) -> Ran<S, K, F, A, B>
        requires ended { HaveEnded J.jobs (⟦<Net<J, S, K, F, A, B> as Network>⟧.Stands self) }

        // In every state that it stands for.
        ensures ends { (s : CoreState J.Load) →
            NetStands J.jobs (the_keeps J.jobs J.keeps)
            ⟦<Units<S, K, F, A, B> as Peripherals<J>>⟧.tells self s →
            EndsSo s result.outcomes result.stopped_by }
        ensures together { EndTogether result.outcomes result.stopped_by }
        ensures faults { FaultsAre result.outcomes }
        ensures counted { (before : Units S K F A B) →
            CausesAreCounted J.jobs (the_keeps J.jobs J.keeps)
            ⟦<Units<S, K, F, A, B> as Peripherals<J>>⟧.tells
            ⟦<Units<S, K, F, A, B> as Peripherals<J>>⟧.counts before self →
            FaultsAreCounted ⟦<Units<S, K, F, A, B> as Peripherals<J>>⟧.counts before result }
        ensures own { (before : Units S K F A B) →
            CausesAreCounted J.jobs (the_keeps J.jobs J.keeps)
            ⟦<Units<S, K, F, A, B> as Peripherals<J>>⟧.tells
            ⟦<Units<S, K, F, A, B> as Peripherals<J>>⟧.counts before self →
            JobFaultIsOwn ⟦<Units<S, K, F, A, B> as Peripherals<J>>⟧.counts before result.units
            result.outcomes }

        // For each place where it stands: the paper gained what one thread prints or a part of it, all of it
        // where all are done, and then nothing is left of the deck.
        ensures prints { (at : Placed (the_law J.jobs) (⟦<Net<J, S, K, F, A, B> as Network>⟧.Stands self)) →
            AreTold at.opening.spools → (items : List Item) (found : FilesAs J.Load) →
            at.opening.deck ≡ Some items → AreFound J.jobs at.opening.files found items →
            Gains at.opening.paper (K.given result.units.paper.sink) (text (one_thread J.jobs items found))
            (result.outcomes ≡ all_done) }
        ensures reads { (at : Placed (the_law J.jobs) (⟦<Net<J, S, K, F, A, B> as Network>⟧.Stands self)) →
            (items : List Item) → at.opening.deck ≡ Some items → result.outcomes ≡ all_done →
            deck_ahead ⟦<Units<S, K, F, A, B> as Peripherals<J>>⟧.tells result.units.deck ≡ Some [] }
        // and no page was damaged
        ensures undamaged { (at : Placed (the_law J.jobs)
            (⟦<Net<J, S, K, F, A, B> as Network>⟧.Stands self)) →
            AreTold at.opening.spools → NoneDamaged result.outcomes }
        ensures units { result.units ≡ units_of self.shared }
    {
        let Net {
            card,
            input,
            job,
            output,
            printer,
            shared,
            room: _,
        } = self;
        let outcomes = Outcomes {
            card: outcome(&card),
            input: outcome(&input),
            job: outcome(&job),
            output: outcome(&output),
            printer: outcome(&printer),
        };
        let Shared {
            deck,
            cards,
            input,
            output,
            lines,
            paper,
            files,
            desk: _,
            alloc: _,
            of: _,
        } = shared;
        Ran {
            outcomes,
            stopped_by: [
                cards.stopped_by(),
                input.stopped_by(),
                output.stopped_by(),
                lines.stopped_by(),
            ],
            units: Units {
                deck,
                paper,
                files,
                input: input.into_inner(),
                output: output.into_inner(),
            },
        }
    }
}

// How a process ended, by its cause.
fn outcome<J: JobWork, W: Work<J>>(machine: &Machine<J, W>) -> Outcome
    ensures { (h : List (Entry J.Load)) → StandsFor J.jobs W.process W.keeps machine.now h
        → result ≡ outcome_by (caused h) }
{
    match machine.cause() {
        Some(cause) => cause,
        None => Outcome::Done,
    }
}
