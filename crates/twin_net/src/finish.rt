ghost use Rattle.std.specs.Prelude.{◌≡◌, List, [], Some};
ghost use Rattle.solo_base.specs.declared.item.Item.{Item};
ghost use Rattle.solo_base.specs.Text.{text};
ghost use Rattle.solo_devices.specs.PrinterUnit.{Gains};
ghost use Rattle.batch_procs.specs.Jobs.{FilesAs, one_thread};
ghost use Rattle.network_run.specs.Law.{Placed};
ghost use Rattle.twin_law.specs.Opening.{AreTold};
ghost use Rattle.twin_law.specs.TheLaw.{the_law};
ghost use Rattle.twin_law.specs.Twin.{TwinState};
ghost use Rattle.twin_law.specs.UnitWork.{AreByUnits};
ghost use Rattle.twin_ends.specs.TwinTells.{cards_ahead};
ghost use Rattle.twin_net.specs.TwinStands.{TwinStands, shared_units};
ghost use Rattle.twin_net.specs.Counted.{TwinFaultsAreCounted, CountedSoFar, outcomes_now};
ghost use Rattle.twin_net.specs.Ended.{
  TwinHaveEnded,
  TwinEndsSo,
  TwinFaultsAre,
  TwinStoppedSo,
  TwinTogether,
  TwinNoneDamaged,
  twin_all_done,
  six_sides,
};

use crate::{TwinNet, TwinShared, TwinSpools};
use batch_procs::{JobWork, Loader};
use network_run::Network;
use solo_base::Side;
use solo_devices::{Area, Sink, Source};
use twin_ends::{TwinOutcomes, TwinPeripherals, TwinRan, TwinUnits};

impl<J: JobWork, S: Source, K: Sink, F: Loader<J>, A: Area> TwinNet<J, S, K, F, A> {
    /// How the network ended, once all six processes have.
    pub fn finish(self) -> TwinRan<S, K, F, A>
        requires ended { TwinHaveEnded J.jobs (⟦<TwinNet<J, S, K, F, A> as Network>⟧.Stands self) }

        // At each place where it stands: each process ended so, by its cause, and these sides stopped the
        // buffers first.
        ensures ends { (at : Placed (the_law J.jobs) (⟦<TwinNet<J, S, K, F, A> as Network>⟧.Stands self)) →
            TwinEndsSo J.jobs at.state result.outcomes result.stopped_by }
        ensures faults { TwinFaultsAre result.outcomes }
        ensures stopped { TwinStoppedSo result.outcomes result.stopped_by }

        // What was counted so far, from whichever devices it is counted, is what this run tells.
        ensures counted { (before : TwinUnits S K F A) →
            CountedSoFar ⟦<TwinUnits<S, K, F, A> as TwinPeripherals<J>>⟧.counts before self →
            TwinFaultsAreCounted ⟦<TwinUnits<S, K, F, A> as TwinPeripherals<J>>⟧.counts before result.units
            result.outcomes }

        // The paper gained what one thread prints or a part of it, all of it where all are done, and then
        // nothing is left of the deck.
        ensures prints { (at : Placed (the_law J.jobs) (⟦<TwinNet<J, S, K, F, A> as Network>⟧.Stands self)) →
            AreByUnits J.jobs → AreTold at.opening.spools → (items : List Item) (found : FilesAs J.Load) →
            at.opening.deck ≡ Some items → at.opening.files ≡ Some found →
            Gains at.opening.paper (K.given result.units.paper.sink) (text (one_thread J.jobs items found))
            (result.outcomes ≡ twin_all_done) }
        ensures reads { (at : Placed (the_law J.jobs) (⟦<TwinNet<J, S, K, F, A> as Network>⟧.Stands self)) →
            (items : List Item) → at.opening.deck ≡ Some items → result.outcomes ≡ twin_all_done →
            cards_ahead ⟦<TwinUnits<S, K, F, A> as TwinPeripherals<J>>⟧.tells result.units.deck ≡ Some [] }

        // Over told devices none was stopped where no process has a fault, and over told spools no page was
        // damaged.
        ensures together { (at : Placed (the_law J.jobs)
            (⟦<TwinNet<J, S, K, F, A> as Network>⟧.Stands self)) →
            AreByUnits J.jobs → AreTold at.opening.spools → (items : List Item) (found : FilesAs J.Load) →
            at.opening.deck ≡ Some items → at.opening.files ≡ Some found → TwinTogether result.outcomes }
        ensures undamaged { (at : Placed (the_law J.jobs)
            (⟦<TwinNet<J, S, K, F, A> as Network>⟧.Stands self)) →
            AreTold at.opening.spools → TwinNoneDamaged result.outcomes }
        ensures units { result.units ≡ shared_units self.shared }
    {
        let outcomes = self.ended_as();
        let TwinNet {
            card: _,
            input: _,
            job_a: _,
            job_b: _,
            output: _,
            printer: _,
            shared,
            room: _,
        } = self;
        TwinRan {
            outcomes,
            stopped_by: shared.stopped_by(),
            units: shared.into_units(),
        }
    }

    /// How each process has ended, or would with the cause that it has.
    fn ended_as(&self) -> TwinOutcomes
        ensures { result ≡ outcomes_now self.now }
    {
        TwinOutcomes {
            card: self.card.outcome(),
            input: self.input.outcome(),
            job_a: self.job_a.outcome(),
            job_b: self.job_b.outcome(),
            output: self.output.outcome(),
            printer: self.printer.outcome(),
        }
    }
}

impl<J: JobWork, S: Source, K: Sink, F: Loader<J>, A: Area> TwinShared<J, S, K, F, A> {
    /// The sides that stopped the six buffers first.
    fn stopped_by(&self) -> [Option<Side>; 6]
        ensures { (s : TwinState J.Load) →
            TwinStands ⟦<TwinUnits<S, K, F, A> as TwinPeripherals<J>>⟧.tells self.now s →
            result ≡ six_sides s }
    {
        [
            self.cards.stopped_by(),
            self.spools.to_a.stopped_by(),
            self.spools.to_b.stopped_by(),
            self.spools.from_a.stopped_by(),
            self.spools.from_b.stopped_by(),
            self.lines.stopped_by(),
        ]
    }

    /// The devices that they shared.
    fn into_units(self) -> TwinUnits<S, K, F, A>
        ensures { result ≡ shared_units self }
    {
        let TwinShared {
            deck,
            cards: _,
            spools,
            lines: _,
            paper,
            files,
            sound: _,
            desk: _,
            alloc: _,
            of: _,
        } = self;
        let TwinSpools {
            to_a,
            to_b,
            from_a,
            from_b,
        } = spools;
        TwinUnits {
            deck,
            paper,
            files,
            to_a: to_a.into_inner(),
            to_b: to_b.into_inner(),
            from_a: from_a.into_inner(),
            from_b: from_b.into_inner(),
        }
    }
}
