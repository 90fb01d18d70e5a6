ghost use Rattle.std.specs.Prelude.{◌≡◌, ◌≤◌, ◌<◌, true, [], refl};
ghost use Rattle.std.proofs.Common.{◌∙◌};
ghost use Rattle.batch_ends.specs.Devices.{cards_left};
ghost use Rattle.twin_law.specs.TheLaw.{the_law};
ghost use Rattle.twin_law.specs.Left.{events_left};
ghost use Rattle.twin_law.proofs.Reached.{sound};
ghost use Rattle.twin_law.proofs.LeavesFewer.{leaves-fewer};
ghost use Rattle.twin_net.specs.TwinStands.{shared_units};
ghost use Rattle.twin_net.specs.Counted.{CountedSoFar};
ghost use Rattle.twin_net.specs.Net.{TwinStandsWithin, TwinMoves, TwinKeeps, TwinOpensOver};

use crate::TwinShared;
use crate::step::step_machine;
use crate::turns::may_step;
use batch_procs::{JobWork, Loader};
use network_run::{Falling, Network, Stepped};
use solo_base::{Page, ProcNo};
use solo_devices::{Area, Sink, Source};
use std::alloc::Global;
use twin_ends::{TwinPeripherals, TwinUnits};
use twin_procs::{
    SideA, SideB, TwinCard, TwinInput, TwinJob, TwinMachine, TwinOutput, TwinPrinter,
};

/// The twin network over jobs of this kind, which is stepped one event at a time. It keeps no histories:
/// contracts say which states of the law it stands for.
#[derive(Drop)]
pub struct TwinNet<J, S: Source, K: Sink, F, A: Area> {
    pub card: TwinCard<J>,
    pub input: TwinInput<J>,
    pub job_a: TwinJob<J, SideA>,
    pub job_b: TwinJob<J, SideB>,
    pub output: TwinOutput<J>,
    pub printer: TwinPrinter<J>,
    pub shared: TwinShared<J, S, K, F, A>,
    /// Where a page that is taken lies while its process reads it.
    pub room: Page,
}

impl<J: JobWork, S: Source, K: Sink, F: Loader<J>, A: Area> TwinNet<J, S, K, F, A> {
    /// The network before its first step: a deck of which nothing was read, an area of 1 to 256 pages for
    /// each spool, and files of which one may be loaded.
    pub fn make(alloc: Global, units: TwinUnits<S, K, F, A>) -> Self
        requires deck { (units.deck.live ≡ true) × (units.deck.pending ≡ []) }
        requires unread { S.taken units.deck.source ≡ 0 }
        requires paper { units.paper.live ≡ true }
        requires to_a { (0 < A.size units.to_a) × (A.size units.to_a ≤ 256) }
        requires to_b { (0 < A.size units.to_b) × (A.size units.to_b ≤ 256) }
        requires from_a { (0 < A.size units.from_a) × (A.size units.from_a ≤ 256) }
        requires from_b { (0 < A.size units.from_b) × (A.size units.from_b ≤ 256) }
        requires sound { F.sound units.files }
        ensures opens { TwinOpensOver J.jobs (⟦<TwinNet<J, S, K, F, A> as Network>⟧.Stands result)
            ⟦<TwinUnits<S, K, F, A> as TwinPeripherals<J>>⟧.tells units }
        ensures units { shared_units result.shared ≡ units }
        ensures counted { CountedSoFar ⟦<TwinUnits<S, K, F, A> as TwinPeripherals<J>>⟧.counts units result }
    {
        TwinNet {
            card: TwinMachine::new(alloc),
            input: TwinMachine::new(alloc),
            job_a: TwinMachine::new(alloc),
            job_b: TwinMachine::new(alloc),
            output: TwinMachine::new(alloc),
            printer: TwinMachine::new(alloc),
            shared: TwinShared::make(alloc, units),
            room: Page::zeros(),
        }
    }
}

impl<J: JobWork, S: Source, K: Sink, F: Loader<J>, A: Area> Network for TwinNet<J, S, K, F, A> {
    ghost law = { the_law J.jobs };

    ghost Stands = { λ net s. TwinStandsWithin J.jobs J.keeps
        ⟦<TwinUnits<S, K, F, A> as TwinPeripherals<J>>⟧.tells net s };

    ghost Moves = { λ old event new. TwinMoves
        ⟦<TwinUnits<S, K, F, A> as TwinPeripherals<J>>⟧.tells
        ⟦<TwinUnits<S, K, F, A> as TwinPeripherals<J>>⟧.counts old event new };

    ghost Keeps = { λ old new. TwinKeeps ⟦<TwinUnits<S, K, F, A> as TwinPeripherals<J>>⟧.tells
        ⟦<TwinUnits<S, K, F, A> as TwinPeripherals<J>>⟧.counts old new };

    ghost left = { λ net s. events_left J.jobs (cards_left S.taken net.shared.deck) s };

    ghost sound = { sound J.are_jobs };

    ghost keeps_itself = { λ net. record { counted = λ before were. were; total = refl; files = refl } };

    ghost keeps_on = { λ first old new at event is stands moves kept. record {
      counted = λ before were. moves.all.counted before (kept.counted before were);
      total = moves.all.total ∙ kept.total;
      files = moves.all.files ∙ kept.files;
    } };

    fn size(&self) -> ProcNo {
        6
    }

    fn has_ended(&self, p: ProcNo) -> bool {
        if p == 1 {
            self.card.has_ended()
        } else if p == 2 {
            self.input.has_ended()
        } else if p == 3 {
            self.job_a.has_ended()
        } else if p == 4 {
            self.job_b.has_ended()
        } else if p == 5 {
            self.output.has_ended()
        } else {
            self.printer.has_ended()
        }
    }

    fn enabled(&self, p: ProcNo) -> bool {
        if p == 1 {
            may_step(&self.card, p, &self.shared)
        } else if p == 2 {
            may_step(&self.input, p, &self.shared)
        } else if p == 3 {
            may_step(&self.job_a, p, &self.shared)
        } else if p == 4 {
            may_step(&self.job_b, p, &self.shared)
        } else if p == 5 {
            may_step(&self.output, p, &self.shared)
        } else if p == 6 {
            may_step(&self.printer, p, &self.shared)
        } else {
            false
        }
    }

    fn step(&mut self, p: ProcNo) -> Stepped {
        if p == 1 {
            step_machine(&mut self.card, p, &mut self.shared, &mut self.room)
        } else if p == 2 {
            step_machine(&mut self.input, p, &mut self.shared, &mut self.room)
        } else if p == 3 {
            step_machine(&mut self.job_a, p, &mut self.shared, &mut self.room)
        } else if p == 4 {
            step_machine(&mut self.job_b, p, &mut self.shared, &mut self.room)
        } else if p == 5 {
            step_machine(&mut self.output, p, &mut self.shared, &mut self.room)
        } else {
            step_machine(&mut self.printer, p, &mut self.shared, &mut self.room)
        }
    }
}

impl<J: JobWork, S: Source, K: Sink, F: Loader<J>, A: Area> Falling for TwinNet<J, S, K, F, A> {
    ghost falls = { λ old new at event is stands moves.
        leaves-fewer J.are_jobs at.opening at.state event (cards_left S.taken old.shared.deck)
        (cards_left S.taken new.shared.deck) at.reached is moves.deck };

    ghost few = { λ net at. at.stands.within };

    fn holder(&self) -> Option<ProcNo> {
        self.shared.desk.holder()
    }
}
