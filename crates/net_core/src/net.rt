ghost use Rattle.std.specs.Prelude.{◌≡◌, ◌≤◌, ◌<◌, true, [], refl};
ghost use Rattle.std.proofs.Common.{◌∙◌};
ghost use Rattle.core_law.specs.TheLaw.{the_law};
ghost use Rattle.core_law.specs.Work.{events_left};
ghost use Rattle.core_law.proofs.Law.{sound, sure};
ghost use Rattle.core_law.proofs.WorkFalls.{work-falls};
ghost use Rattle.batch_ends.specs.Devices.{cards_left};
ghost use Rattle.net_core.specs.Faults.{units_of, CausesAreCounted};
ghost use Rattle.net_core.specs.Moves.{KeepsAll, MovesBy};
ghost use Rattle.net_core.specs.Net.{the_keeps, StandsWithin, StandsAtOpening};

use crate::Shared;
use crate::step::step_machine;
use crate::turns::may_step;
use batch_ends::{Peripherals, Units};
use batch_procs::{
    CardProc, InputProc, JobProc, JobWork, Loader, Machine, OutputProc, PrinterProc,
};
use network_run::{Falling, Network, Stepped, Sure};
use solo_base::{Page, ProcNo};
use solo_devices::{Area, Sink, Source};
use std::alloc::Global;

/// The network of the Job Stream System over jobs of this kind, which is stepped one event at a time. It
/// keeps no histories: contracts say which states of the core it stands for.
#[derive(Drop)]
pub struct Net<J, S: Source, K: Sink, F, A: Area, B: Area> {
    pub card: CardProc<J>,
    pub input: InputProc<J>,
    pub job: JobProc<J>,
    pub output: OutputProc<J>,
    pub printer: PrinterProc<J>,
    pub shared: Shared<J, S, K, F, A, B>,
    /// Where a page that is taken lies while its process reads it.
    pub room: Page,
}

impl<J: JobWork, S: Source, K: Sink, F: Loader<J>, A: Area, B: Area> Net<J, S, K, F, A, B> {
    /// The network before its first step: a deck of which nothing was read, an area of 1 to 256 pages for
    /// each spool, and files of which one may be loaded.
    pub fn make(alloc: Global, units: Units<S, K, F, A, B>) -> Self
        requires deck { (units.deck.live ≡ true) × (units.deck.pending ≡ []) }
        requires unread { S.taken units.deck.source ≡ 0 }
        requires paper { units.paper.live ≡ true }
        requires input { (0 < A.size units.input) × (A.size units.input ≤ 256) }
        requires output { (0 < B.size units.output) × (B.size units.output ≤ 256) }
        requires sound { F.sound units.files }
        ensures opens { StandsAtOpening J.jobs (⟦<Net<J, S, K, F, A, B> as Network>⟧.Stands result)
            ⟦<Units<S, K, F, A, B> as Peripherals<J>>⟧.tells units }
        ensures units { units_of result.shared ≡ units }
        ensures counted { CausesAreCounted J.jobs (the_keeps J.jobs J.keeps)
            ⟦<Units<S, K, F, A, B> as Peripherals<J>>⟧.tells
            ⟦<Units<S, K, F, A, B> as Peripherals<J>>⟧.counts units result }
    {
        Net {
            card: Machine::new(alloc),
            input: Machine::new(alloc),
            job: Machine::new(alloc),
            output: Machine::new(alloc),
            printer: Machine::new(alloc),
            shared: Shared::make(alloc, units),
            room: Page::zeros(),
        }
    }
}

impl<J: JobWork, S: Source, K: Sink, F: Loader<J>, A: Area, B: Area> Network
    for Net<J, S, K, F, A, B> {
    ghost law = { the_law J.jobs };

    ghost Stands = { λ net s. StandsWithin J.jobs (the_keeps J.jobs J.keeps)
        ⟦<Units<S, K, F, A, B> as Peripherals<J>>⟧.tells net s };

    ghost Moves = { λ old event new. MovesBy J.jobs (the_keeps J.jobs J.keeps)
        ⟦<Units<S, K, F, A, B> as Peripherals<J>>⟧.tells
        ⟦<Units<S, K, F, A, B> as Peripherals<J>>⟧.counts old event new };

    ghost Keeps = { λ old new. KeepsAll J.jobs (the_keeps J.jobs J.keeps)
        ⟦<Units<S, K, F, A, B> as Peripherals<J>>⟧.tells
        ⟦<Units<S, K, F, A, B> as Peripherals<J>>⟧.counts old new };

    ghost left = { λ net s. events_left J.jobs (cards_left S.taken net.shared.deck) s };

    ghost sound = { sound J.are_jobs };

    ghost keeps_itself = { λ net. record { counted = λ before were. were; total = refl; files = refl } };

    ghost keeps_on = { λ first old new at event is stands moves kept. record {
      counted = λ before were. moves.all.counted before (kept.counted before were);
      total = moves.all.total ∙ kept.total;
      files = moves.all.files ∙ kept.files;
    } };

    fn size(&self) -> ProcNo {
        5
    }

    fn has_ended(&self, p: ProcNo) -> bool {
        if p == 1 {
            self.card.has_ended()
        } else if p == 2 {
            self.input.has_ended()
        } else if p == 3 {
            self.job.has_ended()
        } else if p == 4 {
            self.output.has_ended()
        } else {
            self.printer.has_ended()
        }
    }

    fn enabled(&self, p: ProcNo) -> bool {
        if p == 1 {
            may_step(&self.card, p, &self.shared)
        } else if p == 2 {
            may_step(&self.input, p, &self.shared)
        } else if p == 3 {
            may_step(&self.job, p, &self.shared)
        } else if p == 4 {
            may_step(&self.output, p, &self.shared)
        } else if p == 5 {
            may_step(&self.printer, p, &self.shared)
        } else {
            false
        }
    }

    fn step(&mut self, p: ProcNo) -> Stepped {
        if p == 1 {
            step_machine(&mut self.card, p, &mut self.shared, &mut self.room)
        } else if p == 2 {
            step_machine(&mut self.input, p, &mut self.shared, &mut self.room)
        } else if p == 3 {
            step_machine(&mut self.job, p, &mut self.shared, &mut self.room)
        } else if p == 4 {
            step_machine(&mut self.output, p, &mut self.shared, &mut self.room)
        } else {
            step_machine(&mut self.printer, p, &mut self.shared, &mut self.room)
        }
    }
}

impl<J: JobWork, S: Source, K: Sink, F: Loader<J>, A: Area, B: Area> Falling
    for Net<J, S, K, F, A, B> {
    ghost falls = { λ old new at event is stands moves.
        work-falls J.are_jobs at.opening at.state event (cards_left S.taken old.shared.deck)
        (cards_left S.taken new.shared.deck) at.reached is moves.deck };

    ghost few = { λ net at. at.stands.within };

    fn holder(&self) -> Option<ProcNo> {
        self.shared.desk.holder()
    }
}

impl<J: JobWork, S: Source, K: Sink, F: Loader<J>, A: Area, B: Area> Sure
    for Net<J, S, K, F, A, B> {
    ghost sure = { sure J.are_jobs };
}
