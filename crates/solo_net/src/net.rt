ghost use Rattle.std.specs.Prelude.{◌≡◌, true, Option, refl};
ghost use Rattle.std.proofs.Common.{◌∙◌};
ghost use Rattle.solo_law.specs.Work.{Plan};
ghost use Rattle.solo_law.specs.Solo.{the_law};
ghost use Rattle.solo_law.proofs.Law.{sound};
ghost use Rattle.solo_net.specs.Telling.{solo_telling};
ghost use Rattle.solo_net.specs.Net.{commands_of, SoloNetStands, MovesSo, KeepsSo, SoloIsCounted, SoloOpensOver};
ghost use Rattle.solo_ends.specs.Told.{IsOpenedBy};
ghost use Rattle.solo_ends.specs.Faults.{devices_of};

use crate::step::is_work;
use crate::turns::may_step;
use crate::{Buffers, Shared, step_machine, step_work};
use network_run::{Network, Stepped};
use solo_base::ProcNo;
use solo_devices::{Sink, Source};
use solo_ends::SoloUnits;
use solo_procs::{Commands, Machine, SoloInput, SoloJob, SoloOutput};
use std::alloc::Global;
use std::snapshot::Snapshot;

/// Solo: its three processes over what they share, which are stepped one event at a time. They keep
/// no histories: contracts say which states of Solo they stand for.
pub struct SoloNet<C: Commands, S: Source, Y: Source, K: Sink, T: Sink> {
    pub input: SoloInput,
    pub job: SoloJob<C>,
    pub output: SoloOutput,
    pub shared: Shared<S, Y, K, T, C::Files>,
    /// The files with which it began.
    pub first_files: Snapshot<C::Files>,
}

impl<C: Commands, S: Source, Y: Source, K: Sink, T: Sink> SoloNet<C, S, Y, K, T> {
    /// Solo before its first step, with units that may still be used and sound files.
    pub fn make(alloc: Global, units: SoloUnits<S, Y, K, T, C::Files>) -> Self
        requires cards { units.cards.live ≡ true }
        requires keys { units.typewriter.keys.live ≡ true }
        requires console { units.typewriter.console.live ≡ true }
        requires paper { units.paper.live ≡ true }
        requires sound { C.sound units.files }

        // It stands for the opening state over what these units tell, whatever plan the files open
        // with.
        ensures opens { (plan : Option Plan) → IsOpenedBy (C.opens units.files) plan →
            SoloOpensOver (commands_of C.awaits C.plans C.sound C.faults C.follows C.passes)
            (solo_telling S.left S.taken S.faults Y.left Y.taken Y.faults
            K.given K.faults T.given T.faults)
            result units plan }
        ensures units { (result.shared.units ≡ units) × (result.first_files.value ≡ units.files) }
        ensures counted { SoloIsCounted
            (commands_of C.awaits C.plans C.sound C.faults C.follows C.passes)
            (solo_telling S.left S.taken S.faults Y.left Y.taken Y.faults
            K.given K.faults T.given T.faults)
            (devices_of units) result }
    {
        let first_files = Snapshot::of(&units.files);
        SoloNet {
            input: Machine::new(alloc),
            job: Machine::new(alloc),
            output: Machine::new(alloc),
            shared: Shared {
                units,
                buffers: Buffers::new(),
            },
            first_files,
        }
    }
}

impl<C: Commands, S: Source, Y: Source, K: Sink, T: Sink> Network for SoloNet<C, S, Y, K, T> {
    ghost law = { the_law };

    ghost Stands = { λ net s. SoloNetStands
        (commands_of C.awaits C.plans C.sound C.faults C.follows C.passes)
        (solo_telling S.left S.taken S.faults Y.left Y.taken Y.faults
        K.given K.faults T.given T.faults) net s };

    ghost Moves = { λ old event new. MovesSo
        (commands_of C.awaits C.plans C.sound C.faults C.follows C.passes)
        (solo_telling S.left S.taken S.faults Y.left Y.taken Y.faults K.given K.faults T.given T.faults)
        old event new };

    ghost Keeps = { λ old new. KeepsSo
        (commands_of C.awaits C.plans C.sound C.faults C.follows C.passes)
        (solo_telling S.left S.taken S.faults Y.left Y.taken Y.faults
        K.given K.faults T.given T.faults) old new };

    ghost left = { λ net s. 0 };

    ghost sound = { sound };

    ghost keeps_itself = { λ net. record {
      counted = λ before were. were;
      cards_total = refl;
      keys_total = refl;
      first_files = refl;
    } };

    ghost keeps_on = { λ first old new at event is stands moves kept. record {
      counted = λ before were. moves.keeps.counted before (kept.counted before were);
      cards_total = moves.keeps.cards_total ∙ kept.cards_total;
      keys_total = moves.keeps.keys_total ∙ kept.keys_total;
      first_files = moves.keeps.first_files ∙ kept.first_files;
    } };

    fn size(&self) -> ProcNo {
        3
    }

    fn has_ended(&self, p: ProcNo) -> bool {
        if p == 1 {
            self.input.has_ended()
        } else if p == 2 {
            self.job.has_ended()
        } else {
            self.output.has_ended()
        }
    }

    fn enabled(&self, p: ProcNo) -> bool {
        if p == 1 {
            may_step(&self.input, p, &self.shared.buffers)
        } else if p == 2 {
            may_step(&self.job, p, &self.shared.buffers)
        } else if p == 3 {
            may_step(&self.output, p, &self.shared.buffers)
        } else {
            false
        }
    }

    fn step(&mut self, p: ProcNo) -> Stepped {
        if p == 1 {
            step_machine(&mut self.input, p, &mut self.shared)
        } else if p == 2 {
            let action = self.job.next();
            if is_work(&action) {
                step_work(&mut self.job, &mut self.shared.units.files)
            } else {
                step_machine(&mut self.job, 2, &mut self.shared)
            }
        } else {
            step_machine(&mut self.output, p, &mut self.shared)
        }
    }
}
