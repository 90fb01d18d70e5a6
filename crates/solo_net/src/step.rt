// The step of one process.
ghost use Rattle.std.specs.Prelude.{◌≡◌, List, Some};
ghost use Rattle.network_run.specs.declared.stepped.Stepped.TheVariants.{Acted};
ghost use Rattle.place_law.specs.Process.{Entry, next_action};
ghost use Rattle.solo_law.specs.Work.{Work};
ghost use Rattle.solo_law.specs.Actions.{Action, Reply, Works};
ghost use Rattle.solo_law.specs.Replies.{view};
ghost use Rattle.solo_law.specs.JobPlaces.{job};
ghost use Rattle.solo_procs.specs.Machine.{StandsFor};
ghost use Rattle.solo_procs.specs.Job.{job_at, JobStands};
ghost use Rattle.solo_net.specs.Actions.{IsNoWork, is_work};
ghost use Rattle.solo_net.specs.Telling.{solo_telling};
ghost use Rattle.solo_net.specs.Steps.{MayStep, Steps, IsAtWork, WorkSteps};

use crate::Shared;
use network_run::Stepped;
use solo_base::ProcNo;
use solo_devices::{Sink, Source};
use solo_procs::{Commands, Machine, Proc, SoloAction, SoloJob};

/// Takes the next action of a process, which is no piece of work.
pub fn step_machine<P: Proc, S: Source, Y: Source, K: Sink, T: Sink, F>(
    machine: &mut Machine<P>,
    p: ProcNo,
    shared: &mut Shared<S, Y, K, T, F>,
) -> Stepped
    requires may { MayStep P.process (StandsFor P.process P.is_at P.ready machine.old)
        shared.old p }
    ensures steps { (h : List (Entry Action Reply)) (action : Action) → IsNoWork action →
        StandsFor P.process P.is_at P.ready machine.old h →
        next_action view P.process h ≡ Some action →
        Steps (StandsFor P.process P.is_at P.ready machine.new)
        (solo_telling S.left S.taken S.faults Y.left Y.taken Y.faults K.given K.faults T.given T.faults)
        shared.old shared.new p action h result }
    ensures kept { P.kept machine.new.process ≡ P.kept machine.old.process }
{
    let action = machine.next();
    let goes = shared.buffers.goes(&action);
    match shared.perform(p, action) {
        None => Stepped::Delayed,
        Some(reply) => match machine.give(reply) {
            Ok(()) => goes,
            Err(_) => goes,
        },
    }
}

/// Does the piece of work that is next for the job process.
pub fn step_work<C: Commands>(machine: &mut SoloJob<C>, files: &mut C::Files) -> Stepped
    requires sound { C.sound files.old }
    requires at { IsAtWork (StandsFor job job_at (JobStands C.awaits) machine.old) }
    ensures steps { (h : List (Entry Action Reply)) (work : Work) →
        StandsFor job job_at (JobStands C.awaits) machine.old h →
        next_action view job h ≡ Some (Works work) →
        WorkSteps (StandsFor job job_at (JobStands C.awaits) machine.new) C.sound C.faults C.plans
        C.follows C.passes machine.old.process.commands machine.new.process.commands
        files.old files.new h work }
    ensures acted { result ≡ Acted }
{
    let reply = machine.work(files);
    match machine.give(reply) {
        Ok(()) => Stepped::Acted,
        Err(_) => Stepped::Acted,
    }
}

/// Whether an action is a piece of work.
pub(crate) fn is_work(action: &SoloAction) -> bool
    ensures { result ≡ is_work action.now }
{
    matches!(action, SoloAction::Work)
}
