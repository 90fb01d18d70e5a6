ghost use Rattle.std.specs.Prelude.{◌≡◌, []};
ghost use Rattle.solo_run.specs.Job.{JobActs, JobDid, JobMayAct, JobRan, job_world};
ghost use Rattle.solo_run.specs.Running.{EndsSo};

use crate::job_side::JobSide;
use crate::run::end_of;
use solo_base::Outcome;
use solo_devices::{Sink, Source};
use solo_procs::{Commands, SoloAction, SoloJob, SoloReply};
use std::alloc::Global;
use std::sync::Wait;
use std::thread::Threads;

/// Runs the job process up to its end.
pub fn run_job<C: Commands + Drop, Y: Source, T: Sink, R: Threads + Wait + Sync>(
    side: &mut JobSide<Y, T, C::Files>,
    rt: &R,
    alloc: Global,
) -> Outcome
    requires { JobRan (job_world Y.left Y.taken Y.faults T.given T.faults C.sound C.faults C.opens
        C.follows C.passes)
        (C.opens side.old.files) side.old side.old [] }
    ensures { EndsSo 2 (JobDid (job_world Y.left Y.taken Y.faults T.given T.faults C.sound C.faults C.opens
        C.follows C.passes)
        side.old side.new) result }
{
    let mut machine = SoloJob::<C>::new(alloc);
    for _ in rt.forever() {
        let action = machine.next();
        let end = end_of(&action);
        let reply = act(&mut machine, side, action, rt);
        if let Some(how) = end {
            return how;
        }
        let _ = machine.give(reply);
    }
    unreachable!()
}

// Does a piece of work, or performs another action.
fn act<C: Commands + Drop, Y: Source, T: Sink, R: Threads + Wait + Sync>(
    machine: &mut SoloJob<C>,
    side: &mut JobSide<Y, T, C::Files>,
    action: SoloAction,
    rt: &R,
) -> SoloReply
    requires may { JobMayAct C.sound side.old action }
    ensures acts { JobActs (job_world Y.left Y.taken Y.faults T.given T.faults C.sound C.faults C.opens
        C.follows C.passes)
        C.awaits C.plans C.follows machine.old machine.new side.old side.new action result }
{
    match action {
        SoloAction::Work => machine.work(&mut side.files),
        other => side.perform(other, rt),
    }
}
