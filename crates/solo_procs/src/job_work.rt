// The job process's own work.
ghost use Rattle.std.specs.Prelude.{◌≡◌, ◌≤◌, List, [], ◌∷◌, ◌++◌, Some};
ghost use Rattle.solo_devices.specs.Count.{Rose};
ghost use Rattle.place_law.specs.Process.{Entry, next_action};
ghost use Rattle.solo_law.specs.Work.{Work, Given as GivenOf};
ghost use Rattle.solo_law.specs.Actions.{Action, Reply, Works};
ghost use Rattle.solo_law.specs.Replies.{view};
ghost use Rattle.solo_law.specs.JobPlaces.{job};
ghost use Rattle.solo_procs.specs.declared.actions.SoloReply.TheVariants as hear;
ghost use Rattle.solo_procs.specs.Machine.{StandsFor};
ghost use Rattle.solo_procs.specs.Job.{job_at, JobStands, HasWorked, LedSo};

use crate::SoloReply;
use crate::commands::{Commands, Given, WorkFault};
use crate::job_proc::{JobProc, SoloJob};
use crate::machine::Machine;
use std::mem;

impl<C: Commands> Machine<JobProc<C>> {
    /// Does the work, where it is next, up to what its command needs then. The answer is then given: Done,
    /// Failed only where the files counted a fault, or that memory was refused.
    pub fn work(&mut self, files: &mut C::Files) -> SoloReply
        requires sound { C.sound files.old }
        ensures works { (h : List (Entry Action Reply)) (work : Work)
            → StandsFor job job_at (JobStands C.awaits) self.old h
            → next_action view job h ≡ Some (Works work)
            → HasWorked C.awaits (C.plans self.old.process.commands files.old)
            (C.plans self.new.process.commands files.new) self.new h work result }
        // Where the files counted no fault they are some to which all work so far comes.
        ensures follows { (h : List (Entry Action Reply)) (work : Work)
            → StandsFor job job_at (JobStands C.awaits) self.old h
            → next_action view job h ≡ Some (Works work)
            → (opening : C.Files) (before : List GivenOf)
            → C.follows self.old.process.commands opening before files.old
            → LedSo result (C.follows self.new.process.commands opening (before ++ work.given ∷ []) files.new)
            (C.passes opening (before ++ work.given ∷ []) files.new) }
        ensures sound { result ≡ hear.Done → C.sound files.new }
        ensures failed { result ≡ hear.Failed → Rose (C.faults files.old) (C.faults files.new) }
        ensures counts { C.faults files.old ≤ C.faults files.new }
    {
        let given = mem::replace(&mut self.process.given, Given::Nothing);
        match self.process.commands.work(given, files) {
            Ok(need) => {
                self.process.met = Some(need);
                SoloReply::Done
            }
            Err(WorkFault::Failed) => SoloReply::Failed,
            Err(WorkFault::NoMemory) => SoloReply::NoMemory,
        }
    }
}
