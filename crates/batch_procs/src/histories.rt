ghost use Rattle.batch_procs.specs.Ahead.{AheadFalls, TheFiveAreBounded};
ghost use Rattle.batch_procs.specs.Faults.{EachCauseIsGiven, FaultsOfTheFive};
ghost use Rattle.batch_procs.specs.Laws.{TheFiveAreRelays, HistoriesKeep};

use crate::job_work::JobWork;

/// What holds of the histories of the five processes, whatever the jobs are. Nothing is done here: the
/// contract is the law, for those who run the processes in turn or side by side.
pub fn histories_keep<J: JobWork>()
    ensures five { TheFiveAreRelays J.jobs }
    ensures keep { HistoriesKeep J.jobs }

    // Each cause has its entry, and each process its faults.
    ensures given { EachCauseIsGiven J.Load }
    ensures faults { FaultsOfTheFive J.jobs }

    // Each answered action lowers what a process may still do; only what it takes raises it.
    ensures falls { AheadFalls J.jobs }
    ensures bounds { TheFiveAreBounded J.jobs }
{}
