ghost use Rattle.std.specs.Prelude.{◌≡◌, ℕ, ◌<◌, ◌≤◌, length, List, Some};
ghost use Rattle.solo_base.specs.declared.item.Item.{Item};
ghost use Rattle.batch_procs.specs.Jobs.{FilesAs};
ghost use Rattle.batch_procs.specs.Table.{process};
ghost use Rattle.network_run.specs.Law.{AreEnabled};
ghost use Rattle.network_run.specs.Sound.{IsSoundLaw, IsSureLaw};
ghost use Rattle.network_law.specs.Network.{IsEnabled, happens};
ghost use Rattle.core_law.specs.Core.{core, CoreState, CoreEvent};
ghost use Rattle.core_law.specs.Opening.{Opening};
ghost use Rattle.core_law.specs.TheLaw.{the_law, IsReached};
ghost use Rattle.core_law.specs.Bound.{longest_run};
ghost use Rattle.core_law.specs.Holds.{AreTold, AreFound, Holds, IsStuck};
ghost use Rattle.core_law.specs.Work.{events_left, LeavesFewer};

use batch_procs::HasJobs;

/// Whatever the order of the events, whichever calls of the devices fail and wherever memory is refused: in
/// each state that can be reached the paper gained a prefix of the one-thread output, the files that the jobs
/// name are loaded in order, each buffer hands over in order, one process has the disk, and a stop is told
/// rightly. Where all five ended with their work done, the paper gained all of it. Nothing is done here: the
/// contract is the law.
pub fn every_interleaving<J: HasJobs>()
    ensures { (opening : Opening J.jobs) (s : CoreState J.Load) → IsReached opening s → Holds opening s }
{}

/// No state that can be reached is stuck, whichever calls of the devices failed and wherever memory was
/// refused: where no event may happen but by a failure, all processes have ended. Nothing is done here: the
/// contract is the law.
pub fn no_state_is_stuck<J: HasJobs>()
    ensures { (opening : Opening J.jobs) (s : CoreState J.Load) → IsReached opening s → IsStuck J.jobs s → ⊥ }
{}

/// Each event leaves less to do, whatever the devices tell and whichever of them fails: so no run goes on for
/// ever. Nothing is done here: the contract is the law.
pub fn each_event_leaves_less<J: HasJobs>()
    ensures { (opening : Opening J.jobs) (s : CoreState J.Load) (event : CoreEvent J.Load) (before after : ℕ)
        → IsReached opening s → IsEnabled (core J.jobs (process J.jobs)) s event
        → LeavesFewer event.entry before after
        → events_left J.jobs after (happens (core J.jobs (process J.jobs)) s event)
        < events_left J.jobs before s }
{}

/// Over told devices no run is longer than the cards of its deck and the lines that one thread prints for
/// them allow, whichever calls fail and wherever memory is refused. Nothing is done here: the contract is the
/// law.
pub fn no_run_is_longer<J: HasJobs>()
    ensures { (opening : Opening J.jobs) (s : CoreState J.Load) (items : List Item) (found : FilesAs J.Load)
        (events : List (CoreEvent J.Load)) → IsReached opening s → AreTold opening.spools
        → opening.deck ≡ Some items → AreFound J.jobs opening.files found items
        → AreEnabled (the_law J.jobs) s events
        → length events ≤ longest_run J.jobs found items }
{}

/// Whatever the devices do, no reached state is stuck and each grant is seen at the holder; and where all
/// that is inside the devices is told, nothing is open but who steps next. Nothing is done here: the contract
/// is the law.
pub fn law_of_the_core<J: HasJobs>()
    ensures sound { IsSoundLaw (the_law J.jobs) }
    ensures sure { IsSureLaw (the_law J.jobs) }
{}
