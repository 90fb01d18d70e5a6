// Each law is in a contract.

ghost use Rattle.std.specs.Prelude.{◌≡◌, ◌≤◌, ◌<◌, ℕ, List, length, Some};
ghost use Rattle.network_run.specs.Law.{AreEnabled};
ghost use Rattle.network_run.specs.Sound.{IsSoundLaw};
ghost use Rattle.network_law.specs.Network.{IsEnabled, happens};
ghost use Rattle.solo_base.specs.declared.item.Item.{Item};
ghost use Rattle.batch_procs.specs.Jobs.{FilesAs};
ghost use Rattle.twin_law.specs.Twin.{twin, TwinState, TwinEvent};
ghost use Rattle.twin_law.specs.Opening.{AreTold, Opening};
ghost use Rattle.twin_law.specs.TheLaw.{the_law, first_state, IsReached, IsStuck};
ghost use Rattle.twin_law.specs.UnitWork.{AreByUnits};
ghost use Rattle.twin_law.specs.Holds.{Holds};
ghost use Rattle.twin_law.specs.Bound.{longest_run};
ghost use Rattle.twin_law.specs.Left.{events_left, DrawsFrom};

use batch_procs::HasJobs;

/// Whatever the order of the events, whichever calls of the devices fail and wherever memory is refused: in
/// each state that can be reached the paper gained a prefix of the one-thread output, each buffer hands over
/// in order, one process has the disk, a stop is told rightly, and each process ends as its cause says. Where
/// all six ended with their work done, the paper gained all of it. Nothing is done here: the contract is the
/// law.
pub fn every_interleaving<J: HasJobs>()
    ensures { (opening : Opening J.jobs) (s : TwinState J.Load) → IsReached opening s → Holds opening s }
{}

/// No state that can be reached is stuck, whichever calls of the devices failed and wherever memory was
/// refused: where no event may happen but by a failure, all processes have ended. Nothing is done here: the
/// contract is the law.
pub fn no_state_is_stuck<J: HasJobs>()
    ensures { (opening : Opening J.jobs) (s : TwinState J.Load) → IsReached opening s → IsStuck J.jobs s → ⊥ }
{}

/// Over told devices no run is longer than the cards of its deck, its units and the lines that one thread
/// prints for them allow, whichever calls fail and wherever memory is refused, where the jobs can be worked
/// on unit by unit. Nothing is done here: the contract is the law.
pub fn no_run_is_longer<J: HasJobs>()
    ensures { (opening : Opening J.jobs) (items : List Item) (found : FilesAs J.Load)
        (events : List (TwinEvent J.Load)) → AreByUnits J.jobs → AreTold opening.spools
        → opening.deck ≡ Some items → opening.files ≡ Some found
        → AreEnabled (the_law J.jobs) (first_state opening) events
        → length events ≤ longest_run J.jobs found items }
{}

/// How many events may still happen is a number that each event lowers, whatever the devices tell, whichever
/// calls fail and wherever memory is refused: it rests on how many cards the deck may still give. Nothing is
/// done here: the contract is the law.
pub fn each_event_leaves_fewer<J: HasJobs>()
    ensures { (opening : Opening J.jobs) (s : TwinState J.Load) (event : TwinEvent J.Load) (cards left : ℕ)
        → IsReached opening s → IsEnabled (twin J.jobs) s event → DrawsFrom event.entry cards left
        → events_left J.jobs left (happens (twin J.jobs) s event) < events_left J.jobs cards s }
{}

/// Whatever the devices do, no reached state is stuck for who steps the network, and each grant is seen at
/// the holder. Nothing is done here: the contract is the law.
pub fn law_of_the_twins<J: HasJobs>()
    ensures sound { IsSoundLaw (the_law J.jobs) }
{}
