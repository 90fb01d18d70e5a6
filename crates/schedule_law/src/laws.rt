// Each law is in a contract.

ghost use Rattle.std.specs.Prelude.{◌≡◌, ℕ, List, Option};
ghost use Rattle.solo_base.specs.declared.outcome.Side.{Side};
ghost use Rattle.batch_procs.specs.Table.{process};
ghost use Rattle.network_run.specs.declared.counts.Counts.{Counts};
ghost use Rattle.network_run.specs.declared.rules.Rule.{Rule};
ghost use Rattle.network_run.specs.declared.rules.Rule.TheVariants as rule;
ghost use Rattle.network_run.specs.OneRun.{IsUndisturbed, TheRun, AreItsCounts};
ghost use Rattle.network_run.specs.Runs.{RunsBy};
ghost use Rattle.network_law.specs.Network.{IsEnabled};
ghost use Rattle.core_law.specs.Core.{core, CoreState, CoreEvent, Devices};
ghost use Rattle.core_law.specs.Ends.{IsSmooth};
ghost use Rattle.core_law.specs.Opening.{Opening, first_state};
ghost use Rattle.core_law.specs.TheLaw.{TellsAll, the_law, IsReached};
ghost use Rattle.batch_ends.specs.declared.ends.Outcomes.{Outcomes};
ghost use Rattle.batch_ends.specs.declared.ends.Ran.{Ran};
ghost use Rattle.batch_ends.specs.declared.units.Units.{Units};
ghost use Rattle.net_core.specs.declared.net.Net.{Net};
ghost use Rattle.batch_ends.specs.Ended.{all_done};
ghost use Rattle.net_core.specs.Ended.{EndsSo};
ghost use Rattle.batch_ends.specs.Faults.{AreCounted, FaultsAreCounted};
ghost use Rattle.net_core.specs.Net.{NetStands, StandsWithin, the_keeps};
ghost use Rattle.net_core.specs.WholeRuns.{RunsToEnd};
ghost use Rattle.schedule_law.specs.NoneCounted.{NoneCounted, NoneLacked};

use batch_ends::{Peripherals, Units};
use batch_procs::{HasJobs, JobWork, Loader};
use solo_devices::{Area, Sink, Source};

/// In each state that is reached over told devices a process has at most one event in which no device fails
/// and no memory is refused. The files may be untold where the deck names none. Nothing is done here: the
/// contract is the law.
pub fn one_event<J: HasJobs>()
    ensures { (opening : Opening J.jobs) (s : CoreState J.Load) (event other : CoreEvent J.Load)
        → IsReached opening s → TellsAll opening
        → IsEnabled (core J.jobs (process J.jobs)) s event
        → IsEnabled (core J.jobs (process J.jobs)) s other
        → IsSmooth event.entry → IsSmooth other.entry → other.process ≡ event.process → other ≡ event }
{}

/// Over told devices there is, under each rule, one run to the end in which no device fails and no memory is
/// refused: some run, and no other. So its counts are one. Nothing is done here: the contract is the law.
pub fn one_run<J: HasJobs>()
    ensures some { (opening : Opening J.jobs) (s : CoreState J.Load) (rule : Rule)
        → IsReached opening s → TellsAll opening → TheRun (the_law J.jobs) rule s }
    ensures only { (opening : Opening J.jobs) (s : CoreState J.Load) (rule : Rule)
        (events others : List (CoreEvent J.Load))
        → IsReached opening s → TellsAll opening → IsUndisturbed (the_law J.jobs) rule s events
        → IsUndisturbed (the_law J.jobs) rule s others → others ≡ events }
    ensures counts { (s : CoreState J.Load) (rule : Rule) (some others : Counts)
        → AreItsCounts (the_law J.jobs) rule s some
        → AreItsCounts (the_law J.jobs) rule s others → others ≡ some }
{}

/// What `run_core` answers over told devices are the counts of the one run of its rule from the opening. That
/// no device failed and no memory was refused is seen from the outcomes, or from the counts of the devices.
/// Nothing is done here: the contract is the law.
pub fn counts_of_a_whole_run<J: JobWork, S: Source, K: Sink, F: Loader<J>, A: Area, B: Area>()
    // where all five are done
    ensures done { (opening : Opening J.jobs) (rule : Rule) (counts : Counts) (outcomes : Outcomes)
        (stops : List (Option Side)) (devices : Devices J.Load) → TellsAll opening
        → RunsToEnd J.jobs rule (first_state opening) counts outcomes stops devices → outcomes ≡ all_done
        → AreItsCounts (the_law J.jobs) rule (first_state opening) counts }
    // where no count rose and memory was refused to none
    ensures uncounted { (opening : Opening J.jobs) (rule : Rule) (counts : Counts) (outcomes : Outcomes)
        (stops : List (Option Side)) (devices : Devices J.Load) (before now : Units S K F A B)
        → TellsAll opening
        → RunsToEnd J.jobs rule (first_state opening) counts outcomes stops devices
        → AreCounted ⟦<Units<S, K, F, A, B> as Peripherals<J>>⟧.counts before now outcomes
        → NoneCounted ⟦<Units<S, K, F, A, B> as Peripherals<J>>⟧.counts before now
        → NoneLacked outcomes → AreItsCounts (the_law J.jobs) rule (first_state opening) counts }
{}

/// What `run_numbered` answers over told devices are the counts of the one run of the schedule of its number.
/// That no device failed and no memory was refused is seen from what `finish` answers behind it. Nothing is
/// done here: the contract is the law.
pub fn counts_of_a_schedule<J: JobWork, S: Source, K: Sink, F: Loader<J>, A: Area, B: Area>()
    // where all five are done
    ensures done { (opening : Opening J.jobs) (s : CoreState J.Load) (number : ℕ) (counts : Counts)
        (net : Net J S K F A B) (ran : Ran S K F A B) → IsReached opening s → TellsAll opening
        → RunsBy (the_law J.jobs)
        (StandsWithin J.jobs (the_keeps J.jobs J.keeps) ⟦<Units<S, K, F, A, B> as Peripherals<J>>⟧.tells net)
        (rule.Numbered number) s counts
        → ((t : CoreState J.Load)
        → NetStands J.jobs (the_keeps J.jobs J.keeps) ⟦<Units<S, K, F, A, B> as Peripherals<J>>⟧.tells net t
        → EndsSo t ran.outcomes ran.stopped_by)
        → ran.outcomes ≡ all_done → AreItsCounts (the_law J.jobs) (rule.Numbered number) s counts }
    // where no count rose and memory was refused to none
    ensures uncounted { (opening : Opening J.jobs) (s : CoreState J.Load) (number : ℕ) (counts : Counts)
        (net : Net J S K F A B) (ran : Ran S K F A B) (before : Units S K F A B)
        → IsReached opening s → TellsAll opening
        → RunsBy (the_law J.jobs)
        (StandsWithin J.jobs (the_keeps J.jobs J.keeps) ⟦<Units<S, K, F, A, B> as Peripherals<J>>⟧.tells net)
        (rule.Numbered number) s counts
        → ((t : CoreState J.Load)
        → NetStands J.jobs (the_keeps J.jobs J.keeps) ⟦<Units<S, K, F, A, B> as Peripherals<J>>⟧.tells net t
        → EndsSo t ran.outcomes ran.stopped_by)
        → FaultsAreCounted ⟦<Units<S, K, F, A, B> as Peripherals<J>>⟧.counts before ran
        → NoneCounted ⟦<Units<S, K, F, A, B> as Peripherals<J>>⟧.counts before
        ran.units
        → NoneLacked ran.outcomes → AreItsCounts (the_law J.jobs) (rule.Numbered number) s counts }
{}
