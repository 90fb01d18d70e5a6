// The step of one process.
ghost use Rattle.std.specs.Prelude.{◌≡◌, List, Some, false};
ghost use Rattle.network_law.specs.Stepping.{stepped_so};
ghost use Rattle.twin_law.specs.Process.{Action, Entry, next_action};
ghost use Rattle.twin_procs.specs.Machine.{StandsFor};
ghost use Rattle.twin_procs.specs.Said.{is_end_said};
ghost use Rattle.twin_net.specs.Steps.{TwinMayStep, TwinSteps};

use crate::TwinShared;
use batch_procs::{JobWork, Loader};
use network_run::Stepped;
use solo_base::{Page, ProcNo};
use solo_devices::{Area, Sink, Source};
use twin_ends::{TwinPeripherals, TwinUnits};
use twin_procs::{TwinAction, TwinMachine, TwinProc};

/// Takes the next action of a process. A page that it takes lies in the room meanwhile.
pub fn step_machine<J: JobWork, P: TwinProc<J>, S: Source, K: Sink, F: Loader<J>, A: Area>(
    machine: &mut TwinMachine<J, P>,
    p: ProcNo,
    shared: &mut TwinShared<J, S, K, F, A>,
    room: &mut Page,
) -> Stepped
    requires may { TwinMayStep ⟦<TwinUnits<S, K, F, A> as TwinPeripherals<J>>⟧.tells P.process
        (StandsFor P.process P.stands machine.old) shared.old p }
    ensures { (h : List (Entry J.Load)) (action : Action) →
        StandsFor P.process P.stands machine.old h → next_action P.process h ≡ Some action →
        TwinSteps J.jobs P.process (StandsFor P.process P.stands machine.new)
        ⟦<TwinUnits<S, K, F, A> as TwinPeripherals<J>>⟧.tells
        ⟦<TwinUnits<S, K, F, A> as TwinPeripherals<J>>⟧.counts shared.old shared.new p action h result }
{
    let action = machine.next();
    let ends = is_end(&action);
    let again = shared.is_again(p, &action);
    match shared.perform(p, action, room) {
        None => Stepped::Delayed,
        Some(reply) => match machine.give(reply) {
            Ok(()) => stepped(ends, again),
            Err(_) => stepped(ends, again),
        },
    }
}

/// Whether an action is the last of its process.
fn is_end(action: &TwinAction) -> bool
    ensures { result ≡ is_end_said action.now }
{
    matches!(action, TwinAction::Ended(_))
}

/// How a step went that did not end in a delay.
fn stepped(ends: bool, again: bool) -> Stepped
    ensures { result ≡ stepped_so false ends again }
{
    match (ends, again) {
        (true, _) => Stepped::Ended,
        (false, true) => Stepped::Resumed,
        (false, false) => Stepped::Acted,
    }
}
