ghost use Rattle.std.specs.Prelude.{◌≡◌, List, Some};
ghost use Rattle.batch_procs.specs.declared.actions.Action.{Action as ActionOf};
ghost use Rattle.batch_procs.specs.History.{Entry};
ghost use Rattle.batch_procs.specs.Process.{next_action};
ghost use Rattle.batch_procs.specs.Machine.{StandsFor};
ghost use Rattle.net_core.specs.Steps.{MayStep, Steps};

use crate::Shared;
use batch_ends::{Peripherals, Units};
use batch_procs::{JobWork, Loader, Machine, Work};
use network_run::Stepped;
use solo_base::{Page, ProcNo};
use solo_devices::{Area, Sink, Source};

/// Takes the next action of a process. A page that it takes lies in the room meanwhile.
pub fn step_machine<J: JobWork, W: Work<J>, S: Source, K: Sink, F: Loader<J>, A: Area, B: Area>(
    machine: &mut Machine<J, W>,
    p: ProcNo,
    shared: &mut Shared<J, S, K, F, A, B>,
    room: &mut Page,
) -> Stepped
    requires may { MayStep ⟦<Units<S, K, F, A, B> as Peripherals<J>>⟧.tells W.process
        (StandsFor J.jobs W.process W.keeps machine.old) shared.old p }
    ensures { (h : List (Entry J.Load)) (action : ActionOf) →
        StandsFor J.jobs W.process W.keeps machine.old h →
        next_action W.process h ≡ Some action →
        Steps (StandsFor J.jobs W.process W.keeps machine.new)
        ⟦<Units<S, K, F, A, B> as Peripherals<J>>⟧.tells
        ⟦<Units<S, K, F, A, B> as Peripherals<J>>⟧.counts
        shared.old shared.new p action h result }
{
    let action = machine.next();
    let goes = shared.goes(p, &action);
    match shared.perform(p, action, room) {
        None => Stepped::Delayed,
        Some(reply) => match machine.give(reply) {
            Ok(()) => goes,
            Err(_) => goes,
        },
    }
}
