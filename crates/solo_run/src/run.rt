//! The loop of every process.
ghost use Rattle.std.specs.Prelude.{◌≡◌, []};
ghost use Rattle.solo_run.specs.Input.{InputRan};
ghost use Rattle.solo_run.specs.Output.{OutputRan};
ghost use Rattle.solo_run.specs.Running.{EndsSo, end_said};

use crate::input_side::InputSide;
use crate::output_side::OutputSide;
use solo_base::Outcome;
use solo_devices::{Sink, Source};
use solo_procs::{SoloAction, SoloInput, SoloOutput};
use std::alloc::Global;
use std::sync::Wait;
use std::thread::Threads;

/// Runs the input process up to its end.
pub fn run_input<S: Source, R: Threads + Wait + Sync>(
    side: &mut InputSide<S>,
    rt: &R,
    alloc: Global,
) -> Outcome
    requires { InputRan S.left S.taken S.faults side.old side.old [] }
    ensures { EndsSo 1 (InputRan S.left S.taken S.faults side.old side.new) result }
{
    let mut machine = SoloInput::new(alloc);
    for _ in rt.forever() {
        let action = machine.next();
        let end = end_of(&action);
        let reply = side.perform(action, rt);
        if let Some(how) = end {
            return how;
        }
        let _ = machine.give(reply);
    }
    unreachable!()
}

/// Runs the output process up to its end.
pub fn run_output<K: Sink, R: Threads + Wait + Sync>(
    side: &mut OutputSide<K>,
    rt: &R,
    alloc: Global,
) -> Outcome
    requires { OutputRan K.given K.faults side.old side.old [] }
    ensures { EndsSo 3 (OutputRan K.given K.faults side.old side.new) result }
{
    let mut machine = SoloOutput::new(alloc);
    for _ in rt.forever() {
        let action = machine.next();
        let end = end_of(&action);
        let reply = side.perform(action, rt);
        if let Some(how) = end {
            return how;
        }
        let _ = machine.give(reply);
    }
    unreachable!()
}

/// How the process ends, if this is its end.
pub(crate) fn end_of(action: &SoloAction) -> Option<Outcome>
    ensures { result ≡ end_said action.now }
{
    match action {
        SoloAction::Ended(how) => Some(*how),
        _ => None,
    }
}
