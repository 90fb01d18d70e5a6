ghost use Rattle.std.specs.Prelude.{None, []};
ghost use Rattle.batch_sides.specs.Lines.{PrinterMayMake, PrinterMade, PrinterRan};
ghost use Rattle.batch_sides.specs.Row.{PaperCame};

use crate::run::{Ended, Running, end_of, run_to_end, without_disk};
use batch_ends::print;
use batch_procs::{Action, JobWork, Machine, PrinterWork, Reply};
use side_by_side::{Start, Told};
use slot_buffer::{RecvEnd, SlotGate};
use solo_base::{Feed, Outcome};
use solo_devices::{PrinterUnit, Sink};
use std::alloc::Global;
use std::sync::Wait;
use std::thread::Threads;

/// What the printer process is connected to: the line buffer 4 as its receiver, and the paper.
#[derive(Drop)]
pub struct PrinterSide<'a, K: Sink + Drop> {
    pub gate: &'a SlotGate<Feed>,
    pub lines: RecvEnd<Feed>,
    pub paper: PrinterUnit<K>,
}

/// Performs an action of the process, and waits where the other side of a buffer isn't ready.
#[inline(always)]
fn perform<'a, 'p, J: JobWork, K: Sink + Drop + Send, R: Threads + Wait + Sync>(
    running: &mut Running<PrinterSide<'a, K>>,
    action: Action<'_>,
    rt: &R,
) -> Reply<'p, J::Load>
    requires may { PrinterMayMake running.old.side action }
    ensures performs { PrinterMade J.jobs K.given K.faults running.old.side running.old.pass
        running.new.side running.new.pass action.entry result }
{
    let gate = running.side.gate;
    match &action {
        Action::TakeFeed => match running.side.lines.take(gate, rt) {
            Ok(feed) => Reply::Feed(feed),
            Err(_) => Reply::Stopped,
        },
        Action::Print(line) => print::<J, K>(&mut running.side.paper, line.get()),
        Action::Stop(_) => {
            running.side.lines.stop(gate, rt);
            Reply::Done
        }
        Action::Ended(_) => Reply::Done,
        _ => unreachable!(),
    }
}

/// Runs the printer process up to its end, where all have come to the start.
pub(crate) fn run_paper<'a, 's, J: JobWork, K: Sink + Drop + Send, R: Threads + Wait + Sync>(
    rt: &R,
    alloc: Global,
    start: &'s Start,
    paper: PrinterSide<'a, K>,
) -> (Ended<PrinterSide<'a, K>>, Told<'s>)
    requires { PrinterRan {L = J.Load} K.given K.faults paper paper None [] }
    ensures { PaperCame J.jobs K.given K.faults
        start.now.lock result.1.of result.1.value paper.entry result.0 }
{
    run_to_end!(
        J,
        PrinterWork,
        rt,
        alloc,
        start,
        paper,
        |at, action| perform::<J, K, R>(&mut at, action, rt)
    )
}
