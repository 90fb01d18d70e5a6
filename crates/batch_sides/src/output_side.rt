ghost use Rattle.std.specs.Prelude.{None, []};
ghost use Rattle.batch_sides.specs.Output.{OutputMayMake, OutputMade, OutputRan};
ghost use Rattle.batch_sides.specs.Row.{LinesCame};

use crate::desk::{held, release, request};
use crate::run::{Ended, Running, end_of, run_to_end, without_disk};
use batch_procs::{Action, JobWork, Lent, Machine, OutputWork, Reply, copy_feed};
use disk_spool::{Fetched, SpoolGate, SpoolRecv};
use resource_mon::{DiskResource, DiskSeat};
use side_by_side::{Start, Told};
use slot_buffer::{SendEnd, SlotGate};
use solo_base::{Feed, Outcome, Page};
use solo_devices::Area;
use std::alloc::Global;
use std::sync::Wait;
use std::thread::Threads;

/// What the output process is connected to: the spool 3 as its receiver, the line buffer 4 as its sender, and
/// the disk.
#[derive(Drop)]
pub struct OutputSide<'a, B: Area + Send> {
    pub pages_gate: &'a SpoolGate<B>,
    pub pages: SpoolRecv<B>,
    pub lines_gate: &'a SlotGate<Feed>,
    pub lines: SendEnd<Feed>,
    pub disk: &'a DiskResource,
    pub seat: DiskSeat,
}

/// Performs an action of the process, and waits where the other side of a buffer isn't ready.
#[inline(always)]
fn perform<'a, 'p, L, B: Area + Send, R: Threads + Wait + Sync>(
    running: &mut Running<OutputSide<'a, B>>,
    action: Action<'_>,
    room: &'p mut Page,
    rt: &R,
) -> Reply<'p, L>
    requires may { OutputMayMake B.size running.old.side running.old.pass action }
    ensures performs { OutputMade running.old.side running.old.pass
        running.new.side running.new.pass action.entry result }
{
    let pages_gate = running.side.pages_gate;
    let lines_gate = running.side.lines_gate;
    let disk = running.side.disk;
    match &action {
        Action::AwaitItem => match running.side.pages.await_item(pages_gate, rt) {
            Ok(()) => Reply::Done,
            Err(_) => Reply::Stopped,
        },
        Action::Request => {
            request(disk, &mut running.side.seat, &mut running.pass, rt);
            Reply::Done
        }
        Action::TakePage => match running
            .side
            .pages
            .take(pages_gate, held(&running.pass), room, rt)
        {
            Fetched::Done { last } => Reply::Page {
                page: Lent::of(room),
                last,
            },
            Fetched::Failed => Reply::Failed,
        },
        Action::Release => {
            release(disk, &mut running.side.seat, &mut running.pass, rt);
            Reply::Done
        }
        Action::PutFeed(feed) => match running
            .side
            .lines
            .put(lines_gate, copy_feed(feed.get()), rt)
        {
            Ok(()) => Reply::Done,
            Err(_) => Reply::Stopped,
        },
        Action::Stop(3) => {
            running.side.pages.stop(pages_gate, rt);
            Reply::Done
        }
        Action::Stop(_) => {
            running.side.lines.stop(lines_gate, rt);
            Reply::Done
        }
        Action::Ended(_) => Reply::Done,
        _ => unreachable!(),
    }
}

/// Runs the output process up to its end, where all have come to the start.
pub(crate) fn run_lines<'a, 's, J: JobWork, B: Area + Send, R: Threads + Wait + Sync>(
    rt: &R,
    alloc: Global,
    start: &'s Start,
    lines: OutputSide<'a, B>,
) -> (Ended<OutputSide<'a, B>>, Told<'s>)
    requires { OutputRan {L = J.Load} B.size lines lines None [] }
    ensures { LinesCame J.jobs B.size
        start.now.lock result.1.of result.1.value lines.entry result.0 }
{
    run_to_end!(
        J,
        OutputWork,
        rt,
        alloc,
        start,
        lines,
        |at, action, room| perform(&mut at, action, &mut room, rt)
    )
}
