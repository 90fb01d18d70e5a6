ghost use Rattle.std.specs.Prelude.{None, []};
ghost use Rattle.batch_sides.specs.Input.{InputMayMake, InputMade, InputRan};
ghost use Rattle.batch_sides.specs.Row.{PagesCame};

use crate::desk::{held, release, request};
use crate::run::{Ended, Running, end_of, run_to_end, without_disk};
use batch_procs::{Action, InputWork, JobWork, Machine, Reply};
use disk_spool::{SpoolGate, SpoolSend};
use resource_mon::{DiskResource, DiskSeat};
use side_by_side::{Start, Told};
use slot_buffer::{RecvEnd, SlotGate};
use solo_base::{Feed, Outcome};
use solo_devices::{Area, Moved};
use std::alloc::Global;
use std::sync::Wait;
use std::thread::Threads;

/// What the input process is connected to: the line buffer 1 as its receiver, the spool 2 as its sender, and
/// the disk.
#[derive(Drop)]
pub struct InputSide<'a, A: Area + Send> {
    pub cards_gate: &'a SlotGate<Feed>,
    pub cards: RecvEnd<Feed>,
    pub pages_gate: &'a SpoolGate<A>,
    pub pages: SpoolSend<A>,
    pub disk: &'a DiskResource,
    pub seat: DiskSeat,
}

/// Performs an action of the process, and waits where the other side of a buffer isn't ready.
#[inline(always)]
fn perform<'a, 'p, L, A: Area + Send, R: Threads + Wait + Sync>(
    running: &mut Running<InputSide<'a, A>>,
    action: Action<'_>,
    rt: &R,
) -> Reply<'p, L>
    requires may { InputMayMake A.size running.old.side running.old.pass action }
    ensures performs { InputMade running.old.side running.old.pass
        running.new.side running.new.pass action.entry result }
{
    let cards_gate = running.side.cards_gate;
    let pages_gate = running.side.pages_gate;
    let disk = running.side.disk;
    match &action {
        Action::TakeFeed => match running.side.cards.take(cards_gate, rt) {
            Ok(feed) => Reply::Feed(feed),
            Err(_) => Reply::Stopped,
        },
        Action::AwaitRoom => match running.side.pages.await_room(pages_gate, rt) {
            Ok(()) => Reply::Done,
            Err(_) => Reply::Stopped,
        },
        Action::Request => {
            request(disk, &mut running.side.seat, &mut running.pass, rt);
            Reply::Done
        }
        Action::PutPage(page) => match running
            .side
            .pages
            .put(pages_gate, held(&running.pass), page.get(), rt)
        {
            Moved::Done => Reply::Done,
            Moved::Failed => Reply::Failed,
        },
        Action::Release => {
            release(disk, &mut running.side.seat, &mut running.pass, rt);
            Reply::Done
        }
        Action::Stop(1) => {
            running.side.cards.stop(cards_gate, rt);
            Reply::Done
        }
        Action::Stop(_) => {
            running.side.pages.stop(pages_gate, rt);
            Reply::Done
        }
        Action::Ended(_) => Reply::Done,
        _ => unreachable!(),
    }
}

/// Runs the input process up to its end, where all have come to the start.
pub(crate) fn run_pages<'a, 's, J: JobWork, A: Area + Send, R: Threads + Wait + Sync>(
    rt: &R,
    alloc: Global,
    start: &'s Start,
    pages: InputSide<'a, A>,
) -> (Ended<InputSide<'a, A>>, Told<'s>)
    requires { InputRan {L = J.Load} A.size pages pages None [] }
    ensures { PagesCame J.jobs A.size
        start.now.lock result.1.of result.1.value pages.entry result.0 }
{
    run_to_end!(
        J,
        InputWork,
        rt,
        alloc,
        start,
        pages,
        |at, action| perform(&mut at, action, rt)
    )
}
