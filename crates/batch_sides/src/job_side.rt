ghost use Rattle.std.specs.Prelude.{None, []};
ghost use Rattle.batch_sides.specs.Files.{loading};
ghost use Rattle.batch_sides.specs.Job.{JobMayMake, JobMade, JobRan};
ghost use Rattle.batch_sides.specs.Row.{JobsCame};

use crate::desk::{held, release, request};
use crate::run::{Ended, Running, end_of, run_to_end, without_disk};
use batch_procs::{Action, JobProcWork, JobWork, Lent, Loader, Machine, Reply};
use disk_spool::{Fetched, SpoolGate, SpoolRecv, SpoolSend};
use resource_mon::{DiskResource, DiskSeat};
use side_by_side::{Start, Told};
use solo_base::{Outcome, Page};
use solo_devices::{Area, Moved};
use std::alloc::Global;
use std::sync::Wait;
use std::thread::Threads;

/// What the job process is connected to: the spool 2 as its receiver, the spool 3 as its sender, the disk,
/// and the files.
#[derive(Drop)]
pub struct JobSide<'a, F, A: Area + Send, B: Area + Send> {
    pub cards_gate: &'a SpoolGate<A>,
    pub cards: SpoolRecv<A>,
    pub pages_gate: &'a SpoolGate<B>,
    pub pages: SpoolSend<B>,
    pub disk: &'a DiskResource,
    pub seat: DiskSeat,
    pub files: F,
}

/// Performs an action of the process, and waits where the other side of a buffer isn't ready.
#[inline(always)]
fn perform<
    'a,
    'p,
    J: JobWork,
    F: Loader<J>,
    A: Area + Send,
    B: Area + Send,
    R: Threads + Wait + Sync,
>(
    running: &mut Running<JobSide<'a, F, A, B>>,
    action: Action<'_>,
    room: &'p mut Page,
    rt: &R,
) -> Reply<'p, J::Load>
    requires may { JobMayMake F.sound A.size B.size running.old.side running.old.pass action }
    ensures performs { JobMade J.jobs (loading F.found F.pages F.faults F.sound)
        running.old.side running.old.pass running.new.side running.new.pass action.entry result }
{
    let cards_gate = running.side.cards_gate;
    let pages_gate = running.side.pages_gate;
    let disk = running.side.disk;
    match &action {
        Action::Load(file) => running.side.files.load(running.alloc, file),
        Action::AwaitItem => match running.side.cards.await_item(cards_gate, rt) {
            Ok(()) => Reply::Done,
            Err(_) => Reply::Stopped,
        },
        Action::AwaitRoom => match running.side.pages.await_room(pages_gate, rt) {
            Ok(()) => Reply::Done,
            Err(_) => Reply::Stopped,
        },
        Action::Request => {
            request(disk, &mut running.side.seat, &mut running.pass, rt);
            Reply::Done
        }
        Action::TakePage => match running
            .side
            .cards
            .take(cards_gate, held(&running.pass), room, rt)
        {
            Fetched::Done { last } => Reply::Page {
                page: Lent::of(room),
                last,
            },
            Fetched::Failed => Reply::Failed,
        },
        Action::PutPage(page) => match running
            .side
            .pages
            .put(pages_gate, held(&running.pass), page.get(), rt)
        {
            Moved::Done => Reply::Done,
            Moved::Failed => Reply::Failed,
        },
        Action::Release => {
            release(disk, &mut running.side.seat, &mut running.pass, rt);
            Reply::Done
        }
        Action::Stop(2) => {
            running.side.cards.stop(cards_gate, rt);
            Reply::Done
        }
        Action::Stop(_) => {
            running.side.pages.stop(pages_gate, rt);
            Reply::Done
        }
        Action::Local | Action::Ended(_) => Reply::Done,
        _ => unreachable!(),
    }
}

/// Runs the job process up to its end, where all have come to the start.
pub(crate) fn run_jobs<
    'a,
    's,
    J: JobWork,
    F: Loader<J>,
    A: Area + Send,
    B: Area + Send,
    R: Threads + Wait + Sync,
>(
    rt: &R,
    alloc: Global,
    start: &'s Start,
    jobs: JobSide<'a, F, A, B>,
) -> (Ended<JobSide<'a, F, A, B>>, Told<'s>)
    requires { JobRan {L = J.Load} (loading F.found F.pages F.faults F.sound) A.size B.size
        jobs jobs None [] }
    ensures { JobsCame J.jobs (loading F.found F.pages F.faults F.sound) A.size B.size
        start.now.lock result.1.of result.1.value jobs.entry result.0 }
{
    run_to_end!(
        J,
        JobProcWork<J>,
        rt,
        alloc,
        start,
        jobs,
        |at, action, room| perform::<J, F, A, B, R>(&mut at, action, &mut room, rt)
    )
}
