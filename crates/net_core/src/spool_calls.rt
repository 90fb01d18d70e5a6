ghost use Rattle.std.specs.Prelude.{◌≡◌, ◌≢◌, ◌<◌, ◌≤◌, ℕ, [], length, false, None, Some};
ghost use Rattle.solo_base.specs.declared.outcome.Side.TheVariants.{Sender, Receiver};
ghost use Rattle.queue_var.specs.declared.turn.Turn.TheVariants.{Free};
ghost use Rattle.queue_var.specs.Sides.{MayEnter, has_stopped, queue};
ghost use Rattle.solo_devices.specs.Count.{Rose};
ghost use Rattle.batch_procs.specs.declared.actions.Action.TheVariants as act;
ghost use Rattle.batch_procs.specs.declared.actions.Reply.TheVariants as reply;
ghost use Rattle.network_law.specs.Acts.{Awaits, Moves, Stops};
ghost use Rattle.net_core.specs.Calls.{Visited};
ghost use Rattle.net_core.specs.Spools.{SpoolStands};

use batch_procs::{JobWork, Lent, Reply};
use disk_spool::{Await, Fetched, Spool};
use solo_base::{BufferNo, Page, ProcNo, Side};
use solo_devices::{Area, Moved};

/// Waits until a spool has room for a page. No reply: the process waits.
#[inline(always)]
pub fn await_room<'a, J: JobWork, A: Area>(
    spool: &mut Spool<A>,
    p: ProcNo,
) -> Option<Reply<'a, J::Load>>
    requires may_enter { MayEnter spool.old.sides Sender p }
    requires not_stopped { has_stopped spool.old.sides Sender ≡ false }
    ensures visited { Visited J.jobs
        (SpoolStands A.pages) spool.old spool.new Sender Awaits p act.AwaitRoom result }
    ensures area { spool.new.area ≡ spool.old.area }
{
    reply_of(spool.await_room(p))
}

/// Waits until a spool has a page. No reply: the process waits.
#[inline(always)]
pub fn await_item<'a, J: JobWork, A: Area>(
    spool: &mut Spool<A>,
    p: ProcNo,
) -> Option<Reply<'a, J::Load>>
    requires may_enter { MayEnter spool.old.sides Receiver p }
    requires not_stopped { has_stopped spool.old.sides Receiver ≡ false }
    ensures visited { Visited J.jobs
        (SpoolStands A.pages) spool.old spool.new Receiver Awaits p act.AwaitItem result }
    ensures area { spool.new.area ≡ spool.old.area }
{
    reply_of(spool.await_item(p))
}

/// Puts a page into a spool that has room.
#[inline(always)]
pub fn put_page<'a, J: JobWork, A: Area>(spool: &mut Spool<A>, page: &Page) -> Reply<'a, J::Load>
    requires free { spool.old.sides.turn ≡ Free }
    requires nobody_waits { queue spool.old.sides Sender ≡ None }
    requires room { length spool.old.ring.marks < spool.old.ring.capacity }
    requires not_stopped { has_stopped spool.old.sides Sender ≡ false }
    ensures visited { (p : ℕ)
        → Visited J.jobs (SpoolStands A.pages) spool.old
        spool.new Sender Moves p (act.PutPage page.now) (Some result) }
    ensures failed { result ≡ reply.Failed → Rose (A.faults spool.old.area) (A.faults spool.new.area) }
    ensures counts { A.faults spool.old.area ≤ A.faults spool.new.area }
{
    match spool.put(page) {
        Moved::Done => Reply::Done,
        Moved::Failed => Reply::Failed,
    }
}

/// Takes a page from a spool that has one. It is lent from the room.
#[inline(always)]
pub fn take_page<'a, J: JobWork, A: Area>(
    spool: &mut Spool<A>,
    room: &'a mut Page,
) -> Reply<'a, J::Load>
    requires free { spool.old.sides.turn ≡ Free }
    requires nobody_waits { queue spool.old.sides Receiver ≡ None }
    requires item { spool.old.ring.marks ≢ [] }
    requires not_stopped { has_stopped spool.old.sides Receiver ≡ false }
    ensures visited { (p : ℕ)
        → Visited J.jobs (SpoolStands A.pages) spool.old
        spool.new Receiver Moves p act.TakePage (Some result) }
    ensures failed { result ≡ reply.Failed → Rose (A.faults spool.old.area) (A.faults spool.new.area) }
    ensures counts { A.faults spool.old.area ≤ A.faults spool.new.area }
{
    match spool.take(room) {
        Fetched::Done { last } => Reply::Page {
            page: Lent::of(room),
            last,
        },
        Fetched::Failed => Reply::Failed,
    }
}

/// Stops a spool, which has this number, at a side.
#[inline(always)]
pub fn stop_spool<'a, J: JobWork, A: Area>(
    spool: &mut Spool<A>,
    number: BufferNo,
    side: Side,
) -> Reply<'a, J::Load>
    requires free { spool.old.sides.turn ≡ Free }
    requires nobody_waits { queue spool.old.sides side ≡ None }
    ensures visited { (p : ℕ)
        → Visited J.jobs (SpoolStands A.pages) spool.old
        spool.new side Stops p (act.Stop number) (Some result) }
    ensures area { spool.new.area ≡ spool.old.area }
{
    let _ = number;
    spool.stop(side);
    Reply::Done
}

ghost use Rattle.net_core.specs.Calls.{await_reply};

#[inline(always)]
fn reply_of<'a, L>(answer: Await) -> Option<Reply<'a, L>>
    ensures { result ≡ await_reply answer }
{
    match answer {
        Await::Ready => Some(Reply::Done),
        Await::Delayed => None,
        Await::Stopped => Some(Reply::Stopped),
    }
}
