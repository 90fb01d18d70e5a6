ghost use Rattle.std.specs.Prelude.{◌≡◌, ℕ, false, None, Some};
ghost use Rattle.solo_base.specs.declared.outcome.Side.TheVariants.{Sender, Receiver};
ghost use Rattle.queue_var.specs.declared.turn.Turn.TheVariants.{Free};
ghost use Rattle.queue_var.specs.Sides.{MayEnter, has_stopped, queue};
ghost use Rattle.batch_procs.specs.declared.actions.Action.TheVariants as act;
ghost use Rattle.batch_procs.specs.declared.actions.Reply.TheVariants as reply;
ghost use Rattle.network_law.specs.Acts.{Passes, Stops};
ghost use Rattle.net_core.specs.Calls.{Visited};
ghost use Rattle.net_core.specs.Lines.{LineStands};

use batch_procs::{JobWork, Reply, copy_feed};
use slot_buffer::{LineBuffer, Put, Take};
use solo_base::{BufferNo, Feed, ProcNo, Side};

/// Puts what is handed over into a line buffer, where it is copied. No reply: the process waits.
#[inline(always)]
pub fn put_feed<'a, J: JobWork>(
    buffer: &mut LineBuffer,
    p: ProcNo,
    feed: &Feed,
) -> Option<Reply<'a, J::Load>>
    requires may_enter { MayEnter buffer.old.sides Sender p }
    requires not_stopped { has_stopped buffer.old.sides Sender ≡ false }
    ensures { Visited J.jobs LineStands buffer.old buffer.new Sender Passes p (act.PutFeed feed.now) result }
{
    match buffer.put(p, copy_feed(feed)) {
        Put::Done => Some(Reply::Done),
        Put::Delayed(_) => None,
        Put::Stopped(_) => Some(Reply::Stopped),
    }
}

/// Takes what is handed over from a line buffer. No reply: the process waits.
#[inline(always)]
pub fn take_feed<'a, J: JobWork>(buffer: &mut LineBuffer, p: ProcNo) -> Option<Reply<'a, J::Load>>
    requires may_enter { MayEnter buffer.old.sides Receiver p }
    requires not_stopped { has_stopped buffer.old.sides Receiver ≡ false }
    ensures { Visited J.jobs LineStands buffer.old buffer.new Receiver Passes p act.TakeFeed result }
{
    match buffer.take(p) {
        Take::Item(feed) => Some(Reply::Feed(feed)),
        Take::Delayed => None,
        Take::Stopped => Some(Reply::Stopped),
    }
}

/// Stops a line buffer, which has this number, at a side.
#[inline(always)]
pub fn stop_line<'a, J: JobWork>(
    buffer: &mut LineBuffer,
    number: BufferNo,
    side: Side,
) -> Reply<'a, J::Load>
    requires free { buffer.old.sides.turn ≡ Free }
    requires nobody_waits { queue buffer.old.sides side ≡ None }
    ensures { (p : ℕ)
        → Visited J.jobs LineStands buffer.old buffer.new side Stops p (act.Stop number) (Some result) }
{
    let _ = number;
    buffer.stop(side);
    Reply::Done
}
