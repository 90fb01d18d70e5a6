// The six buffers between the three processes.
ghost use Rattle.std.specs.Prelude.{◌≡◌, ◌↔◌, ℕ, IsTrue, Some};
ghost use Rattle.solo_base.specs.declared.outcome.Side.TheVariants.{Sender, Receiver};
ghost use Rattle.queue_var.specs.Sides.{MayStop};
ghost use Rattle.network_law.specs.Stepping.{is_named};
ghost use Rattle.exchange_law.specs.Parcels.{Parcel};
ghost use Rattle.solo_law.specs.Actions as act;
ghost use Rattle.solo_law.specs.Devices.{Devices};
ghost use Rattle.solo_law.specs.Solo.{SoloState, opened};
ghost use Rattle.solo_law.specs.Holds.{IsBuffer};
ghost use Rattle.solo_procs.specs.declared.actions.SoloReply.TheVariants as hear;
ghost use Rattle.solo_net.specs.SixBuffers.{SoloBuffersStand, SoloVisited, SoloWaitsAt, IsSo, IsArgBuffer, IsPageBuffer, sides_at, first_stops};

use crate::{arg_reply, page_reply, put_reply};
use slot_buffer::{ArgBuffer, PageBuffer, SlotBuffer};
use solo_base::{Arg, BufferNo, Page, ProcNo, Side};
use solo_procs::SoloReply;

/// The six buffers of one place: 1 to 3 between the input and the job process, with the orders, the
/// pages and the reports of card files, and 4 to 6 between the job and the output process, with those
/// of printing.
#[derive(Drop)]
pub struct Buffers {
    pub card_orders: ArgBuffer,
    pub card_pages: PageBuffer,
    pub card_reports: ArgBuffer,
    pub print_orders: ArgBuffer,
    pub print_pages: PageBuffer,
    pub print_reports: ArgBuffer,
}

/// What is asked of a buffer.
pub enum Asked {
    /// Whether a process may make its call by this side, a put or a take.
    Enter { side: Side, p: ProcNo },
    /// Whether this side may stop.
    Stop(Side),
    /// Whether the turn is handed to who waits there.
    Handed,
}

impl Buffers {
    /// Empty buffers.
    pub fn new() -> Buffers
        ensures { (devices : Devices) → SoloBuffersStand result (opened devices).buffers }
    {
        Buffers {
            card_orders: SlotBuffer::new(),
            card_pages: SlotBuffer::new(),
            card_reports: SlotBuffer::new(),
            print_orders: SlotBuffer::new(),
            print_pages: SlotBuffer::new(),
            print_reports: SlotBuffer::new(),
        }
    }

    /// Puts an argument into a buffer. No reply: the process waits.
    pub fn put_arg(&mut self, p: ProcNo, b: BufferNo, arg: Arg) -> Option<SoloReply>
        requires one { IsArgBuffer b }
        requires waits { SoloWaitsAt (sides_at self.old b) Sender p }
        ensures { SoloVisited self.old self.new p (act.PutArg b arg) result }
    {
        if b == 1 {
            put_reply(self.card_orders.put(p, arg))
        } else if b == 3 {
            put_reply(self.card_reports.put(p, arg))
        } else if b == 4 {
            put_reply(self.print_orders.put(p, arg))
        } else {
            put_reply(self.print_reports.put(p, arg))
        }
    }

    /// Takes an argument from a buffer. No reply: the process waits.
    pub fn take_arg(&mut self, p: ProcNo, b: BufferNo) -> Option<SoloReply>
        requires one { IsArgBuffer b }
        requires waits { SoloWaitsAt (sides_at self.old b) Receiver p }
        ensures { SoloVisited self.old self.new p (act.TakeArg b) result }
    {
        if b == 1 {
            arg_reply(self.card_orders.take(p))
        } else if b == 3 {
            arg_reply(self.card_reports.take(p))
        } else if b == 4 {
            arg_reply(self.print_orders.take(p))
        } else {
            arg_reply(self.print_reports.take(p))
        }
    }

    /// Puts a page into a buffer. No reply: the process waits.
    pub fn put_page(&mut self, p: ProcNo, b: BufferNo, page: Page) -> Option<SoloReply>
        requires one { IsPageBuffer b }
        requires waits { SoloWaitsAt (sides_at self.old b) Sender p }
        ensures { SoloVisited self.old self.new p (act.PutPage b page) result }
    {
        if b == 2 {
            put_reply(self.card_pages.put(p, page))
        } else {
            put_reply(self.print_pages.put(p, page))
        }
    }

    /// Takes a page from a buffer. No reply: the process waits.
    pub fn take_page(&mut self, p: ProcNo, b: BufferNo) -> Option<SoloReply>
        requires one { IsPageBuffer b }
        requires waits { SoloWaitsAt (sides_at self.old b) Receiver p }
        ensures { SoloVisited self.old self.new p (act.TakePage b) result }
    {
        if b == 2 {
            page_reply(self.card_pages.take(p))
        } else {
            page_reply(self.print_pages.take(p))
        }
    }

    /// Stops a buffer at the side of a process.
    pub fn stop(&mut self, p: ProcNo, b: BufferNo)
        requires one { IsBuffer b }
        requires may { MayStop (sides_at self.old b) (side_at p b) }
        ensures { SoloVisited self.old self.new p (act.Stop b) (Some hear.Done) }
    {
        let side = side_at(p, b);
        if b == 1 {
            self.card_orders.stop(side)
        } else if b == 2 {
            self.card_pages.stop(side)
        } else if b == 3 {
            self.card_reports.stop(side)
        } else if b == 4 {
            self.print_orders.stop(side)
        } else if b == 5 {
            self.print_pages.stop(side)
        } else {
            self.print_reports.stop(side)
        }
    }

    /// What is asked of a buffer.
    pub fn ask(&self, b: BufferNo, asked: Asked) -> bool
        ensures { IsTrue result ↔ IsSo asked (sides_at self.now b) }
    {
        if b == 1 {
            is_so(&self.card_orders, asked)
        } else if b == 2 {
            is_so(&self.card_pages, asked)
        } else if b == 3 {
            is_so(&self.card_reports, asked)
        } else if b == 4 {
            is_so(&self.print_orders, asked)
        } else if b == 5 {
            is_so(&self.print_pages, asked)
        } else {
            is_so(&self.print_reports, asked)
        }
    }

    /// The sides that stopped the buffers 1 to 6 first.
    pub fn stopped_by(&self) -> [Option<Side>; 6]
        ensures { result ≡ first_stops self.now }
    {
        [
            self.card_orders.stopped_by(),
            self.card_pages.stopped_by(),
            self.card_reports.stopped_by(),
            self.print_orders.stopped_by(),
            self.print_pages.stopped_by(),
            self.print_reports.stopped_by(),
        ]
    }
}

/// The answer of one buffer.
fn is_so<T>(buffer: &SlotBuffer<T>, asked: Asked) -> bool
    ensures { IsTrue result ↔ IsSo asked buffer.now.sides }
{
    match asked {
        Asked::Enter { side, p } => buffer.may_enter(side, p),
        Asked::Stop(side) => buffer.may_stop(side),
        Asked::Handed => is_handed(buffer),
    }
}

/// Whether the turn of a buffer is handed to who waits there.
fn is_handed<T>(buffer: &SlotBuffer<T>) -> bool
    ensures { result ≡ is_named buffer.now.sides.turn }
{
    buffer.handed().is_some()
}

ghost use Rattle.solo_law.specs.Buffers.{side_at};

/// The side of a buffer at which a process sits.
pub(crate) fn side_at(p: ProcNo, b: BufferNo) -> Side
    ensures { result ≡ side_at p b }
{
    if sender(b) == p {
        Side::Sender
    } else {
        Side::Receiver
    }
}

ghost use Rattle.solo_law.specs.Buffers.{seat};

/// The process that puts into a buffer.
fn sender(b: BufferNo) -> ProcNo
    ensures { result ≡ seat b Sender }
{
    match b {
        1 => 2,
        2 => 1,
        3 => 1,
        4 => 2,
        5 => 2,
        _ => 3,
    }
}
