ghost use Rattle.std.specs.Prelude.{ℕ, Some};
ghost use Rattle.solo_base.specs.declared.outcome.Side.TheVariants.{Sender, Receiver};
ghost use Rattle.queue_var.specs.Sides.{MayStop};
ghost use Rattle.network_law.specs.Acts.{Awaits, Moves, Stops};
ghost use Rattle.net_core.specs.Shared.{WaitsAt, PutsAt, TakesAt};
ghost use Rattle.twin_law.specs.Process.{AwaitRoom, AwaitItem, PutPage, TakePage, Stop};
ghost use Rattle.twin_net.specs.FourSpools.{AtSpool, SpoolVisited};

use batch_procs::{JobWork, Reply};
use disk_spool::Spool;
use net_core::{await_item, await_room, put_page, stop_spool, take_page};
use solo_base::{BufferNo, Page, ProcNo, Side};
use solo_devices::Area;

/// The four spools on the one disk: 2 and 3 to the two job processes, 4 and 5 from them.
#[derive(Drop)]
pub struct TwinSpools<A: Area> {
    pub to_a: Spool<A>,
    pub to_b: Spool<A>,
    pub from_a: Spool<A>,
    pub from_b: Spool<A>,
}

impl<A: Area> TwinSpools<A> {
    /// Waits until a spool has room for a page. No reply: the process waits.
    pub fn await_room<'a, J: JobWork>(
        &mut self,
        p: ProcNo,
        b: BufferNo,
    ) -> Option<Reply<'a, J::Load>>
        requires { AtSpool self.old b (λ spool. WaitsAt spool.sides Sender p) }
        ensures { SpoolVisited J.jobs A.pages A.faults self.old self.new Sender Awaits p b
            (AwaitRoom b) result }
    {
        if b == 2 {
            await_room::<J, A>(&mut self.to_a, p)
        } else if b == 3 {
            await_room::<J, A>(&mut self.to_b, p)
        } else if b == 4 {
            await_room::<J, A>(&mut self.from_a, p)
        } else {
            await_room::<J, A>(&mut self.from_b, p)
        }
    }

    /// Waits until a spool has a page. No reply: the process waits.
    pub fn await_item<'a, J: JobWork>(
        &mut self,
        p: ProcNo,
        b: BufferNo,
    ) -> Option<Reply<'a, J::Load>>
        requires { AtSpool self.old b (λ spool. WaitsAt spool.sides Receiver p) }
        ensures { SpoolVisited J.jobs A.pages A.faults self.old self.new Receiver Awaits p b
            (AwaitItem b) result }
    {
        if b == 2 {
            await_item::<J, A>(&mut self.to_a, p)
        } else if b == 3 {
            await_item::<J, A>(&mut self.to_b, p)
        } else if b == 4 {
            await_item::<J, A>(&mut self.from_a, p)
        } else {
            await_item::<J, A>(&mut self.from_b, p)
        }
    }

    /// Puts a page into a spool that has room.
    pub fn put_page<'a, J: JobWork>(&mut self, b: BufferNo, page: &Page) -> Reply<'a, J::Load>
        requires { AtSpool self.old b PutsAt }
        ensures { (p : ℕ) → SpoolVisited J.jobs A.pages A.faults self.old self.new Sender Moves p b
            (PutPage b page.now) (Some result) }
    {
        if b == 2 {
            put_page::<J, A>(&mut self.to_a, page)
        } else if b == 3 {
            put_page::<J, A>(&mut self.to_b, page)
        } else if b == 4 {
            put_page::<J, A>(&mut self.from_a, page)
        } else {
            put_page::<J, A>(&mut self.from_b, page)
        }
    }

    /// Takes a page from a spool that has one. It is lent from the room.
    pub fn take_page<'a, J: JobWork>(
        &mut self,
        b: BufferNo,
        room: &'a mut Page,
    ) -> Reply<'a, J::Load>
        requires { AtSpool self.old b TakesAt }
        ensures { (p : ℕ) → SpoolVisited J.jobs A.pages A.faults self.old self.new Receiver Moves p b
            (TakePage b) (Some result) }
    {
        if b == 2 {
            take_page::<J, A>(&mut self.to_a, room)
        } else if b == 3 {
            take_page::<J, A>(&mut self.to_b, room)
        } else if b == 4 {
            take_page::<J, A>(&mut self.from_a, room)
        } else {
            take_page::<J, A>(&mut self.from_b, room)
        }
    }

    /// Stops a spool at a side.
    pub fn stop<'a, J: JobWork>(&mut self, b: BufferNo, side: Side) -> Reply<'a, J::Load>
        requires { AtSpool self.old b (λ spool. MayStop spool.sides side) }
        ensures { (p : ℕ) →
            SpoolVisited J.jobs A.pages A.faults self.old self.new side Stops p b (Stop b) (Some result) }
    {
        if b == 2 {
            stop_spool::<J, A>(&mut self.to_a, b, side)
        } else if b == 3 {
            stop_spool::<J, A>(&mut self.to_b, b, side)
        } else if b == 4 {
            stop_spool::<J, A>(&mut self.from_a, b, side)
        } else {
            stop_spool::<J, A>(&mut self.from_b, b, side)
        }
    }

    /// The spool of this number.
    pub fn at(&self, b: BufferNo) -> &Spool<A> {
        match b {
            2 => &self.to_a,
            3 => &self.to_b,
            4 => &self.from_a,
            _ => &self.from_b,
        }
    }
}
