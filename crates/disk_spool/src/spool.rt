// A monitor with a ring of pages on a disk.
ghost use Rattle.std.specs.Prelude.{◌≡◌, ◌≢◌, ◌↔◌, ◌⊎◌, ◌<◌, ◌≤◌, ℕ, List, [], ◌∷◌, ◌++◌, length, false, IsTrue, IsSome, IfSome, None, Some};
ghost use Rattle.solo_base.specs.declared.outcome.Side.{Side};
ghost use Rattle.solo_base.specs.declared.outcome.Side.TheVariants.{Sender, Receiver};
ghost use Rattle.queue_var.specs.declared.turn.Turn.TheVariants.{Free};
ghost use Rattle.queue_var.specs.Turn.{handed};
ghost use Rattle.queue_var.specs.Sides.{MayEnter, MayStop, queue, stopped_by, has_stopped};
ghost use Rattle.queue_var.specs.HandsOver.{earliest};
ghost use Rattle.queue_var.specs.BetweenTwo.{process_at};
ghost use Rattle.solo_devices.specs.Area.{ReadsFrom, Writes, CountsFaults};
ghost use Rattle.disk_spool.specs.Ring.{next_place};
ghost use Rattle.disk_spool.specs.Spool.{Received, StandsFor, empty_spool, mark, room_answer, item_answer, after_await, after_put, sent_with, after_take, taken_with, moved, AnswersFirst, after_stop};

use crate::ring::{MOST_PAGES, Ring};
use crate::{Await, Fetched};
use queue_var::Sides;
use solo_base::{Page, ProcNo, Side};
use solo_devices::{Area, Moved};
use std::marker::Model;

/// The spool of the Job Stream System: a monitor between one sender and one receiver of pages, which
/// lie in a ring on an area until they are taken.
///
/// A sender awaits room, and then puts a page; a receiver awaits an item, and then takes it. What was
/// taken, and then what is inside, is what was put, in order. A sender waits only while the ring is
/// full, a receiver only while it is empty, and neither once a side has stopped.
#[derive(Debug, Drop)]
pub struct Spool<A: Area> {
    area: A,
    ring: Ring,
    sides: Sides,
}

impl<A: Area> Model for Spool<A> {
    ghost use Rattle.std.specs.Prelude.{◌≡◌};
    ghost use Rattle.solo_devices.specs.Area.{HasSize};
    ghost use Rattle.disk_spool.specs.Spool.{Spool};

    ghost Value = { Spool A };

    ghost view = { λ s. record { area = s.area; ring = s.ring; sides = s.sides } };

    ghost invariant = { λ s. (s.ring.capacity ≡ A.size s.area) × HasSize (A.pages s.area) (A.size s.area) };
}

impl<A: Area> Spool<A> {
    /// An empty spool on an area of 1 to 256 pages, which holds as many pages as the area has.
    pub fn make(area: A) -> Self
        requires some { 0 < A.size area }
        requires few { A.size area ≤ MOST_PAGES }
        ensures empty { result ≡ empty_spool area (A.size area) }
        ensures history { StandsFor A.pages [] [] [] result }
    {
        let ring = Ring::new(area.size());
        Spool {
            area,
            ring,
            sides: Sides::new(),
        }
    }

    /// Whether a process may enter: the turn is free, or handed to it.
    pub fn admits(&self, p: ProcNo) -> bool
        ensures { IsTrue result ↔ (self.now.sides.turn ≡ Free) ⊎ (handed self.now.sides.turn (queue self.now.sides) ≡ Some p) }
    {
        self.sides.admits(p)
    }

    /// Whether a process may enter by a side, to await room or an item.
    pub fn may_enter(&self, side: Side, p: ProcNo) -> bool
        ensures { IsTrue result ↔ MayEnter self.now.sides side p }
    {
        self.sides.may_enter(side, p)
    }

    /// Whether a side may stop.
    pub fn may_stop(&self, side: Side) -> bool
        ensures { IsTrue result ↔ MayStop self.now.sides side }
    {
        self.sides.may_stop(side)
    }

    /// The process to which the turn is handed.
    pub fn handed(&self) -> Option<ProcNo>
        ensures process { result ≡ handed self.now.sides.turn (queue self.now.sides) }
        ensures free { (result ≡ None) ↔ (self.now.sides.turn ≡ Free) }
    {
        self.sides.handed()
    }

    /// The first side that stopped.
    pub fn stopped_by(&self) -> Option<Side>
        ensures marked { result ≡ stopped_by self.now.sides }
        ensures history { (sent : List (List ℕ)) (taken : List Received) (stops : List Side)
            → StandsFor A.pages sent taken stops self.now → result ≡ earliest stops }
    {
        self.sides.stopped_by()
    }

    /// The process that would only be delayed now: the sender where the ring is full, the receiver where it
    /// is empty, and neither once a side has stopped.
    pub(crate) fn would_wait(&self) -> Option<ProcNo>
        ensures waits { IfSome result (λ p. ((p ≡ process_at Sender) × (room_answer self.now ≡ Await.Delayed))
            ⊎ ((p ≡ process_at Receiver) × (item_answer self.now ≡ Await.Delayed))) }
        ensures neither { result ≡ None → IsSome (stopped_by self.now.sides)
            ⊎ ((room_answer self.now ≡ Await.Ready) × (item_answer self.now ≡ Await.Ready)) }
    {
        if self.sides.stopped_by().is_some() {
            None
        } else if self.ring.is_full() {
            Some(1)
        } else if self.ring.is_empty() {
            Some(2)
        } else {
            None
        }
    }

    /// Awaits room for a page, unless the receiver stopped first.
    pub fn await_room(&mut self, p: ProcNo) -> Await
        requires may_enter { MayEnter self.old.sides Sender p }
        requires not_stopped { has_stopped self.old.sides Sender ≡ false }
        ensures answer { result ≡ room_answer self.old }
        ensures stopped { result ≡ Await.Stopped → stopped_by self.old.sides ≡ Some Receiver }
        ensures room { result ≡ Await.Ready → length self.new.ring.marks < self.new.ring.capacity }
        ensures after { self.new ≡ after_await self.old Sender p result }
        ensures history { (sent : List (List ℕ)) (taken : List Received) (stops : List Side)
            → StandsFor A.pages sent taken stops self.old → StandsFor A.pages sent taken stops self.new }
    {
        self.sides.enter(Side::Sender);
        if self.sides.stopped_by() == Some(Side::Receiver) {
            return Await::Stopped;
        }
        if self.ring.is_full() {
            self.sides.delay(Side::Sender, p);
            return Await::Delayed;
        }
        Await::Ready
    }

    /// Puts a page behind those that are inside. Where the write fails the ring stays, and the turn is free.
    pub fn put(&mut self, page: &Page) -> Moved
        requires free { self.old.sides.turn ≡ Free }
        requires nobody_waits { queue self.old.sides Sender ≡ None }
        requires room { length self.old.ring.marks < self.old.ring.capacity }
        requires not_stopped { has_stopped self.old.sides Sender ≡ false }

        // What the area did.
        ensures area { Writes (A.pages self.old.area) (A.pages self.new.area) (next_place self.old.ring) result page.now.0 }
        ensures size { A.size self.new.area ≡ A.size self.old.area }
        ensures cause { CountsFaults (A.faults self.old.area) (A.faults self.new.area) result }

        ensures after { self.new ≡ after_put self.old self.new.area (mark page.now.0) result }
        ensures history { (sent : List (List ℕ)) (taken : List Received) (stops : List Side)
            → StandsFor A.pages sent taken stops self.old → StandsFor A.pages (sent_with sent page.now.0 result) taken stops self.new }
    {
        let place = self.ring.next_place();
        if self.area.write(place, page) == Moved::Failed {
            return Moved::Failed;
        }
        self.ring.add(page.last());
        self.sides.cont(Side::Receiver);
        Moved::Done
    }

    /// Awaits a page, unless the sender stopped first and none is left.
    pub fn await_item(&mut self, p: ProcNo) -> Await
        requires may_enter { MayEnter self.old.sides Receiver p }
        requires not_stopped { has_stopped self.old.sides Receiver ≡ false }
        ensures answer { result ≡ item_answer self.old }
        ensures stopped { result ≡ Await.Stopped → (stopped_by self.old.sides ≡ Some Sender) × (self.old.ring.marks ≡ []) }
        ensures item { result ≡ Await.Ready → self.new.ring.marks ≢ [] }
        ensures after { self.new ≡ after_await self.old Receiver p result }
        ensures history { (sent : List (List ℕ)) (taken : List Received) (stops : List Side)
            → StandsFor A.pages sent taken stops self.old → StandsFor A.pages sent taken stops self.new }
    {
        self.sides.enter(Side::Receiver);
        if !self.ring.is_empty() {
            return Await::Ready;
        }
        if self.sides.stopped_by() == Some(Side::Sender) {
            return Await::Stopped;
        }
        self.sides.delay(Side::Receiver, p);
        Await::Delayed
    }

    /// Takes the earliest page out. Where the read fails the ring stays, the turn is free, and `page` may
    /// hold any bytes.
    pub fn take(&mut self, page: &mut Page) -> Fetched
        requires free { self.old.sides.turn ≡ Free }
        requires nobody_waits { queue self.old.sides Receiver ≡ None }
        requires item { self.old.ring.marks ≢ [] }
        requires not_stopped { has_stopped self.old.sides Receiver ≡ false }

        // What the area did.
        ensures area { ReadsFrom (A.pages self.old.area) (A.pages self.new.area) self.old.ring.first (moved result) page.new.0 }
        ensures size { A.size self.new.area ≡ A.size self.old.area }
        ensures cause { CountsFaults (A.faults self.old.area) (A.faults self.new.area) (moved result) }

        ensures last { AnswersFirst self.old.ring.marks result }
        ensures after { self.new ≡ after_take self.old self.new.area result }
        ensures history { (sent : List (List ℕ)) (taken : List Received) (stops : List Side)
            → StandsFor A.pages sent taken stops self.old → StandsFor A.pages sent (taken_with taken page.new.0 result) stops self.new }
    {
        let place = self.ring.first_place();
        if self.area.read(place, page) == Moved::Failed {
            return Fetched::Failed;
        }
        let last = self.ring.remove();
        self.sides.cont(Side::Sender);
        Fetched::Done { last }
    }

    /// Stops a side for good, and lets the other side know if it waits.
    pub fn stop(&mut self, side: Side)
        requires free { self.old.sides.turn ≡ Free }
        requires nobody_waits { queue self.old.sides side ≡ None }
        ensures after { self.new ≡ after_stop self.old side }
        ensures history { (sent : List (List ℕ)) (taken : List Received) (stops : List Side)
            → StandsFor A.pages sent taken stops self.old → StandsFor A.pages sent taken (stops ++ side ∷ []) self.new }
    {
        self.sides.stop(side);
        self.sides.cont(match side {
            Side::Sender => Side::Receiver,
            Side::Receiver => Side::Sender,
        });
    }

    /// How many pages were put and not taken.
    pub fn left(&self) -> u16
        ensures { result ≡ length self.now.ring.marks }
    {
        self.ring.held()
    }

    /// Gives the area back.
    pub fn into_inner(self) -> A
        ensures { result ≡ self.area }
    {
        let Spool {
            area,
            ring: _,
            sides: _,
        } = self;
        area
    }
}
