// A monitor with one slot.
ghost use Rattle.std.specs.Prelude.{◌≡◌, ◌≢◌, ◌↔◌, ◌⊎◌, ℕ, ◌++◌, List, [], ◌∷◌, Bool, true, false, IsTrue, IsSome, IfSome, None, Some, option_to_list};
ghost use Rattle.solo_base.specs.declared.outcome.Side.{Side};
ghost use Rattle.solo_base.specs.declared.outcome.Side.TheVariants.{Sender, Receiver};
ghost use Rattle.queue_var.specs.declared.turn.Turn.TheVariants.{Free};
ghost use Rattle.queue_var.specs.Turn.{handed};
ghost use Rattle.queue_var.specs.Sides.{MayEnter, MayStop, queue, nobody, entered, delayed, continued, stopped_by, has_stopped};
ghost use Rattle.queue_var.specs.HandsOver.{earliest};
ghost use Rattle.queue_var.specs.BetweenTwo.{process_at};
ghost use Rattle.slot_buffer.specs.declared.answers.Put.{Put};
ghost use Rattle.slot_buffer.specs.declared.answers.Take.{Take};
ghost use Rattle.slot_buffer.specs.Ends.{taken_out};
ghost use Rattle.slot_buffer.specs.Slot.{StandsFor, put_answer, after_put, sent_with, take_answer, after_take, taken_with, after_stop};

use crate::{Put, Take};
use queue_var::Sides;
use solo_base::{ProcNo, Side};
use std::marker::Model;

/// The one-slot buffer of Concurrent Pascal's book: a monitor between one sender and one receiver.
///
/// What was taken, and then what is inside, is what was put, in order. A sender waits only while the
/// buffer is full, a receiver only while it is empty, and neither once a side has stopped.
#[derive(Debug, Drop)]
pub struct SlotBuffer<T> {
    slot: Option<T>,
    sides: Sides,
}

impl<T> Model for SlotBuffer<T> {
    ghost use Rattle.std.specs.Prelude.{option_to_list};
    ghost use Rattle.queue_var.specs.HandsOver.{earliest};
    ghost use Rattle.slot_buffer.specs.declared.answers.Put.{Put};
    ghost use Rattle.slot_buffer.specs.declared.answers.Take.{Take};
    ghost use Rattle.slot_buffer.specs.Slot.{Slot};

    ghost Value = { Slot T };

    ghost view = { λ b. record { inside = option_to_list b.slot; sides = b.sides } };
}

impl<T> SlotBuffer<T> {
    /// An empty buffer at which nobody waits and which nobody has stopped.
    pub fn new() -> Self
        ensures empty { result ≡ record { inside = []; sides = nobody } }
        ensures history { StandsFor [] [] [] result }
    {
        SlotBuffer {
            slot: None,
            sides: Sides::new(),
        }
    }

    /// Whether a process may enter: the turn is free, or handed to it.
    pub fn admits(&self, p: ProcNo) -> bool
        ensures { IsTrue result ↔ (self.now.sides.turn ≡ Free) ⊎ (handed self.now.sides.turn (queue self.now.sides) ≡ Some p) }
    {
        self.sides.admits(p)
    }

    /// Whether a process may make its call by a side, a put or a take.
    pub fn may_enter(&self, side: Side, p: ProcNo) -> bool
        ensures { IsTrue result ↔ MayEnter self.now.sides side p }
    {
        self.sides.may_enter(side, p)
    }

    /// Whether a side may stop.
    pub fn may_stop(&self, side: Side) -> bool
        ensures { IsTrue result ↔ MayStop self.now.sides side }
    {
        self.sides.may_stop(side)
    }

    /// The process to which the turn is handed.
    pub fn handed(&self) -> Option<ProcNo>
        ensures process { result ≡ handed self.now.sides.turn (queue self.now.sides) }
        ensures free { (result ≡ None) ↔ (self.now.sides.turn ≡ Free) }
    {
        self.sides.handed()
    }

    /// The first side that stopped.
    pub fn stopped_by(&self) -> Option<Side>
        ensures marked { result ≡ stopped_by self.now.sides }
        ensures history { (sent taken : List T) (stops : List Side) → StandsFor sent taken stops self.now → result ≡ earliest stops }
    {
        self.sides.stopped_by()
    }

    /// The process that would only be delayed now: the sender where the buffer is full, the receiver where
    /// it is empty, and neither once a side has stopped.
    pub(crate) fn would_wait(&self) -> Option<ProcNo>
        ensures waits { IfSome result (λ p.
            ((p ≡ process_at Sender) × ((item : T) → put_answer self.now item ≡ Put.Delayed item))
            ⊎ ((p ≡ process_at Receiver) × (take_answer self.now ≡ Take.Delayed))) }
        ensures neither { result ≡ None → IsSome (stopped_by self.now.sides) }
    {
        if self.sides.stopped_by().is_some() {
            None
        } else if self.slot.is_some() {
            Some(1)
        } else {
            Some(2)
        }
    }

    /// Puts an item in, if there is room and the receiver didn't stop first.
    pub fn put(&mut self, p: ProcNo, item: T) -> Put<T>
        requires may_enter { MayEnter self.old.sides Sender p }
        requires not_stopped { has_stopped self.old.sides Sender ≡ false }
        ensures answer { result ≡ put_answer self.old item }
        ensures stopped { (back : T) → result ≡ Put.Stopped back → stopped_by self.old.sides ≡ Some Receiver }
        ensures after { self.new ≡ after_put self.old p item result }
        ensures history { (sent taken : List T) (stops : List Side) → StandsFor sent taken stops self.old → StandsFor (sent_with sent item result) taken stops self.new }
    {
        if self.waits_to_put(p) {
            return Put::Delayed(item);
        }
        if self.refuses_put() {
            return Put::Stopped(item);
        }
        self.put_in(item);
        Put::Done
    }

    /// Takes the item out, if there is one. What was put before a sender stopped is still taken.
    pub fn take(&mut self, p: ProcNo) -> Take<T>
        requires may_enter { MayEnter self.old.sides Receiver p }
        requires not_stopped { has_stopped self.old.sides Receiver ≡ false }
        ensures answer { result ≡ take_answer self.old }
        ensures stopped { result ≡ Take.Stopped → (stopped_by self.old.sides ≡ Some Sender) × (self.old.inside ≡ []) }
        ensures after { self.new ≡ after_take self.old p result }
        ensures history { (sent taken : List T) (stops : List Side) → StandsFor sent taken stops self.old → StandsFor sent (taken_with taken result) stops self.new }
    {
        if self.waits_to_take(p) {
            return Take::Delayed;
        }
        match self.take_out() {
            Some(item) => Take::Item(item),
            None => Take::Stopped,
        }
    }

    /// Whether a sender has to wait, since the buffer is full and the receiver didn't stop first. It waits
    /// then; where not, nothing changes.
    pub(crate) fn waits_to_put(&mut self, p: ProcNo) -> bool
        requires may_enter { MayEnter self.old.sides Sender p }
        ensures waits { result ≡ true → ((item : T) → Put.Delayed item ≡ put_answer self.old item)
            × (self.new ≡ record { inside = self.old.inside; sides = delayed (entered self.old.sides Sender) Sender p }) }
        ensures full { result ≡ true → self.old.inside ≢ [] }
        ensures goes_on { result ≡ false → (self.new ≡ self.old) × ((item back : T) → Put.Delayed back ≡ put_answer self.old item → ⊥) }
    {
        if self.slot.is_none() {
            return false;
        }
        if self.sides.stopped_by() == Some(Side::Receiver) {
            return false;
        }
        self.sides.enter(Side::Sender);
        self.sides.delay(Side::Sender, p);
        true
    }

    /// Whether the receiver stopped first. The put is refused then; where not, nothing changes.
    pub(crate) fn refuses_put(&mut self) -> bool
        requires may_enter { (p : ℕ) × MayEnter self.old.sides Sender p }
        ensures refuses { result ≡ true → (stopped_by self.old.sides ≡ Some Receiver)
            × (self.new ≡ record { inside = self.old.inside; sides = entered self.old.sides Sender }) }
        ensures goes_on { result ≡ false → (self.new ≡ self.old) × (stopped_by self.old.sides ≢ Some Receiver) }
    {
        if self.sides.stopped_by() == Some(Side::Receiver) {
            self.sides.enter(Side::Sender);
            return true;
        }
        false
    }

    /// Puts an item in, where neither the buffer nor the receiver is in the way.
    #[inline(always)]
    pub(crate) fn put_in(&mut self, item: T)
        requires may_enter { (p : ℕ) × MayEnter self.old.sides Sender p }
        requires not_delayed { (back : T) → Put.Delayed back ≡ put_answer self.old item → ⊥ }
        requires not_refused { stopped_by self.old.sides ≢ Some Receiver }
        ensures answer { Put.Done ≡ put_answer self.old item }
        ensures after { self.new ≡ record { inside = self.old.inside ++ item ∷ []; sides = continued (entered self.old.sides Sender) Receiver } }
    {
        fill(&mut self.slot, item);
        self.sides.enter(Side::Sender);
        self.sides.cont(Side::Receiver);
    }

    /// Whether a receiver has to wait, since the buffer is empty and the sender didn't stop first. It waits
    /// then; where not, nothing changes.
    pub(crate) fn waits_to_take(&mut self, p: ProcNo) -> bool
        requires may_enter { MayEnter self.old.sides Receiver p }
        ensures waits { result ≡ true → (Take.Delayed ≡ take_answer self.old) × (self.new ≡ after_take self.old p Take.Delayed) }
        ensures goes_on { result ≡ false → (self.new ≡ self.old) × (Take.Delayed ≡ take_answer self.old → ⊥) }
    {
        if self.slot.is_some() {
            return false;
        }
        if self.sides.stopped_by() == Some(Side::Sender) {
            return false;
        }
        self.sides.enter(Side::Receiver);
        self.sides.delay(Side::Receiver, p);
        true
    }

    /// Takes the item out for a receiver that doesn't have to wait. None: the sender stopped first, and no item
    /// is left.
    #[inline(always)]
    pub(crate) fn take_out(&mut self) -> Option<T>
        requires may_enter { (p : ℕ) × MayEnter self.old.sides Receiver p }
        requires not_delayed { Take.Delayed ≡ take_answer self.old → ⊥ }
        ensures answer { taken_out result ≡ take_answer self.old }
        ensures after { (p : ℕ) → self.new ≡ after_take self.old p (taken_out result) }
    {
        self.sides.enter(Side::Receiver);
        if self.slot.is_some() {
            self.sides.cont(Side::Sender);
        }
        self.slot.take()
    }

    /// Stops a side for good, and lets the other side know if it waits.
    pub fn stop(&mut self, side: Side)
        requires free { self.old.sides.turn ≡ Free }
        requires nobody_waits { queue self.old.sides side ≡ None }
        ensures after { self.new ≡ after_stop self.old side }
        ensures history { (sent taken : List T) (stops : List Side) → StandsFor sent taken stops self.old → StandsFor sent taken (stops ++ side ∷ []) self.new }
    {
        self.sides.stop(side);
        self.sides.cont(match side {
            Side::Sender => Side::Receiver,
            Side::Receiver => Side::Sender,
        });
    }

    /// The item that is inside, at the end of the buffer.
    pub fn into_rest(self) -> Option<T>
        ensures { self.inside ≡ option_to_list result }
    {
        let SlotBuffer { slot, sides: _ } = self;
        slot
    }
}

/// Puts an item into a slot that is empty.
#[inline(always)]
fn fill<T>(slot: &mut Option<T>, item: T)
    requires { slot.old ≡ None }
    ensures { slot.new ≡ Some item }
{
    match slot.replace(item) {
        None => {}
        Some(_held) => unreachable!(),
    }
}
