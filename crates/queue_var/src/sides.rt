// The two sides of a buffer: what a buffer needs beside its content.
ghost use Rattle.std.specs.Prelude.{◌≡◌, ◌↔◌, ◌⊎◌, ℕ, Option, IsTrue};
ghost use Rattle.queue_var.specs.declared.turn.Turn.TheVariants.{Free, Handed};
ghost use Rattle.queue_var.specs.Turn.{handed};
ghost use Rattle.queue_var.specs.Sides.{MayEnter, MayStop, nobody, queue, entered, delayed, continued, stopped, stopped_by};

use crate::{QueueVar, Stops, Turn};
use solo_base::{ProcNo, Side};
use std::marker::Model;

/// The queue of the senders and that of the receivers, the turn, and who stopped.
#[derive(Debug, Drop)]
pub struct Sides {
    sender: QueueVar,
    receiver: QueueVar,
    turn: Turn<Side>,
    stops: Stops,
}

impl Model for Sides {
    ghost use Rattle.queue_var.specs.Sides.{Sides, NamesWhoWaits};

    ghost Value = { Sides };

    ghost view = { λ s. record { sender = s.sender; receiver = s.receiver; turn = s.turn; stops = s.stops } };

    ghost invariant = { λ s. NamesWhoWaits record { sender = s.sender; receiver = s.receiver; turn = s.turn; stops = s.stops } };
}

impl Sides {
    /// Nobody waits, the turn is free, and neither side has stopped.
    pub fn new() -> Self
        ensures { result ≡ nobody }
    {
        Sides {
            sender: QueueVar::new(),
            receiver: QueueVar::new(),
            turn: Turn::Free,
            stops: Stops::Neither,
        }
    }

    /// The process to which the turn is handed.
    pub fn handed(&self) -> Option<ProcNo>
        ensures process { result ≡ handed self.now.turn (queue self.now) }
        ensures free { (result ≡ None) ↔ (self.now.turn ≡ Free) }
    {
        match self.turn {
            Turn::Free => None,
            Turn::Handed(Side::Sender) => self.sender.cont(),
            Turn::Handed(Side::Receiver) => self.receiver.cont(),
        }
    }

    /// Whether a process may enter: the turn is free, or handed to it.
    pub fn admits(&self, p: ProcNo) -> bool
        ensures { IsTrue result ↔ (self.now.turn ≡ Free) ⊎ (handed self.now.turn (queue self.now) ≡ Some p) }
    {
        match self.handed() {
            None => true,
            Some(process) => process == p,
        }
    }

    /// The process that waits on a side.
    pub fn waiting(&self, side: Side) -> Option<ProcNo>
        ensures { result ≡ queue self.now side }
    {
        match side {
            Side::Sender => self.sender.cont(),
            Side::Receiver => self.receiver.cont(),
        }
    }

    /// Whether a process may enter by a side: the turn is free and nobody of the side waits, or the turn is
    /// handed to it.
    pub fn may_enter(&self, side: Side, p: ProcNo) -> bool
        ensures { IsTrue result ↔ MayEnter self.now side p }
    {
        match self.turn {
            Turn::Free => self.waiting(side).is_none(),
            Turn::Handed(handed) => handed == side && self.waiting(side) == Some(p),
        }
    }

    /// Whether a side may stop: the turn is free and nobody of the side waits.
    pub fn may_stop(&self, side: Side) -> bool
        ensures { IsTrue result ↔ MayStop self.now side }
    {
        match self.turn {
            Turn::Free => self.waiting(side).is_none(),
            Turn::Handed(_) => false,
        }
    }

    /// The first side that stopped.
    pub fn stopped_by(&self) -> Option<Side>
        ensures { result ≡ stopped_by self.now }
    {
        self.stops.first()
    }

    /// Lets a process in by its side. One to which the turn was handed resumes.
    pub fn enter(&mut self, side: Side)
        requires { ((self.old.turn ≡ Free) × (queue self.old side ≡ None)) ⊎ (self.old.turn ≡ Handed side) }
        ensures { self.new ≡ entered self.old side }
    {
        if let Turn::Handed(_) = self.turn {
            self.turn = Turn::Free;
            match side {
                Side::Sender => self.sender.resume(),
                Side::Receiver => self.receiver.resume(),
            };
        }
    }

    /// Puts the process that is inside into the queue of its side.
    pub fn delay(&mut self, side: Side, p: ProcNo)
        requires inside { self.old.turn ≡ Free }
        requires room { queue self.old side ≡ None }
        ensures { self.new ≡ delayed self.old side p }
    {
        match side {
            Side::Sender => self.sender.delay(p),
            Side::Receiver => self.receiver.delay(p),
        }
    }

    /// Hands the turn to the process that waits on a side, if there is one.
    pub fn cont(&mut self, side: Side)
        ensures { self.new ≡ continued self.old side }
    {
        self.turn = match self.waiting(side) {
            Some(_) => Turn::Handed(side),
            None => Turn::Free,
        };
    }

    /// Marks a side as stopped.
    pub fn stop(&mut self, side: Side)
        ensures { self.new ≡ stopped self.old side }
    {
        self.stops = self.stops.with(side);
    }
}
