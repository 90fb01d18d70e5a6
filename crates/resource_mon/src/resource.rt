// A monitor that grants one resource.
ghost use Rattle.std.specs.Prelude.{◌≡◌, ◌↔◌, ◌⊎◌, ℕ, ◌<◌, ◌++◌, List, [], ◌∷◌, length, IsTrue, IsSome, Some, option_to_list, slice_set};
ghost use Rattle.resource_mon.specs.Queued.{in_queue, StandsIn};
ghost use Rattle.resource_mon.specs.Claims.{HasOneHolder, IsNoneOf, MayRequest, unclaimed, claimants, grant_by, after_request, granted_with, first_of, after_release, after_resumed};

use crate::Grant;
use queue_var::{Fifo, QueueVar, Turn};
use solo_base::ProcNo;
use std::array;
use std::marker::Model;

/// The resource of Concurrent Pascal's book: a monitor for at most N waiting processes.
///
/// At most one process holds the resource, the others wait in order of arrival, and where nobody holds
/// it nobody waits.
#[derive(Debug, Drop)]
pub struct Resource<const N: usize> {
    queues: [QueueVar; N],
    order: Fifo<N>,
    holder: Option<ProcNo>,
    turn: Turn<usize>,
}

impl<const N: usize> Model for Resource<N> {
    ghost use Rattle.queue_var.specs.Turn.{handed};
    ghost use Rattle.resource_mon.specs.Claims.{Claims};
    ghost use Rattle.resource_mon.specs.Queued.{Queued, in_queue, processes_at};

    ghost Value = { Claims };

    ghost view = { λ r. record { holder = r.holder; waiting = processes_at r.queues r.order.waiting; handed = handed r.turn (in_queue r.queues) } };

    ghost invariant = { λ r. Queued N r.queues r.order.waiting r.turn r.holder };
}

impl<const N: usize> Resource<N> {
    pub fn new() -> Self
        requires { 0 < N }
        ensures unclaimed { result ≡ unclaimed }
        ensures history { HasOneHolder [] [] [] result }
    {
        Resource {
            queues: array::from_fn(|_| QueueVar::new()),
            order: Fifo::new(),
            holder: None,
            turn: Turn::Free,
        }
    }

    /// The process to which the turn is handed, or none where the turn is free.
    pub fn handed(&self) -> Option<ProcNo>
        ensures { result ≡ self.now.handed }
    {
        match self.turn {
            Turn::Free => None,
            Turn::Handed(position) => process_in(&self.queues, position),
        }
    }

    /// Whether a process may enter: the turn is free, or handed to it.
    pub fn admits(&self, p: ProcNo) -> bool
        ensures { IsTrue result ↔ (self.now.handed ≡ None) ⊎ (self.now.handed ≡ Some p) }
    {
        match self.handed() {
            None => true,
            Some(process) => process == p,
        }
    }

    /// The process that has the resource.
    pub fn holder(&self) -> Option<ProcNo>
        ensures { result ≡ self.now.holder }
    {
        let Resource { holder, .. } = self;
        *holder
    }

    /// Whether a process may make its request, or resumes in it.
    pub fn may_request(&self, p: ProcNo) -> bool
        ensures { IsTrue result ↔ MayRequest self.now p }
    {
        match self.handed() {
            None => self.holder != Some(p) && !stands_in(&self.queues, p),
            Some(process) => process == p,
        }
    }

    /// Asks for the resource. A process that waits has it when the turn is handed to it.
    pub fn request(&mut self, p: ProcNo) -> Grant
        requires admitted { (self.old.handed ≡ None) ⊎ (self.old.handed ≡ Some p) }
        requires no_claim { IsNoneOf (claimants self.old) p }
        requires room { length self.old.waiting < N }
        ensures answer { result ≡ grant_by self.old.holder }
        ensures after { self.new ≡ after_request self.old p result }
        ensures history { (requested granted released : List ℕ) → HasOneHolder requested granted released self.old → HasOneHolder (requested ++ p ∷ []) (granted_with granted p result) released self.new }
    {
        if self.holder.is_none() {
            self.holder = Some(p);
            return Grant::Got;
        }
        let position = self.order.arrival();
        delay_in(&mut self.queues, position, p);
        Grant::Wait
    }

    /// Takes the process out of its queue that the turn was handed to.
    pub fn resumed(&mut self, p: ProcNo)
        requires { self.old.handed ≡ Some p }
        ensures after { self.new ≡ after_resumed self.old }
        ensures history { (requested granted released : List ℕ) → HasOneHolder requested granted released self.old → HasOneHolder requested granted released self.new }
    {
        if let Turn::Handed(position) = self.turn {
            resume_in(&mut self.queues, position);
            self.turn = Turn::Free;
        }
    }

    /// Gives the resource up. The process that has waited longest has it then, and goes next.
    pub fn release(&mut self) -> Option<ProcNo>
        requires held { IsSome self.old.holder }
        requires free { self.old.handed ≡ None }
        ensures answer { result ≡ first_of self.old.waiting }
        ensures after { self.new ≡ after_release self.old }
        ensures history { (requested granted released : List ℕ) → HasOneHolder requested granted released self.old → HasOneHolder requested (granted ++ option_to_list result) (released ++ option_to_list self.old.holder) self.new }
    {
        if self.order.empty() {
            self.holder = None;
            return None;
        }
        let position = self.order.departure();
        let next = process_in(&self.queues, position);
        self.holder = next;
        self.turn = Turn::Handed(position);
        next
    }
}

/// The process in the queue at a position.
fn process_in(queues: &[QueueVar], position: usize) -> Option<ProcNo>
    requires { position < length queues.now }
    ensures { result ≡ in_queue queues.now position }
{
    queues[position].cont()
}

/// Whether a process is in one of the queues.
fn stands_in(queues: &[QueueVar], p: ProcNo) -> bool
    ensures { IsTrue result ↔ StandsIn queues.now p }
{
    queues.iter().any(|queue| queue.cont() == Some(p))
}

/// Puts a process into the queue at a position.
fn delay_in(queues: &mut [QueueVar], position: usize, p: ProcNo)
    requires inside { position < length queues.old }
    requires empty { in_queue queues.old position ≡ None }
    ensures { queues.new ≡ slice_set queues.old position (Some p) }
{
    let queue = &mut queues[position];
    queue.delay(p);
}

/// Takes the process out of the queue at a position.
fn resume_in(queues: &mut [QueueVar], position: usize)
    requires inside { position < length queues.old }
    requires waits { IsSome (in_queue queues.old position) }
    ensures { queues.new ≡ slice_set queues.old position None }
{
    let queue = &mut queues[position];
    queue.resume();
}
