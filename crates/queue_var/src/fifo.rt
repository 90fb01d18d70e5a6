// The order of arrival.
ghost use Rattle.std.specs.Prelude.{◌≡◌, ◌≢◌, ◌↔◌, ℕ, ◌+◌, ◌<◌, ◌≤◌, List, [], ◌∷◌, ◌++◌, length, IsTrue, Contains};
ghost use Rattle.queue_var.specs.Fifo.{Move, Arrival, Departure, StandsFor};
ghost use Rattle.queue_var.specs.Circle.{place};

use std::marker::Model;

/// The class FIFO of Concurrent Pascal: positions from 0 to N - 1, given out in cyclic order of arrival.
/// Who has arrived keeps the position until it departs, and the earliest departs first.
#[derive(Debug, Drop)]
pub struct Fifo<const N: usize> {
    first: usize,
    length: usize,
}

impl<const N: usize> Model for Fifo<N> {
    ghost use Rattle.std.specs.Prelude.{◌<◌, ◌≤◌};
    ghost use Rattle.queue_var.specs.Fifo.{Positions};
    ghost use Rattle.queue_var.specs.Circle.{shown};

    ghost Value = { Positions };

    ghost view = { λ f. shown N f.first f.length };

    ghost invariant = { λ f. (f.first < N) × (f.length ≤ N) };
}

impl<const N: usize> Fifo<N> {
    pub fn new() -> Self
        requires { 0 < N }
        ensures { StandsFor N [] result }
    {
        Fifo {
            first: 0,
            length: 0,
        }
    }

    pub fn empty(&self) -> bool
        ensures { IsTrue result ↔ (self.now.waiting ≡ []) }
    {
        self.length == 0
    }

    pub fn full(&self) -> bool
        ensures full { IsTrue result ↔ (length self.now.waiting ≡ N) }
        ensures within { length self.now.waiting ≤ N }
    {
        self.length == N
    }

    /// The position of one that arrives.
    pub fn arrival(&mut self) -> usize
        requires { length self.old.waiting < N }
        ensures position { result ≡ self.old.next }
        ensures behind { self.new.waiting ≡ self.old.waiting ++ result ∷ [] }
        ensures history { (before : List Move) → StandsFor N before self.old → StandsFor N (Arrival ∷ before) self.new }

        // No two that wait have one position.
        ensures below { result < N }
        ensures fresh { Contains self.old.waiting result → ⊥ }
    {
        let position = place_behind(N, self.first, self.length);
        self.length += 1;
        position
    }

    /// The position of the earliest that has arrived and not departed: it departs.
    pub fn departure(&mut self) -> usize
        requires { self.old.waiting ≢ [] }
        ensures earliest { self.old.waiting ≡ result ∷ self.new.waiting }
        ensures next { self.new.next ≡ self.old.next }
        ensures history { (before : List Move) → StandsFor N before self.old → StandsFor N (Departure ∷ before) self.new }
        ensures below { result < N }
        ensures alone { Contains self.new.waiting result → ⊥ }
    {
        let position = self.first;
        let next = place_behind(N, position, 1);
        self.first = next;
        self.length -= 1;
        position
    }
}

/// The position so many places behind the first, around a circle of positions.
fn place_behind(limit: usize, first: usize, places: usize) -> usize
    requires inside { first < limit }
    requires once_around { places ≤ limit }
    ensures place { result ≡ place limit first places }
    ensures below { result < limit }
{
    let room = limit - first;
    if places < room {
        first + places
    } else {
        places - room
    }
}
