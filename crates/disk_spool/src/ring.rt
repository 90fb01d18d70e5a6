// Where the pages of a spool lie, and their marks.
ghost use Rattle.std.specs.Prelude.{◌≡◌, ◌≢◌, ◌↔◌, ◌<◌, ◌≤◌, ◌++◌, [], ◌∷◌, length, drop, IsTrue};
ghost use Rattle.queue_var.specs.Circle.{place};
ghost use Rattle.disk_spool.specs.Ring.{empty_ring, next_place, with_page, without_first};

use std::marker::Model;

/// How many pages a ring holds at most.
pub const MOST_PAGES: u16 = 256;

/// A ring of places on an area. It knows the mark of each page that lies there, so no mark is ever
/// read from the disk.
#[derive(Debug, Drop)]
pub struct Ring {
    capacity: u16,
    first: u16,
    held: u16,
    marks: [bool; 256],
}

// Clauses see the first place, and the marks of the pages from there on.
impl Model for Ring {
    ghost use Rattle.std.specs.Prelude.{◌≡◌, ◌<◌, ◌≤◌, length, false};
    ghost use Rattle.queue_var.specs.Circle.{places};
    ghost use Rattle.disk_spool.specs.Ring.{Ring, at_places};

    ghost Value = { Ring };

    ghost view = { λ r. record {
      capacity = r.capacity;
      first = r.first;
      marks = at_places false r.marks (places r.capacity r.first 0 r.held);
    } };

    ghost invariant = { λ r. (r.first < r.capacity) × (r.held ≤ r.capacity) × (r.capacity ≤ 256) };
}

#[tactic(auto, using(crate::specs::Places::length_at_places))]
impl Ring {
    /// A ring of so many places, all free.
    pub fn new(capacity: u16) -> Ring
        requires some { 0 < capacity }
        requires few { capacity ≤ MOST_PAGES }
        ensures { result ≡ empty_ring capacity }
    {
        Ring {
            capacity,
            first: 0,
            held: 0,
            marks: [false; 256],
        }
    }

    pub fn is_full(&self) -> bool
        ensures full { IsTrue result ↔ (length self.now.marks ≡ self.now.capacity) }
        ensures within { length self.now.marks ≤ self.now.capacity }
    {
        self.held == self.capacity
    }

    pub fn is_empty(&self) -> bool
        ensures { IsTrue result ↔ (self.now.marks ≡ []) }
    {
        self.held == 0
    }

    /// How many pages it holds.
    pub fn held(&self) -> u16
        ensures { result ≡ length self.now.marks }
    {
        self.held
    }

    /// The place of the earliest page.
    pub fn first_place(&self) -> u16
        ensures place { result ≡ self.now.first }
        ensures below { result < self.now.capacity }
    {
        self.first
    }

    /// The place of the next page.
    pub fn next_place(&self) -> u16
        ensures place { result ≡ next_place self.now }
        ensures below { result < self.now.capacity }
        ensures inside { self.now.first < self.now.capacity }
    {
        behind(self.capacity, self.first, self.held)
    }

    /// A page with this mark lies in the next place.
    pub fn add(&mut self, mark: bool)
        requires { length self.old.marks < self.old.capacity }
        ensures { self.new ≡ with_page self.old mark }
    {
        let place = behind(self.capacity, self.first, self.held);
        self.marks[place as usize] = mark;
        self.held += 1;
    }

    /// Gives up the place of the earliest page, and answers its mark.
    pub fn remove(&mut self) -> bool
        requires { self.old.marks ≢ [] }
        ensures mark { self.old.marks ≡ result ∷ self.new.marks }
        ensures after { self.new ≡ without_first self.old }
    {
        let mark = self.marks[self.first as usize];
        self.first = behind(self.capacity, self.first, 1);
        self.held -= 1;
        mark
    }
}

// The place so many behind the first, around the ring.
fn behind(capacity: u16, first: u16, places: u16) -> u16
    requires inside { first < capacity }
    requires once_around { places ≤ capacity }
    ensures place { result ≡ place capacity first places }
    ensures below { result < capacity }
{
    let room = capacity - first;
    if places < room {
        first + places
    } else {
        places - room
    }
}
