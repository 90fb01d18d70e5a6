//! Readers and writers, as a pure monitor. Processes 1 and 3 read, processes 2 and 4 write.
ghost use Rattle.std.specs.Prelude.{◌≡◌, ◌↔◌, ℕ, ◌%◌, ◌≤◌, true, false, MatchOption, IsTrue, Some, None};

use solo_base::ProcNo;

/// What a process does: it begins to use the thing, or ends.
#[derive(Drop)]
pub enum Use {
    Begin,
    End,
}

/// Who uses the thing, who waits for it, and to whom the turn is handed.
#[derive(Drop)]
pub struct Room {
    pub inside: [bool; 5],
    pub waiting: [bool; 5],
    pub turn: Option<ProcNo>,
}

impl Room {
    ghost use Rattle.readers_writers.specs.declared.room.Use.TheVariants as use_of;
    ghost use Rattle.readers_writers.specs.Room.{Begins, Ends, Rests, MayBegin, is_inside, is_waiting};

    pub fn new() -> Room
        ensures nobody_inside { (p : ℕ) → is_inside p result ≡ false }
        ensures nobody_waits { (p : ℕ) → is_waiting p result ≡ false }
        ensures free { result.turn ≡ None }
    {
        Room {
            inside: [false; 5],
            waiting: [false; 5],
            turn: None,
        }
    }

    /// Begins for a process, or lets it wait.
    pub fn begin(&mut self, p: ProcNo) -> Option<Use>
        requires process { (1 ≤ p) × (p ≤ 4) }
        ensures { MatchOption result (Rests p self.old self.new) (λ e. (e ≡ use_of.Begin)
            × Begins p self.old self.new) }
    {
        if self.may_begin(p) {
            return Some(self.resume(p));
        }
        self.waiting[usize::from(p)] = true;
        self.turn = None;
        None
    }

    /// Begins for a process that may. Where it reads, whoever waits to read is let in behind it.
    pub fn resume(&mut self, p: ProcNo) -> Use
        requires process { (1 ≤ p) × (p ≤ 4) }
        requires may { MayBegin p self.old }
        ensures does { (result ≡ use_of.Begin) × Begins p self.old self.new }
    {
        self.waiting[usize::from(p)] = false;
        self.inside[usize::from(p)] = true;
        self.turn = self.first_waiting();
        Use::Begin
    }

    /// Ends for a process that is inside. Whoever waits and may begin is let in.
    pub fn end(&mut self, p: ProcNo) -> Use
        requires process { (1 ≤ p) × (p ≤ 4) }
        requires inside { is_inside p self.old ≡ true }
        ensures does { (result ≡ use_of.End) × Ends p self.old self.new }
    {
        self.waiting[usize::from(p)] = false;
        self.inside[usize::from(p)] = false;
        self.turn = self.first_waiting();
        Use::End
    }

    // A process that waits and may begin, if there is one.
    fn first_waiting(&self) -> Option<ProcNo>
        ensures { (q : ℕ) → result ≡ Some q → (is_waiting q self.now ≡ true) × MayBegin q self.now }
    {
        for p in 1..5 {
            if self.waiting[usize::from(p)] && self.may_begin(p) {
                return Some(p);
            }
        }
        None
    }

    // A reader may begin where nobody writes, a writer where nobody is inside.
    fn may_begin(&self, p: ProcNo) -> bool
        ensures { IsTrue result ↔ MayBegin p self.now }
    {
        let writes = self.inside[2] || self.inside[4];
        let reads = self.inside[1] || self.inside[3];
        !writes && (p % 2 == 1 || !reads)
    }
}
