//! A level between 0 and 3, as a pure monitor. Processes 1 and 3 raise it and wait at 3, processes 2 and 4 lower it and wait at 0.
ghost use Rattle.std.specs.Prelude.{◌≡◌, ◌↔◌, ℕ, ◌%◌, ◌<◌, ◌≤◌, true, false, length, MatchOption, IsTrue, Some, None};

use solo_base::ProcNo;

const TOP: u64 = 3;

#[derive(Drop)]
pub enum Change {
    Raise,
    Lower,
}

/// The level, who waits, and to whom the turn is handed.
#[derive(Drop)]
pub struct Level {
    pub level: u64,
    pub waiting: [bool; 5],
    pub turn: Option<ProcNo>,
}

impl Level {
    ghost use Rattle.level_monitor.specs.Level.{Moves, Rests, CanGo, IsWoken, is_waiting};

    pub fn new() -> Level
        ensures level { result.level ≡ 0 }
        ensures nobody { (p : ℕ) → is_waiting p result ≡ false }
        ensures free { result.turn ≡ None }
    {
        Level {
            level: 0,
            waiting: [false; 5],
            turn: None,
        }
    }

    /// Changes the level for a process, or lets it wait.
    pub fn change(&mut self, p: ProcNo) -> Option<Change>
        requires process { (1 ≤ p) × (p ≤ 4) }
        requires range { self.old.level ≤ 3 }
        ensures { MatchOption result (Rests p self.old self.new) (λ e. Moves p self.old e self.new) }
    {
        if self.can_go(p) {
            return Some(self.resume(p));
        }
        self.waiting[usize::from(p)] = true;
        self.turn = None;
        None
    }

    fn can_go(&self, p: ProcNo) -> bool
        ensures { IsTrue result ↔ CanGo p self.now }
    {
        if p % 2 == 1 {
            self.level < TOP
        } else {
            0 < self.level
        }
    }

    /// Changes the level for a process that can go on.
    pub fn resume(&mut self, p: ProcNo) -> Change
        requires process { (1 ≤ p) × (p ≤ 4) }
        requires range { self.old.level ≤ 3 }
        requires can { CanGo p self.old }
        ensures { Moves p self.old result self.new }
    {
        self.waiting[usize::from(p)] = false;
        if p % 2 == 1 {
            self.level += 1;
            self.turn = self.first_waiting(2, 4);
            Change::Raise
        } else {
            self.level -= 1;
            self.turn = self.first_waiting(1, 3);
            Change::Lower
        }
    }

    fn first_waiting(&self, one: ProcNo, other: ProcNo) -> Option<ProcNo>
        requires { (one < 5) × (other < 5) × (one % 2 ≡ other % 2) }
        ensures { (q : ℕ) → result ≡ Some q → (is_waiting q self.now ≡ true) × (q % 2 ≡ one % 2) }
    {
        if self.waiting[usize::from(one)] {
            Some(one)
        } else if self.waiting[usize::from(other)] {
            Some(other)
        } else {
            None
        }
    }
}
