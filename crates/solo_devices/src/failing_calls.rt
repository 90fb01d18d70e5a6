ghost use Rattle.std.specs.Prelude.{◌≡◌, ◌↔◌, IsTrue};
ghost use Rattle.solo_devices.specs.FailingCalls.{Calls, FailsNext, fresh_calls, one_more};

use std::marker::Model;

/// The calls of a device in memory: those with the listed numbers, counted from 1, fail.
#[derive(Debug, Drop)]
pub(crate) struct FailingCalls {
    failing: Vec<u64>,
    made: u64,
}

impl Model for FailingCalls {
    ghost Value = { Calls };

    ghost view = { λ calls. record { failing = calls.failing.items; made = calls.made } };
}

impl FailingCalls {
    /// No call was made yet.
    pub(crate) fn new(failing: Vec<u64>) -> FailingCalls
        ensures { result ≡ fresh_calls failing.items }
    {
        FailingCalls { failing, made: 0 }
    }

    /// Counts a call, and says whether it fails.
    pub(crate) fn fails(&mut self) -> bool
        ensures fails { IsTrue result ↔ FailsNext self.old }
        ensures counted { self.new ≡ one_more self.old }
    {
        self.made = self.made.saturating_add(1);
        self.failing.contains(&self.made)
    }
}
