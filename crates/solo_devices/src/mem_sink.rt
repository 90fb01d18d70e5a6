ghost use Rattle.std.specs.Prelude.{◌≡◌, ◌≢◌, ◌↔◌, Some, []};
ghost use Rattle.solo_devices.specs.FailingCalls.{FailsNext, fresh_calls, one_more};
ghost use Rattle.solo_devices.specs.InMemory.{gives};
ghost use Rattle.solo_devices.specs.Sink.{GivesTo, FitsPiece, CountsFaults};

use crate::failing_calls::FailingCalls;
use crate::{Gave, Sink, SureSink};
use std::alloc::Global;

/// A sink in memory whose calls with the listed numbers, counted from 1, fail.
#[derive(Debug, Drop)]
pub struct MemSink {
    sink: SureSink,
    gives: FailingCalls,
    faults: u64,
}

impl MemSink {
    /// A sink that was given nothing yet.
    pub fn new(alloc: Global, failing: Vec<u64>) -> MemSink
        ensures given { ⟦<MemSink as Sink>⟧.given result ≡ Some [] }
        ensures faults { ⟦<MemSink as Sink>⟧.faults result ≡ 0 }
        ensures calls { gives result ≡ fresh_calls failing.items }
    {
        MemSink {
            sink: SureSink::new(alloc),
            gives: FailingCalls::new(failing),
            faults: 0,
        }
    }

    /// What it was given.
    pub fn bytes(&self) -> &[u8]
        ensures { ⟦<MemSink as Sink>⟧.given self.now ≡ Some result.now }
    {
        self.sink.bytes()
    }

    /// How often a call failed.
    pub fn faults(&self) -> u64
        ensures { result ≡ ⟦<MemSink as Sink>⟧.faults self.now }
    {
        self.faults
    }
}

impl Sink for MemSink {
    ghost given = { λ sink. ⟦<SureSink as Sink>⟧.given sink.sink };

    ghost faults = { λ sink. sink.faults };

    fn give(&mut self, piece: &[u8]) -> Gave
        // A call whose number is listed fails, and no other.
        ensures fails { (result ≡ Gave.Failed) ↔ FailsNext (gives self.old) }
        ensures counted { gives self.new ≡ one_more (gives self.old) }
        // A call that is done counts no fault.
        ensures done { result ≢ Gave.Failed
            → ⟦<MemSink as Sink>⟧.faults self.new ≡ ⟦<MemSink as Sink>⟧.faults self.old }
        // As the trait says.
        ensures fits { FitsPiece result piece.now }
        ensures bytes { GivesTo (⟦<MemSink as Sink>⟧.given self.old) (⟦<MemSink as Sink>⟧.given self.new) result piece.now }
        ensures cause { CountsFaults (⟦<MemSink as Sink>⟧.faults self.old) (⟦<MemSink as Sink>⟧.faults self.new) result piece.now }
    {
        if self.gives.fails() {
            self.faults = self.faults.saturating_add(1);
            return Gave::Failed;
        }
        self.sink.give(piece)
    }
}
