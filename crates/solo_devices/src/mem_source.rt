ghost use Rattle.std.specs.Prelude.{◌≡◌, ◌↔◌, ◌<◌, ◌≤◌, ℕ, Some};
ghost use Rattle.solo_devices.specs.Count.{raised};
ghost use Rattle.solo_devices.specs.FailingCalls.{FailsNext, fresh_calls, one_more};
ghost use Rattle.solo_devices.specs.InMemory.{takes, piece_length};
ghost use Rattle.solo_devices.specs.Source.{TakesFrom, FitsPiece, CountsFaults, bytes_taken};

use crate::failing_calls::FailingCalls;
use crate::{Source, SureSource, Took};

/// A source in memory whose calls with the listed numbers, counted from 1, fail.
#[derive(Debug, Drop)]
pub struct MemSource {
    source: SureSource,
    takes: FailingCalls,
    faults: u64,
}

impl MemSource {
    /// A source of these bytes, which gives at most `piece` of them in a call.
    pub fn new(bytes: Vec<u8>, piece: usize, failing: Vec<u64>) -> MemSource
        requires { 0 < piece }
        ensures left { ⟦<MemSource as Source>⟧.left result ≡ Some bytes.items }
        ensures taken { ⟦<MemSource as Source>⟧.taken result ≡ 0 }
        ensures faults { ⟦<MemSource as Source>⟧.faults result ≡ 0 }
        ensures calls { takes result ≡ fresh_calls failing.items }
        ensures most { piece_length result ≡ piece }
    {
        MemSource {
            source: SureSource::new(bytes, piece),
            takes: FailingCalls::new(failing),
            faults: 0,
        }
    }

    /// How often a call failed.
    pub fn faults(&self) -> u64
        ensures { result ≡ ⟦<MemSource as Source>⟧.faults self.now }
    {
        self.faults
    }
}

impl Source for MemSource {
    ghost left = { λ source. ⟦<SureSource as Source>⟧.left source.source };

    ghost taken = { λ source. ⟦<SureSource as Source>⟧.taken source.source };

    ghost faults = { λ source. source.faults };

    fn take(&mut self, piece: &mut [u8]) -> Took
        // A call whose number is listed fails, and no other.
        ensures fails { (result ≡ Took.Failed) ↔ FailsNext (takes self.old) }
        ensures counted { takes self.new ≡ one_more (takes self.old) }
        // A call that is done counts no fault, and gives no more than the source's piece.
        ensures done { (count : ℕ) → result ≡ Took.Bytes count
            → ⟦<MemSource as Source>⟧.faults self.new ≡ ⟦<MemSource as Source>⟧.faults self.old }
        ensures most { bytes_taken result ≤ piece_length self.old }
        ensures same { piece_length self.new ≡ piece_length self.old }
        // As the trait says.
        ensures fits { FitsPiece result piece.new }
        ensures bytes { TakesFrom (⟦<MemSource as Source>⟧.left self.old) (⟦<MemSource as Source>⟧.left self.new) result piece.new }
        ensures taken { ⟦<MemSource as Source>⟧.taken self.new ≡ raised (⟦<MemSource as Source>⟧.taken self.old) (bytes_taken result) }
        ensures cause { CountsFaults (⟦<MemSource as Source>⟧.faults self.old) (⟦<MemSource as Source>⟧.faults self.new) result }
    {
        if self.takes.fails() {
            self.faults = self.faults.saturating_add(1);
            return Took::Failed;
        }
        self.source.take(piece)
    }
}
