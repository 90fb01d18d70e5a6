ghost use Rattle.std.specs.Prelude.{◌≡◌, ◌≢◌, ◌≤◌, ◌<◌, Some, drop, take, min, length};
ghost use Rattle.solo_devices.specs.Count.{raised};
ghost use Rattle.solo_devices.specs.Source.{TakesFrom, FitsPiece, CountsFaults, bytes_taken};

use crate::{Source, Took};
use std::marker::Model;

/// A source in memory that never fails.
#[derive(Debug, Drop)]
pub struct SureSource {
    bytes: Vec<u8>,
    place: usize,
    piece: usize,
}

impl Model for SureSource {
    ghost use Rattle.std.specs.Prelude.{◌≤◌, ◌<◌, length};
    ghost use Rattle.solo_devices.specs.Sure.{Stock};

    ghost Value = { Stock };

    ghost view = { λ source.
        record { bytes = source.bytes.items; taken = source.place; piece = source.piece } };

    ghost invariant = { λ source. (source.place ≤ length source.bytes.items) × (0 < source.piece) };
}

impl SureSource {
    /// A source of these bytes, which gives at most `piece` of them in a call.
    pub fn new(bytes: Vec<u8>, piece: usize) -> SureSource
        requires { 0 < piece }
        ensures left { ⟦<SureSource as Source>⟧.left result ≡ Some bytes.items }
        ensures taken { ⟦<SureSource as Source>⟧.taken result ≡ 0 }
        ensures faults { ⟦<SureSource as Source>⟧.faults result ≡ 0 }
        ensures stock { result ≡ record { bytes = bytes.items; taken = 0; piece = piece } }
    {
        SureSource {
            bytes,
            place: 0,
            piece,
        }
    }

    /// How often a call failed: never.
    pub fn faults(&self) -> u64
        ensures { result ≡ 0 }
    {
        0
    }
}

impl Source for SureSource {
    ghost left = { λ source. Some (drop source.taken source.bytes) };

    ghost taken = { λ source. raised source.taken 0 };

    ghost faults = { λ _. 0 };

    fn take(&mut self, piece: &mut [u8]) -> Took
        // It never fails, and gives no more than the source's piece.
        ensures done { result ≢ Took.Failed }
        ensures most { bytes_taken result ≤ self.old.piece }
        ensures same { self.new.piece ≡ self.old.piece }
        // As the trait says.
        ensures fits { FitsPiece result piece.new }
        ensures bytes { TakesFrom (⟦<SureSource as Source>⟧.left self.old)
            (⟦<SureSource as Source>⟧.left self.new) result piece.new }
        ensures taken { ⟦<SureSource as Source>⟧.taken self.new
            ≡ raised (⟦<SureSource as Source>⟧.taken self.old) (bytes_taken result) }
        ensures cause { CountsFaults (⟦<SureSource as Source>⟧.faults self.old)
            (⟦<SureSource as Source>⟧.faults self.new) result }
    {
        let count = give_bytes(&self.bytes[self.place..], self.piece, piece);
        self.place += count;
        Took::Bytes(count)
    }
}

/// Copies the first bytes that are left into the piece, as many as fit it and at most so many.
fn give_bytes(left: &[u8], most: usize, piece: &mut [u8]) -> usize
    requires { 0 < most }
    ensures count { result ≡ min (min most (length piece.old)) (length left.now) }
    ensures bytes { take result piece.new ≡ take result left.now }
{
    let count = most.min(piece.len()).min(left.len());
    for place in 0..count {
        piece[place] = left[place];
    }
    count
}
