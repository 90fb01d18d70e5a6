ghost use Rattle.std.specs.Prelude.{◌≡◌, ℕ, List, Option};
ghost use Rattle.solo_devices.specs.Count.{raised};
ghost use Rattle.solo_devices.specs.Source.{TakesFrom, FitsPiece, CountsFaults, bytes_taken};

/// What a source answers: so many bytes were taken, none at its end, or the call failed.
#[derive(Clone, Copy, Debug, PartialEq, Eq)]
pub enum Took {
    Bytes(usize),
    Failed,
}

/// What bytes are read from: a card deck, or the keys of a typewriter.
pub trait Source {
    /// The bytes that are left, where the source tells them.
    ghost left: { Self → Option (List ℕ) };

    /// How many bytes were taken so far.
    ghost taken: { Self → ℕ };

    /// How often a call failed so far.
    ghost faults: { Self → ℕ };

    /// Takes the next bytes, as many as fit the piece or fewer, into its beginning. No bytes of a
    /// piece that isn't empty are the end. A call that failed takes nothing.
    fn take(&mut self, piece: &mut [u8]) -> Took
        ensures fits { FitsPiece result piece.new }
        ensures bytes { TakesFrom (left self.old) (left self.new) result piece.new }
        ensures taken { taken self.new ≡ raised (taken self.old) (bytes_taken result) }
        ensures cause { CountsFaults (faults self.old) (faults self.new) result };
}
