ghost use Rattle.std.specs.Prelude.{◌≡◌, ℕ, List, Option};
ghost use Rattle.solo_devices.specs.Sink.{GivesTo, FitsPiece, CountsFaults};

/// What a sink answers: so many bytes of the piece were taken, the call failed, or memory was refused.
#[derive(Clone, Copy, Debug, PartialEq, Eq)]
pub enum Gave {
    Bytes(usize),
    Failed,
    NoMemory,
}

/// What bytes are written to: the paper of a printer, or a console.
pub trait Sink {
    /// The bytes that it was given so far, where the sink tells them.
    ghost given: { Self → Option (List ℕ) };

    /// How often a call failed so far.
    ghost faults: { Self → ℕ };

    /// Gives the beginning of the piece, all of it or less. A sink that takes nothing of a piece
    /// that isn't empty failed.
    fn give(&mut self, piece: &[u8]) -> Gave
        ensures fits { FitsPiece result piece.now }
        ensures bytes { GivesTo (given self.old) (given self.new) result piece.now }
        ensures cause { CountsFaults (faults self.old) (faults self.new) result piece.now };
}
