ghost use Rattle.std.specs.Prelude.{◌≡◌, Some, []};

use crate::{Gave, Sink};
use std::alloc::Global;

/// A sink in memory that never fails.
#[derive(Debug, Drop)]
pub struct SureSink {
    bytes: Vec<u8>,
}

impl SureSink {
    /// A sink that was given nothing yet.
    pub fn new(alloc: Global) -> SureSink
        ensures given { ⟦<SureSink as Sink>⟧.given result ≡ Some [] }
        ensures faults { ⟦<SureSink as Sink>⟧.faults result ≡ 0 }
    {
        SureSink {
            bytes: Vec::new(alloc),
        }
    }

    /// What it was given.
    pub fn bytes(&self) -> &[u8]
        ensures { ⟦<SureSink as Sink>⟧.given self.now ≡ Some result.now }
    {
        self.bytes.as_slice()
    }

    /// How often a call failed: never.
    pub fn faults(&self) -> u64
        ensures { result ≡ 0 }
    {
        0
    }
}

impl Sink for SureSink {
    ghost given = { λ sink. Some sink.bytes.items };

    ghost faults = { λ _. 0 };

    fn give(&mut self, piece: &[u8]) -> Gave {
        match self.bytes.extend_from_slice(piece) {
            Ok(()) => Gave::Bytes(piece.len()),
            Err(_) => Gave::NoMemory,
        }
    }
}
