// Why an evaluation doesn't go on.

ghost use Rattle.std.specs.Prelude.{◌≡◌, IfOk};
ghost use Rattle.pascal_evaluate.specs.declared.stop.Stop.TheVariants.{NoMemory, Over};

use solo_base::ProgResult;
use std::alloc::{AllocError, AllocFailed};

/// Why a part of a program doesn't go on.
#[derive(Clone, Copy, Debug, PartialEq, Eq)]
pub enum Stop {
    /// The program has ended with this result, in the line that the run is in.
    Over(ProgResult),
    /// Memory was refused.
    NoMemory,
}

impl Stop {
    /// The result with which the program has ended.
    pub fn result(self) -> Result<ProgResult, solo_base::NoMemory>
        ensures { IfOk result (λ r. self ≡ Over r) }
    {
        match self {
            Stop::Over(result) => Ok(result),
            Stop::NoMemory => Err(solo_base::NoMemory),
        }
    }
}

impl From<solo_base::NoMemory> for Stop {
    ghost from_gives = { λ _ stop. stop ≡ NoMemory };

    fn from(_: solo_base::NoMemory) -> Stop {
        Stop::NoMemory
    }
}

impl From<AllocError> for Stop {
    ghost from_gives = { λ _ stop. stop ≡ NoMemory };

    fn from(_: AllocError) -> Stop {
        Stop::NoMemory
    }
}

impl<T: Drop> From<AllocFailed<T>> for Stop {
    ghost from_gives = { λ _ stop. stop ≡ NoMemory };

    fn from(_: AllocFailed<T>) -> Stop {
        Stop::NoMemory
    }
}
