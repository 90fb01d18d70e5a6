// Why a program has no code.

ghost use Rattle.std.specs.Prelude.{◌≡◌};
ghost use Rattle.pascal_compile.specs.declared.fault.EmitFault.TheVariants as fault;

use solo_base::NoMemory as NoRoom;
use std::alloc::{AllocError, AllocFailed};

/// Why a program has no code.
#[derive(Clone, Copy, Debug, PartialEq, Eq)]
pub enum EmitFault {
    /// It would have more than 8,192 instructions.
    CodeLimit,
    /// Memory was refused.
    NoMemory,
}

impl From<NoRoom> for EmitFault {
    ghost from_gives = { λ _ f. f ≡ fault.NoMemory };

    fn from(_: NoRoom) -> EmitFault {
        EmitFault::NoMemory
    }
}

impl From<AllocError> for EmitFault {
    ghost from_gives = { λ _ f. f ≡ fault.NoMemory };

    fn from(_: AllocError) -> EmitFault {
        EmitFault::NoMemory
    }
}

impl<T: Drop> From<AllocFailed<T>> for EmitFault {
    ghost from_gives = { λ _ f. f ≡ fault.NoMemory };

    fn from(_: AllocFailed<T>) -> EmitFault {
        EmitFault::NoMemory
    }
}
