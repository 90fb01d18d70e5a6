ghost use Rattle.std.specs.Prelude.{◌≡◌};
ghost use Rattle.stack_code.specs.declared.fault.CodeFault.TheVariants.{NoMemory};

use std::alloc::{AllocError, AllocFailed};

/// Why code was refused.
#[derive(Clone, Copy, Debug, PartialEq, Eq)]
pub enum CodeFault {
    /// The byte of the code file at which it is refused, counted from 0.
    BadCode { at: u32 },
    NoMemory,
}

impl From<AllocError> for CodeFault {
    ghost from_gives = { λ _ e. e ≡ NoMemory };

    fn from(_: AllocError) -> CodeFault {
        CodeFault::NoMemory
    }
}

impl<T: Drop> From<AllocFailed<T>> for CodeFault {
    ghost from_gives = { λ _ e. e ≡ NoMemory };

    fn from(_: AllocFailed<T>) -> CodeFault {
        CodeFault::NoMemory
    }
}
