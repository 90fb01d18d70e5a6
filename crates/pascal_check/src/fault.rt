// Why a tree isn't answered.

ghost use Rattle.std.specs.Prelude.{◌≡◌};
ghost use Rattle.pascal_check.specs.declared.fault.CheckFault.TheVariants as fault;

use pascal_tree::Broken;
use solo_base::NoMemory as NoRoom;
use std::alloc::{AllocError, AllocFailed};

/// Why a tree was not found correct.
#[derive(Clone, Copy, Debug, PartialEq, Eq)]
pub enum CheckFault {
    /// The first broken rule, with the line of the word that is named.
    Semantic { line: u32, rule: u8 },
    /// Memory was refused.
    NoMemory,
}

impl From<Broken> for CheckFault {
    ghost from_gives = { λ b f. f ≡ fault.Semantic b.line b.rule };

    fn from(broken: Broken) -> CheckFault {
        CheckFault::Semantic {
            line: broken.line,
            rule: broken.rule,
        }
    }
}

impl From<NoRoom> for CheckFault {
    ghost from_gives = { λ _ f. f ≡ fault.NoMemory };

    fn from(_: NoRoom) -> CheckFault {
        CheckFault::NoMemory
    }
}

impl From<AllocError> for CheckFault {
    ghost from_gives = { λ _ f. f ≡ fault.NoMemory };

    fn from(_: AllocError) -> CheckFault {
        CheckFault::NoMemory
    }
}

impl<T: Drop> From<AllocFailed<T>> for CheckFault {
    ghost from_gives = { λ _ f. f ≡ fault.NoMemory };

    fn from(_: AllocFailed<T>) -> CheckFault {
        CheckFault::NoMemory
    }
}
