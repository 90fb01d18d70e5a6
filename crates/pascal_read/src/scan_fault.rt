ghost use Rattle.std.specs.Prelude.{◌≡◌};
ghost use Rattle.pascal_read.specs.declared.scan_fault.ScanFault.TheVariants.{NoMemory};

use std::alloc::AllocFailed;

/// Why a program's words weren't read.
#[derive(Clone, Copy, Debug, PartialEq, Eq)]
pub enum ScanFault {
    /// The first bad word stands on this line. Of a comment that isn't closed it is the first line.
    BadWord { line: u32 },
    /// Memory was refused.
    NoMemory,
}

impl<T: Drop> From<AllocFailed<T>> for ScanFault {
    ghost from_gives = { λ _ fault. fault ≡ NoMemory };

    fn from(_: AllocFailed<T>) -> ScanFault {
        ScanFault::NoMemory
    }
}

impl From<solo_base::NoMemory> for ScanFault {
    ghost from_gives = { λ _ fault. fault ≡ NoMemory };

    fn from(_: solo_base::NoMemory) -> ScanFault {
        ScanFault::NoMemory
    }
}
