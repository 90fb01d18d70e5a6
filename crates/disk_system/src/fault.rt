ghost use Rattle.std.specs.Prelude.{◌≡◌};
ghost use Rattle.disk_files.specs.declared.fault.FileFault.TheVariants.{NoMemory};
ghost use Rattle.disk_system.specs.declared.fault.SystemFault.TheVariants.{File};
ghost use Rattle.disk_system.specs.Calls.{code_fault};

use disk_files::FileFault;
use stack_code::CodeFault;
use std::alloc::{AllocError, AllocFailed};

/// A read or a write of an area failed.
#[derive(Clone, Copy, Debug, PartialEq, Eq)]
pub struct DiskFault;

/// Why a call on texts or code files was refused.
#[derive(Clone, Copy, Debug, PartialEq, Eq)]
pub enum SystemFault {
    /// The file area refused.
    File(FileFault),
    /// The file is no text.
    NotText,
    /// The file is no code.
    NotCode,
    /// The byte of a code file, from 0, at which it is refused.
    BadCode { at: u32 },
}

impl From<FileFault> for SystemFault {
    ghost from_gives = { λ fault e. e ≡ File fault };

    fn from(fault: FileFault) -> SystemFault {
        SystemFault::File(fault)
    }
}

impl From<AllocError> for SystemFault {
    ghost from_gives = { λ _ e. e ≡ File NoMemory };

    fn from(_: AllocError) -> SystemFault {
        SystemFault::File(FileFault::NoMemory)
    }
}

impl<T: Drop> From<AllocFailed<T>> for SystemFault {
    ghost from_gives = { λ _ e. e ≡ File NoMemory };

    fn from(_: AllocFailed<T>) -> SystemFault {
        SystemFault::File(FileFault::NoMemory)
    }
}

impl From<CodeFault> for SystemFault {
    ghost from_gives = { λ fault e. e ≡ code_fault fault };

    fn from(fault: CodeFault) -> SystemFault {
        match fault {
            CodeFault::BadCode { at } => SystemFault::BadCode { at },
            CodeFault::NoMemory => SystemFault::File(FileFault::NoMemory),
        }
    }
}
