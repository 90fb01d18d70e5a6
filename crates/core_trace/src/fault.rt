use std::alloc::{AllocError, AllocFailed};
use std::io;
use thiserror::Error;

/// Why a run isn't shown, or only its first part.
#[derive(Clone, Copy, Debug, Error)]
pub enum Fault {
    #[error("usage: core_trace --least|--cyclic|--schedule N [--picture] [--events FROM TO]")]
    Usage,
    #[error("no memory")]
    NoMemory,
    #[error("the words can't be read, or what is shown can't be written")]
    Io,
}

impl From<AllocError> for Fault {
    fn from(_: AllocError) -> Fault {
        Fault::NoMemory
    }
}

impl<T: Drop> From<AllocFailed<T>> for Fault {
    fn from(_: AllocFailed<T>) -> Fault {
        Fault::NoMemory
    }
}

impl From<io::Error> for Fault {
    fn from(_: io::Error) -> Fault {
        Fault::Io
    }
}
