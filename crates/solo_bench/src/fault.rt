use solo_base::NoMemory;
use std::alloc::AllocError;
use std::io;
use thiserror::Error;

/// Why nothing was measured.
#[derive(Debug, Drop, Error)]
pub enum Fault {
    #[error("usage: solo_bench page_map | scan ROUTINES | parse TIMES [CARD] | check CONSTANTS STATEMENTS | \
         compile large|small TIMES (0: prints the program) | machine | core LISTS RUNS | files | \
         programs large|small CALLS | \
         gate ENTRIES ITEMS ITEMS_OF_THE_CHAIN | session SCHEDULE | all")]
    Usage,
    #[error("no memory")]
    Memory(#[from(alloc)] AllocError),
    #[error(transparent)]
    Io(#[from] io::Error),
    /// What came otherwise than the bench needs it.
    #[error("{0}")]
    Unexpected(&'static str),
}

impl From<NoMemory> for Fault {
    fn from(_: NoMemory) -> Fault {
        Fault::Memory(AllocError)
    }
}
