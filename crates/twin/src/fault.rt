use solo_base::Cause;
use thiserror::Error;

/// What the program tells on standard error where the whole work wasn't done.
#[derive(Debug, Drop, Error)]
pub enum Fault {
    #[error("twin: USAGE")]
    Usage,
    #[error("twin: READ FAULT")]
    Read,
    #[error("twin: DISK FAULT")]
    Disk,
    #[error("twin: PRINT FAULT")]
    Print,
    #[error("twin: DECK LIMIT")]
    DeckLimit,
    #[error("twin: NOT A SOLO DISK, PAGE {page}")]
    NotSolo { page: u16 },
    #[error("twin: DAMAGED PAGE, EXPECTED {expected}, FOUND {found}, AT {at}")]
    Damaged { expected: u16, found: u16, at: u16 },
    #[error("twin: NO MEMORY")]
    NoMemory,
}

impl Fault {
    /// The fault of a run that ended with this cause. Nothing is displayed, so no console fails.
    pub fn of(cause: Cause) -> Fault {
        match cause {
            Cause::Usage => Fault::Usage,
            Cause::ReadFault => Fault::Read,
            Cause::DiskFault => Fault::Disk,
            Cause::PrintFault | Cause::ConsoleFault => Fault::Print,
            Cause::DeckLimit => Fault::DeckLimit,
            Cause::NotSolo { page } => Fault::NotSolo { page },
            Cause::Damaged {
                expected,
                found,
                at,
            } => Fault::Damaged {
                expected,
                found,
                at,
            },
            Cause::NoMemory => Fault::NoMemory,
        }
    }
}
