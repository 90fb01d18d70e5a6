use solo_base::Cause;
use solo_cli::Refusal;
use thiserror::Error;

/// What the program tells on standard error where a command didn't do its whole work.
#[derive(Debug, Drop, Error)]
pub enum Fault {
    #[error("solo: USAGE")]
    Usage,
    #[error("solo: READ FAULT")]
    Read,
    #[error("solo: DISK FAULT")]
    Disk,
    #[error("solo: PRINT FAULT")]
    Print,
    #[error("solo: CONSOLE FAULT")]
    Console,
    #[error("solo: DECK LIMIT")]
    DeckLimit,
    #[error("solo: NOT A SOLO DISK, PAGE {page}")]
    NotSolo { page: u16 },
    #[error("solo: DAMAGED PAGE, EXPECTED {expected}, FOUND {found}, AT {at}")]
    Damaged { expected: u16, found: u16, at: u16 },
    #[error("solo: NO MEMORY")]
    NoMemory,
    #[error("solo: NO ROOM, {needed} PAGES NEEDED, {free} FREE")]
    NoRoom { needed: u16, free: u16 },
}

impl Fault {
    /// The fault of a command that was refused so.
    pub fn of(refusal: Refusal) -> Fault {
        match refusal {
            Refusal::Fault(cause) => Fault::of_cause(cause),
            Refusal::NoRoom { needed, free } => Fault::NoRoom { needed, free },
        }
    }

    fn of_cause(cause: Cause) -> Fault {
        match cause {
            Cause::Usage => Fault::Usage,
            Cause::ReadFault => Fault::Read,
            Cause::DiskFault => Fault::Disk,
            Cause::PrintFault => Fault::Print,
            Cause::ConsoleFault => Fault::Console,
            Cause::DeckLimit => Fault::DeckLimit,
            Cause::NotSolo { page } => Fault::NotSolo { page },
            Cause::Damaged {
                expected,
                found,
                at,
            } => Fault::Damaged {
                expected,
                found,
                at,
            },
            Cause::NoMemory => Fault::NoMemory,
        }
    }
}
