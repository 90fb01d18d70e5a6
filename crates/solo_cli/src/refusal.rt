ghost use Rattle.std.specs.Prelude.{◌≡◌};
ghost use Rattle.solo_cli.specs.Refusals.{as_refusal, mount_cause, refusal_of};

use disk_files::FileFault;
use disk_system::MigrateFault;
use solo_base::Cause;

/// Why a command didn't do its whole work.
#[derive(Clone, Copy, Debug, PartialEq, Eq)]
pub enum Refusal {
    /// A cause that a run has too.
    Fault(Cause),
    /// The files of an area of format 1 need so many parts, and so many pages are free.
    NoRoom { needed: u16, free: u16 },
}

impl Refusal {
    /// The end of a run as that of a command.
    pub fn of_run(cause: Option<Cause>) -> Option<Refusal>
        ensures { result ≡ as_refusal cause }
    {
        match cause {
            None => None,
            Some(cause) => Some(Refusal::Fault(cause)),
        }
    }

    /// A refused mount's fault as that of a command.
    pub fn of_mount(fault: FileFault) -> Refusal
        ensures { result ≡ Refusal.Fault (mount_cause fault) }
    {
        match fault {
            FileFault::NotSolo { page } => Refusal::Fault(Cause::NotSolo { page }),
            FileFault::NoMemory => Refusal::Fault(Cause::NoMemory),
            _ => Refusal::Fault(Cause::DiskFault),
        }
    }

    /// A migration's fault as that of a command.
    pub fn of_migration(fault: MigrateFault) -> Refusal
        ensures { result ≡ refusal_of fault }
    {
        match fault {
            MigrateFault::NotSolo { page } => Refusal::Fault(Cause::NotSolo { page }),
            MigrateFault::NoRoom { needed, free } => Refusal::NoRoom { needed, free },
            MigrateFault::DiskFault => Refusal::Fault(Cause::DiskFault),
            MigrateFault::NoMemory => Refusal::Fault(Cause::NoMemory),
        }
    }
}
