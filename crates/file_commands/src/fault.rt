use disk_files::FileFault;
use disk_system::SystemFault;

/// Why a command wasn't done.
#[derive(Clone, Copy, Debug, PartialEq, Eq)]
pub enum CommandFault {
    /// A read or a write of the file area failed.
    DiskFault,
    /// Memory was refused.
    NoMemory,
}

ghost use Rattle.std.specs.Prelude.{◌≡◌};
ghost use Rattle.disk_system.specs.Calls.{IsOutside};
ghost use Rattle.file_commands.specs.Faults.{as_command, as_system_command};

/// A fault of the area, or that memory was refused.
pub fn as_command(fault: FileFault) -> CommandFault
    ensures { result ≡ as_command fault }
{
    match fault {
        FileFault::DiskFault => CommandFault::DiskFault,
        _ => CommandFault::NoMemory,
    }
}

/// A fault of the area, or that memory was refused.
pub fn as_system_command(fault: SystemFault) -> CommandFault
    ensures { result ≡ as_system_command fault }
{
    match fault {
        SystemFault::File(fault) => as_command(fault),
        _ => CommandFault::NoMemory,
    }
}
