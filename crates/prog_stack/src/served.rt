use solo_base::{ArgList, SysCall, SysReply};
use stack_machine::Finish;

/// How the call of the top program was served.
#[derive(Clone, Copy)]
pub enum Served {
    /// The reply, which is to be given to the top machine.
    Reply(SysReply),
    /// The call is one of the card file, the printer or the typewriter.
    Device(SysCall),
    /// The program that is to be run is the top one now.
    Pushed,
    /// A read or a write of the file area failed.
    DiskFault,
    /// Memory was refused.
    NoMemory,
}

/// How a program ended, and the arguments that it wrote where no program ran it.
#[derive(Drop)]
pub struct Ended {
    pub finish: Finish,
    pub args: ArgList,
}
