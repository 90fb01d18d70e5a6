// Which calls of the devices of a run fail, and who meets that.

use batch_ends::Outcomes;
use solo_base::{Cause, Outcome};

/// The calls that fail, by number from 1 on; no call has the number 0.
#[derive(Clone, Copy)]
pub struct Failing {
    pub take: u64,
    pub input_write: u64,
    pub input_read: u64,
    pub output_write: u64,
    pub output_read: u64,
    pub give: u64,
}

pub const NONE_FAILS: Failing = Failing {
    take: 0,
    input_write: 0,
    input_read: 0,
    output_write: 0,
    output_read: 0,
    give: 0,
};

/// A kind of call of a device.
#[derive(Clone, Copy, Debug)]
pub enum Kind {
    Read,
    InputWrite,
    InputRead,
    OutputWrite,
    OutputRead,
    Print,
}

impl Kind {
    /// Only the call of this number fails.
    pub fn fails_at(self, call: u64) -> Failing {
        let mut failing = NONE_FAILS;
        match self {
            Kind::Read => failing.take = call,
            Kind::InputWrite => failing.input_write = call,
            Kind::InputRead => failing.input_read = call,
            Kind::OutputWrite => failing.output_write = call,
            Kind::OutputRead => failing.output_read = call,
            Kind::Print => failing.give = call,
        }
        failing
    }

    /// The cause that a failure of such a call is.
    pub fn cause(self) -> Cause {
        match self {
            Kind::Read => Cause::ReadFault,
            Kind::Print => Cause::PrintFault,
            Kind::InputWrite | Kind::InputRead => Cause::DiskFault,
            Kind::OutputWrite | Kind::OutputRead => Cause::DiskFault,
        }
    }

    /// How the process ended that makes such calls.
    pub fn caller(self, outcomes: Outcomes) -> Outcome {
        match self {
            Kind::Read => outcomes.card,
            Kind::InputWrite => outcomes.input,
            Kind::InputRead => outcomes.job,
            Kind::OutputWrite => outcomes.job,
            Kind::OutputRead => outcomes.output,
            Kind::Print => outcomes.printer,
        }
    }
}
