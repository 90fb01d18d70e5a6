// Which calls of the devices of a run fail, and who meets that.

use solo_base::{Cause, Outcome};
use twin_ends::TwinOutcomes;

/// The calls that fail, by number from 1 on; no call has the number 0. The spools stand in order of their
/// numbers.
#[derive(Clone, Copy)]
pub struct Failing {
    pub take: u64,
    pub writes: [u64; 4],
    pub reads: [u64; 4],
    pub give: u64,
}

pub const NONE_FAILS: Failing = Failing {
    take: 0,
    writes: [0; 4],
    reads: [0; 4],
    give: 0,
};

/// A kind of call of a device; a spool has its place among the four.
#[derive(Clone, Copy, Debug)]
pub enum Kind {
    Read,
    Write(usize),
    Fetch(usize),
    Print,
}

impl Kind {
    /// Only the call of this number fails.
    pub fn fails_at(self, call: u64) -> Failing {
        let mut failing = NONE_FAILS;
        match self {
            Kind::Read => failing.take = call,
            Kind::Write(spool) => failing.writes = at(spool, call),
            Kind::Fetch(spool) => failing.reads = at(spool, call),
            Kind::Print => failing.give = call,
        }
        failing
    }

    /// The cause that a failure of such a call is.
    pub fn cause(self) -> Cause {
        match self {
            Kind::Read => Cause::ReadFault,
            Kind::Print => Cause::PrintFault,
            Kind::Write(_) | Kind::Fetch(_) => Cause::DiskFault,
        }
    }

    /// How the process ended that makes such calls.
    pub fn caller(self, outcomes: TwinOutcomes) -> Outcome {
        match self {
            Kind::Read => outcomes.card,
            Kind::Write(0) | Kind::Write(1) => outcomes.input,
            Kind::Write(2) | Kind::Fetch(0) => outcomes.job_a,
            Kind::Write(_) | Kind::Fetch(1) => outcomes.job_b,
            Kind::Fetch(_) => outcomes.output,
            Kind::Print => outcomes.printer,
        }
    }
}

// This number at a place of four, and nothing elsewhere.
fn at(place: usize, call: u64) -> [u64; 4] {
    let mut all = [0; 4];
    if place < 4 {
        all[place] = call;
    }
    all
}
