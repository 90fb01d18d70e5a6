use crate::slot::Slot;
use crate::waiting::Waiting;
use solo_base::{ProgResult, SysCall};

/// How a program ended: its result, the line that gave it, and the ticks that it took.
#[derive(Clone, Copy, Debug, PartialEq, Eq)]
pub struct Finish {
    pub result: ProgResult,
    pub line: u32,
    pub ticks: u32,
}

/// The store of a program, and where it stands: the activations that wait for a call to return, by
/// their numbers (the program's is 0), the current one, the ticks that were taken, and how the
/// program ended.
#[derive(Debug, Drop)]
pub struct Store {
    pub(crate) below: Waiting,
    pub(crate) current: Slot,
    pub(crate) ticks: u32,
    pub(crate) ended: Option<Finish>,
}

/// What an instruction does that makes no call: it leads to the next one, or it ends the program with
/// a result in a line. `Stuck` is the answer where something is missing that verified code has.
#[derive(Clone, Copy, Debug)]
pub enum Step {
    Moved,
    Stopped(ProgResult, u32),
    Stuck,
}

/// What an instruction with a call does: it makes the call, or it ends the program.
#[derive(Clone, Copy, Debug)]
pub enum Ask {
    Call(SysCall),
    Stopped(ProgResult, u32),
    Stuck,
}
