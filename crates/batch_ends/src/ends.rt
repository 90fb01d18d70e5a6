use crate::Units;
use solo_base::{Outcome, Side};
use solo_devices::{Area, Sink, Source};

/// How the five processes ended.
#[derive(Clone, Copy, PartialEq, Eq)]
pub struct Outcomes {
    pub card: Outcome,
    pub input: Outcome,
    pub job: Outcome,
    pub output: Outcome,
    pub printer: Outcome,
}

/// How a run ended: the outcomes of its processes, who stopped each of the buffers 1 to 4, and what it ran
/// on.
#[derive(Drop)]
pub struct Ran<S: Source, K: Sink, F, A: Area, B: Area> {
    pub outcomes: Outcomes,
    pub stopped_by: [Option<Side>; 4],
    pub units: Units<S, K, F, A, B>,
}
