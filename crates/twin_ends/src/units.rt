use solo_base::{Outcome, Side};
use solo_devices::{Area, CardUnit, PrinterUnit, Sink, Source};

/// What the six processes run on: the deck, the paper, what loads the files that jobs name, and an area for
/// the pages of each spool, to the two job processes and from them.
#[derive(Drop)]
pub struct TwinUnits<S: Source, K: Sink, F, A: Area> {
    pub deck: CardUnit<S>,
    pub paper: PrinterUnit<K>,
    pub files: F,
    pub to_a: A,
    pub to_b: A,
    pub from_a: A,
    pub from_b: A,
}

/// How the six processes ended.
#[derive(Clone, Copy, Debug, PartialEq, Eq)]
pub struct TwinOutcomes {
    pub card: Outcome,
    pub input: Outcome,
    pub job_a: Outcome,
    pub job_b: Outcome,
    pub output: Outcome,
    pub printer: Outcome,
}

/// How a run ended: the outcomes of its processes, the sides that stopped the buffers 1 to 6 first, and what
/// it ran on.
#[derive(Drop)]
pub struct TwinRan<S: Source, K: Sink, F, A: Area> {
    pub outcomes: TwinOutcomes,
    pub stopped_by: [Option<Side>; 6],
    pub units: TwinUnits<S, K, F, A>,
}
