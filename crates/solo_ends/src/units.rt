use solo_base::{Outcome, Side};
use solo_devices::{CardUnit, PrinterUnit, Sink, Source, Typewriter};

/// What Solo runs on: the cards, the typewriter with its keys and its console, the paper, and the files that
/// the commands work on.
#[derive(Drop)]
pub struct SoloUnits<S: Source, Y: Source, K: Sink, T: Sink, F> {
    pub cards: CardUnit<S>,
    pub typewriter: Typewriter<Y, T>,
    pub paper: PrinterUnit<K>,
    pub files: F,
}

/// How Solo ended: the outcomes of the input, the job and the output process, the sides that stopped the
/// buffers 1 to 6 first, and what it ran on.
#[derive(Drop)]
pub struct SoloRan<S: Source, Y: Source, K: Sink, T: Sink, F> {
    pub outcomes: [Outcome; 3],
    pub stopped_by: [Option<Side>; 6],
    pub units: SoloUnits<S, Y, K, T, F>,
}
