use solo_devices::{Area, CardUnit, PrinterUnit, Sink, Source};

/// What the five processes run on: the deck, the paper, what loads the files that jobs name, and an area for
/// the pages of each spool.
#[derive(Drop)]
pub struct Units<S: Source, K: Sink, F, A: Area, B: Area> {
    pub deck: CardUnit<S>,
    pub paper: PrinterUnit<K>,
    pub files: F,
    pub input: A,
    pub output: B,
}
