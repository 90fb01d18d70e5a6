//! What is promised of those that come to a start on a thread of their own: they did what their history asks
//! for where all came, and else they stay as they were.
ghost use Rattle.solo_run.specs.Row.{InputCame, OutputCame};

use crate::input_side::InputSide;
use crate::output_side::OutputSide;
use crate::row::Ended;
use side_by_side::{Start, Told};
use solo_devices::{Sink, Source};
use std::snapshot::Snapshot;
use std::thread::Promise;

/// Of the input process that comes with this side.
pub struct InputComing<'a, 's, S: Source + Drop> {
    pub start: &'s Start,
    pub input: Snapshot<InputSide<'a, S>>,
}

impl<'a, 's, S: Source + Drop> Promise<(Ended<InputSide<'a, S>>, Told<'s>)>
    for InputComing<'a, 's, S> {
    ghost kept_by = { λ coming came. InputCame S.left S.taken S.faults
        coming.start.now.lock came.1.of came.1.value coming.input.value came.0 };
}

impl<'a, 's, S: Source + Drop> Drop for InputComing<'a, 's, S> {
    fn drop(self) {
        let InputComing { start: _, input: _ } = self;
    }
}

/// Of the output process.
pub struct OutputComing<'a, 's, K: Sink + Drop> {
    pub start: &'s Start,
    pub output: Snapshot<OutputSide<'a, K>>,
}

impl<'a, 's, K: Sink + Drop> Promise<(Ended<OutputSide<'a, K>>, Told<'s>)>
    for OutputComing<'a, 's, K> {
    ghost kept_by = { λ coming came. OutputCame K.given K.faults
        coming.start.now.lock came.1.of came.1.value coming.output.value came.0 };
}

impl<'a, 's, K: Sink + Drop> Drop for OutputComing<'a, 's, K> {
    fn drop(self) {
        let OutputComing {
            start: _,
            output: _,
        } = self;
    }
}
