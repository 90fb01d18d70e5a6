// What came of a run.
ghost use Rattle.std.specs.Prelude.{◌≡◌};
ghost use Rattle.pipeline.specs.Came.{as_memory};

use crate::{Cause, Collect, Items};

/// What came of a run: its ends as they are now, and whether something was in the way.
#[derive(Drop)]
pub struct Ran<S, Z> {
    pub source: S,
    pub sink: Z,
    pub ended: Result<(), Cause>,
}

/// What came out of a pipeline, and whether that was all.
#[derive(Drop)]
pub struct Came<T> {
    pub items: Vec<T>,
    /// An `Err` where what came is a first part.
    pub ended: Result<(), Cause>,
}

impl<T: Drop> Came<T> {
    /// What a run between items that are there and a vector came to.
    pub(crate) fn of<I: Drop>(ran: Ran<Items<I>, Collect<T>>) -> Came<T>
        ensures items { result.items ≡ ran.sink.items }
        ensures ended { result.ended ≡ as_memory ran.ended }
    {
        let Ran {
            source: _,
            sink: Collect { items },
            ended,
        } = ran;
        Came {
            items,
            ended: as_memory(ended),
        }
    }
}

// A vector fails for want of memory.
fn as_memory(ended: Result<(), Cause>) -> Result<(), Cause>
    ensures { result ≡ as_memory ended }
{
    match ended {
        Ok(()) => Ok(()),
        Err(Cause::Sink) => Err(Cause::NoMemory),
        Err(cause) => Err(cause),
    }
}
