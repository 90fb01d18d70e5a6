// The first process of a pipeline.
ghost use Rattle.std.specs.Prelude.{◌≡◌, ◌++◌, List, Option, None, Some, Ok, [], IfOk, OnErr, option_to_list};
ghost use Rattle.pipeline.specs.First.{IsFirst};
ghost use Rattle.pipeline.specs.Rows.{Fed};

use crate::{Failed, Parcel};
use slot_buffer::{SendEnd, SlotGate};
use std::sync::Wait;
use std::thread::Threads;

/// Where the items of a pipeline come from. A builder's own may fail.
pub trait Source: Drop {
    type Item: Drop;

    /// What it has given so far.
    ghost gave: { Self → List Self.Item };

    /// All that it gives, from its beginning to its end, where that is known.
    ghost tells: { Self → Option (List Self.Item) };

    /// It failed.
    ghost failed: { Self → Type 0 };

    /// The next item. None: it has come to its end.
    fn next(&mut self) -> Result<Option<Self::Item>, Failed>
        ensures gave { IfOk result (λ item. gave self.new ≡ gave self.old ++ option_to_list item) }
        ensures kept { OnErr result (gave self.new ≡ gave self.old) }
        ensures tells { tells self.new ≡ tells self.old }
        ensures within { (all : List Self.Item) → tells self.new ≡ Some all → IsFirst (gave self.new) all }
        ensures over { result ≡ Ok None → (all : List Self.Item) → tells self.new ≡ Some all
            → gave self.new ≡ all }
        ensures failed { OnErr result (failed self.new) };
}

/// Puts what the source gives, and behind the last the end, until the stage behind takes no more. Where the
/// source
/// fails, it stops.
pub(crate) fn feed<S: Source, R: Threads + Wait + Sync>(
    rt: &R,
    mut source: S,
    back: &SlotGate<Parcel<S::Item>>,
    mut putter: SendEnd<Parcel<S::Item>>,
) -> (SendEnd<Parcel<S::Item>>, S, Result<(), Failed>)
where
    S::Item: Send,
    requires putter { putter ≡ record { gate = back.now; calls = [] } }
    requires begins { S.gave source ≡ [] }
    ensures gate { result.0.gate ≡ back.now }
    ensures fed { Fed (S.tells source) (S.gave result.1) result.0.calls result.2 }
    ensures tells { S.tells result.1 ≡ S.tells source }
    ensures failed { OnErr result.2 (S.failed result.1) }
{
    for _ in rt.forever() {
        match source.next() {
            Err(failed) => {
                putter.stop(back, rt);
                return (putter, source, Err(failed));
            }
            Ok(None) => {
                let _ = putter.put(back, Parcel::End, rt);
                return (putter, source, Ok(()));
            }
            Ok(Some(item)) => {
                if putter.put(back, Parcel::Item(item), rt).is_err() {
                    return (putter, source, Ok(()));
                }
            }
        }
    }
    unreachable!()
}
