// The last process of a pipeline.
ghost use Rattle.std.specs.Prelude.{◌≡◌, ◌++◌, ◌∷◌, List, [], OnOk, OnErr, IfErr};
ghost use Rattle.pipeline.specs.Came.{IsTold};
ghost use Rattle.pipeline.specs.Rows.{Comes, items};

use crate::behind::{Behind, refused};
use crate::{Cause, Failed, Parcel};
use slot_buffer::{RecvEnd, SlotGate};
use std::alloc::Global;
use std::sync::Wait;
use std::thread::Threads;

/// Where what comes out of a pipeline goes. A builder's own may fail.
pub trait Sink: Drop {
    type Item: Drop;

    /// What it has taken so far.
    ghost took: { Self → List Self.Item };

    /// It failed.
    ghost failed: { Self → Type 0 };

    fn put(&mut self, item: Self::Item) -> Result<(), Failed>
        ensures took { OnOk result (took self.new ≡ took self.old ++ item ∷ []) }
        ensures kept { OnErr result (took self.new ≡ took self.old) }
        ensures failed { OnErr result (failed self.new) };
}

/// Keeps what comes in a vector. It fails where memory is refused.
#[derive(Drop)]
pub struct Collect<T> {
    pub items: Vec<T>,
}

impl<T> Collect<T> {
    /// Nothing came yet.
    pub fn new(alloc: Global) -> Collect<T>
        ensures { result.items.items ≡ [] }
    {
        Collect {
            items: Vec::new(alloc),
        }
    }
}

impl<T: Drop> Sink for Collect<T> {
    ghost use Rattle.std.specs.Prelude.{⊤};

    type Item = T;

    ghost took = { λ s. s.items.items };

    ghost failed = { λ s. ⊤ };

    fn put(&mut self, item: T) -> Result<(), Failed> {
        if self.items.push(item).is_err() {
            return Err(Failed);
        }
        Ok(())
    }
}

/// Takes items until the end, for the sink. Where the sink fails, it stops.
pub(crate) fn take_all<Z: Sink, R: Threads + Wait + Sync>(
    rt: &R,
    go: bool,
    mut sink: Z,
    front: &SlotGate<Parcel<Z::Item>>,
    mut taker: RecvEnd<Parcel<Z::Item>>,
) -> Behind<Z::Item, Z>
where
    Z::Item: Send,
    requires taker { taker ≡ record { gate = front.now; calls = [] } }
    requires begins { Z.took sink ≡ [] }
    ensures gate { result.taker.gate ≡ front.now }
    ensures comes { Comes (λ xs. xs) result.taker.calls (Z.took result.sink) result.ended }
    ensures told { IfErr result.ended (IsTold ⊥ (Z.failed result.sink)) }
{
    if !go {
        return refused(rt, Cause::NoThread, sink, front, taker);
    }
    for _ in rt.forever() {
        let Ok(parcel) = taker.take(front, rt) else {
            return Behind {
                taker,
                sink,
                ended: Ok(()),
            };
        };
        match parcel {
            Parcel::End => {
                return Behind {
                    taker,
                    sink,
                    ended: Ok(()),
                };
            }
            Parcel::Item(item) => {
                if sink.put(item).is_err() {
                    taker.stop(front, rt);
                    return Behind {
                        taker,
                        sink,
                        ended: Err(Cause::Sink),
                    };
                }
            }
        }
    }
    unreachable!()
}
