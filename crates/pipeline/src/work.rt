// A stage at its two buffers.
ghost use Rattle.std.specs.Prelude.{◌≡◌, true, false, None, [], ◌∷◌, ◌++◌, List, IfSome};
ghost use Rattle.slot_buffer.specs.Calls.{has_stop, sent_of, taken_of, was_refused};
ghost use Rattle.pipeline.specs.declared.parcel.Parcel.{Parcel};
ghost use Rattle.pipeline.specs.declared.parcel.Parcel.TheVariants as parcel;
ghost use Rattle.pipeline.specs.declared.work.Passed.TheVariants as passed;
ghost use Rattle.pipeline.specs.Rows.{Goes, Leads, Worked};

use crate::put::put_outs;
use crate::{Outs, Parcel, Stage};
use slot_buffer::{RecvEnd, SendEnd, SlotGate};
use solo_base::NoMemory;
use std::alloc::Global;
use std::sync::Wait;
use std::thread::Threads;

// What came of passing on what a stage gives.
#[derive(Clone, Copy)]
enum Passed {
    // All was put.
    All,
    // The receiver takes no more.
    Told,
    // The stage was refused memory.
    Refused,
}

/// A stage takes what comes through the buffer in front of it and puts what it gives into the one behind,
/// until the end. Where it can't go on, each neighbour that doesn't know it yet is told by a stop.
pub(crate) fn work<S: Stage, R: Threads + Wait + Sync>(
    rt: &R,
    alloc: Global,
    mut stage: S,
    front: &SlotGate<Parcel<S::In>>,
    mut taker: RecvEnd<Parcel<S::In>>,
    back: &SlotGate<Parcel<S::Out>>,
    mut putter: SendEnd<Parcel<S::Out>>,
) -> (
    RecvEnd<Parcel<S::In>>,
    SendEnd<Parcel<S::Out>>,
    Result<(), NoMemory>,
)
where
    S::In: Send,
    S::Out: Send,
    requires front { taker ≡ record { gate = front.now; calls = [] } }
    requires back { putter ≡ record { gate = back.now; calls = [] } }
    ensures gates { (result.0.gate ≡ front.now) × (result.1.gate ≡ back.now) }
    ensures worked { Worked (S.gives stage) result.0.calls result.1.calls result.2 }
{
    let mut outs = Outs::new(alloc);
    for _ in rt.forever() {
        if let Some(ended) = turn(
            rt,
            &mut stage,
            &mut outs,
            front,
            &mut taker,
            back,
            &mut putter,
        ) {
            return (taker, putter, ended);
        }
    }
    unreachable!()
}

// One turn. None: it goes on. Where it doesn't, both neighbours know.
fn turn<S: Stage, R: Threads + Wait + Sync>(
    rt: &R,
    stage: &mut S,
    outs: &mut Outs<S::Out>,
    front: &SlotGate<Parcel<S::In>>,
    taker: &mut RecvEnd<Parcel<S::In>>,
    back: &SlotGate<Parcel<S::Out>>,
    putter: &mut SendEnd<Parcel<S::Out>>,
) -> Option<Result<(), NoMemory>>
where
    S::In: Send,
    S::Out: Send,
    requires front { (taker.old.gate ≡ front.now) × (has_stop taker.old.calls ≡ false) }
    requires back { (putter.old.gate ≡ back.now) × (has_stop putter.old.calls ≡ false) }
    requires empty { outs.old ≡ [] }
    ensures gates { (taker.new.gate ≡ taker.old.gate) × (putter.new.gate ≡ putter.old.gate) }
    ensures not_stopped { result ≡ None → (has_stop taker.new.calls ≡ false)
        × (has_stop putter.new.calls ≡ false) }
    ensures empty { result ≡ None → outs.new ≡ [] }
    ensures goes { result ≡ None → (gives : List S.In → List S.Out)
        → Goes gives (S.gives stage.old) (taken_of taker.old.calls) (sent_of putter.old.calls)
        → Goes gives (S.gives stage.new) (taken_of taker.new.calls) (sent_of putter.new.calls) }
    ensures worked { IfSome result (λ ended. (gives : List S.In → List S.Out)
        → Goes gives (S.gives stage.old) (taken_of taker.old.calls) (sent_of putter.old.calls)
        → Worked gives taker.new.calls putter.new.calls ended) }
{
    let Ok(parcel) = taker.take(front, rt) else {
        putter.stop(back, rt);
        return Some(Ok(()));
    };
    match parcel {
        Parcel::Item(item) => match pass_on(rt, stage, item, outs, back, putter) {
            Passed::All => None,
            Passed::Told => {
                taker.stop(front, rt);
                Some(Ok(()))
            }
            Passed::Refused => {
                taker.stop(front, rt);
                putter.stop(back, rt);
                Some(Err(NoMemory))
            }
        },
        Parcel::End => match pass_last(rt, stage, outs, back, putter) {
            Passed::Refused => {
                putter.stop(back, rt);
                Some(Err(NoMemory))
            }
            Passed::All => Some(Ok(())),
            Passed::Told => Some(Ok(())),
        },
    }
}

// Takes an item, and puts what it gives for it.
fn pass_on<S: Stage, R: Threads + Wait + Sync>(
    rt: &R,
    stage: &mut S,
    item: S::In,
    outs: &mut Outs<S::Out>,
    back: &SlotGate<Parcel<S::Out>>,
    putter: &mut SendEnd<Parcel<S::Out>>,
) -> Passed
where
    S::In: Send,
    S::Out: Send,
    requires gate { putter.old.gate ≡ back.now }
    requires not_stopped { has_stop putter.old.calls ≡ false }
    requires empty { outs.old ≡ [] }
    ensures gate { putter.new.gate ≡ putter.old.gate }
    ensures not_stopped { has_stop putter.new.calls ≡ false }
    ensures empty { result ≡ passed.All → outs.new ≡ [] }
    ensures told { result ≡ passed.Told → was_refused putter.new.calls ≡ true }
    ensures goes { result ≡ passed.All → (gives : List S.In → List S.Out) (taken : List (Parcel S.In))
        → Goes gives (S.gives stage.old) taken (sent_of putter.old.calls)
        → Goes gives (S.gives stage.new) (taken ++ parcel.Item item ∷ []) (sent_of putter.new.calls) }
    ensures leads { (gives : List S.In → List S.Out) (taken : List (Parcel S.In))
        → Goes gives (S.gives stage.old) taken (sent_of putter.old.calls)
        → Leads gives (taken ++ parcel.Item item ∷ []) (sent_of putter.new.calls) }
{
    if stage.step(item, outs).is_err() {
        return Passed::Refused;
    }
    if !put_outs(rt, outs, back, putter) {
        return Passed::Told;
    }
    Passed::All
}

// Takes the end, and puts what it gives at the end, and the end.
fn pass_last<S: Stage, R: Threads + Wait + Sync>(
    rt: &R,
    stage: &mut S,
    outs: &mut Outs<S::Out>,
    back: &SlotGate<Parcel<S::Out>>,
    putter: &mut SendEnd<Parcel<S::Out>>,
) -> Passed
where
    S::In: Send,
    S::Out: Send,
    requires gate { putter.old.gate ≡ back.now }
    requires not_stopped { has_stop putter.old.calls ≡ false }
    requires empty { outs.old ≡ [] }
    ensures gate { putter.new.gate ≡ putter.old.gate }
    ensures not_stopped { has_stop putter.new.calls ≡ false }
    ensures leads { (gives : List S.In → List S.Out) (taken : List (Parcel S.In))
        → Goes gives (S.gives stage.old) taken (sent_of putter.old.calls)
        → Leads gives (taken ++ parcel.End ∷ []) (sent_of putter.new.calls) }
{
    if stage.last(outs).is_err() {
        return Passed::Refused;
    }
    if !put_outs(rt, outs, back, putter) {
        return Passed::Told;
    }
    if putter.put(back, Parcel::End, rt).is_err() {
        return Passed::Told;
    }
    Passed::All
}
