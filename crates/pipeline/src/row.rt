// Stages in a row, each on a thread of its own. `arities` writes this file.
ghost use Rattle.std.specs.Prelude.{◌≡◌, [], IfErr};
ghost use Rattle.pipeline.specs.Came.{IsTold};
ghost use Rattle.pipeline.specs.Rows.{Comes, Worked};

use crate::behind::{Behind, refused, with_stage};
use crate::beside::beside;
use crate::promises::Works;
use crate::sink::take_all;
use crate::work::work;
use crate::{Cause, Parcel, Sink, Stage};
use slot_buffer::{RecvEnd, SendEnd, SlotGate, meet};
use solo_base::NoMemory;
use std::alloc::Global;
use std::sync::Wait;
use std::thread::Threads;

/// One stage, and the process that collects what it gives.
pub(crate) fn one<A: Stage + Send, Z: Sink<Item = A::Out>, R: Threads + Wait + Sync>(
    rt: &R,
    alloc: Global,
    go: bool,
    first: A,
    sink: Z,
    front: &SlotGate<Parcel<A::In>>,
    taker: RecvEnd<Parcel<A::In>>,
) -> Behind<A::In, Z>
where
    A::In: Send,
    A::Out: Send,
    requires taker { taker ≡ record { gate = front.now; calls = [] } }
    requires begins { Z.took sink ≡ [] }
    ensures gate { result.taker.gate ≡ front.now }
    ensures comes { Comes (λ xs. A.gives first xs)
        result.taker.calls (Z.took result.sink) result.ended }
    ensures told { IfErr result.ended (IsTold ⊥ (Z.failed result.sink)) }
{
    if !go {
        return refused(rt, Cause::NoThread, sink, front, taker);
    }
    let Ok((back, putter, receiver)) = SlotGate::make(alloc) else {
        return refused(rt, Cause::NoMemory, sink, front, taker);
    };
    let promise = Works::with(&first, &taker, &putter);
    let ((taker, putter, stage), behind) = beside(
        rt,
        promise,
        || -> (
            RecvEnd<Parcel<A::In>>,
            SendEnd<Parcel<A::Out>>,
            Result<(), NoMemory>,
        )
            requires front { taker ≡ record { gate = front.now; calls = [] } }
            requires back { putter ≡ record { gate = back; calls = [] } }
            ensures gates { (result.0.gate ≡ taker.gate) × (result.1.gate ≡ putter.gate) }
            ensures worked { Worked (A.gives first) result.0.calls result.1.calls result.2 }
        { work(rt, alloc, first, front, taker, &back, putter) },
        |go: bool| -> Behind<A::Out, Z>
            requires receiver { receiver ≡ record { gate = back; calls = [] } }
            requires begins { Z.took sink ≡ [] }
            ensures gate { result.taker.gate ≡ receiver.gate }
            ensures comes { Comes (λ xs. xs)
                result.taker.calls (Z.took result.sink) result.ended }
            ensures told { IfErr result.ended (IsTold ⊥ (Z.failed result.sink)) }
        { take_all(rt, go, sink, &back, receiver) },
    );
    let Behind {
        taker: receiver,
        sink,
        ended,
    } = behind;
    let _ = meet(back, putter, receiver);
    Behind {
        taker,
        sink,
        ended: with_stage(stage, ended),
    }
}

/// Two stages, and the process that collects what the last gives.
pub(crate) fn two<
    A: Stage + Send,
    B: Stage<In = A::Out> + Send,
    Z: Sink<Item = B::Out>,
    R: Threads + Wait + Sync,
>(
    rt: &R,
    alloc: Global,
    go: bool,
    first: A,
    second: B,
    sink: Z,
    front: &SlotGate<Parcel<A::In>>,
    taker: RecvEnd<Parcel<A::In>>,
) -> Behind<A::In, Z>
where
    A::In: Send,
    A::Out: Send,
    B::Out: Send,
    requires taker { taker ≡ record { gate = front.now; calls = [] } }
    requires begins { Z.took sink ≡ [] }
    ensures gate { result.taker.gate ≡ front.now }
    ensures comes { Comes (λ xs. B.gives second (A.gives first xs))
        result.taker.calls (Z.took result.sink) result.ended }
    ensures told { IfErr result.ended (IsTold ⊥ (Z.failed result.sink)) }
{
    if !go {
        return refused(rt, Cause::NoThread, sink, front, taker);
    }
    let Ok((back, putter, receiver)) = SlotGate::make(alloc) else {
        return refused(rt, Cause::NoMemory, sink, front, taker);
    };
    let promise = Works::with(&first, &taker, &putter);
    let ((taker, putter, stage), behind) = beside(
        rt,
        promise,
        || -> (
            RecvEnd<Parcel<A::In>>,
            SendEnd<Parcel<A::Out>>,
            Result<(), NoMemory>,
        )
            requires front { taker ≡ record { gate = front.now; calls = [] } }
            requires back { putter ≡ record { gate = back; calls = [] } }
            ensures gates { (result.0.gate ≡ taker.gate) × (result.1.gate ≡ putter.gate) }
            ensures worked { Worked (A.gives first) result.0.calls result.1.calls result.2 }
        { work(rt, alloc, first, front, taker, &back, putter) },
        |go: bool| -> Behind<A::Out, Z>
            requires receiver { receiver ≡ record { gate = back; calls = [] } }
            requires begins { Z.took sink ≡ [] }
            ensures gate { result.taker.gate ≡ receiver.gate }
            ensures comes { Comes (λ xs. B.gives second xs)
                result.taker.calls (Z.took result.sink) result.ended }
            ensures told { IfErr result.ended (IsTold ⊥ (Z.failed result.sink)) }
        { one(rt, alloc, go, second, sink, &back, receiver) },
    );
    let Behind {
        taker: receiver,
        sink,
        ended,
    } = behind;
    let _ = meet(back, putter, receiver);
    Behind {
        taker,
        sink,
        ended: with_stage(stage, ended),
    }
}

/// Three stages, and the process that collects what the last gives.
pub(crate) fn three<
    A: Stage + Send,
    B: Stage<In = A::Out> + Send,
    C: Stage<In = B::Out> + Send,
    Z: Sink<Item = C::Out>,
    R: Threads + Wait + Sync,
>(
    rt: &R,
    alloc: Global,
    go: bool,
    first: A,
    second: B,
    third: C,
    sink: Z,
    front: &SlotGate<Parcel<A::In>>,
    taker: RecvEnd<Parcel<A::In>>,
) -> Behind<A::In, Z>
where
    A::In: Send,
    A::Out: Send,
    B::Out: Send,
    C::Out: Send,
    requires taker { taker ≡ record { gate = front.now; calls = [] } }
    requires begins { Z.took sink ≡ [] }
    ensures gate { result.taker.gate ≡ front.now }
    ensures comes { Comes (λ xs. C.gives third (B.gives second (A.gives first xs)))
        result.taker.calls (Z.took result.sink) result.ended }
    ensures told { IfErr result.ended (IsTold ⊥ (Z.failed result.sink)) }
{
    if !go {
        return refused(rt, Cause::NoThread, sink, front, taker);
    }
    let Ok((back, putter, receiver)) = SlotGate::make(alloc) else {
        return refused(rt, Cause::NoMemory, sink, front, taker);
    };
    let promise = Works::with(&first, &taker, &putter);
    let ((taker, putter, stage), behind) = beside(
        rt,
        promise,
        || -> (
            RecvEnd<Parcel<A::In>>,
            SendEnd<Parcel<A::Out>>,
            Result<(), NoMemory>,
        )
            requires front { taker ≡ record { gate = front.now; calls = [] } }
            requires back { putter ≡ record { gate = back; calls = [] } }
            ensures gates { (result.0.gate ≡ taker.gate) × (result.1.gate ≡ putter.gate) }
            ensures worked { Worked (A.gives first) result.0.calls result.1.calls result.2 }
        { work(rt, alloc, first, front, taker, &back, putter) },
        |go: bool| -> Behind<A::Out, Z>
            requires receiver { receiver ≡ record { gate = back; calls = [] } }
            requires begins { Z.took sink ≡ [] }
            ensures gate { result.taker.gate ≡ receiver.gate }
            ensures comes { Comes (λ xs. C.gives third (B.gives second xs))
                result.taker.calls (Z.took result.sink) result.ended }
            ensures told { IfErr result.ended (IsTold ⊥ (Z.failed result.sink)) }
        { two(rt, alloc, go, second, third, sink, &back, receiver) },
    );
    let Behind {
        taker: receiver,
        sink,
        ended,
    } = behind;
    let _ = meet(back, putter, receiver);
    Behind {
        taker,
        sink,
        ended: with_stage(stage, ended),
    }
}

/// Four stages, and the process that collects what the last gives.
pub(crate) fn four<
    A: Stage + Send,
    B: Stage<In = A::Out> + Send,
    C: Stage<In = B::Out> + Send,
    D: Stage<In = C::Out> + Send,
    Z: Sink<Item = D::Out>,
    R: Threads + Wait + Sync,
>(
    rt: &R,
    alloc: Global,
    go: bool,
    first: A,
    second: B,
    third: C,
    fourth: D,
    sink: Z,
    front: &SlotGate<Parcel<A::In>>,
    taker: RecvEnd<Parcel<A::In>>,
) -> Behind<A::In, Z>
where
    A::In: Send,
    A::Out: Send,
    B::Out: Send,
    C::Out: Send,
    D::Out: Send,
    requires taker { taker ≡ record { gate = front.now; calls = [] } }
    requires begins { Z.took sink ≡ [] }
    ensures gate { result.taker.gate ≡ front.now }
    ensures comes { Comes (λ xs. D.gives fourth (C.gives third (B.gives second (A.gives first xs))))
        result.taker.calls (Z.took result.sink) result.ended }
    ensures told { IfErr result.ended (IsTold ⊥ (Z.failed result.sink)) }
{
    if !go {
        return refused(rt, Cause::NoThread, sink, front, taker);
    }
    let Ok((back, putter, receiver)) = SlotGate::make(alloc) else {
        return refused(rt, Cause::NoMemory, sink, front, taker);
    };
    let promise = Works::with(&first, &taker, &putter);
    let ((taker, putter, stage), behind) = beside(
        rt,
        promise,
        || -> (
            RecvEnd<Parcel<A::In>>,
            SendEnd<Parcel<A::Out>>,
            Result<(), NoMemory>,
        )
            requires front { taker ≡ record { gate = front.now; calls = [] } }
            requires back { putter ≡ record { gate = back; calls = [] } }
            ensures gates { (result.0.gate ≡ taker.gate) × (result.1.gate ≡ putter.gate) }
            ensures worked { Worked (A.gives first) result.0.calls result.1.calls result.2 }
        { work(rt, alloc, first, front, taker, &back, putter) },
        |go: bool| -> Behind<A::Out, Z>
            requires receiver { receiver ≡ record { gate = back; calls = [] } }
            requires begins { Z.took sink ≡ [] }
            ensures gate { result.taker.gate ≡ receiver.gate }
            ensures comes { Comes (λ xs. D.gives fourth (C.gives third (B.gives second xs)))
                result.taker.calls (Z.took result.sink) result.ended }
            ensures told { IfErr result.ended (IsTold ⊥ (Z.failed result.sink)) }
        { three(rt, alloc, go, second, third, fourth, sink, &back, receiver) },
    );
    let Behind {
        taker: receiver,
        sink,
        ended,
    } = behind;
    let _ = meet(back, putter, receiver);
    Behind {
        taker,
        sink,
        ended: with_stage(stage, ended),
    }
}
