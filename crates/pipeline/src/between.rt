// A pipeline runs between ends of the builder's own. `arities` writes this file.
ghost use Rattle.std.specs.Prelude.{◌≡◌, [], IfErr, OnErr};
ghost use Rattle.pipeline.specs.Came.{CameThrough, IsTold};
ghost use Rattle.pipeline.specs.Rows.{Comes, Fed};

use crate::behind::{Behind, with_source};
use crate::beside::beside;
use crate::promises::Feeds;
use crate::row::{four, one, three, two};
use crate::source::feed;
use crate::{Cause, Failed, Parcel, Ran, Sink, Source, Stage};
use slot_buffer::{SendEnd, SlotGate, meet};
use std::alloc::Global;
use std::sync::Wait;
use std::thread::Threads;

/// One stage between a source and a sink.
pub fn run_one_between<
    S: Source + Send,
    A: Stage<In = S::Item> + Send,
    Z: Sink<Item = A::Out>,
    R: Threads + Wait + Sync,
>(rt: &R, alloc: Global, source: S, first: A, sink: Z) -> Ran<S, Z>
where
    S::Item: Send,
    A::Out: Send,
    requires begins { (S.gave source ≡ []) × (Z.took sink ≡ []) }
    ensures came { CameThrough (λ xs. A.gives first xs)
        (S.tells source) (S.gave result.source) (Z.took result.sink) result.ended }
    ensures fault { IfErr result.ended (IsTold (S.failed result.source) (Z.failed result.sink)) }
{
    let Ok((front, putter, taker)) = SlotGate::make(alloc) else {
        return Ran {
            source,
            sink,
            ended: Err(Cause::NoMemory),
        };
    };
    let promise = Feeds::with(&source, &putter);
    let ((putter, source, fed), behind) = beside(
        rt,
        promise,
        || -> (SendEnd<Parcel<S::Item>>, S, Result<(), Failed>)
            requires putter { putter ≡ record { gate = front; calls = [] } }
            requires begins { S.gave source ≡ [] }
            ensures gate { result.0.gate ≡ putter.gate }
            ensures fed { Fed (S.tells source) (S.gave result.1) result.0.calls result.2 }
            ensures failed { OnErr result.2 (S.failed result.1) }
        { feed(rt, source, &front, putter) },
        |go: bool| -> Behind<S::Item, Z>
            requires taker { taker ≡ record { gate = front; calls = [] } }
            requires begins { Z.took sink ≡ [] }
            ensures gate { result.taker.gate ≡ taker.gate }
            ensures comes { Comes (λ xs. A.gives first xs)
                result.taker.calls (Z.took result.sink) result.ended }
            ensures told { IfErr result.ended (IsTold ⊥ (Z.failed result.sink)) }
        { one(rt, alloc, go, first, sink, &front, taker) },
    );
    let Behind { taker, sink, ended } = behind;
    let _ = meet(front, putter, taker);
    Ran {
        source,
        sink,
        ended: with_source(fed, ended),
    }
}

/// Two stages between a source and a sink.
pub fn run_two_between<
    S: Source + Send,
    A: Stage<In = S::Item> + Send,
    B: Stage<In = A::Out> + Send,
    Z: Sink<Item = B::Out>,
    R: Threads + Wait + Sync,
>(rt: &R, alloc: Global, source: S, first: A, second: B, sink: Z) -> Ran<S, Z>
where
    S::Item: Send,
    A::Out: Send,
    B::Out: Send,
    requires begins { (S.gave source ≡ []) × (Z.took sink ≡ []) }
    ensures came { CameThrough (λ xs. B.gives second (A.gives first xs))
        (S.tells source) (S.gave result.source) (Z.took result.sink) result.ended }
    ensures fault { IfErr result.ended (IsTold (S.failed result.source) (Z.failed result.sink)) }
{
    let Ok((front, putter, taker)) = SlotGate::make(alloc) else {
        return Ran {
            source,
            sink,
            ended: Err(Cause::NoMemory),
        };
    };
    let promise = Feeds::with(&source, &putter);
    let ((putter, source, fed), behind) = beside(
        rt,
        promise,
        || -> (SendEnd<Parcel<S::Item>>, S, Result<(), Failed>)
            requires putter { putter ≡ record { gate = front; calls = [] } }
            requires begins { S.gave source ≡ [] }
            ensures gate { result.0.gate ≡ putter.gate }
            ensures fed { Fed (S.tells source) (S.gave result.1) result.0.calls result.2 }
            ensures failed { OnErr result.2 (S.failed result.1) }
        { feed(rt, source, &front, putter) },
        |go: bool| -> Behind<S::Item, Z>
            requires taker { taker ≡ record { gate = front; calls = [] } }
            requires begins { Z.took sink ≡ [] }
            ensures gate { result.taker.gate ≡ taker.gate }
            ensures comes { Comes (λ xs. B.gives second (A.gives first xs))
                result.taker.calls (Z.took result.sink) result.ended }
            ensures told { IfErr result.ended (IsTold ⊥ (Z.failed result.sink)) }
        { two(rt, alloc, go, first, second, sink, &front, taker) },
    );
    let Behind { taker, sink, ended } = behind;
    let _ = meet(front, putter, taker);
    Ran {
        source,
        sink,
        ended: with_source(fed, ended),
    }
}

/// Three stages between a source and a sink.
pub fn run_three_between<
    S: Source + Send,
    A: Stage<In = S::Item> + Send,
    B: Stage<In = A::Out> + Send,
    C: Stage<In = B::Out> + Send,
    Z: Sink<Item = C::Out>,
    R: Threads + Wait + Sync,
>(rt: &R, alloc: Global, source: S, first: A, second: B, third: C, sink: Z) -> Ran<S, Z>
where
    S::Item: Send,
    A::Out: Send,
    B::Out: Send,
    C::Out: Send,
    requires begins { (S.gave source ≡ []) × (Z.took sink ≡ []) }
    ensures came { CameThrough (λ xs. C.gives third (B.gives second (A.gives first xs)))
        (S.tells source) (S.gave result.source) (Z.took result.sink) result.ended }
    ensures fault { IfErr result.ended (IsTold (S.failed result.source) (Z.failed result.sink)) }
{
    let Ok((front, putter, taker)) = SlotGate::make(alloc) else {
        return Ran {
            source,
            sink,
            ended: Err(Cause::NoMemory),
        };
    };
    let promise = Feeds::with(&source, &putter);
    let ((putter, source, fed), behind) = beside(
        rt,
        promise,
        || -> (SendEnd<Parcel<S::Item>>, S, Result<(), Failed>)
            requires putter { putter ≡ record { gate = front; calls = [] } }
            requires begins { S.gave source ≡ [] }
            ensures gate { result.0.gate ≡ putter.gate }
            ensures fed { Fed (S.tells source) (S.gave result.1) result.0.calls result.2 }
            ensures failed { OnErr result.2 (S.failed result.1) }
        { feed(rt, source, &front, putter) },
        |go: bool| -> Behind<S::Item, Z>
            requires taker { taker ≡ record { gate = front; calls = [] } }
            requires begins { Z.took sink ≡ [] }
            ensures gate { result.taker.gate ≡ taker.gate }
            ensures comes { Comes (λ xs. C.gives third (B.gives second (A.gives first xs)))
                result.taker.calls (Z.took result.sink) result.ended }
            ensures told { IfErr result.ended (IsTold ⊥ (Z.failed result.sink)) }
        { three(rt, alloc, go, first, second, third, sink, &front, taker) },
    );
    let Behind { taker, sink, ended } = behind;
    let _ = meet(front, putter, taker);
    Ran {
        source,
        sink,
        ended: with_source(fed, ended),
    }
}

/// Four stages between a source and a sink.
pub fn run_four_between<
    S: Source + Send,
    A: Stage<In = S::Item> + Send,
    B: Stage<In = A::Out> + Send,
    C: Stage<In = B::Out> + Send,
    D: Stage<In = C::Out> + Send,
    Z: Sink<Item = D::Out>,
    R: Threads + Wait + Sync,
>(rt: &R, alloc: Global, source: S, first: A, second: B, third: C, fourth: D, sink: Z) -> Ran<S, Z>
where
    S::Item: Send,
    A::Out: Send,
    B::Out: Send,
    C::Out: Send,
    D::Out: Send,
    requires begins { (S.gave source ≡ []) × (Z.took sink ≡ []) }
    ensures came { CameThrough (λ xs. D.gives fourth (C.gives third (B.gives second (A.gives first xs))))
        (S.tells source) (S.gave result.source) (Z.took result.sink) result.ended }
    ensures fault { IfErr result.ended (IsTold (S.failed result.source) (Z.failed result.sink)) }
{
    let Ok((front, putter, taker)) = SlotGate::make(alloc) else {
        return Ran {
            source,
            sink,
            ended: Err(Cause::NoMemory),
        };
    };
    let promise = Feeds::with(&source, &putter);
    let ((putter, source, fed), behind) = beside(
        rt,
        promise,
        || -> (SendEnd<Parcel<S::Item>>, S, Result<(), Failed>)
            requires putter { putter ≡ record { gate = front; calls = [] } }
            requires begins { S.gave source ≡ [] }
            ensures gate { result.0.gate ≡ putter.gate }
            ensures fed { Fed (S.tells source) (S.gave result.1) result.0.calls result.2 }
            ensures failed { OnErr result.2 (S.failed result.1) }
        { feed(rt, source, &front, putter) },
        |go: bool| -> Behind<S::Item, Z>
            requires taker { taker ≡ record { gate = front; calls = [] } }
            requires begins { Z.took sink ≡ [] }
            ensures gate { result.taker.gate ≡ taker.gate }
            ensures comes { Comes (λ xs. D.gives fourth (C.gives third (B.gives second (A.gives first xs))))
                result.taker.calls (Z.took result.sink) result.ended }
            ensures told { IfErr result.ended (IsTold ⊥ (Z.failed result.sink)) }
        {
            four(
                rt, alloc, go, first, second, third, fourth, sink, &front, taker,
            )
        },
    );
    let Behind { taker, sink, ended } = behind;
    let _ = meet(front, putter, taker);
    Ran {
        source,
        sink,
        ended: with_source(fed, ended),
    }
}
