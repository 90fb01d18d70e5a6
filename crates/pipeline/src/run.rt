// A pipeline of items that are there runs. `arities` writes this file.
ghost use Rattle.std.specs.Prelude.{◌≡◌, OnOk};
ghost use Rattle.pipeline.specs.First.{IsFirst};

use crate::between::{run_four_between, run_one_between, run_three_between, run_two_between};
use crate::{Came, Collect, Items, Stage};
use std::alloc::Global;
use std::sync::Wait;
use std::thread::Threads;

/// What a stage gives of these items.
pub fn run_one<A: Stage + Send, R: Threads + Wait + Sync>(
    rt: &R,
    alloc: Global,
    items: Vec<A::In>,
    first: A,
) -> Came<A::Out>
where
    A::In: Send,
    A::Out: Send,
    ensures first { IsFirst result.items.items
        (A.gives first items.items) }
    ensures all { OnOk result.ended (result.items.items
        ≡ A.gives first items.items) }
{
    let items = Items::of(items);
    let collect = Collect::new(alloc);
    Came::of(run_one_between(rt, alloc, items, first, collect))
}

/// What two stages give of these items, each behind the one before.
pub fn run_two<A: Stage + Send, B: Stage<In = A::Out> + Send, R: Threads + Wait + Sync>(
    rt: &R,
    alloc: Global,
    items: Vec<A::In>,
    first: A,
    second: B,
) -> Came<B::Out>
where
    A::In: Send,
    A::Out: Send,
    B::Out: Send,
    ensures first { IsFirst result.items.items
        (B.gives second (A.gives first items.items)) }
    ensures all { OnOk result.ended (result.items.items
        ≡ B.gives second (A.gives first items.items)) }
{
    let items = Items::of(items);
    let collect = Collect::new(alloc);
    Came::of(run_two_between(rt, alloc, items, first, second, collect))
}

/// What three stages give of these items, each behind the one before.
pub fn run_three<
    A: Stage + Send,
    B: Stage<In = A::Out> + Send,
    C: Stage<In = B::Out> + Send,
    R: Threads + Wait + Sync,
>(rt: &R, alloc: Global, items: Vec<A::In>, first: A, second: B, third: C) -> Came<C::Out>
where
    A::In: Send,
    A::Out: Send,
    B::Out: Send,
    C::Out: Send,
    ensures first { IsFirst result.items.items
        (C.gives third (B.gives second (A.gives first items.items))) }
    ensures all { OnOk result.ended (result.items.items
        ≡ C.gives third (B.gives second (A.gives first items.items))) }
{
    let items = Items::of(items);
    let collect = Collect::new(alloc);
    Came::of(run_three_between(rt, alloc, items, first, second, third, collect))
}

/// What four stages give of these items, each behind the one before.
pub fn run_four<
    A: Stage + Send,
    B: Stage<In = A::Out> + Send,
    C: Stage<In = B::Out> + Send,
    D: Stage<In = C::Out> + Send,
    R: Threads + Wait + Sync,
>(
    rt: &R,
    alloc: Global,
    items: Vec<A::In>,
    first: A,
    second: B,
    third: C,
    fourth: D,
) -> Came<D::Out>
where
    A::In: Send,
    A::Out: Send,
    B::Out: Send,
    C::Out: Send,
    D::Out: Send,
    ensures first { IsFirst result.items.items
        (D.gives fourth (C.gives third (B.gives second (A.gives first items.items)))) }
    ensures all { OnOk result.ended (result.items.items
        ≡ D.gives fourth (C.gives third (B.gives second (A.gives first items.items)))) }
{
    let items = Items::of(items);
    let collect = Collect::new(alloc);
    Came::of(run_four_between(rt, alloc, items, first, second, third, fourth, collect))
}
