// Two stages on one thread.
ghost use Rattle.std.specs.Prelude.{◌≡◌, [], ◌++◌, List, OnOk};

use crate::{Outs, Stage};
use solo_base::NoMemory;
use std::alloc::Global;

/// Two stages as one, on one thread: the second takes at once what the first gives.
#[derive(Drop)]
pub struct Then<A: Stage, B> {
    first: A,
    second: B,
    between: Outs<A::Out>,
}

impl<A: Stage, B: Stage<In = A::Out>> Then<A, B> {
    pub fn new(alloc: Global, first: A, second: B) -> Then<A, B>
        ensures { (result.first ≡ first) × (result.second ≡ second) × (result.between ≡ []) }
    {
        Then {
            first,
            second,
            between: Outs::new(alloc),
        }
    }
}

impl<A: Stage, B: Stage<In = A::Out>> Stage for Then<A, B> {
    type In = A::In;

    type Out = B::Out;

    ghost gives = { λ both taken. B.gives both.second (both.between ++ A.gives both.first taken) };

    fn step(&mut self, item: A::In, outs: &mut Outs<B::Out>) -> Result<(), NoMemory> {
        if self.first.step(item, &mut self.between).is_err() {
            return Err(NoMemory);
        }
        pass(&mut self.second, &mut self.between, outs)
    }

    fn last(&mut self, outs: &mut Outs<B::Out>) -> Result<(), NoMemory> {
        if self.first.last(&mut self.between).is_err() {
            return Err(NoMemory);
        }
        if pass(&mut self.second, &mut self.between, outs).is_err() {
            return Err(NoMemory);
        }
        self.second.last(outs)
    }
}

// The stage takes all these.
fn pass<S: Stage>(
    stage: &mut S,
    items: &mut Outs<S::In>,
    outs: &mut Outs<S::Out>,
) -> Result<(), NoMemory>
    ensures passed { OnOk result ((later : List S.In)
        → outs.old ++ S.gives stage.old (items.old ++ later) ≡ outs.new ++ S.gives stage.new later) }
    ensures empty { OnOk result (items.new ≡ []) }
{
    while let Some(item) = items.next() {
        if stage.step(item, outs).is_err() {
            return Err(NoMemory);
        }
    }
    Ok(())
}
