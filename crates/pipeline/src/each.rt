// Stages that keep nothing.
ghost use Rattle.std.specs.Prelude.{◌≡◌, List, ◌++◌, Bool, filter, OnOk};
ghost use Rattle.std.specs.List.{flat_map};

use crate::{Outs, Stage};
use solo_base::NoMemory;

/// What is given for an item: none, one or several.
pub trait Function: Drop {
    type In: Drop;

    type Out: Drop;

    /// What is given for an item.
    ghost of: { Self → Self.In → List Self.Out };

    fn call(&self, item: Self::In, outs: &mut Outs<Self::Out>) -> Result<(), NoMemory>
        ensures { OnOk result (outs.new ≡ outs.old ++ of self.now item) };
}

/// Gives for each item what the function says.
#[derive(Drop)]
pub struct Each<F>(pub F);

impl<F: Function> Stage for Each<F> {
    type In = F::In;

    type Out = F::Out;

    ghost gives = { λ each taken. flat_map (F.of each.0) taken };

    fn step(&mut self, item: F::In, outs: &mut Outs<F::Out>) -> Result<(), NoMemory> {
        self.0.call(item, outs)
    }

    fn last(&mut self, _outs: &mut Outs<F::Out>) -> Result<(), NoMemory> {
        Ok(())
    }
}

/// Whether an item is kept.
pub trait Test: Drop {
    type Item: Drop;

    ghost passes: { Self → Self.Item → Bool };

    fn test(&self, item: &Self::Item) -> bool
        ensures { result ≡ passes self.now item.now };
}

/// Gives the items that pass the test.
#[derive(Drop)]
pub struct Keep<T>(pub T);

impl<T: Test> Stage for Keep<T> {
    type In = T::Item;

    type Out = T::Item;

    ghost gives = { λ keep taken. filter (T.passes keep.0) taken };

    fn step(&mut self, item: T::Item, outs: &mut Outs<T::Item>) -> Result<(), NoMemory> {
        if !self.0.test(&item) {
            return Ok(());
        }
        outs.give(item)
    }

    fn last(&mut self, _outs: &mut Outs<T::Item>) -> Result<(), NoMemory> {
        Ok(())
    }
}
