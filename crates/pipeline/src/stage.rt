// What a builder writes.
ghost use Rattle.std.specs.Prelude.{◌≡◌, List, [], ◌∷◌, ◌++◌, OnOk};

use crate::Outs;
use solo_base::NoMemory;

/// A stage of a pipeline: it takes items, one by one, and gives items. Its meaning is a function of lists:
/// what it gives in all, of all that it takes from here on.
pub trait Stage: Drop {
    type In: Drop;

    type Out: Drop;

    /// All that it gives, of all that it takes from here on.
    ghost gives: { Self → List Self.In → List Self.Out };

    /// Takes the next item. What it gives for it, and then what it will give of the later ones, is what it
    /// was to give of all of them.
    fn step(&mut self, item: Self::In, outs: &mut Outs<Self::Out>) -> Result<(), NoMemory>
        ensures { OnOk result ((later : List Self.In)
            → outs.old ++ gives self.old (item ∷ later) ≡ outs.new ++ gives self.new later) };

    /// No more items come.
    fn last(&mut self, outs: &mut Outs<Self::Out>) -> Result<(), NoMemory>
        ensures { OnOk result (outs.old ++ gives self.old [] ≡ outs.new) };
}
