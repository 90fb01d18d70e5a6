//! A state as a gate keeps it.
use std::alloc::Global;
use std::marker::Model;

/// A state behind a pointer, so that an entry moves the pointer and not the state.
pub struct Kept<S> {
    state: Box<S>,
}

impl<S> Model for Kept<S> {
    ghost use Rattle.std.specs.Prelude.{◌≡◌};

    ghost Value = { S };

    ghost view = { λ kept. kept.state.value };
}

impl<S> Kept<S> {
    ghost use Rattle.std.specs.Prelude.{◌≡◌, IfOk, IfErr};
    ghost use Rattle.std.specs.Borrow.{sem, follows};
    ghost use Rattle.monitor_gate.specs.contracts.kept.Kept.{the_row};

    /// Where memory is refused the state comes back.
    pub(crate) fn boxed(alloc: Global, state: S) -> Result<Kept<S>, S>
        ensures kept { IfOk result (λ kept. kept ≡ state) }
        ensures refused { IfErr result (λ back. back ≡ state) }
    {
        match Box::new(alloc, state) {
            Ok(state) => Ok(Kept { state }),
            Err(refused) => Err(refused.value),
        }
    }

    pub(crate) fn get(&self) -> &S
        ensures { result.now ≡ self.now }
    {
        &self.state
    }

    pub(crate) fn get_mut(&mut self) -> &mut S
        ensures* writes_back { sem 𝓛 (follows (the_row S.row) S.row self.entry.ghost_name result.ghost_name (λ state. state)) }
        ensures value { result.now ≡ self.old }
    {
        &mut self.state
    }

    pub(crate) fn into_inner(self) -> S
        ensures { result ≡ self }
    {
        let Kept { state } = self;
        Box::into_inner(state)
    }
}
