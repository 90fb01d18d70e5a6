//! The rule that a gate's table keeps, and what each step on its word tells.

use crate::kept::Kept;
use crate::kind::MonitorKind;
use crate::view::{Opening, View};
use atomic_table::{Join, Play, Split, TableRule};
use std::marker::{Brand, PhantomData};

/// The rule of a gate for the monitors of a kind.
pub(crate) struct GateRule<M> {
    kind: PhantomData<M>,
}

impl<M: MonitorKind> TableRule<Option<Kept<M::State>>, View<M::State, M::Entry>, Opening<M::State>>
    for GateRule<M> {
    ghost use Rattle.monitor_gate.specs.Rule.{IsKept};
    ghost use Rattle.monitor_gate.specs.Views.{maker};

    ghost holds = { λ key. IsKept M.handed_to M.ties M.waits M.wakes key.state.value key.passes };

    ghost first = { λ key. maker key.state.value 0 };
}

pub(crate) struct Enter<M> {
    kind: PhantomData<M>,
}

impl<M: MonitorKind> Play<Option<Kept<M::State>>, View<M::State, M::Entry>> for Enter<M> {
    ghost use Rattle.monitor_gate.specs.Steps.{entered};

    ghost then = { entered M.handed_to M.ties M.waits };
}

/// The entries that a step adds to the list of its process. A call of the step picks them.
pub(crate) trait Gains<E> {
    ghost use Rattle.std.specs.Prelude.{List};

    ghost gained: { List E };
}

impl<E> Gains<E> for Brand {
    ghost use Rattle.std.specs.Prelude.{[]};

    ghost gained = { [] };
}

pub(crate) struct Leave<G> {
    gains: PhantomData<G>,
}

impl<S, E, G: Gains<E>> Play<Option<Kept<S>>, View<S, E>> for Leave<G> {
    ghost use Rattle.monitor_gate.specs.Steps.{left};

    ghost then = { left G.gained };
}

// A process that is about to sleep says so in the word.
pub(crate) struct Tell;

impl<S, E> Play<Option<Kept<S>>, View<S, E>> for Tell {
    ghost use Rattle.monitor_gate.specs.Steps.{unchanged};

    ghost then = { unchanged };
}

pub(crate) struct Delay;

impl<S, E> Play<Option<Kept<S>>, View<S, E>> for Delay {
    ghost use Rattle.monitor_gate.specs.Steps.{delayed};

    ghost then = { delayed };
}

pub(crate) struct Resume<M> {
    kind: PhantomData<M>,
}

impl<M: MonitorKind> Play<Option<Kept<M::State>>, View<M::State, M::Entry>> for Resume<M> {
    ghost use Rattle.monitor_gate.specs.Steps.{resumed};

    ghost then = { resumed M.handed_to M.ties M.waits M.wakes };
}

/// The maker deals one more pass.
pub(crate) struct Deal;

impl<S, E> Split<View<S, E>> for Deal {
    ghost use Rattle.monitor_gate.specs.Views.{dealing, dealt};

    ghost left = { dealing };

    ghost right = { dealt };
}

/// One pass takes in the lists of another.
pub(crate) struct Merge;

impl<S, E> Join<View<S, E>> for Merge {
    ghost use Rattle.monitor_gate.specs.Views.{both, spent};

    ghost both = { both };

    ghost spent = { spent };
}
