//! A gate: one word, and one slot with the state of a monitor.
ghost use Rattle.std.specs.Prelude.{◌≡◌, ℕ, ◌<◌, false, [], ◌∷◌, Some, None, IfOk, IfErr};
ghost use Rattle.monitor_gate.specs.Views.{entries_of, maker};
ghost use Rattle.monitor_gate.specs.Ends.{IsPassOf, IsOutside, HasJoinedAll, joined, new_passes, lists_of};

use crate::deal::deal;
use crate::kept::Kept;
use crate::kind::MonitorKind;
use crate::pass::Pass;
use crate::rule::{GateRule, Merge};
use crate::turn::{FREE, Place};
use crate::view::{Opening, View};
use atomic_table::{Refused, Table};
use solo_base::NoMemory;
use std::alloc::Global;
use std::marker::Model;
use std::snapshot::Snapshot;

pub(crate) type GateTable<M> = Table<
    Option<Kept<<M as MonitorKind>::State>>,
    View<<M as MonitorKind>::State, <M as MonitorKind>::Entry>,
    Opening<<M as MonitorKind>::State>,
    GateRule<M>,
    Global,
>;

/// A gate round one monitor. Contracts see which gate it is, the state that it was made with, and how many passes it has.
pub struct Gate<M: MonitorKind> {
    pub(crate) table: GateTable<M>,
}

impl<M: MonitorKind> Model for Gate<M> {
    ghost use Rattle.std.specs.Prelude.{◌≡◌};
    ghost use Rattle.monitor_gate.specs.Ends.{GateView};

    ghost Value = { GateView M.State };

    ghost view = { λ g. record { name = g.table.shared.table_id; opening = g.table.shared.key.state.value; passes = g.table.shared.key.passes } };

    ghost invariant = { λ g. (g.table.shared.table_id.words ≡ 1) × (g.table.shared.table_id.slots ≡ 1) };
}

/// Makes a gate round a monitor, with a pass for each of the processes 1 to `passes`. Where memory is refused the state comes back.
pub fn make<M: MonitorKind>(
    alloc: Global,
    state: M::State,
    passes: u8,
) -> Result<(Gate<M>, Vec<Pass<M>>), (M::State, NoMemory)>
    requires some { 0 < passes }
    requires tied { M.ties state state (λ _. []) }
    requires nobody_waits { (p : ℕ) → M.waits p state ≡ false }
    requires free { M.handed_to state ≡ None }
    ensures gate { IfOk result (λ r. (r.0.opening ≡ state) × (r.0.passes ≡ passes)) }
    ensures dealt { IfOk result (λ r. r.1.items ≡ new_passes r.0.name state passes) }
    ensures refused { IfErr result (λ e. e.0 ≡ state) }
{
    let Ok(mut dealt) = Vec::with_capacity(alloc, usize::from(passes)) else {
        return Err((state, NoMemory));
    };
    let (table, maker) = match lay::<M>(alloc, state, passes) {
        Ok(laid) => laid,
        Err(state) => return Err((state, NoMemory)),
    };
    deal::<M>(&table.shared, maker, passes, &mut dealt);
    Ok((Gate { table }, dealt))
}

// The table of a new gate, and the seat of its maker. Where memory is refused the state comes back.
fn lay<M: MonitorKind>(
    alloc: Global,
    state: M::State,
    passes: u8,
) -> Result<(GateTable<M>, Place<M>), M::State>
    requires tied { M.ties state state (λ _. []) }
    requires nobody_waits { (p : ℕ) → M.waits p state ≡ false }
    requires free { M.handed_to state ≡ None }
    ensures table { IfOk result (λ r. (r.0.shared.table_id.words ≡ 1) × (r.0.shared.table_id.slots ≡ 1) × (r.0.shared.key.state.value ≡ state) × (r.0.shared.key.passes ≡ passes)) }
    ensures maker { IfOk result (λ r. (r.1.table_id ≡ r.0.shared.table_id) × (r.1.me ≡ (maker state 0, []))) }
    ensures refused { IfErr result (λ s. s ≡ state) }
{
    let about = Opening {
        state: Snapshot::of(&state),
        passes,
    };
    let kept = Kept::boxed(alloc, state)?;
    let Ok(mut slots) = Vec::with_capacity(alloc, 1) else {
        return Err(kept.into_inner());
    };
    slots.push_reserved(Some(kept));
    match Table::new(alloc, &[FREE], slots, &about) {
        Ok(laid) => Ok(laid),
        Err(refused) => Err(state_of(refused)),
    }
}

fn state_of<S>(refused: Refused<Option<Kept<S>>, Global>) -> S
    requires { (s : S) × (refused.slots.items ≡ Some s ∷ []) }
    ensures { refused.slots.items ≡ Some result ∷ [] }
{
    let Refused { mut slots } = refused;
    let state = slots.pop().unwrap().unwrap();
    slots.destroy_empty();
    state.into_inner()
}

impl<M: MonitorKind> Gate<M> {
    /// Takes in the lists of another pass, which is spent.
    pub fn join(&self, into: &mut Pass<M>, other: Pass<M>)
        requires passes { IsPassOf self.now into.old × IsPassOf self.now other }
        requires outside { IsOutside into.old × IsOutside other }
        ensures { into.new ≡ joined into.old other }
    {
        self.table
            .shared
            .join_seat::<Merge>(&mut into.seat, other.into_seat());
    }

    /// Gives the state back, by the pass that has joined all others. It has all entries, and nobody waits in it.
    pub fn close(self, pass: Pass<M>) -> M::State
        requires pass { IsPassOf self pass }
        requires outside { IsOutside pass }
        requires all { HasJoinedAll self pass }
        ensures tied { M.ties self.opening result (entries_of (lists_of pass)) }
        ensures nobody_waits { (p : ℕ) → M.waits p result ≡ false }
        ensures free { M.handed_to result ≡ None }
    {
        let Gate { table } = self;
        let mut closed = table.close_with(pass.into_seat());
        let state = closed.take(0).unwrap();
        closed.free();
        state.into_inner()
    }
}
