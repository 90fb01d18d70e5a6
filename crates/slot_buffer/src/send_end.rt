// The sender's end of a running buffer.
ghost use Rattle.std.specs.Prelude.{◌≡◌, false, [], Some, IfErr};
ghost use Rattle.solo_base.specs.declared.outcome.Side.TheVariants.{Sender};
ghost use Rattle.slot_buffer.specs.declared.call.SlotCall.TheVariants as call;
ghost use Rattle.slot_buffer.specs.Slot.{Slot, put_answer};
ghost use Rattle.slot_buffer.specs.Calls.{PutAll, PutFirst, has_stop, value, was_refused};
ghost use Rattle.queue_var.specs.BetweenTwo.{process_at};
ghost use Rattle.monitor_gate.specs.declared.view.Stage.TheVariants.{Outside};
ghost use Rattle.monitor_gate.specs.Inside.{state_of, gate_of, pass_of, lender_of, HasTaken, IsEntered};
ghost use Rattle.monitor_gate.specs.Ends.{entered};
ghost use Rattle.queue_var.specs.Sides.{MayEnter, has_stopped};
ghost use Rattle.slot_buffer.specs.declared.answers.Put.{Put};
ghost use Rattle.monitor_gate.specs.Calls.{IsEndOf, HasCalled, after_call, calls_in};
ghost use Rattle.slot_buffer.specs.Ends.{Finds, empty_slot, put_call, put_given};

use crate::gate::{SlotGate, SlotPass};
use crate::{SlotCall, SlotKind, Stopped};
use monitor_gate::{Gate, Inside};
use solo_base::Side;
use std::marker::Model;
use std::snapshot::Snapshot;
use std::sync::Wait;
use std::thread::Threads;

/// The right of one process to put items into a running buffer. Contracts see its gate and its calls.
pub struct SendEnd<T> {
    pub(crate) pass: SlotPass<T>,
}

impl<T> Model for SendEnd<T> {
    ghost use Rattle.std.specs.Prelude.{◌≡◌, [], Some};
    ghost use Rattle.monitor_gate.specs.declared.view.Stage.TheVariants.{Outside};
    ghost use Rattle.monitor_gate.specs.Ends.{TableId};
    ghost use Rattle.monitor_gate.specs.Calls.{End, calls_in};
    ghost use Rattle.slot_buffer.specs.declared.call.SlotCall.{SlotCall};
    ghost use Rattle.slot_buffer.specs.Calls.{value};
    ghost use Rattle.slot_buffer.specs.Ends.{empty_slot};

    ghost Value = { End TableId (SlotCall T) };

    ghost view = { λ e. record { gate = e.pass.gate; calls = calls_in value e.pass } };

    ghost invariant = { λ e. (e.pass.view.opening ≡ Some empty_slot) × (e.pass.view.stage ≡ Outside) × (e.pass.view.joined ≡ []) × (e.pass.view.number ≡ 1) };
}

impl<T: Send> SendEnd<T> {
    /// Puts an item in, and waits until there is room. An `Err` hands the item back: the receiver stopped first.
    pub fn put<R: Threads + Wait + Sync>(
        &mut self,
        gate: &SlotGate<T>,
        item: T,
        rt: &R,
    ) -> Result<(), Stopped<T>>
        requires gate { self.old.gate ≡ gate.now }
        requires not_stopped { has_stop self.old.calls ≡ false }
        ensures call { self.new ≡ after_call self.old (put_call item result) }
        ensures not_stopped { has_stop self.new.calls ≡ false }
        ensures handed_back { IfErr result (λ stopped. stopped.0 ≡ item) }
        ensures answer { (state : Slot T) × Finds Sender self.old.calls state × (put_given item result ≡ put_answer state item) }
    {
        let seen = Snapshot::of(&item);
        let mut inside = enter(&gate.gate, &mut self.pass, rt);
        if inside.state().refuses_put() {
            inside.leave(SlotCall::PutRefused(seen));
            return Err(Stopped(item));
        }
        inside.state().put_in(item);
        inside.leave(SlotCall::Put(seen));
        Ok(())
    }

    /// Puts these items in, one after the other, and stops behind the last. It ends at the first that the
    /// receiver takes no more.
    pub fn put_all<R: Threads + Wait + Sync>(&mut self, gate: &SlotGate<T>, items: &[T], rt: &R)
    where
        T: Copy,
        requires gate { self.old.gate ≡ gate.now }
        requires not_stopped { has_stop self.old.calls ≡ false }
        ensures gate { self.new.gate ≡ self.old.gate }
        ensures all { was_refused self.new.calls ≡ false → PutAll items.now self.old.calls self.new.calls }
        ensures first { PutFirst items.now self.old.calls self.new.calls }
    {
        for item in items {
            if self.put(gate, *item, rt).is_err() {
                return;
            }
        }
        self.stop(gate, rt);
    }

    /// Stops for good. A receiver that waits is let know.
    pub fn stop<R: Threads + Wait + Sync>(&mut self, gate: &SlotGate<T>, rt: &R)
        requires { self.old.gate ≡ gate.now }
        ensures { self.new ≡ after_call self.old (call.Stop Sender) }
    {
        stop(&gate.gate, &mut self.pass, Side::Sender, rt);
    }
}

// Enters, and waits until there is room or the receiver has stopped.
fn enter<'a, T: Send, R: Threads + Wait + Sync>(
    gate: &'a Gate<SlotKind<T>>,
    pass: &'a mut SlotPass<T>,
    rt: &R,
) -> Inside<'a, SlotKind<T>>
    requires pass { IsEndOf gate.now 1 pass.old }
    requires not_stopped { has_stop (calls_in value pass.old) ≡ false }
    ensures gate { gate_of result ≡ gate.now }
    ensures lender { lender_of result ≡ pass.entry.ghost_name }
    ensures pass { (pass_of result ≡ entered pass.old (state_of result)) × IsEntered result }
    ensures taken { HasTaken result (state_of result) }
    ensures found { Finds Sender (calls_in value pass.old) (state_of result) }
    ensures may { MayEnter (state_of result).sides Sender 1 × (has_stopped (state_of result).sides Sender ≡ false) }
    ensures not_delayed { (item back : T) → Put.Delayed back ≡ put_answer (state_of result) item → ⊥ }
{
    let mut inside = gate.enter(pass, rt);
    if inside.state().waits_to_put(1) {
        return inside.delay(rt);
    }
    inside
}

// A stop of either side.
pub(crate) fn stop<T: Send, R: Threads + Wait + Sync>(
    gate: &Gate<SlotKind<T>>,
    pass: &mut SlotPass<T>,
    side: Side,
    rt: &R,
)
    requires { IsEndOf gate.now (process_at side) pass.old }
    ensures { HasCalled value pass.old pass.new (call.Stop side) }
{
    let mut inside = gate.enter(pass, rt);
    inside.state().stop(side);
    inside.leave(SlotCall::Stop(side));
}

impl<T> SendEnd<T> {
    pub(crate) fn into_pass(self) -> SlotPass<T>
        ensures gate { (result.gate ≡ self.gate) × (calls_in value result ≡ self.calls) }
        ensures number { result.view.number ≡ 1 }
        ensures outside { (result.view.opening ≡ Some empty_slot) × (result.view.stage ≡ Outside) × (result.view.joined ≡ []) }
    {
        let SendEnd { pass } = self;
        pass
    }
}

impl<T> Drop for SendEnd<T> {
    fn drop(self) {
        let Self { pass: _ } = self;
    }
}
