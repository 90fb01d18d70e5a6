// The receiver's end of a running buffer.
ghost use Rattle.std.specs.Prelude.{◌≡◌, ◌++◌, true, false, [], Some, IfErr, IfOk};
ghost use Rattle.solo_base.specs.declared.outcome.Side.TheVariants.{Receiver};
ghost use Rattle.slot_buffer.specs.declared.call.SlotCall.TheVariants as call;
ghost use Rattle.slot_buffer.specs.Slot.{Slot, take_answer};
ghost use Rattle.slot_buffer.specs.Calls.{TookAll, has_stop, taken_of, value};
ghost use Rattle.monitor_gate.specs.declared.view.Stage.TheVariants.{Outside};
ghost use Rattle.monitor_gate.specs.Inside.{state_of, gate_of, pass_of, lender_of, HasTaken, IsEntered};
ghost use Rattle.monitor_gate.specs.Ends.{entered};
ghost use Rattle.queue_var.specs.Sides.{MayEnter, has_stopped};
ghost use Rattle.slot_buffer.specs.declared.answers.Take.{Take};
ghost use Rattle.monitor_gate.specs.Calls.{IsEndOf, HasCalled, after_call, calls_in};
ghost use Rattle.slot_buffer.specs.Ends.{Finds, empty_slot, take_call, take_given};

use crate::gate::{SlotGate, SlotPass};
use crate::send_end::stop;
use crate::{Ended, SlotCall, SlotKind};
use monitor_gate::{Gate, Inside};
use solo_base::{NoMemory, Side};
use std::alloc::Global;
use std::marker::Model;
use std::snapshot::Snapshot;
use std::sync::Wait;
use std::thread::Threads;

/// The right of one process to take items out of a running buffer. Contracts see its gate and its calls.
pub struct RecvEnd<T> {
    pub(crate) pass: SlotPass<T>,
}

impl<T> Model for RecvEnd<T> {
    ghost use Rattle.std.specs.Prelude.{◌≡◌, [], Some};
    ghost use Rattle.monitor_gate.specs.declared.view.Stage.TheVariants.{Outside};
    ghost use Rattle.monitor_gate.specs.Ends.{TableId};
    ghost use Rattle.monitor_gate.specs.Calls.{End, calls_in};
    ghost use Rattle.slot_buffer.specs.declared.call.SlotCall.{SlotCall};
    ghost use Rattle.slot_buffer.specs.Calls.{value};
    ghost use Rattle.slot_buffer.specs.Ends.{empty_slot};

    ghost Value = { End TableId (SlotCall T) };

    ghost view = { λ e. record { gate = e.pass.gate; calls = calls_in value e.pass } };

    ghost invariant = { λ e. (e.pass.view.opening ≡ Some empty_slot) × (e.pass.view.stage ≡ Outside) × (e.pass.view.joined ≡ []) × (e.pass.view.number ≡ 2) };
}

impl<T: Send> RecvEnd<T> {
    /// Takes the item out, and waits until there is one. An `Err`: the sender stopped first, and none is left.
    pub fn take<R: Threads + Wait + Sync>(&mut self, gate: &SlotGate<T>, rt: &R) -> Result<T, Ended>
        requires gate { self.old.gate ≡ gate.now }
        requires not_stopped { has_stop self.old.calls ≡ false }
        ensures call { self.new ≡ after_call self.old (take_call result) }
        ensures not_stopped { has_stop self.new.calls ≡ false }
        ensures answer { (state : Slot T) × Finds Receiver self.old.calls state × (take_given result ≡ take_answer state) }
    {
        take(&gate.gate, &mut self.pass, rt)
    }

    /// Takes items out until none is left and the sender has stopped. Where memory is refused for one, it
    /// stops.
    pub fn take_all<R: Threads + Wait + Sync>(
        &mut self,
        gate: &SlotGate<T>,
        alloc: Global,
        rt: &R,
    ) -> Result<Vec<T>, NoMemory>
    where
        T: Drop,
        requires gate { self.old.gate ≡ gate.now }
        requires not_stopped { has_stop self.old.calls ≡ false }
        ensures gate { self.new.gate ≡ self.old.gate }
        ensures all { IfOk result (λ out. TookAll self.new.calls
            × (taken_of self.new.calls ≡ taken_of self.old.calls ++ out.items)) }
        ensures stopped { IfErr result (λ refused. has_stop self.new.calls ≡ true) }
    {
        let mut out = Vec::new(alloc);
        for _ in rt.forever() {
            let Ok(item) = self.take(gate, rt) else {
                return Ok(out);
            };
            if out.push(item).is_err() {
                self.stop(gate, rt);
                return Err(NoMemory);
            }
        }
        unreachable!()
    }

    /// Stops for good. A sender that waits is let know.
    pub fn stop<R: Threads + Wait + Sync>(&mut self, gate: &SlotGate<T>, rt: &R)
        requires { self.old.gate ≡ gate.now }
        ensures { self.new ≡ after_call self.old (call.Stop Receiver) }
    {
        stop(&gate.gate, &mut self.pass, Side::Receiver, rt);
    }
}

fn take<T: Send, R: Threads + Wait + Sync>(
    gate: &Gate<SlotKind<T>>,
    pass: &mut SlotPass<T>,
    rt: &R,
) -> Result<T, Ended>
    requires pass { IsEndOf gate.now 2 pass.old }
    requires not_stopped { has_stop (calls_in value pass.old) ≡ false }
    ensures call { HasCalled value pass.old pass.new (take_call result) }
    ensures answer { (state : Slot T) × Finds Receiver (calls_in value pass.old) state × (take_given result ≡ take_answer state) }
{
    let mut inside = enter(gate, pass, rt);
    let Some(item) = inside.state().take_out() else {
        inside.leave(SlotCall::TakeRefused);
        return Err(Ended);
    };
    inside.leave(SlotCall::Take(Snapshot::of(&item)));
    Ok(item)
}

// Enters, and waits until an item is there or the sender has stopped.
fn enter<'a, T: Send, R: Threads + Wait + Sync>(
    gate: &'a Gate<SlotKind<T>>,
    pass: &'a mut SlotPass<T>,
    rt: &R,
) -> Inside<'a, SlotKind<T>>
    requires pass { IsEndOf gate.now 2 pass.old }
    requires not_stopped { has_stop (calls_in value pass.old) ≡ false }
    ensures gate { gate_of result ≡ gate.now }
    ensures lender { lender_of result ≡ pass.entry.ghost_name }
    ensures pass { (pass_of result ≡ entered pass.old (state_of result)) × IsEntered result }
    ensures taken { HasTaken result (state_of result) }
    ensures found { Finds Receiver (calls_in value pass.old) (state_of result) }
    ensures may { MayEnter (state_of result).sides Receiver 2 × (has_stopped (state_of result).sides Receiver ≡ false) }
    ensures not_delayed { Take.Delayed ≡ take_answer (state_of result) → ⊥ }
{
    let mut inside = gate.enter(pass, rt);
    if inside.state().waits_to_take(2) {
        return inside.delay(rt);
    }
    inside
}

impl<T> RecvEnd<T> {
    pub(crate) fn into_pass(self) -> SlotPass<T>
        ensures gate { (result.gate ≡ self.gate) × (calls_in value result ≡ self.calls) }
        ensures number { result.view.number ≡ 2 }
        ensures outside { (result.view.opening ≡ Some empty_slot) × (result.view.stage ≡ Outside) × (result.view.joined ≡ []) }
    {
        let RecvEnd { pass } = self;
        pass
    }
}

impl<T> Drop for RecvEnd<T> {
    fn drop(self) {
        let Self { pass: _ } = self;
    }
}
