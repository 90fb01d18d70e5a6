// The sender's end of a running spool.
ghost use Rattle.std.specs.Prelude.{◌≡◌, true, false, [], OnOk};
ghost use Rattle.solo_base.specs.declared.outcome.Side.TheVariants.{Sender};
ghost use Rattle.queue_var.specs.BetweenTwo.{process_at};
ghost use Rattle.monitor_gate.specs.declared.view.Stage.TheVariants.{Outside};
ghost use Rattle.monitor_gate.specs.Calls.{IsEndOf, HasCalled, after_call, calls_in};
ghost use Rattle.disk_spool.specs.declared.call.SpoolCall.TheVariants as call;
ghost use Rattle.disk_spool.specs.Spool.{Spool, room_answer};
ghost use Rattle.disk_spool.specs.Calls.{has_stop, is_ready, value};
ghost use Rattle.disk_spool.specs.Ends.{Finds, known, await_call, await_given, put_call};

use crate::gate::{SpoolGate, SpoolPass};
use crate::{Await, Ended, SpoolCall, SpoolKind};
use monitor_gate::Gate;
use resource_mon::DiskPass;
use solo_base::{Page, Side};
use solo_devices::{Area, Moved};
use std::marker::Model;
use std::snapshot::Snapshot;
use std::sync::Wait;
use std::thread::Threads;

/// The right of one process to put pages into a running spool. Contracts see its spool and its calls.
pub struct SpoolSend<A: Area> {
    pass: SpoolPass<A>,
}

impl<A: Area> Model for SpoolSend<A> {
    ghost use Rattle.std.specs.Prelude.{◌≡◌, ℕ, List, []};
    ghost use Rattle.monitor_gate.specs.declared.view.Stage.TheVariants.{Outside};
    ghost use Rattle.monitor_gate.specs.Calls.{End, calls_in};
    ghost use Rattle.disk_spool.specs.declared.call.SpoolCall.{SpoolCall};
    ghost use Rattle.disk_spool.specs.Calls.{value};
    ghost use Rattle.disk_spool.specs.Ends.{Known};

    ghost Value = { End (Known A) (SpoolCall (List ℕ)) };

    ghost view = { λ e. record { gate = record { name = e.pass.gate; opening = e.pass.view.opening }; calls = calls_in value e.pass } };

    ghost invariant = { λ e. (e.pass.view.stage ≡ Outside) × (e.pass.view.joined ≡ []) × (e.pass.view.number ≡ 1) };
}

impl<A: Area + Send> SpoolSend<A> {
    /// Waits until there is room for a page. An `Err`: the receiver stopped first.
    pub fn await_room<R: Threads + Wait + Sync>(
        &mut self,
        gate: &SpoolGate<A>,
        rt: &R,
    ) -> Result<(), Ended>
        requires gate { self.old.gate ≡ known (A.size gate.now.area) gate.now }
        requires not_stopped { has_stop self.old.calls ≡ false }
        ensures call { self.new ≡ after_call self.old (await_call Sender result) }
        ensures not_stopped { has_stop self.new.calls ≡ false }
        ensures ready { OnOk result (is_ready self.new.calls ≡ true) }
        ensures answer { (state : Spool A) × Finds A.pages A.faults gate.now.area Sender self.old.calls state × (await_given result ≡ room_answer state) }
    {
        await_room(&gate.gate, &mut self.pass, rt)
    }

    /// Puts a page behind those that are inside, by the pass of whoever has the disk.
    pub fn put<R: Threads + Wait + Sync>(
        &mut self,
        gate: &SpoolGate<A>,
        pass: &DiskPass,
        page: &Page,
        rt: &R,
    ) -> Moved
        requires gate { self.old.gate ≡ known (A.size gate.now.area) gate.now }
        requires not_stopped { has_stop self.old.calls ≡ false }
        requires ready { is_ready self.old.calls ≡ true }
        ensures call { self.new ≡ after_call self.old (put_call page.now.0 result) }
        ensures not_stopped { has_stop self.new.calls ≡ false }
    {
        let _holds_the_disk = pass;
        put(&gate.gate, &mut self.pass, page, rt)
    }

    /// Stops for good. A receiver that waits is let know.
    pub fn stop<R: Threads + Wait + Sync>(&mut self, gate: &SpoolGate<A>, rt: &R)
        requires { self.old.gate ≡ known (A.size gate.now.area) gate.now }
        ensures { self.new ≡ after_call self.old (call.Stop Sender) }
    {
        stop(&gate.gate, &mut self.pass, Side::Sender, rt);
    }
}

impl<A: Area> SpoolSend<A> {
    pub(crate) fn of(pass: SpoolPass<A>) -> Self
        requires outside { (pass.view.stage ≡ Outside) × (pass.view.joined ≡ []) × (pass.view.number ≡ 1) }
        ensures { result ≡ record { gate = record { name = pass.gate; opening = pass.view.opening }; calls = calls_in value pass } }
    {
        SpoolSend { pass }
    }

    pub(crate) fn into_pass(self) -> SpoolPass<A>
        ensures gate { (result.gate ≡ self.gate.name) × (calls_in value result ≡ self.calls) }
        ensures number { result.view.number ≡ 1 }
        ensures outside { (result.view.opening ≡ self.gate.opening) × (result.view.stage ≡ Outside) × (result.view.joined ≡ []) }
    {
        let SpoolSend { pass } = self;
        pass
    }
}

impl<A: Area> Drop for SpoolSend<A> {
    fn drop(self) {
        let Self { pass: _ } = self;
    }
}

fn await_room<A: Area + Send, R: Threads + Wait + Sync>(
    gate: &Gate<SpoolKind<A>>,
    pass: &mut SpoolPass<A>,
    rt: &R,
) -> Result<(), Ended>
    requires pass { IsEndOf gate.now 1 pass.old }
    requires not_stopped { has_stop (calls_in value pass.old) ≡ false }
    ensures call { HasCalled value pass.old pass.new (await_call Sender result) }
    ensures answer { (state : Spool A) × Finds A.pages A.faults gate.now.opening.area Sender (calls_in value pass.old) state × (await_given result ≡ room_answer state) }
{
    gate.nap(pass, rt);
    let mut inside = gate.enter(pass, rt);
    match inside.state().await_room(1) {
        Await::Ready => {
            inside.leave(SpoolCall::Await(Side::Sender));
            Ok(())
        }
        Await::Stopped => {
            inside.leave(SpoolCall::AwaitRefused(Side::Sender));
            Err(Ended)
        }
        Await::Delayed => {
            let mut inside = inside.delay(rt);
            match inside.state().await_room(1) {
                Await::Ready => {
                    inside.leave(SpoolCall::Await(Side::Sender));
                    Ok(())
                }
                Await::Stopped => {
                    inside.leave(SpoolCall::AwaitRefused(Side::Sender));
                    Err(Ended)
                }
                Await::Delayed => unreachable!(),
            }
        }
    }
}

fn put<A: Area + Send, R: Threads + Wait + Sync>(
    gate: &Gate<SpoolKind<A>>,
    pass: &mut SpoolPass<A>,
    page: &Page,
    rt: &R,
) -> Moved
    requires pass { IsEndOf gate.now 1 pass.old }
    requires not_stopped { has_stop (calls_in value pass.old) ≡ false }
    requires ready { is_ready (calls_in value pass.old) ≡ true }
    ensures { HasCalled value pass.old pass.new (put_call page.now.0 result) }
{
    let mut inside = gate.enter(pass, rt);
    match inside.state().put(page) {
        Moved::Done => {
            inside.leave(SpoolCall::Put(Snapshot::of(page)));
            Moved::Done
        }
        Moved::Failed => {
            inside.leave(SpoolCall::PutFailed(Snapshot::of(page)));
            Moved::Failed
        }
    }
}

// A stop of either side.
pub(crate) fn stop<A: Area + Send, R: Threads + Wait + Sync>(
    gate: &Gate<SpoolKind<A>>,
    pass: &mut SpoolPass<A>,
    side: Side,
    rt: &R,
)
    requires { IsEndOf gate.now (process_at side) pass.old }
    ensures { HasCalled value pass.old pass.new (call.Stop side) }
{
    let mut inside = gate.enter(pass, rt);
    inside.state().stop(side);
    inside.leave(SpoolCall::Stop(side));
}
