// The receiver's end of a running spool.
ghost use Rattle.std.specs.Prelude.{◌≡◌, true, false, [], OnOk};
ghost use Rattle.solo_base.specs.declared.outcome.Side.TheVariants.{Receiver};
ghost use Rattle.monitor_gate.specs.declared.view.Stage.TheVariants.{Outside};
ghost use Rattle.monitor_gate.specs.Calls.{IsEndOf, HasCalled, after_call, calls_in};
ghost use Rattle.disk_spool.specs.declared.call.SpoolCall.TheVariants as call;
ghost use Rattle.disk_spool.specs.Spool.{Spool, item_answer};
ghost use Rattle.disk_spool.specs.Calls.{has_stop, is_ready, value};
ghost use Rattle.disk_spool.specs.Ends.{Finds, known, await_call, await_given, take_call};

use crate::gate::{SpoolGate, SpoolPass};
use crate::send_end::stop;
use crate::{Await, Ended, Fetched, SpoolCall, SpoolKind};
use monitor_gate::Gate;
use resource_mon::DiskPass;
use solo_base::{Page, Side};
use solo_devices::Area;
use std::marker::Model;
use std::snapshot::Snapshot;
use std::sync::Wait;
use std::thread::Threads;

/// The right of one process to take pages out of a running spool. Contracts see its spool and its calls.
pub struct SpoolRecv<A: Area> {
    pass: SpoolPass<A>,
}

impl<A: Area> Model for SpoolRecv<A> {
    ghost use Rattle.std.specs.Prelude.{◌≡◌, ℕ, List, []};
    ghost use Rattle.monitor_gate.specs.declared.view.Stage.TheVariants.{Outside};
    ghost use Rattle.monitor_gate.specs.Calls.{End, calls_in};
    ghost use Rattle.disk_spool.specs.declared.call.SpoolCall.{SpoolCall};
    ghost use Rattle.disk_spool.specs.Calls.{value};
    ghost use Rattle.disk_spool.specs.Ends.{Known};

    ghost Value = { End (Known A) (SpoolCall (List ℕ)) };

    ghost view = { λ e. record { gate = record { name = e.pass.gate; opening = e.pass.view.opening }; calls = calls_in value e.pass } };

    ghost invariant = { λ e. (e.pass.view.stage ≡ Outside) × (e.pass.view.joined ≡ []) × (e.pass.view.number ≡ 2) };
}

impl<A: Area + Send> SpoolRecv<A> {
    /// Waits until there is a page. An `Err`: the sender stopped first, and none is left.
    pub fn await_item<R: Threads + Wait + Sync>(
        &mut self,
        gate: &SpoolGate<A>,
        rt: &R,
    ) -> Result<(), Ended>
        requires gate { self.old.gate ≡ known (A.size gate.now.area) gate.now }
        requires not_stopped { has_stop self.old.calls ≡ false }
        ensures call { self.new ≡ after_call self.old (await_call Receiver result) }
        ensures not_stopped { has_stop self.new.calls ≡ false }
        ensures ready { OnOk result (is_ready self.new.calls ≡ true) }
        ensures answer { (state : Spool A) × Finds A.pages A.faults gate.now.area Receiver self.old.calls state × (await_given result ≡ item_answer state) }
    {
        await_item(&gate.gate, &mut self.pass, rt)
    }

    /// Takes the earliest page out, by the pass of whoever has the disk. Where the read fails `page` may hold any bytes.
    pub fn take<R: Threads + Wait + Sync>(
        &mut self,
        gate: &SpoolGate<A>,
        pass: &DiskPass,
        page: &mut Page,
        rt: &R,
    ) -> Fetched
        requires gate { self.old.gate ≡ known (A.size gate.now.area) gate.now }
        requires not_stopped { has_stop self.old.calls ≡ false }
        requires ready { is_ready self.old.calls ≡ true }
        ensures call { self.new ≡ after_call self.old (take_call page.new.0 result) }
        ensures not_stopped { has_stop self.new.calls ≡ false }
    {
        let _holds_the_disk = pass;
        take(&gate.gate, &mut self.pass, page, rt)
    }

    /// Stops for good. A sender that waits is let know.
    pub fn stop<R: Threads + Wait + Sync>(&mut self, gate: &SpoolGate<A>, rt: &R)
        requires { self.old.gate ≡ known (A.size gate.now.area) gate.now }
        ensures { self.new ≡ after_call self.old (call.Stop Receiver) }
    {
        stop(&gate.gate, &mut self.pass, Side::Receiver, rt);
    }
}

impl<A: Area> SpoolRecv<A> {
    pub(crate) fn of(pass: SpoolPass<A>) -> Self
        requires outside { (pass.view.stage ≡ Outside) × (pass.view.joined ≡ []) × (pass.view.number ≡ 2) }
        ensures { result ≡ record { gate = record { name = pass.gate; opening = pass.view.opening }; calls = calls_in value pass } }
    {
        SpoolRecv { pass }
    }

    pub(crate) fn into_pass(self) -> SpoolPass<A>
        ensures gate { (result.gate ≡ self.gate.name) × (calls_in value result ≡ self.calls) }
        ensures number { result.view.number ≡ 2 }
        ensures outside { (result.view.opening ≡ self.gate.opening) × (result.view.stage ≡ Outside) × (result.view.joined ≡ []) }
    {
        let SpoolRecv { pass } = self;
        pass
    }
}

impl<A: Area> Drop for SpoolRecv<A> {
    fn drop(self) {
        let Self { pass: _ } = self;
    }
}

fn await_item<A: Area + Send, R: Threads + Wait + Sync>(
    gate: &Gate<SpoolKind<A>>,
    pass: &mut SpoolPass<A>,
    rt: &R,
) -> Result<(), Ended>
    requires pass { IsEndOf gate.now 2 pass.old }
    requires not_stopped { has_stop (calls_in value pass.old) ≡ false }
    ensures call { HasCalled value pass.old pass.new (await_call Receiver result) }
    ensures answer { (state : Spool A) × Finds A.pages A.faults gate.now.opening.area Receiver (calls_in value pass.old) state × (await_given result ≡ item_answer state) }
{
    gate.nap(pass, rt);
    let mut inside = gate.enter(pass, rt);
    match inside.state().await_item(2) {
        Await::Ready => {
            inside.leave(SpoolCall::Await(Side::Receiver));
            Ok(())
        }
        Await::Stopped => {
            inside.leave(SpoolCall::AwaitRefused(Side::Receiver));
            Err(Ended)
        }
        Await::Delayed => {
            let mut inside = inside.delay(rt);
            match inside.state().await_item(2) {
                Await::Ready => {
                    inside.leave(SpoolCall::Await(Side::Receiver));
                    Ok(())
                }
                Await::Stopped => {
                    inside.leave(SpoolCall::AwaitRefused(Side::Receiver));
                    Err(Ended)
                }
                Await::Delayed => unreachable!(),
            }
        }
    }
}

fn take<A: Area + Send, R: Threads + Wait + Sync>(
    gate: &Gate<SpoolKind<A>>,
    pass: &mut SpoolPass<A>,
    page: &mut Page,
    rt: &R,
) -> Fetched
    requires pass { IsEndOf gate.now 2 pass.old }
    requires not_stopped { has_stop (calls_in value pass.old) ≡ false }
    requires ready { is_ready (calls_in value pass.old) ≡ true }
    ensures { HasCalled value pass.old pass.new (take_call page.new.0 result) }
{
    let mut inside = gate.enter(pass, rt);
    match inside.state().take(page) {
        Fetched::Done { last } => {
            inside.leave(SpoolCall::Take(Snapshot::of(page), last));
            Fetched::Done { last }
        }
        Fetched::Failed => {
            inside.leave(SpoolCall::TakeFailed);
            Fetched::Failed
        }
    }
}
