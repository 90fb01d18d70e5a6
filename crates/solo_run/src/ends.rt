//! The ends of a running buffer, each at its gate.
ghost use Rattle.std.specs.Prelude.{◌≡◌, false};
ghost use Rattle.solo_base.specs.declared.outcome.Side.TheVariants.{Receiver, Sender};
ghost use Rattle.slot_buffer.specs.declared.call.SlotCall.TheVariants as call;
ghost use Rattle.slot_buffer.specs.Calls.{has_stop};
ghost use Rattle.slot_buffer.specs.Ends.{put_call, take_call};
ghost use Rattle.solo_run.specs.Ends.{sent, took};

use slot_buffer::{Ended, RecvEnd, SendEnd, SlotGate, Stopped};
use std::sync::Wait;
use std::thread::Threads;

/// The sender's end of a buffer, at its gate.
#[derive(Drop)]
pub struct Sending<'a, T: Send> {
    pub gate: &'a SlotGate<T>,
    pub end: SendEnd<T>,
}

/// The receiver's end.
#[derive(Drop)]
pub struct Taking<'a, T: Send> {
    pub gate: &'a SlotGate<T>,
    pub end: RecvEnd<T>,
}

impl<'a, T: Send> Sending<'a, T> {
    /// Puts an item in, and waits until there is room. An `Err`: the receiver stopped first.
    pub fn put<R: Threads + Wait + Sync>(&mut self, item: T, rt: &R) -> Result<(), Stopped<T>>
        requires at { self.old.end.gate ≡ self.old.gate.now }
        requires running { has_stop self.old.end.calls ≡ false }
        ensures { self.new ≡ sent self.old (put_call item result) }
    {
        self.end.put(self.gate, item, rt)
    }

    /// Stops for good.
    pub fn stop<R: Threads + Wait + Sync>(&mut self, rt: &R)
        requires { self.old.end.gate ≡ self.old.gate.now }
        ensures { self.new ≡ sent self.old (call.Stop Sender) }
    {
        self.end.stop(self.gate, rt);
    }
}

impl<'a, T: Send> Taking<'a, T> {
    /// Takes an item out, and waits until there is one. An `Err`: the sender stopped first, and none is left.
    pub fn take<R: Threads + Wait + Sync>(&mut self, rt: &R) -> Result<T, Ended>
        requires at { self.old.end.gate ≡ self.old.gate.now }
        requires running { has_stop self.old.end.calls ≡ false }
        ensures { self.new ≡ took self.old (take_call result) }
    {
        self.end.take(self.gate, rt)
    }

    /// Stops for good.
    pub fn stop<R: Threads + Wait + Sync>(&mut self, rt: &R)
        requires { self.old.end.gate ≡ self.old.gate.now }
        ensures { self.new ≡ took self.old (call.Stop Receiver) }
    {
        self.end.stop(self.gate, rt);
    }
}
