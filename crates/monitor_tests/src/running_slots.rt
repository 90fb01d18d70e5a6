// Two processes, each in its own thread.
ghost use Rattle.std.specs.Prelude.{◌≡◌, false};
ghost use Rattle.slot_buffer.specs.Calls.{has_stop};

use slot_buffer::*;
use solo_base::Side;
use std::sync::Wait;
use std::test::*;
use std::thread::{Threads, join};

const ITEMS: u32 = 100_000;

// Puts so many numbers, from 0 on, and stops.
fn send<R: Threads + Wait + Sync>(
    gate: &SlotGate<u32>,
    mut end: SendEnd<u32>,
    items: u32,
    rt: &R,
) -> SendEnd<u32>
    requires { (end.gate ≡ gate.now) × (has_stop end.calls ≡ false) }
    ensures { result.gate ≡ end.gate }
{
    for number in 0..items {
        if end.put(gate, number, rt).is_err() {
            break;
        }
    }
    end.stop(gate, rt);
    end
}

// Takes so many numbers, at most, stops, and says whether each came in its place.
fn receive<R: Threads + Wait + Sync>(
    gate: &SlotGate<u32>,
    mut end: RecvEnd<u32>,
    items: u32,
    rt: &R,
) -> (RecvEnd<u32>, bool)
    requires { (end.gate ≡ gate.now) × (has_stop end.calls ≡ false) }
    ensures { result.0.gate ≡ end.gate }
{
    let mut in_order = true;
    for number in 0..items {
        in_order = in_order && end.take(gate, rt) == Ok(number);
    }
    end.stop(gate, rt);
    (end, in_order)
}

fn side_by_side<R: Threads + Wait + Sync>(
    gate: &SlotGate<u32>,
    sender: SendEnd<u32>,
    receiver: RecvEnd<u32>,
    sent: u32,
    taken: u32,
    rt: &R,
) -> (SendEnd<u32>, (RecvEnd<u32>, bool))
    requires sender { (sender.gate ≡ gate.now) × (has_stop sender.calls ≡ false) }
    requires receiver { (receiver.gate ≡ gate.now) × (has_stop receiver.calls ≡ false) }
    ensures { (result.0.gate ≡ gate.now) × (result.1.0.gate ≡ gate.now) }
{
    join(
        rt,
        move || -> SendEnd<u32>
            requires { (sender.gate ≡ gate.now) × (has_stop sender.calls ≡ false) }
            ensures { result.gate ≡ sender.gate }
        { send(gate, sender, sent, rt) },
        move || -> (RecvEnd<u32>, bool)
            requires { (receiver.gate ≡ gate.now) × (has_stop receiver.calls ≡ false) }
            ensures { result.0.gate ≡ receiver.gate }
        { receive(gate, receiver, taken, rt) },
    )
}

#[test]
fn a_hundred_thousand_items_come_in_order(rt: HostRuntime) {
    let (gate, sender, receiver) = SlotGate::make(rt.alloc()).expect(&rt, "memory");
    let (sender, (receiver, in_order)) = side_by_side(&gate, sender, receiver, ITEMS, ITEMS, &rt);
    assert!(rt; in_order);
    let met = meet(gate, sender, receiver);
    assert!(rt; met.rest == None);
}

#[test]
fn a_receiver_that_waits_is_told_that_the_sender_stopped(rt: HostRuntime) {
    let (gate, sender, receiver) = SlotGate::make(rt.alloc()).expect(&rt, "memory");
    let (sender, (receiver, in_order)) = side_by_side(&gate, sender, receiver, 9, 10, &rt);
    assert!(rt; !in_order);
    let met = meet(gate, sender, receiver);
    assert!(rt; met.stopped_by == Some(Side::Sender));
}

#[test]
fn a_sender_that_waits_is_told_that_the_receiver_stopped(rt: HostRuntime) {
    let (gate, sender, receiver) = SlotGate::make(rt.alloc()).expect(&rt, "memory");
    let (sender, (receiver, in_order)) = side_by_side(&gate, sender, receiver, 12, 10, &rt);
    assert!(rt; in_order);
    let met = meet(gate, sender, receiver);
    assert!(rt; met.stopped_by == Some(Side::Receiver));
}
