// What each thread does with its ends of the buffers.
ghost use Rattle.std.specs.Prelude.{◌≡◌, false};
ghost use Rattle.slot_buffer.specs.Calls.{has_stop};

use slot_buffer::{RecvEnd, SendEnd, SlotGate};
use std::sync::Wait;
use std::thread::Threads;

/// Puts so many numbers, from 0 on, and stops.
pub fn send<R: Threads + Wait + Sync>(
    gate: &SlotGate<u32>,
    mut end: SendEnd<u32>,
    items: u32,
    rt: &R,
) -> SendEnd<u32>
    requires { (end.gate ≡ gate.now) × (has_stop end.calls ≡ false) }
    ensures { result.gate ≡ end.gate }
{
    for number in 0..items {
        if end.put(gate, number, rt).is_err() {
            break;
        }
    }
    end.stop(gate, rt);
    end
}

/// Takes so many numbers, at most, stops, and says whether each came in its place.
pub fn receive<R: Threads + Wait + Sync>(
    gate: &SlotGate<u32>,
    mut end: RecvEnd<u32>,
    items: u32,
    rt: &R,
) -> (RecvEnd<u32>, bool)
    requires { (end.gate ≡ gate.now) × (has_stop end.calls ≡ false) }
    ensures { result.0.gate ≡ end.gate }
{
    let mut in_order = true;
    for number in 0..items {
        in_order = in_order && end.take(gate, rt) == Ok(number);
    }
    end.stop(gate, rt);
    (end, in_order)
}

/// Takes so many numbers, at most, puts each into the next buffer, and stops at both.
pub fn relay<R: Threads + Wait + Sync>(
    from: &SlotGate<u32>,
    mut source: RecvEnd<u32>,
    into: &SlotGate<u32>,
    mut sink: SendEnd<u32>,
    items: u32,
    rt: &R,
) -> (RecvEnd<u32>, SendEnd<u32>)
    requires source { (source.gate ≡ from.now) × (has_stop source.calls ≡ false) }
    requires sink { (sink.gate ≡ into.now) × (has_stop sink.calls ≡ false) }
    ensures { (result.0.gate ≡ source.gate) × (result.1.gate ≡ sink.gate) }
{
    for _ in 0..items {
        let Ok(number) = source.take(from, rt) else {
            break;
        };
        if sink.put(into, number, rt).is_err() {
            break;
        }
    }
    source.stop(from, rt);
    sink.stop(into, rt);
    (source, sink)
}
