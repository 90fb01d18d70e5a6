// Five threads in a chain, with a buffer between each and the next.
ghost use Rattle.std.specs.Prelude.{◌≡◌, false};
ghost use Rattle.slot_buffer.specs.Calls.{has_stop};

use crate::gate::ends::{receive, relay, send};
use slot_buffer::{RecvEnd, SendEnd, SlotGate, meet};
use solo_base::NoMemory;
use std::alloc::Global;
use std::sync::Wait;
use std::thread::{Threads, join};

/// Hands so many numbers through five threads, and says whether each came in its place.
pub fn hand_on<R: Threads + Wait + Sync>(
    rt: &R,
    alloc: Global,
    items: u32,
) -> Result<bool, NoMemory> {
    let (gate, sender, receiver) = SlotGate::make(alloc)?;
    let (sender, (receiver, in_order)) = all_five(&gate, sender, receiver, alloc, items, rt);
    let _ = meet(gate, sender, receiver);
    in_order
}

// The first thread, and the four behind it.
fn all_five<R: Threads + Wait + Sync>(
    gate: &SlotGate<u32>,
    sender: SendEnd<u32>,
    receiver: RecvEnd<u32>,
    alloc: Global,
    items: u32,
    rt: &R,
) -> (SendEnd<u32>, (RecvEnd<u32>, Result<bool, NoMemory>))
    requires sender { (sender.gate ≡ gate.now) × (has_stop sender.calls ≡ false) }
    requires receiver { (receiver.gate ≡ gate.now) × (has_stop receiver.calls ≡ false) }
    ensures { (result.0.gate ≡ gate.now) × (result.1.0.gate ≡ gate.now) }
{
    join(
        rt,
        move || -> SendEnd<u32>
            requires { (sender.gate ≡ gate.now) × (has_stop sender.calls ≡ false) }
            ensures { result.gate ≡ sender.gate }
        { send(gate, sender, items, rt) },
        move || -> (RecvEnd<u32>, Result<bool, NoMemory>)
            requires { (receiver.gate ≡ gate.now) × (has_stop receiver.calls ≡ false) }
            ensures { result.0.gate ≡ receiver.gate }
        { last_four(gate, receiver, alloc, items, rt) },
    )
}

// The second thread, and the three behind it. Without memory for a buffer between them the source is stopped.
fn last_four<R: Threads + Wait + Sync>(
    from: &SlotGate<u32>,
    source: RecvEnd<u32>,
    alloc: Global,
    items: u32,
    rt: &R,
) -> (RecvEnd<u32>, Result<bool, NoMemory>)
    requires { (source.gate ≡ from.now) × (has_stop source.calls ≡ false) }
    ensures { result.0.gate ≡ source.gate }
{
    match SlotGate::make(alloc) {
        Ok((into, sink, next)) => {
            let ((source, sink), (next, in_order)) = second_beside(
                from, source, &into, sink, next, alloc, items, rt,
            );
            let _ = meet(into, sink, next);
            (source, in_order)
        }
        Err(refused) => (stopped(from, source, rt), Err(refused)),
    }
}

fn second_beside<R: Threads + Wait + Sync>(
    from: &SlotGate<u32>,
    source: RecvEnd<u32>,
    into: &SlotGate<u32>,
    sink: SendEnd<u32>,
    next: RecvEnd<u32>,
    alloc: Global,
    items: u32,
    rt: &R,
) -> (
    (RecvEnd<u32>, SendEnd<u32>),
    (RecvEnd<u32>, Result<bool, NoMemory>),
)
    requires source { (source.gate ≡ from.now) × (has_stop source.calls ≡ false) }
    requires sink { (sink.gate ≡ into.now) × (has_stop sink.calls ≡ false) }
    requires next { (next.gate ≡ into.now) × (has_stop next.calls ≡ false) }
    ensures relay { (result.0.0.gate ≡ source.gate) × (result.0.1.gate ≡ sink.gate) }
    ensures next { result.1.0.gate ≡ next.gate }
{
    join(
        rt,
        move || -> (RecvEnd<u32>, SendEnd<u32>)
            requires { ((source.gate ≡ from.now) × (has_stop source.calls ≡ false))
                × ((sink.gate ≡ into.now) × (has_stop sink.calls ≡ false)) }
            ensures { (result.0.gate ≡ source.gate) × (result.1.gate ≡ sink.gate) }
        { relay(from, source, into, sink, items, rt) },
        move || -> (RecvEnd<u32>, Result<bool, NoMemory>)
            requires { (next.gate ≡ into.now) × (has_stop next.calls ≡ false) }
            ensures { result.0.gate ≡ next.gate }
        { last_three(into, next, alloc, items, rt) },
    )
}

// The third thread, and the two behind it.
fn last_three<R: Threads + Wait + Sync>(
    from: &SlotGate<u32>,
    source: RecvEnd<u32>,
    alloc: Global,
    items: u32,
    rt: &R,
) -> (RecvEnd<u32>, Result<bool, NoMemory>)
    requires { (source.gate ≡ from.now) × (has_stop source.calls ≡ false) }
    ensures { result.0.gate ≡ source.gate }
{
    match SlotGate::make(alloc) {
        Ok((into, sink, next)) => {
            let ((source, sink), (next, in_order)) = third_beside(
                from, source, &into, sink, next, alloc, items, rt,
            );
            let _ = meet(into, sink, next);
            (source, in_order)
        }
        Err(refused) => (stopped(from, source, rt), Err(refused)),
    }
}

fn third_beside<R: Threads + Wait + Sync>(
    from: &SlotGate<u32>,
    source: RecvEnd<u32>,
    into: &SlotGate<u32>,
    sink: SendEnd<u32>,
    next: RecvEnd<u32>,
    alloc: Global,
    items: u32,
    rt: &R,
) -> (
    (RecvEnd<u32>, SendEnd<u32>),
    (RecvEnd<u32>, Result<bool, NoMemory>),
)
    requires source { (source.gate ≡ from.now) × (has_stop source.calls ≡ false) }
    requires sink { (sink.gate ≡ into.now) × (has_stop sink.calls ≡ false) }
    requires next { (next.gate ≡ into.now) × (has_stop next.calls ≡ false) }
    ensures relay { (result.0.0.gate ≡ source.gate) × (result.0.1.gate ≡ sink.gate) }
    ensures next { result.1.0.gate ≡ next.gate }
{
    join(
        rt,
        move || -> (RecvEnd<u32>, SendEnd<u32>)
            requires { ((source.gate ≡ from.now) × (has_stop source.calls ≡ false))
                × ((sink.gate ≡ into.now) × (has_stop sink.calls ≡ false)) }
            ensures { (result.0.gate ≡ source.gate) × (result.1.gate ≡ sink.gate) }
        { relay(from, source, into, sink, items, rt) },
        move || -> (RecvEnd<u32>, Result<bool, NoMemory>)
            requires { (next.gate ≡ into.now) × (has_stop next.calls ≡ false) }
            ensures { result.0.gate ≡ next.gate }
        { last_two(into, next, alloc, items, rt) },
    )
}

// The fourth thread, and the last.
fn last_two<R: Threads + Wait + Sync>(
    from: &SlotGate<u32>,
    source: RecvEnd<u32>,
    alloc: Global,
    items: u32,
    rt: &R,
) -> (RecvEnd<u32>, Result<bool, NoMemory>)
    requires { (source.gate ≡ from.now) × (has_stop source.calls ≡ false) }
    ensures { result.0.gate ≡ source.gate }
{
    match SlotGate::make(alloc) {
        Ok((into, sink, next)) => {
            let ((source, sink), (next, in_order)) = fourth_beside(
                from, source, &into, sink, next, items, rt,
            );
            let _ = meet(into, sink, next);
            (source, in_order)
        }
        Err(refused) => (stopped(from, source, rt), Err(refused)),
    }
}

fn fourth_beside<R: Threads + Wait + Sync>(
    from: &SlotGate<u32>,
    source: RecvEnd<u32>,
    into: &SlotGate<u32>,
    sink: SendEnd<u32>,
    next: RecvEnd<u32>,
    items: u32,
    rt: &R,
) -> (
    (RecvEnd<u32>, SendEnd<u32>),
    (RecvEnd<u32>, Result<bool, NoMemory>),
)
    requires source { (source.gate ≡ from.now) × (has_stop source.calls ≡ false) }
    requires sink { (sink.gate ≡ into.now) × (has_stop sink.calls ≡ false) }
    requires next { (next.gate ≡ into.now) × (has_stop next.calls ≡ false) }
    ensures relay { (result.0.0.gate ≡ source.gate) × (result.0.1.gate ≡ sink.gate) }
    ensures next { result.1.0.gate ≡ next.gate }
{
    join(
        rt,
        move || -> (RecvEnd<u32>, SendEnd<u32>)
            requires { ((source.gate ≡ from.now) × (has_stop source.calls ≡ false))
                × ((sink.gate ≡ into.now) × (has_stop sink.calls ≡ false)) }
            ensures { (result.0.gate ≡ source.gate) × (result.1.gate ≡ sink.gate) }
        { relay(from, source, into, sink, items, rt) },
        move || -> (RecvEnd<u32>, Result<bool, NoMemory>)
            requires { (next.gate ≡ into.now) × (has_stop next.calls ≡ false) }
            ensures { result.0.gate ≡ next.gate }
        { last(into, next, items, rt) },
    )
}

// The last thread.
fn last<R: Threads + Wait + Sync>(
    gate: &SlotGate<u32>,
    receiver: RecvEnd<u32>,
    items: u32,
    rt: &R,
) -> (RecvEnd<u32>, Result<bool, NoMemory>)
    requires { (receiver.gate ≡ gate.now) × (has_stop receiver.calls ≡ false) }
    ensures { result.0.gate ≡ receiver.gate }
{
    let (receiver, in_order) = receive(gate, receiver, items, rt);
    (receiver, Ok(in_order))
}

// An end that takes no more.
fn stopped<R: Threads + Wait + Sync>(
    gate: &SlotGate<u32>,
    mut end: RecvEnd<u32>,
    rt: &R,
) -> RecvEnd<u32>
    requires { end.gate ≡ gate.now }
    ensures { result.gate ≡ end.gate }
{
    end.stop(gate, rt);
    end
}
