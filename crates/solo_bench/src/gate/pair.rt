// Two threads with a buffer between them.
ghost use Rattle.std.specs.Prelude.{◌≡◌, false};
ghost use Rattle.slot_buffer.specs.Calls.{has_stop};

use crate::gate::ends::{receive, send};
use slot_buffer::{RecvEnd, SendEnd, SlotGate, meet};
use solo_base::NoMemory;
use std::alloc::Global;
use std::sync::Wait;
use std::thread::{Threads, join};

/// Hands so many numbers from one thread to another, and says whether each came in its place.
pub fn hand_over<R: Threads + Wait + Sync>(
    rt: &R,
    alloc: Global,
    items: u32,
) -> Result<bool, NoMemory> {
    let (gate, sender, receiver) = SlotGate::make(alloc)?;
    let (sender, (receiver, in_order)) = side_by_side(&gate, sender, receiver, items, rt);
    let _ = meet(gate, sender, receiver);
    Ok(in_order)
}

fn side_by_side<R: Threads + Wait + Sync>(
    gate: &SlotGate<u32>,
    sender: SendEnd<u32>,
    receiver: RecvEnd<u32>,
    items: u32,
    rt: &R,
) -> (SendEnd<u32>, (RecvEnd<u32>, bool))
    requires sender { (sender.gate ≡ gate.now) × (has_stop sender.calls ≡ false) }
    requires receiver { (receiver.gate ≡ gate.now) × (has_stop receiver.calls ≡ false) }
    ensures { (result.0.gate ≡ gate.now) × (result.1.0.gate ≡ gate.now) }
{
    join(
        rt,
        move || -> SendEnd<u32>
            requires { (sender.gate ≡ gate.now) × (has_stop sender.calls ≡ false) }
            ensures { result.gate ≡ sender.gate }
        { send(gate, sender, items, rt) },
        move || -> (RecvEnd<u32>, bool)
            requires { (receiver.gate ≡ gate.now) × (has_stop receiver.calls ≡ false) }
            ensures { result.0.gate ≡ receiver.gate }
        { receive(gate, receiver, items, rt) },
    )
}
