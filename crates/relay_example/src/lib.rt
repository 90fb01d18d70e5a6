//! An example for those who build pipelines: three processes on threads of their own pass numbers on, with a
//! buffer of one slot between each two. What comes out is what went in, in order.
#![tactic(auto)]

ghost use Rattle.std.specs.Prelude.{◌≡◌, true, false, [], IfOk};
ghost use Rattle.slot_buffer.specs.Calls.{TookAll, has_stop, sent_of, taken_of, was_refused};

use slot_buffer::{RecvEnd, SendEnd, SlotGate, meet};
use solo_base::NoMemory;
use std::alloc::Global;
use std::sync::Wait;
use std::thread::{Threads, join};

/// Passes the numbers on from the first process to the second, and from the second to the third.
pub fn run_relay<R: Threads + Wait + Sync>(
    rt: &R,
    alloc: Global,
    numbers: &[u64],
) -> Result<Vec<u64>, NoMemory>
    ensures { IfOk result (λ out. out.items ≡ numbers.now) }
{
    let (front, mut sender, taker) = SlotGate::make(alloc)?;
    let Ok((back, putter, mut receiver)) = SlotGate::make(alloc) else {
        let _ = meet(front, sender, taker);
        return Err(NoMemory);
    };
    let (sender, (ends, (receiver, out))) = join(
        rt,
        ||
            requires { sender ≡ record { gate = front; calls = [] } }
        {
            sender.put_all(&front, numbers, rt);
            sender
        },
        ||
            requires front { taker ≡ record { gate = front; calls = [] } }
            requires back { (putter ≡ record { gate = back; calls = [] }) × (receiver ≡ putter) }
        {
            join(
                rt,
                ||
                    requires front { taker ≡ record { gate = front; calls = [] } }
                    requires back { putter ≡ record { gate = back; calls = [] } }
                { pass_on(rt, &front, taker, &back, putter) },
                ||
                    requires { receiver ≡ record { gate = back; calls = [] } }
                {
                    let out = receiver.take_all(&back, alloc, rt);
                    (receiver, out)
                },
            )
        },
    );
    let _ = meet(front, sender, ends.0);
    let _ = meet(back, ends.1, receiver);
    out
}

// The second process puts what it takes, and stops behind the last. Where the third takes no more, it takes
// no more.
fn pass_on<R: Threads + Wait + Sync>(
    rt: &R,
    front: &SlotGate<u64>,
    mut taker: RecvEnd<u64>,
    back: &SlotGate<u64>,
    mut putter: SendEnd<u64>,
) -> (RecvEnd<u64>, SendEnd<u64>)
    requires front { taker ≡ record { gate = front.now; calls = [] } }
    requires back { putter ≡ record { gate = back.now; calls = [] } }
    ensures gates { (result.0.gate ≡ front.now) × (result.1.gate ≡ back.now) }
    ensures passed { was_refused result.1.calls ≡ false →
        TookAll result.0.calls × (sent_of result.1.calls ≡ taken_of result.0.calls) }
{
    for _ in rt.forever() {
        let Ok(number) = taker.take(front, rt) else {
            putter.stop(back, rt);
            return (taker, putter);
        };
        if putter.put(back, number, rt).is_err() {
            taker.stop(front, rt);
            return (taker, putter);
        }
    }
    unreachable!()
}
