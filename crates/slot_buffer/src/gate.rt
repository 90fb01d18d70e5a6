// A running buffer.
ghost use Rattle.std.specs.Prelude.{◌≡◌, [], IfOk};
ghost use Rattle.queue_var.specs.BetweenTwo.{by_side};
ghost use Rattle.slot_buffer.specs.Ends.{Meets};

use crate::recv_end::RecvEnd;
use crate::send_end::SendEnd;
use crate::{SlotBuffer, SlotCall, SlotKind};
use monitor_gate::{Gate, GatePass};
use solo_base::{NoMemory, Side};
use std::alloc::Global;
use std::marker::Model;
use std::snapshot::Snapshot;

pub(crate) type SlotPass<T> = GatePass<SlotBuffer<T>, SlotCall<Snapshot<T>>>;

/// A one-slot buffer between two processes that run side by side. Contracts see which gate it is.
pub struct SlotGate<T: Send> {
    pub(crate) gate: Gate<SlotKind<T>>,
}

impl<T: Send> Model for SlotGate<T> {
    ghost use Rattle.std.specs.Prelude.{◌≡◌};
    ghost use Rattle.monitor_gate.specs.Ends.{TableId};
    ghost use Rattle.slot_buffer.specs.Ends.{empty_slot};

    ghost Value = { TableId };

    ghost view = { λ g. g.gate.name };

    ghost invariant = { λ g. (g.gate.opening ≡ empty_slot) × (g.gate.passes ≡ 2) };
}

/// What is left when both ends of a buffer have met.
#[derive(Drop)]
pub struct Met<T> {
    /// The item that was put and not taken.
    pub rest: Option<T>,
    /// The side that stopped first.
    pub stopped_by: Option<Side>,
}

impl<T: Send> SlotGate<T> {
    /// An empty buffer, and its two ends.
    pub fn make(alloc: Global) -> Result<(SlotGate<T>, SendEnd<T>, RecvEnd<T>), NoMemory>
        ensures sender { IfOk result (λ r. r.1 ≡ record { gate = r.0; calls = [] }) }
        ensures receiver { IfOk result (λ r. r.2 ≡ record { gate = r.0; calls = [] }) }
    {
        let (gate, mut passes) = match monitor_gate::make::<SlotKind<T>>(
            alloc,
            SlotBuffer::new(),
            2,
        ) {
            Ok(made) => made,
            Err((state, refused)) => {
                match state.into_rest() {
                    None => {}
                    Some(_) => unreachable!(),
                }
                return Err(refused);
            }
        };
        let receiver = passes.pop().unwrap();
        let sender = passes.pop().unwrap();
        Ok((
            SlotGate { gate },
            SendEnd { pass: sender },
            RecvEnd { pass: receiver },
        ))
    }
}

/// Both ends meet, and the buffer is at its end. It never waits.
pub fn meet<T: Send>(gate: SlotGate<T>, sender: SendEnd<T>, receiver: RecvEnd<T>) -> Met<T>
    requires sender { sender.gate ≡ gate }
    requires receiver { receiver.gate ≡ gate }
    ensures { Meets (by_side sender.calls receiver.calls) result.rest result.stopped_by }
{
    let SlotGate { gate } = gate;
    let mut into = sender.into_pass();
    gate.join(&mut into, receiver.into_pass());
    let state = gate.close(into);
    let stopped_by = state.stopped_by();
    Met {
        rest: state.into_rest(),
        stopped_by,
    }
}
