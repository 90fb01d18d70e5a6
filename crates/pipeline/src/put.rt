// What a stage gives is put into the buffer behind it.
ghost use Rattle.std.specs.Prelude.{◌≡◌, true, false, [], List};
ghost use Rattle.slot_buffer.specs.Calls.{has_stop, sent_of, was_refused};
ghost use Rattle.pipeline.specs.Rows.{Gave};

use crate::{Outs, Parcel};
use slot_buffer::{SendEnd, SlotGate};
use std::sync::Wait;
use std::thread::Threads;

/// Puts all that is to be given, one after the other, until the receiver takes no more.
pub(crate) fn put_outs<T: Send + Drop, R: Threads + Wait + Sync>(
    rt: &R,
    outs: &mut Outs<T>,
    back: &SlotGate<Parcel<T>>,
    putter: &mut SendEnd<Parcel<T>>,
) -> bool
    requires gate { putter.old.gate ≡ back.now }
    requires not_stopped { has_stop putter.old.calls ≡ false }
    ensures gate { putter.new.gate ≡ putter.old.gate }
    ensures not_stopped { has_stop putter.new.calls ≡ false }
    ensures empty { result ≡ true → outs.new ≡ [] }
    ensures told { result ≡ false → was_refused putter.new.calls ≡ true }
    ensures all { result ≡ true → Gave outs.old [] (sent_of putter.old.calls) (sent_of putter.new.calls) }
    ensures first { result ≡ false → (rest : List T)
        × Gave outs.old rest (sent_of putter.old.calls) (sent_of putter.new.calls) }
{
    while let Some(item) = outs.next() {
        if putter.put(back, Parcel::Item(item), rt).is_err() {
            return false;
        }
    }
    true
}
