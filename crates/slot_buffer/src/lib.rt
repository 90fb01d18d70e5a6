//! The one-slot buffers of Solo: one process puts items in, one takes them out, in order.
#![tactic(auto)]

mod answers;
mod call;
mod gate;
mod kind;
mod recv_end;
mod send_end;
mod slot_buffer;

pub use answers::{Ended, Put, Stopped, Take};
pub use call::SlotCall;
pub use gate::{Met, SlotGate, meet};
pub use kind::SlotKind;
pub use recv_end::RecvEnd;
pub use send_end::SendEnd;
pub use slot_buffer::SlotBuffer;
use solo_base::{Arg, Feed, Page};

/// A line buffer: cards or lines, and then the end.
pub type LineBuffer = SlotBuffer<Feed>;

/// A page buffer. A page carries its own mark of the last.
pub type PageBuffer = SlotBuffer<Page>;

/// An argument buffer.
pub type ArgBuffer = SlotBuffer<Arg>;
