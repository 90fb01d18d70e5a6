//! Readers and writers: some processes use a thing together, others use it alone.
#![tactic(auto)]

mod kind;
mod room;
mod run;

pub use kind::RoomKind;
pub use room::{Room, Use};
pub use run::{run_four, use_often};
