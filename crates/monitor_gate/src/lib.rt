//! Running monitors: one process at a time is inside, and a process that is continued resumes before any other enters.
#![tactic(auto)]

mod deal;
mod entry;
mod gate;
mod inside;
mod kept;
mod kind;
mod pass;
mod patience;
mod rule;
mod turn;
mod view;

pub use gate::{Gate, make};
pub use inside::Inside;
pub use kind::MonitorKind;
pub use pass::{GatePass, Pass};
pub use view::{Line, Stage, View};
