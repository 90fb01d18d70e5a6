//! Processes side by side, each on a thread of its own: all begin, or none does.
#![tactic(auto)]

mod pair;
mod start;
mod three;

pub use pair::beside;
pub use start::{Start, Told};
pub use three::three_beside;
