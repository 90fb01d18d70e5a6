//! What the six processes of the twin network run on, and how their run ended.
#![tactic(auto)]

mod peripherals;
mod units;

pub use peripherals::TwinPeripherals;
pub use units::{TwinOutcomes, TwinRan, TwinUnits};
