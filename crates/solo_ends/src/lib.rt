//! What Solo runs on, and how its run ended, on one thread or on three.
#![tactic(auto)]

mod units;

pub use units::{SoloRan, SoloUnits};
