//! The units of a deck: what two job processes work on beside each other.
#![tactic(auto)]

mod laws;

pub use laws::units_have_the_jobs;
