//! The law of a schedule: over told devices, without a failure and without want of memory, it has one run.
#![tactic(auto)]

mod laws;
mod schedule;

pub use laws::{counts_of_a_schedule, counts_of_a_whole_run, one_event, one_run};
pub use schedule::run_schedule;
