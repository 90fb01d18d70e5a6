//! The batch on five threads: from the making of what the five processes need to the meeting of their ends.
#![tactic(auto)]

mod batch;

pub use batch::run_batch;
