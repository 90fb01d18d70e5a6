//! What a run of processes is reported as: the cause that decides, its number, and the line of its counts.
#![tactic(auto)]

mod counts;
mod decide;
mod status;

pub use counts::{append_count, counts_line, number_line};
pub use decide::decides;
pub use status::{number_of, status_of};
