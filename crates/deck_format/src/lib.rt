//! The card deck of the Job Stream System: which cards control it, and the jobs that it has.
#![tactic(auto)]

mod control;
mod group;
mod job;
mod job_reader;
mod numeral;
mod place;

pub use control::{Control, DEFAULT_LIMIT, Opener, control_of};
pub use group::{Group, Kept};
pub use job::{CardFault, CardFaultKind, Job};
pub use job_reader::JobReader;
pub use numeral::number_within;
pub use place::{Place, control_in, counts, ends_in, opener_in};
