//! The checker of access rights: a written description of processes and monitors, of who may call whom,
//! and of an order of the monitors, which shows that no cycle of them can come about.
#![tactic(auto)]

mod card;
mod description;
mod fault;
mod judge;
mod name_list;
mod names;
mod run_rows;

pub use fault::{Accepted, AccessFault};
pub use judge::check;
pub use run_rows::{a_run_in_order, runs_into_cycles};
