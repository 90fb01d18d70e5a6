//! The core run on one thread: the calls of the five processes on the monitors and the devices, each as the
//! law of the core has it, whatever the jobs are.
#![tactic(auto)]

mod core_run;
mod desk_calls;
mod finish;
mod line_calls;
mod net;
mod shared;
mod spool_calls;
mod step;
mod turns;

pub use core_run::run_core;
pub use desk_calls::{release, request};
pub use line_calls::{put_feed, stop_line, take_feed};
pub use net::Net;
pub use shared::Shared;
pub use spool_calls::{await_item, await_room, put_page, stop_spool, take_page};
pub use step::step_machine;
