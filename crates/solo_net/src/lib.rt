//! Solo as a network that is stepped: its three processes over their six buffers and the devices, each
//! step as the law of Solo has it.
#![tactic(auto)]

mod buffers;
mod finish;
mod net;
mod replies;
mod shared;
mod step;
mod turns;

pub use buffers::Buffers;
pub use net::SoloNet;
pub use replies::{arg_reply, page_reply, print_reply, put_reply};
pub use shared::Shared;
pub use step::{step_machine, step_work};
