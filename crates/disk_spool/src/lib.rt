//! The spools of the Job Stream System: pages wait on a disk between the process that sends them and
//! the one that receives them.
#![tactic(auto)]

mod answers;
mod call;
mod gate;
mod kind;
mod receive_end;
mod ring;
mod send_end;
mod spool;

pub use answers::{Await, Ended, Fetched};
pub use call::SpoolCall;
pub use gate::{SpoolGate, SpoolMet, meet};
pub use kind::SpoolKind;
pub use receive_end::SpoolRecv;
pub use send_end::SpoolSend;
pub use spool::Spool;
