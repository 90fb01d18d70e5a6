//! The resource of Solo: at most one process has it, and the others get it in order of arrival.
#![tactic(auto)]

mod call;
mod disk;
mod grant;
mod kind;
mod resource;
mod seat;

pub use call::DiskCall;
pub use disk::DiskResource;
pub use grant::Grant;
pub use kind::DiskKind;
pub use resource::Resource;
pub use seat::{DiskPass, DiskSeat};
