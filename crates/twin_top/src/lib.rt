//! A deck that is run by the six processes of the twin network, over devices that the caller hands in.
#![tactic(auto)]

mod devices;
mod running;
mod top;
mod words;

pub use top::{TwinFinished, twin_top};
