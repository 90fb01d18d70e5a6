//! The commands of Solo's session: what a typed line asks for is done piece by piece, each up to what its
//! command needs next.
#![tactic(auto)]

mod arms;
mod cards;
mod commands;
mod compile;
mod copies;
mod ends;
mod session;

pub use commands::SessionCommands;
pub use compile::compile_file;
pub use session::{Session, UnderWay};
