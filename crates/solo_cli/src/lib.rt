//! The commands of the program `solo`, over devices that the caller hands in.
#![tactic(auto)]

mod access_lines;
mod batch;
mod check;
mod command;
mod core_run;
mod deck_numbers;
mod ending;
mod files;
mod make;
mod printing;
mod refusal;
mod session;
mod status;
mod times;
mod words;

pub use command::{Finished, top};
pub use refusal::Refusal;
pub use words::{Command, Numbered, command_of};
