//! A command of Solo that runs a program: from need to need, up to the lines that answer it.
#![tactic(auto)]

mod characters;
mod going;
mod hands;
mod printing;
mod program_run;
mod progress;
mod taking;

pub use program_run::{Begun, ProgramRun};
pub use progress::Progress;
