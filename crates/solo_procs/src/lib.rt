//! The three processes of Solo as machines: each says what it does next, and is told what came of it.
#![tactic(auto)]

mod actions;
mod commands;
mod input_proc;
mod job_proc;
mod job_steps;
mod job_work;
mod machine;
mod orders;
mod output_proc;
mod page_streams;
mod proc;

pub use actions::{SoloAction, SoloReply};
pub use commands::{Commands, Given, Need, WorkFault};
pub use input_proc::{InputProc, SoloInput};
pub use job_proc::{JobProc, SoloJob};
pub use machine::Machine;
pub use output_proc::{OutputProc, SoloOutput};
pub use proc::Proc;
