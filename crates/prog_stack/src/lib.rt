//! The programs of one command on a stack: what their calls of files, arguments and other programs answer.
#![tactic(auto)]

mod arguments;
mod file_calls;
mod frame;
mod laws;
mod own;
mod running;
mod served;
mod stack;

pub use laws::{less_is_left_behind_each_call, stacks_do_their_tasks};
pub use served::{Ended, Served};
pub use stack::{PROGRAM_LIMIT, ProgStack};
