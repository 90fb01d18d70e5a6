//! The stack machine: it runs verified code, one row of the table for each instruction.
#![tactic(auto)]

mod arithmetic;
mod control;
mod frame;
mod laws;
mod machine;
mod memory;
mod operands;
mod references;
mod replies;
mod requests;
mod room;
mod running;
mod slot;
mod state;
mod step;
mod waiting;
mod words;
mod world;

pub use frame::Frame;
pub use laws::{code_runs_in_any_world, runs_are_determined, words_are_kept};
pub use machine::Machine;
pub use operands::Operands;
pub use room::Room;
pub use running::Pause;
pub use slot::Slot;
pub use state::{Ask, Finish, Step, Store};
pub use waiting::Waiting;
pub use world::World;
