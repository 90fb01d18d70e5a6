//! What programs of Solo do, as definitions: the table of their calls, and a program as a task that needs
//! cards, typed lines, the printer and the typewriter.
#![tactic(auto)]

mod laws;

pub use laws::{rows_of_the_table, tasks_follow_each_other};
