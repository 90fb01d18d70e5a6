//! The real-time scheduler: a table of tasks that start by typed plans, and the lines that its console shows.
#![tactic(auto)]

mod laws;
mod plan;
mod rows;
mod table;
mod task;
mod tasks;
mod texts;
mod typed_line;

pub use laws::timing_law;
pub use plan::{Named, Plan, Planned};
pub use rows::worked_rows;
pub use table::{OPERATOR, Seat, TimeTable, Waited, Woken};
pub use task::Task;
pub use tasks::{MOST_TASKS, change_named, is_task, name, pass, second_passes, start, stop};
pub use texts::{name_line, plan_line, runs_line, start_line, stop_line, time_line};
pub use typed_line::{Typed, line_says};
