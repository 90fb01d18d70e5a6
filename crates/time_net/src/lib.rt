//! The real-time scheduler as a network that is stepped: an operator and eight tasks at their time table,
//! each step as the law of these nine processes has it.
#![tactic(auto)]

mod answering;
mod calling;
mod ending;
mod net;
mod operator;
mod running;
mod task_proc;

pub use answering::{Answer, answer_line};
pub use calling::{Call, call_table};
pub use ending::TimeRan;
pub use net::TimeNet;
pub use operator::{Action, Doing, Operator};
pub use running::run_times;
pub use task_proc::{Phase, TaskProc, step_at};
