//! Solo on three threads: each process on a thread of its own, over the ends of the buffers between them.
#![tactic(auto)]

mod ends;
mod gates;
mod input_side;
mod job_run;
mod job_side;
mod lines;
mod output_side;
mod promises;
mod row;
mod run;
mod solo;

pub use ends::{Sending, Taking};
pub use input_side::InputSide;
pub use job_run::run_job;
pub use job_side::JobSide;
pub use output_side::OutputSide;
pub use row::{Ended, Row, RowEnded, run_three};
pub use run::{run_input, run_output};
pub use solo::run_solo;
