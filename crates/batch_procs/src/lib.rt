//! The five processes of the Job Stream System: each says what it does next, and is told what came of it.
#![tactic(auto)]

mod actions;
mod card_proc;
mod feeds;
mod has_jobs;
mod histories;
mod input_proc;
mod job_proc;
mod job_work;
mod lent;
mod loader;
mod machine;
mod output_proc;
mod pages;
mod printer_proc;
mod round;
mod work;

pub use actions::{Action, Reply};
pub use card_proc::{CardProc, CardWork};
pub use feeds::copy_feed;
pub use has_jobs::HasJobs;
pub use histories::histories_keep;
pub use input_proc::{InputProc, InputWork};
pub use job_proc::{JobProc, JobProcWork};
pub use job_work::JobWork;
pub use lent::Lent;
pub use loader::Loader;
pub use machine::Machine;
pub use output_proc::{OutputProc, OutputWork};
pub use printer_proc::{PrinterProc, PrinterWork};
pub use round::Step;
pub use work::Work;
