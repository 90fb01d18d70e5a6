//! What the jobs of a deck print: the report of each, and the lines of a deck that still goes on.
#![tactic(auto)]

mod item_lines;
mod job_stream;
mod lines;
mod lines_ahead;
mod page_loads;
mod part;
mod report;
mod taking;

pub use job_stream::JobStream;
pub use lines::{
    code_in_files_is_good, items_give_few_lines, items_name_few_files, lines_are_printable,
    lines_go_on,
};
pub use lines_ahead::End;
pub use page_loads::PageLoads;
pub use part::Part;
pub use report::run_job;
