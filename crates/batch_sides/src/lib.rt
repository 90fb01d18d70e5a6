//! The five processes of the batch, each at its side of the buffers between them, on a thread of its own.
#![tactic(auto)]

mod buffers;
mod card_side;
mod desk;
mod gates;
mod input_side;
mod job_side;
mod making;
mod output_side;
mod printer_side;
mod promises;
mod row;
mod run;

pub use buffers::Seats;
pub use card_side::CardSide;
pub use gates::{AllMet, Ends, Gates};
pub use input_side::InputSide;
pub use job_side::JobSide;
pub use making::make_all;
pub use output_side::OutputSide;
pub use printer_side::PrinterSide;
pub use row::{Row, RowEnded, run_five};
pub use run::{Ended, Running};
