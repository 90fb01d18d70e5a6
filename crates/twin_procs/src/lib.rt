//! The six processes of the twin network as machines: each says what it does next, and is told what came of
//! it.
#![tactic(auto)]

mod actions;
mod card_proc;
mod input_proc;
mod job_proc;
mod machine;
mod output_proc;
mod page_streams;
mod printer_proc;
mod proc;
mod sides;

pub use actions::TwinAction;
pub use card_proc::{CardProc, TwinCard};
pub use input_proc::{InputProc, TwinInput};
pub use job_proc::{JobProc, TwinJob};
pub use machine::TwinMachine;
pub use output_proc::{OutputProc, TwinOutput};
pub use printer_proc::{PrinterProc, TwinPrinter};
pub use proc::TwinProc;
pub use sides::{OnSide, SideA, SideB, TwinSide};
