//! The code of the stack machine: its table of instructions, code files, and the test that makes
//! code safe to run.
#![tactic(auto)]

mod broken;
mod code;
mod decoding;
mod encoding;
mod fault;
mod file;
mod instr;
mod kinds;
mod listed;
mod places;
mod rules;
mod table;
mod targets;
mod verified;

pub use code::Code;
pub use decoding::decode;
pub use encoding::encode;
pub use fault::CodeFault;
pub use instr::{Instr, RoutineInfo};
pub use listed::listing;
pub use table::{Op, Row};
pub use verified::{Verified, verify};
