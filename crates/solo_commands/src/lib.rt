//! The commands of Solo: what a line asks for that was typed at the console.
#![tactic(auto)]

mod arguments;
mod command;
mod file_names;
mod reading;
mod words;

pub use command::{BadCommand, Command};
pub use file_names::{is_cards, is_printer};
pub use reading::read_command;
