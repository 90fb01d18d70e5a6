//! The words in which the parts of Solo and of the Job Stream System speak to each other: lines,
//! cards, identifiers, pages, calls of a program and what they take and give, and how a process ends.
#![tactic(auto)]

mod arg_list;
mod blanks;
mod ident;
mod interface;
mod item;
mod line;
mod line_list;
mod no_memory;
mod outcome;
mod page;
mod search;
mod system_call;
mod words;

pub use arg_list::{ARG_LIMIT, ArgList};
pub use blanks::trim_end;
pub use ident::{IDENT_LENGTH, Ident, capital, is_letter, is_letter_or_digit};
pub use interface::{CallRow, Procedure, call_row};
pub use item::{CARD_LENGTH, Feed, Item};
pub use line::{LINE_LENGTH, Line, NUMBER_LENGTH, all_printable, is_printable};
pub use line_list::LineList;
pub use no_memory::NoMemory;
pub use outcome::{BufferNo, Cause, Outcome, ProcNo, ProgResult, Side, line_word};
pub use page::{PAGE_LENGTH, Page, number_at};
pub use search::first_place;
pub use system_call::{Arg, SysCall, SysReply};
pub use words::{spells, split_word};
