//! Reads the text of a program: the words on its cards, and the tree that they spell.
#![tactic(auto)]

mod found;
mod parse_assignment;
mod parse_constant;
mod parse_declaration;
mod parse_expect;
mod parse_expression;
mod parse_fault;
mod parse_law;
mod parse_node;
mod parse_place;
mod parse_program;
mod parse_range;
mod parse_reader;
mod parse_statement;
mod parse_words;
mod parser;
mod scan_card;
mod scan_digits;
mod scan_fault;
mod scan_law;
mod scan_name;
mod scan_symbol;
mod scan_word;
mod scanner;

pub use parse_fault::ParseFault;
pub use parse_law::each_tree_is_read;
pub use parse_place::{errors_have_one_place, reading_tells};
pub use parser::parse;
pub use scan_fault::ScanFault;
pub use scan_law::words_are_words;
pub use scan_symbol::longest_symbol;
pub use scanner::scan;
