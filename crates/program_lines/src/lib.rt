//! The lines of a job's program, one by one, as the cards of its input come.
#![tactic(auto)]

mod laws;
mod program_lines;
mod texts;
mod under_way;

pub use laws::{each_program_has_few_lines, lines_go_on_with_more_cards};
pub use program_lines::ProgramLines;
pub use texts::{bad_code_line, compile_line, no_file_line, not_code_line, note, result_line};
pub use under_way::UnderWay;
