//! A compiled program that runs in the batch, card by card and line by line.
#![tactic(auto)]

mod card_input;
mod laws;
mod printing;
mod program;
mod told;

pub use laws::{
    code_comes_to_its_run, code_comes_to_what_its_source_means, each_program_comes_to_one_thing,
    each_program_prints_few_lines, meanings_go_on_with_more_cards, more_cards_only_add_lines,
};
pub use program::BatchProgram;
pub use told::Told;
