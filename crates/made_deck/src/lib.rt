//! The deck of a number, to measure a batch with.
#![tactic(auto)]

mod deck;

pub use deck::{LAST_NUMBER, make_deck};
