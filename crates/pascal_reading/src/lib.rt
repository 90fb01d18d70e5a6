//! What the cards of a program are read as, as one function.
#![tactic(auto)]

mod reading;

pub use reading::reading_is_exact;
