//! The code of programs of Sequential Pascal for the stack machine: definitions, and a law of its length.
#![tactic(auto)]

mod laws;

pub use laws::size_is_the_length;
