//! What programs of Sequential Pascal mean.
#![tactic(auto)]

mod input;
mod laws;
mod output;
mod world;

pub use input::{Input, text_of};
pub use laws::{each_program_ends_in_the_batch, replies_are_taken_in_order};
pub use output::Output;
pub use world::BatchWorld;
