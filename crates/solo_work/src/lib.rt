//! What a command of Solo prints, as pages: the page in hand, and lines up to the next page that is full.
#![tactic(auto)]

mod paper;
mod printing;

pub use paper::Paper;
pub use printing::{Printing, answered, prints};
