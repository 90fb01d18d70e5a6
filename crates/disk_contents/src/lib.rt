//! What the pages of a file hold: texts and code, and what a job finds of its program.
#![tactic(auto)]

mod loading;

pub use loading::Loaded;
