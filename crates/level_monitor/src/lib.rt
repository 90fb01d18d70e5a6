//! The smallest running monitor: a level between 0 and 3, which some processes raise and others lower.
#![tactic(auto)]

mod kind;
mod level;
mod run;

pub use kind::LevelKind;
pub use level::{Change, Level};
pub use run::{change_often, change_once, run_four, run_in_turn, run_two};
