//! What one thread makes of all that is typed at Solo's console: what each command does, and the session. The
//! crate has definitions and laws alone.
#![tactic(auto)]

mod laws;

pub use laws::{
    commands_make_lines, needs_are_met_in_turn, puts_are_refused_so, refusals_change_nothing,
    sessions_go_on, worked_sessions,
};
