//! Solo's three processes tell the session of one thread: console, paper and files, in every reached state.
//! The crate has definitions and laws alone.
#![tactic(auto)]

mod laws;

pub use laws::{
    every_interleaving_tells_the_session, the_session_is_a_plan, work_follows_the_session,
};
