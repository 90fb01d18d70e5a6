//! The law of the twin network: six processes of which two work on jobs beside each other, whatever the order
//! of their events and whichever device fails.
#![tactic(auto)]

mod laws;

pub use laws::{
    each_event_leaves_fewer, every_interleaving, law_of_the_twins, no_run_is_longer,
    no_state_is_stuck,
};
