//! The law of the core: the five processes over two line buffers, two spools and one disk, whatever the order
//! of their events and whichever device fails.
#![tactic(auto)]

mod interleavings;

pub use interleavings::{
    each_event_leaves_less, every_interleaving, law_of_the_core, no_run_is_longer,
    no_state_is_stuck,
};
