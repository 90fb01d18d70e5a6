//! The law of Solo: three processes over six buffers of one slot, whatever the order of their events and
//! whichever device fails.
#![tactic(auto)]

mod interleavings;

pub use interleavings::{every_interleaving, is_lawful, no_state_is_stuck, the_law_is_sound};
