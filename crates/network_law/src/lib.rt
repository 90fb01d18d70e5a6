//! The law of any network: processes by number, the buffers between them and one disk, whatever the order of
//! their events. The crate has definitions and lemmas alone.
#![tactic(auto)]
