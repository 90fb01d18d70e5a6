//! An exchange of two neighbours over three buffers: one orders, pages pass up to a last one, and the other
//! reports. The crate has definitions and lemmas alone.
#![tactic(auto)]
