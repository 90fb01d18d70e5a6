//! A process by its places, over any actions: what it does at each place, and where it stands behind an
//! answer. The crate has definitions and lemmas alone.
#![tactic(auto)]
