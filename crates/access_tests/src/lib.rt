//! Tests of the checker of access rights. They show what no clause says: that a call succeeds, and the
//! answers to descriptions that were judged by hand.
#![tactic(auto)]

#[cfg(test)]
mod descriptions;
