//! Tests of decks and of what their jobs print. They show what no clause says: that calls succeed, decks and
//! lines worked out by hand, and the order in which the files of jobs are wanted.
#![tactic(auto)]

#[cfg(test)]
mod decks;
#[cfg(test)]
mod jobs;
#[cfg(test)]
mod made_decks;
