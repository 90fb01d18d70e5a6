//! Tests of Solo's commands. They show what no clause says: lines and their commands, worked out by hand from
//! the rules.
#![tactic(auto)]

#[cfg(test)]
mod commands;
