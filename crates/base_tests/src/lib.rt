//! Tests of lines, lists of lines, identifiers and arguments: what no clause says of them, or says in
//! other words.
#![tactic(auto)]

#[cfg(test)]
mod arguments;
#[cfg(test)]
mod lines;
