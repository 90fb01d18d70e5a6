//! Tests of whole sessions of Solo: its three processes as a network that is stepped, over the commands on
//! the files of an area. What is wanted was worked out by the rules of commands and programs, beside the
//! program.
#![tactic(auto)]

#[cfg(test)]
mod failing_calls;
#[cfg(test)]
mod longer;
#[cfg(test)]
mod net_runs;
#[cfg(test)]
mod sessions;
