//! Tests of the command `solo`: sessions over devices in memory, and over devices that wait for each other.
#![tactic(auto)]

#[cfg(test)]
mod failing_tests;
#[cfg(test)]
mod held_tests;
#[cfg(test)]
mod running;
#[cfg(test)]
mod session_tests;
#[cfg(test)]
mod status_tests;
