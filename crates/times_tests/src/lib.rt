//! Tests of the real-time scheduler. They show what no clause says: scripts and their consoles, worked out by
//! hand from the rules, with the counts of a plain simulation that was written apart.
#![tactic(auto)]

#[cfg(test)]
mod failing_devices;
#[cfg(test)]
mod running;
#[cfg(test)]
mod scripts;
