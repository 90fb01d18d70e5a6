//! Tests of Solo's programs over an area of files in memory, and of its three processes. They show what no
//! clause says: that calls succeed, replies and ends worked out by hand from the rules, areas that are full,
//! and each read and each write that fails.
#![tactic(auto)]

#[cfg(test)]
mod call_errors;
#[cfg(test)]
mod called_programs;
#[cfg(test)]
mod failing_areas;
#[cfg(test)]
mod full_files;
#[cfg(test)]
mod machines;
#[cfg(test)]
mod made_files;
#[cfg(test)]
mod made_programs;
#[cfg(test)]
mod program_calls;
#[cfg(test)]
mod program_needs;
#[cfg(test)]
mod scripts;
#[cfg(test)]
mod stack_runs;
