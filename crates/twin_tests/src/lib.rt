//! Tests of the twin network over devices in memory, by schedules, and where devices fail.
#![tactic(auto)]

#[cfg(test)]
mod damages;
#[cfg(test)]
mod decks;
#[cfg(test)]
mod failing;
#[cfg(test)]
mod failures;
#[cfg(test)]
mod loads;
#[cfg(test)]
mod made_files;
#[cfg(test)]
mod programs;
#[cfg(test)]
mod randoms;
#[cfg(test)]
mod rows;
#[cfg(test)]
mod runs;
#[cfg(test)]
mod schedules;
#[cfg(test)]
mod spools;
