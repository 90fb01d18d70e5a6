//! Tests of the processes and of whole runs: by the core under each rule, and by the batch on five threads.
#![tactic(auto)]

#[cfg(test)]
mod batch_files;
#[cfg(test)]
mod batches;
#[cfg(test)]
mod core_failures;
#[cfg(test)]
mod core_files;
#[cfg(test)]
mod core_runs;
#[cfg(test)]
mod failing;
#[cfg(test)]
mod file_runs;
#[cfg(test)]
mod made_files;
#[cfg(test)]
mod processes;
#[cfg(test)]
mod runs;
#[cfg(test)]
mod schedules;
#[cfg(test)]
mod walks;
