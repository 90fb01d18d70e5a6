//! Tests of Solo's three processes as a network that is stepped, over commands that need no programs.
#![tactic(auto)]

#[cfg(test)]
mod deeds;
#[cfg(test)]
mod failing_calls;
#[cfg(test)]
mod net_runs;
#[cfg(test)]
mod schedules;
#[cfg(test)]
mod sessions;
#[cfg(test)]
mod telling;
#[cfg(test)]
mod thread_runs;
