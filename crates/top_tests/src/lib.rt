//! Tests of the commands of the program `solo`, over devices in memory, over drives and over devices that
//! wait for each other.
#![tactic(auto)]

#[cfg(test)]
mod check_tests;
#[cfg(test)]
mod damage_tests;
#[cfg(test)]
mod device_tests;
#[cfg(test)]
mod drive_tests;
#[cfg(test)]
mod failure_tests;
#[cfg(test)]
mod held_tests;
#[cfg(test)]
mod made_area;
#[cfg(test)]
mod make_tests;
#[cfg(test)]
mod program_tests;
#[cfg(test)]
mod run_tests;
#[cfg(test)]
mod running;
#[cfg(test)]
mod tests;
#[cfg(test)]
mod times_tests;
#[cfg(test)]
mod word_tests;
