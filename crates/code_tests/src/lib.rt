//! Tests of the code of Sequential Pascal: its files, the machine that runs it, the compiler that makes it.
#![tactic(auto)]

#[cfg(test)]
mod arithmetic;
#[cfg(test)]
mod calls;
#[cfg(test)]
mod cards;
#[cfg(test)]
mod code_faults;
#[cfg(test)]
mod code_limits;
#[cfg(test)]
mod code_of_expressions;
#[cfg(test)]
mod code_of_interface;
#[cfg(test)]
mod code_of_routines;
#[cfg(test)]
mod code_of_statements;
#[cfg(test)]
mod code_records;
#[cfg(test)]
mod desk_runs;
#[cfg(test)]
mod limits;
#[cfg(test)]
mod listings;
#[cfg(test)]
mod loops;
#[cfg(test)]
mod machine_runs;
#[cfg(test)]
mod made_code;
#[cfg(test)]
mod orders;
#[cfg(test)]
mod overflows;
#[cfg(test)]
mod paused_code;
#[cfg(test)]
mod paused_programs;
#[cfg(test)]
mod printed_lines;
#[cfg(test)]
mod program_ends;
#[cfg(test)]
mod ranges;
#[cfg(test)]
mod references;
#[cfg(test)]
mod routines;
#[cfg(test)]
mod worked_programs;
