//! Measures crates of the system: the first word says which, the others how much of it.
#![tactic(auto)]

mod cards;
mod check;
mod clock;
mod compile;
mod core_runs;
mod fault;
mod files;
mod gate;
mod machine;
mod memory;
mod page_map;
mod parse;
mod programs;
mod scan;
mod session;

use fault::Fault;
use std::env;
use std::fs::{File, Files};
use std::process::ExitCode;
use std::rt::Env;
use std::sync::Wait;
use std::thread::Threads;
use std::time::{Clock, CpuClock};

fn main(rt: HostRuntime) -> ExitCode {
    match run(&rt) {
        Ok(()) => ExitCode::from(0),
        Err(fault) => {
            let _ = rt.eprintln(fault);
            ExitCode::from(1)
        }
    }
}

/// Runs the bench of the words of the command line.
fn run<
    R: AllocGlobal
        + Clock
        + CpuClock
        + Env
        + Eprint
        + Files<File = File>
        + Input
        + Print
        + Sync
        + Threads
        + Wait,
>(rt: &R) -> Result<(), Fault>
where
    R::Reader: Drop,
{
    let mut words = Vec::new(rt.alloc());
    for word in env::args(rt)?.skip(1) {
        words.push(word)?;
    }
    if word(words.as_slice(), 0)? == "session" {
        return session::run(rt, number(words.as_slice(), 1)?);
    }
    measure(rt, words.as_slice())
}

fn measure(
    rt: &(impl AllocGlobal + Clock + CpuClock + Eprint + Files + Print + Sync + Threads + Wait),
    words: &[String],
) -> Result<(), Fault> {
    let bench = words.first().ok_or(Fault::Usage)?;
    match bench.as_str() {
        "page_map" => page_map::run(rt),
        "scan" => scan::run(rt, number(words, 1)?),
        "parse" => parse::run(rt, number(words, 1)?, words.get(2)),
        "check" => check::run(rt, number(words, 1)?, number(words, 2)?),
        "compile" => compile::run(rt, word(words, 1)?, number(words, 2)?),
        "machine" => machine::run(rt),
        "core" => core_runs::run(rt, number(words, 1)?, number(words, 2)?),
        "files" => files::run(rt),
        "programs" => programs::run(rt, word(words, 1)?, number(words, 2)?),
        "gate" => gate::run(rt, number(words, 1)?, number(words, 2)?, number(words, 3)?),
        "all" => all(rt),
        _ => Err(Fault::Usage),
    }
}

fn word(words: &[String], place: usize) -> Result<&str, Fault> {
    let word = words.get(place).ok_or(Fault::Usage)?;
    Ok(word.as_str())
}

fn number(words: &[String], place: usize) -> Result<u32, Fault> {
    word(words, place)?.parse().ok().ok_or(Fault::Usage)
}

/// Each bench once, at a small size.
fn all(
    rt: &(impl AllocGlobal + Clock + CpuClock + Eprint + Files + Print + Sync + Threads + Wait),
) -> Result<(), Fault> {
    page_map::run(rt)?;
    scan::run(rt, 2500)?;
    parse::run(rt, 1000, None)?;
    check::run(rt, 10, 100)?;
    compile::run(rt, "small", 2)?;
    machine::run(rt)?;
    core_runs::run(rt, 10, 2)?;
    files::run(rt)?;
    programs::run(rt, "small", 1000)?;
    gate::run(rt, 1000, 1000, 1000)
}
