//! Times entries of a gate, a slot buffer between two threads, and five threads in a chain.
mod chain;
mod ends;
mod pair;

use crate::fault::Fault;
use level_monitor::run_in_turn;
use std::sync::Wait;
use std::thread::Threads;
use std::time::{Clock, Instant};

/// So many entries up and as many down, so many items from thread to thread, and so many through the chain.
pub fn run(
    rt: &(impl AllocGlobal + Clock + Eprint + Print + Sync + Threads + Wait),
    entries: u32,
    items: u32,
    chained: u32,
) -> Result<(), Fault> {
    let start = Instant::now(rt)?;
    let level = run_in_turn(rt, rt.alloc(), u64::from(entries))?;
    let nanoseconds = start.elapsed(rt)?.as_nanos();
    println!(rt; "{entries} entries up and {entries} down, to level {level}")?;
    eprintln!(rt; "entries {nanoseconds} ns")?;

    let start = Instant::now(rt)?;
    let in_order = pair::hand_over(rt, rt.alloc(), items)?;
    let nanoseconds = start.elapsed(rt)?.as_nanos();
    println!(rt; "{items} items from thread to thread, in order: {in_order}")?;
    eprintln!(rt; "buffer {nanoseconds} ns")?;

    let start = Instant::now(rt)?;
    let in_order = chain::hand_on(rt, rt.alloc(), chained)?;
    let nanoseconds = start.elapsed(rt)?.as_nanos();
    println!(rt; "{chained} items through five threads, in order: {in_order}")?;
    Ok(eprintln!(rt; "chain {nanoseconds} ns")?)
}
