use crate::fault::Fault;
use std::time::CpuClock;

/// The processor time of this thread, in microseconds.
pub fn micros(rt: &impl CpuClock) -> Result<u128, Fault> {
    Ok(rt.thread_cpu_time()?.as_micros())
}

/// The processor time since then, in microseconds.
pub fn micros_since(rt: &impl CpuClock, began: u128) -> Result<u128, Fault> {
    Ok(micros(rt)?.saturating_sub(began))
}
