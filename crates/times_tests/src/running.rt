// Whole runs of a script over keys and a console in memory, and what they came to.
use network_run::{Counts, Rule};
use solo_base::Outcome;
use solo_devices::{MemSink, MemSource};
use std::alloc::Global;
use time_net::{TimeRan, run_times};

/// What a run came to.
#[derive(Drop)]
pub struct Came {
    pub outcome: Outcome,
    pub runs: [u32; 8],
    pub console: Vec<u8>,
    pub counts: Counts,
    pub keys_failed: bool,
    pub console_failed: bool,
}

/// The script under the schedule of a number, its bytes in pieces of 7, where the calls of the keys and of
/// the console with these numbers fail; no call has the number 0. None: memory was refused.
pub fn run(
    alloc: Global,
    script: &[u8],
    schedule: u32,
    key_call: u64,
    console_call: u64,
) -> Option<Came> {
    let mut bytes = Vec::new(alloc);
    bytes.extend_from_slice(script).ok()?;
    let mut failing_keys = Vec::new(alloc);
    failing_keys.push(key_call).ok()?;
    let mut failing_console = Vec::new(alloc);
    failing_console.push(console_call).ok()?;
    let keys = MemSource::new(bytes, 7, failing_keys);
    let console = MemSink::new(alloc, failing_console);
    let rule = Rule::Numbered { number: schedule };
    let (ran, counts) = run_times(keys, console, rule);
    let TimeRan {
        outcome,
        runs,
        typewriter,
    } = ran;
    let (keys, console) = typewriter.into_inner();
    let mut shown = Vec::new(alloc);
    shown.extend_from_slice(console.bytes()).ok()?;
    Some(Came {
        outcome,
        runs,
        console: shown,
        counts,
        keys_failed: keys.faults() != 0,
        console_failed: console.faults() != 0,
    })
}

/// Whether the script is done under the schedules 0 to 9, with this console.
pub fn shows(alloc: Global, script: &[u8], console: &[u8]) -> bool {
    for schedule in 0..10 {
        if !shows_under(alloc, script, console, schedule) {
            return false;
        }
    }
    true
}

fn shows_under(alloc: Global, script: &[u8], console: &[u8], schedule: u32) -> bool {
    match run(alloc, script, schedule, 0, 0) {
        Some(came) => came.outcome == Outcome::Done && came.console.as_slice() == console,
        None => false,
    }
}

/// Whether the script has so many events and delays under a schedule, and no grant.
pub fn counts(alloc: Global, script: &[u8], schedule: u32, events: u64, delays: u64) -> bool {
    let expected = Counts {
        events,
        delays,
        grants: 0,
    };
    match run(alloc, script, schedule, 0, 0) {
        Some(came) => came.counts == expected,
        None => false,
    }
}
