// Scripts of the real-time scheduler, over keys and a console in memory.
use crate::made_area::formatted;
use crate::running::{sink, source, spool, words_of};
use solo_cli::top;
use std::process::Abort;
use std::sync::Wait;
use std::test::Fail;
use std::thread::Threads;

/// Whether a script under a schedule shows this, and no other device is used: each would fail.
fn shows(
    rt: &(impl Threads + Wait + Sync + AllocGlobal + Abort),
    schedule: &str,
    script: &[u8],
    shown: &[u8],
) -> Result<bool, Fail> {
    let alloc = rt.alloc();
    let words = words_of(alloc, &["times", "--schedule", schedule])?;
    let finished = top(
        rt,
        alloc,
        words.as_slice(),
        source(rt, alloc, b"#", 1, 1)?,
        source(rt, alloc, script, 7, 0)?,
        sink(alloc, 1)?,
        sink(alloc, 0)?,
        formatted(alloc)?,
        spool(rt, alloc, 1, 1, 1)?,
        spool(rt, alloc, 1, 1, 1)?,
    );
    Ok(
        finished.status == 0
            && finished.console.bytes() == shown
            && finished.deck.faults() == 0
            && finished.paper.faults() == 0
            && finished.input.faults() == 0
            && finished.output.faults() == 0,
    )
}

const TWO_TASKS: &[u8] =
    b"TASK A\nTASK B\nSTART A 2 3\nSTART B 2 0\nTICK 6\nSTOP A\nTICK 3\nSTART B 9 1\n";

const TWO_TASKS_SHOWN: &[u8] = b"\
    TASK: OK\nTASK: OK\nSTART: OK\nSTART: OK\n2 A\n2 B\n5 A\nTIME 6\nSTOP: OK\nTIME 9\n\
    START: TIME IS PAST\nA: 2 RUNS\nB: 1 RUNS\nCOUNTS: 79 EVENTS, 11 DELAYS, 0 GRANTS\n";

const REFUSALS: &[u8] = b"START C 1 1\nTICK 0\nTASK A\nTASK A\n";

const REFUSALS_SHOWN: &[u8] = b"\
    START: NO TASK\nBAD COMMAND\nTASK: OK\nTASK: TASK EXISTS\nA: 0 RUNS\n\
    COUNTS: 40 EVENTS, 8 DELAYS, 0 GRANTS\n";

#[test]
fn a_script_is_run_and_counted(rt: HostRuntime) -> Result<(), Fail> {
    for schedule in ["0", "9"] {
        assert!(rt;
            shows(&rt, schedule, TWO_TASKS, TWO_TASKS_SHOWN)?,
            "{schedule}"
        );
        assert!(rt;
            shows(&rt, schedule, REFUSALS, REFUSALS_SHOWN)?,
            "{schedule}"
        );
    }
    Ok(())
}
