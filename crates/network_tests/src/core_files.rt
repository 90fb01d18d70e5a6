// Runs of jobs of files: which are loaded, and what a read that fails or gives a wrong byte comes to.

use crate::file_runs::{COPIES, NO_FILE, failing_reads_met, prints, run_jobs};
use crate::made_files::{hurt_files, no_files, with_copy};
use crate::runs::{By, DONE};
use network_run::{Counts, Rule};
use std::process::Abort;
use std::sync::Wait;
use std::test::Fail;
use std::thread::Threads;

// The input process, the job process and the output process have the disk for one page each, two of them
// twice; and the job process for three loads.
#[test]
fn a_job_of_a_file_runs_its_code(rt: HostRuntime) -> Result<(), Fail> {
    for rule in [
        Rule::Least,
        Rule::Cyclic { last: 5 },
        Rule::Numbered { number: 7 },
    ] {
        let files = with_copy(&rt, rt.alloc())?;
        let counts = prints(&rt, By::Core(rule), files, COPIES)?;
        assert_eq!(rt; counts.map(|counts| counts.grants), Some(7));
    }
    Ok(())
}

// The counts are those of `oracle/simulate`.
#[test]
fn without_files_no_job_has_one(rt: HostRuntime) -> Result<(), Fail> {
    let wanted = Counts {
        events: 87,
        delays: 15,
        grants: 7,
    };
    let by = By::Core(Rule::Numbered { number: 7 });
    let counts = prints(&rt, by, no_files(&rt, rt.alloc()), NO_FILE)?;
    assert_eq!(rt; counts, Some(wanted));
    Ok(())
}

// Each of the two jobs that have a file reads its index page for its length, and then the index page, the
// part and the page of the code; the one in between finds no name.
#[test]
fn a_failing_read_of_the_files_ends_the_job_process(rt: HostRuntime) -> Result<(), Fail> {
    assert_eq!(rt; failing_reads_met(&rt, By::Core(Rule::Least))?, 8);
    Ok(())
}

const BAD_FIRST: &str = "JOB A\nA: BAD CODE AT 7\nJOB B\nB: NO FILE\nJOB C\nAGAIN\nC: TERMINATED\n";

const BAD_LAST: &str = "JOB A\nHELLO\nA: TERMINATED\nJOB B\nB: NO FILE\nJOB C\nC: BAD CODE AT 7\n";

// Whether a run whose read of this number gives a wrong byte finds bad code, in one of its two loads.
fn is_bad_code<R: Threads + Wait + Sync + AllocGlobal + Abort>(
    rt: &R,
    read: u64,
) -> Result<bool, Fail> {
    let Some(files) = hurt_files(rt, rt.alloc(), read)? else {
        return Ok(false);
    };
    let came = run_jobs(rt, By::Core(Rule::Least), files)?;
    assert!(rt; came.outcomes == DONE);
    let paper = came.paper.as_slice();
    if paper == BAD_FIRST.as_bytes() || paper == BAD_LAST.as_bytes() {
        return Ok(true);
    }
    assert_eq!(rt; paper, COPIES.as_bytes());
    Ok(false)
}

// A code file begins with SEQCODE1. The mount reads 20 pages, and each of the two loads four.
#[test]
fn an_untold_file_is_judged_as_it_is_read(rt: HostRuntime) -> Result<(), Fail> {
    let mut met: u64 = 0;
    for read in 18..32u64 {
        if is_bad_code(&rt, read)? {
            met = met.saturating_add(1);
        }
    }
    assert_eq!(rt; met, 2);
    Ok(())
}
