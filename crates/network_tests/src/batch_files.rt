// Batches with jobs of files: which are loaded, and what a read of the files that fails comes to.

use crate::file_runs::{COPIES, NO_FILE, failing_reads_met, prints};
use crate::made_files::{no_files, with_copy};
use crate::runs::By;
use std::test::Fail;

#[test]
fn a_job_of_a_file_runs_its_code(rt: HostRuntime) -> Result<(), Fail> {
    let files = with_copy(&rt, rt.alloc())?;
    prints(&rt, By::Threads, files, COPIES)?;
    Ok(())
}

#[test]
fn without_files_no_job_has_one(rt: HostRuntime) -> Result<(), Fail> {
    let files = no_files(&rt, rt.alloc());
    prints(&rt, By::Threads, files, NO_FILE)?;
    Ok(())
}

// Each of the two jobs that have a file reads its index page for its length, and then the index page, the
// part and the page of the code; the one in between finds no name.
#[test]
fn a_failing_read_of_the_files_ends_the_job_process(rt: HostRuntime) -> Result<(), Fail> {
    assert_eq!(rt; failing_reads_met(&rt, By::Threads)?, 8);
    Ok(())
}
