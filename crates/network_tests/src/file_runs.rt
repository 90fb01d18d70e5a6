// Runs of a deck with jobs of files.
ghost use Rattle.std.specs.Prelude.{◌≡◌, true};

use crate::failing::NONE_FAILS;
use crate::made_files::failing_files;
use crate::runs::{By, Came, Counted, DONE, Setting, run};
use disk_files::FileArea;
use network_run::Counts;
use solo_base::{Cause, Outcome};
use solo_devices::Area;
use std::process::Abort;
use std::sync::Wait;
use std::test::Fail;
use std::thread::Threads;

const DECK: &str = "#RUN A PROG\nHELLO\n#END\n#RUN B OTHER\n#RUN C PROG\nAGAIN\n";

/// Its paper where PROG has a program that copies its input.
pub const COPIES: &str =
    "JOB A\nHELLO\nA: TERMINATED\nJOB B\nB: NO FILE\nJOB C\nAGAIN\nC: TERMINATED\n";

/// Its paper where there is no file.
pub const NO_FILE: &str = "JOB A\nA: NO FILE\nJOB B\nB: NO FILE\nJOB C\nC: NO FILE\n";

/// Runs the deck with these files.
pub fn run_jobs<R: Threads + Wait + Sync + AllocGlobal + Abort, F: Area + Counted + Drop + Send>(
    rt: &R,
    by: By,
    files: FileArea<F>,
) -> Result<Came, Fail>
    requires { files.sound ≡ true }
{
    let setting = Setting {
        deck: DECK.as_bytes(),
        piece: 7,
        pages: (4, 4),
        failing: NONE_FAILS,
    };
    run(rt, by, setting, files)
}

/// All are done, no buffer is stopped, this is printed, and the files are sound then. What was counted.
pub fn prints<R: Threads + Wait + Sync + AllocGlobal + Abort, F: Area + Counted + Drop + Send>(
    rt: &R,
    by: By,
    files: FileArea<F>,
    paper: &str,
) -> Result<Option<Counts>, Fail>
    requires { files.sound ≡ true }
{
    let came = run_jobs(rt, by, files)?;
    assert!(rt; came.outcomes == DONE);
    assert_eq!(rt; came.stopped_by, [None; 4]);
    assert_eq!(rt; came.paper.as_slice(), paper.as_bytes());
    assert!(rt; came.files_sound);
    Ok(came.counts)
}

/// Whether a run met a read of the files that fails. Then the job process has its fault, and the paper a
/// beginning of the whole; else all of it is printed.
fn has_met(rt: &impl Abort, came: &Came) -> bool {
    let failed = !came.files_sound;
    assert_eq!(rt; came.files_failed, failed);
    if failed {
        assert_eq!(rt; came.outcomes.job, Outcome::Fault(Cause::DiskFault));
        assert!(rt; COPIES.as_bytes().starts_with(came.paper.as_slice()));
    } else {
        assert!(rt; came.outcomes == DONE);
        assert_eq!(rt; came.paper.as_slice(), COPIES.as_bytes());
    }
    failed
}

/// How many of the first reads of the files that fail are met by a run.
pub fn failing_reads_met<R: Threads + Wait + Sync + AllocGlobal + Abort>(
    rt: &R,
    by: By,
) -> Result<u64, Fail> {
    let mut met: u64 = 0;
    for read in 1..60u64 {
        if let Some(files) = failing_files(rt, rt.alloc(), read)? {
            let came = run_jobs(rt, by, files)?;
            if has_met(rt, &came) {
                met = met.saturating_add(1);
            }
        }
    }
    Ok(met)
}
