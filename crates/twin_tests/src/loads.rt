// Decks with jobs of files: both job processes load them from the one disk.

ghost use Rattle.std.specs.Prelude.{◌≡◌, true};

use crate::failing::NONE_FAILS;
use crate::made_files::with_copy;
use crate::runs::{Came, DONE, Files, Setting, run};
use network_run::Rule;
use solo_base::{Cause, Outcome};
use std::alloc::Global;
use std::process::Abort;
use twin_ends::TwinOutcomes;

const DECK: &str =
    "#RUN A PROG\nHELLO\n#END\n#RUN B PROG\nTHERE\n#END\n#RUN C OTHER\n#RUN D PROG\nAGAIN\n";

// Its paper where PROG has a program that copies its input.
const COPIES: &str =
    "JOB A\nHELLO\nA: TERMINATED\nJOB B\nTHERE\nB: TERMINATED\nJOB C\nC: NO FILE\nJOB D\nAGAIN\nD: TERMINATED\n";

fn runs_with(rt: &impl Abort, alloc: Global, files: Files, number: u32) -> Came
    requires { files.sound ≡ true }
{
    let setting = Setting {
        deck: DECK.as_bytes(),
        pages: [2; 4],
    };
    let rule = Rule::Numbered { number };
    run(rt, alloc, setting, files, NONE_FAILS, rule)
}

// Six streams of a page go in and six come out, and four files are loaded.
#[test]
fn jobs_of_files_run_their_code(rt: HostRuntime) {
    for number in 0..10u32 {
        let files = with_copy(&rt, rt.alloc(), 0).expect(&rt, "a program");
        let came = runs_with(&rt, rt.alloc(), files, number);
        assert!(rt; came.outcomes == DONE);
        assert!(rt; came.paper.as_slice() == COPIES.as_bytes());
        assert!(rt; came.counts.grants == 28);
    }
}

// Whether a job process ended with a fault of the disk.
fn has_fault(outcomes: TwinOutcomes) -> bool {
    let fault = Outcome::Fault(Cause::DiskFault);
    outcomes.job_a == fault || outcomes.job_b == fault
}

// Whether a run met a read of the files that fails. Then a job process has its fault, and the paper a
// beginning of the whole.
fn has_met(rt: &impl Abort, came: &Came) -> bool {
    assert!(rt; COPIES.as_bytes().starts_with(came.paper.as_slice()));
    assert!(rt; came.files_failed == has_fault(came.outcomes));
    if !came.files_failed {
        assert!(rt; came.outcomes == DONE);
        assert!(rt; came.paper.as_slice() == COPIES.as_bytes());
    }
    came.files_failed
}

// How many of the first reads of the files that fail are met by a run of a schedule.
fn reads_met(rt: &impl Abort, alloc: Global, number: u32) -> u32 {
    let mut met = 0u32;
    for read in 1..60u64 {
        if let Some(files) = with_copy(rt, alloc, read) {
            let came = runs_with(rt, alloc, files, number);
            if has_met(rt, &came) {
                met = met.saturating_add(1);
            }
        }
    }
    met
}

// Each of the three jobs that have a file reads its index page for its length, and then the index page, the
// part and the page of the code; the other one finds no name.
#[test]
fn a_failing_read_of_the_files_ends_a_job_process(rt: HostRuntime) {
    assert!(rt; reads_met(&rt, rt.alloc(), 3) == 12);
}
