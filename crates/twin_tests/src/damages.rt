// Pages that come damaged from a spool: who finds it ends with that fault, and the paper has a part of the
// whole.

use crate::made_files::no_files;
use crate::runs::{Came, run_hurt};
use network_run::Rule;
use solo_base::{Cause, Outcome};
use std::alloc::Global;
use std::process::Abort;
use twin_ends::TwinOutcomes;

const DECK: &str = "#LIST A\n1\n2\n#END\nSTRAY\n#LIST B\n3\n";

const PAPER: &str =
    "JOB A\n1\n2\nA: LISTED 2 CARDS\n1 CARDS SKIPPED\nJOB B\n3\nB: LISTED 1 CARDS\n";

// The run in which the read of this number gives a wrong byte, at the spool of this place among the four.
fn hurt(rt: &impl Abort, alloc: Global, spool: usize, read: u64, number: u32) -> Came {
    let mut reads = [0; 4];
    if spool < 4 {
        reads[spool] = read;
    }
    let rule = Rule::Numbered { number };
    run_hurt(rt, alloc, DECK.as_bytes(), no_files(rt, alloc), reads, rule)
}

// Who takes from a spool.
fn taker(outcomes: TwinOutcomes, spool: usize) -> Outcome {
    match spool {
        0 => outcomes.job_a,
        1 => outcomes.job_b,
        _ => outcomes.output,
    }
}

// Each stream has one page, of place 0; the wrong byte stands behind its number and its mark.
fn is_found(rt: &impl Abort, alloc: Global, spool: usize, read: u64) {
    let came = hurt(rt, alloc, spool, read, 3);
    let damage = Cause::Damaged {
        expected: 0,
        found: 0,
        at: 3,
    };
    assert!(rt;
        taker(came.outcomes, spool) == Outcome::Fault(damage),
        "{spool}"
    );
    assert!(rt; PAPER.as_bytes().starts_with(came.paper.as_slice()));
    assert!(rt; !came.unit_failed);
}

#[test]
fn a_damaged_page_ends_who_takes_it(rt: HostRuntime) {
    for spool in 0..4usize {
        is_found(&rt, rt.alloc(), spool, 1);
        is_found(&rt, rt.alloc(), spool, 2);
    }
}
