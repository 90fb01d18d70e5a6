// Runs in which a call of a device fails: which process ends with which fault, and what the paper has.

use crate::failing::Kind;
use crate::made_files::no_files;
use crate::runs::{Came, DONE, Setting, run};
use network_run::Rule;
use solo_base::Outcome;
use std::alloc::Global;
use std::process::Abort;

const DECK: &str = "#LIST A\n1\n2\n#END\nSTRAY\n#LIST B\n3\n";

const PAPER: &str =
    "JOB A\n1\n2\nA: LISTED 2 CARDS\n1 CARDS SKIPPED\nJOB B\n3\nB: LISTED 1 CARDS\n";

// The run of the deck in which this call fails, if it is made.
fn failing(rt: &impl Abort, alloc: Global, kind: Kind, call: u32) -> Came {
    let setting = Setting {
        deck: DECK.as_bytes(),
        pages: [2; 4],
    };
    let fails = kind.fails_at(u64::from(call));
    let rule = Rule::Numbered { number: call };
    run(rt, alloc, setting, no_files(rt, alloc), fails, rule)
}

// Whether the run met the failure: then its process ends so, and the paper has a part of the whole.
fn meets(rt: &impl Abort, came: &Came, kind: Kind) -> bool {
    assert!(rt; PAPER.as_bytes().starts_with(came.paper.as_slice()));
    if came.unit_failed {
        assert!(rt; kind.caller(came.outcomes) == Outcome::Fault(kind.cause()));
    } else {
        assert!(rt; came.outcomes == DONE);
        assert!(rt; came.paper.as_slice() == PAPER.as_bytes());
    }
    came.unit_failed
}

// So many of the first calls of a kind are met, one after the other.
fn are_met(rt: &impl Abort, alloc: Global, kind: Kind, calls: u32) {
    for call in 1..12u32 {
        let came = failing(rt, alloc, kind, call);
        assert!(rt; meets(rt, &came, kind) == (call <= calls), "{call}");
    }
}

// Six reads give the deck in pieces of seven bytes, and its end.
#[test]
fn each_failing_read_of_the_deck_ends_the_card_process(rt: HostRuntime) {
    are_met(&rt, rt.alloc(), Kind::Read, 6);
}

#[test]
fn each_failing_print_ends_the_printer_process(rt: HostRuntime) {
    are_met(&rt, rt.alloc(), Kind::Print, 8);
}

// Each side has a page of one unit and one of its lines, and the two pages without items that end it.
#[test]
fn each_failing_call_of_a_spool_ends_its_process(rt: HostRuntime) {
    for spool in 0..4usize {
        are_met(&rt, rt.alloc(), Kind::Write(spool), 2);
        are_met(&rt, rt.alloc(), Kind::Fetch(spool), 2);
    }
}
