// Runs in which a device fails: which process ends with which fault, and what the paper has.

use crate::failing::{Failing, Kind, NONE_FAILS};
use crate::made_files::no_files;
use crate::runs::{By, Setting, area, run, run_over, source, units};
use batch_ends::Outcomes;
use network_run::Rule;
use solo_base::{Cause, Outcome};
use solo_devices::{BlankArea, MemSink};
use std::alloc::Global;
use std::process::Abort;
use std::sync::Wait;
use std::test::Fail;
use std::thread::Threads;

const DECK: &str = "#LIST A\n1\n2\n#END\nSTRAY\n#LIST B\n3\n";

const PAPER: &str =
    "JOB A\n1\n2\nA: LISTED 2 CARDS\n1 CARDS SKIPPED\nJOB B\n3\nB: LISTED 1 CARDS\n";

// Whether the run met the failure: then its process ends so, and the paper has a part of the whole.
fn meets<R: Threads + Wait + Sync + AllocGlobal + Abort>(
    rt: &R,
    kind: Kind,
    call: u32,
) -> Result<bool, Fail> {
    let setting = Setting {
        deck: DECK.as_bytes(),
        piece: 7,
        pages: (2, 2),
        failing: kind.fails_at(u64::from(call)),
    };
    let by = By::Core(Rule::Numbered { number: call });
    let came = run(rt, by, setting, no_files(rt, rt.alloc()))?;
    assert!(rt; PAPER.as_bytes().starts_with(came.paper.as_slice()));
    if came.unit_failed {
        let fault = Outcome::Fault(kind.cause());
        assert_eq!(rt; kind.caller(came.outcomes), fault, "{kind:?} {call}");
    } else {
        assert_eq!(rt; came.paper.as_slice(), PAPER.as_bytes());
    }
    Ok(came.unit_failed)
}

// How many of the first calls of a kind are met.
fn count<R: Threads + Wait + Sync + AllocGlobal + Abort>(rt: &R, kind: Kind) -> Result<u64, Fail> {
    let mut met: u64 = 0;
    for call in 1..20u32 {
        if meets(rt, kind, call)? {
            met = met.saturating_add(1);
        }
    }
    Ok(met)
}

// Six reads give the deck in pieces of seven bytes, and its end; all of its items fit on one page, and so do
// its lines.
#[test]
fn each_failing_call_of_a_device_ends_its_process(rt: HostRuntime) -> Result<(), Fail> {
    for (kind, met) in [
        (Kind::Read, 6),
        (Kind::InputWrite, 1),
        (Kind::InputRead, 1),
        (Kind::OutputWrite, 1),
        (Kind::OutputRead, 1),
        (Kind::Print, 8),
    ] {
        assert_eq!(rt; count(&rt, kind)?, met, "{kind:?}");
    }
    Ok(())
}

// Nothing is printed, and the processes end so.
fn ends<R: Threads + Wait + Sync + AllocGlobal + Abort>(
    rt: &R,
    setting: Setting,
    outcomes: Outcomes,
) -> Result<(), Fail> {
    let came = run(rt, By::Core(Rule::Least), setting, no_files(rt, rt.alloc()))?;
    assert!(rt; came.outcomes == outcomes);
    assert!(rt; came.paper.is_empty());
    Ok(())
}

// Eight cards of 80 columns behind a control card: seven items take 494 bytes of a page, and the eighth
// completes it behind the read that fails.
#[test]
fn two_processes_end_with_faults_of_their_own(rt: HostRuntime) -> Result<(), Fail> {
    let mut deck = b"#LIST A\n".to_vec(rt.alloc())?;
    for _ in 0..8 {
        deck.extend_from_slice([b'A'; 80].as_slice())?;
        deck.push(b'\n')?;
    }
    let failing = Failing {
        take: 3,
        input_write: 1,
        ..NONE_FAILS
    };
    let setting = Setting {
        deck: deck.as_slice(),
        piece: 324,
        pages: (2, 2),
        failing,
    };
    let wanted = Outcomes {
        card: Outcome::Fault(Cause::ReadFault),
        input: Outcome::Fault(Cause::DiskFault),
        job: Outcome::Stopped,
        output: Outcome::Stopped,
        printer: Outcome::Stopped,
    };
    ends(&rt, setting, wanted)
}

#[test]
fn a_zero_page_is_damaged(rt: HostRuntime) -> Result<(), Fail> {
    let alloc = rt.alloc();
    let setting = Setting {
        deck: DECK.as_bytes(),
        piece: 7,
        pages: (4, 4),
        failing: NONE_FAILS,
    };
    let devices = units(
        source(&rt, alloc, setting)?,
        MemSink::new(alloc, Vec::new(alloc)),
        no_files(&rt, alloc),
        BlankArea::new(4),
        area(&rt, alloc, 4, 0, 0)?,
    );
    let came = run_over(&rt, By::Core(Rule::Cyclic { last: 5 }), devices)?;
    let damaged = Cause::Damaged {
        expected: 0,
        found: 0,
        at: 2,
    };
    assert_eq!(rt; came.outcomes.job, Outcome::Fault(damaged));
    assert_eq!(rt; came.outcomes.card, Outcome::Done);
    assert_eq!(rt; came.outcomes.input, Outcome::Done);
    assert!(rt; came.paper.is_empty());
    Ok(())
}

// One line of so many characters.
fn long_line(alloc: Global, characters: usize) -> Result<Vec<u8>, Fail> {
    Ok(b"A".repeat(alloc, characters)?)
}

// The byte that is one too many is met behind one long line.
#[test]
fn a_deck_has_its_limit(rt: HostRuntime) -> Result<(), Fail> {
    let deck = long_line(rt.alloc(), 16_777_217)?;
    let setting = Setting {
        deck: deck.as_slice(),
        piece: 512,
        pages: (2, 2),
        failing: NONE_FAILS,
    };
    let wanted = Outcomes {
        card: Outcome::Fault(Cause::DeckLimit),
        input: Outcome::Stopped,
        job: Outcome::Stopped,
        output: Outcome::Stopped,
        printer: Outcome::Stopped,
    };
    ends(&rt, setting, wanted)
}
