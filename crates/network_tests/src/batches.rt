// Whole batches on five threads, over devices in memory.

use crate::failing::{Failing, Kind, NONE_FAILS};
use crate::made_files::no_files;
use crate::runs::{By, Came, Setting, run};
use batch_ends::Outcomes;
use solo_base::{Cause, Outcome};
use std::alloc::Global;
use std::process::Abort;
use std::sync::Wait;
use std::test::Fail;
use std::thread::Threads;

fn batch<R: Threads + Wait + Sync + AllocGlobal + Abort>(
    rt: &R,
    deck: &str,
    pages: u16,
    failing: Failing,
) -> Result<Came, Fail> {
    let setting = Setting {
        deck: deck.as_bytes(),
        piece: 100,
        pages: (pages, pages),
        failing,
    };
    run(rt, By::Threads, setting, no_files(rt, rt.alloc()))
}

// The deck is printed so, and no buffer is stopped.
fn prints<R: Threads + Wait + Sync + AllocGlobal + Abort>(
    rt: &R,
    deck: &str,
    paper: &str,
    pages: u16,
) -> Result<(), Fail> {
    let came = batch(rt, deck, pages, NONE_FAILS)?;
    assert_eq!(rt; came.outcomes.printer, Outcome::Done);
    assert_eq!(rt; came.stopped_by, [None; 4]);
    assert_eq!(rt; came.paper.as_slice(), paper.as_bytes());
    Ok(())
}

#[test]
fn a_listing_is_printed_by_five_threads(rt: HostRuntime) -> Result<(), Fail> {
    let deck = "#LIST A\nHELLO\n#END\n";
    let paper = "JOB A\nHELLO\nA: LISTED 1 CARDS\n";
    for pages in [1, 2, 256] {
        prints(&rt, deck, paper, pages)?;
    }
    Ok(())
}

// A deck of so many jobs of ten cards, and what one thread prints for it.
fn many_jobs(alloc: Global, jobs: u32) -> Result<(String, String), Fail> {
    let mut deck = String::new(alloc);
    let mut paper = String::new(alloc);
    for _ in 0..jobs {
        deck.push_str("#LIST A\n")?;
        paper.push_str("JOB A\n")?;
        for _ in 0..10 {
            deck.push_str("A CARD THAT IS SOME FORTY CHARACTERS LONG\n")?;
            paper.push_str("A CARD THAT IS SOME FORTY CHARACTERS LONG\n")?;
        }
        deck.push_str("#END\n")?;
        paper.push_str("A: LISTED 10 CARDS\n")?;
    }
    Ok((deck, paper))
}

#[test]
fn some_hundred_jobs_pass_spools_of_one_page_and_of_256(rt: HostRuntime) -> Result<(), Fail> {
    let (deck, paper) = many_jobs(rt.alloc(), 300)?;
    prints(&rt, deck.as_str(), paper.as_str(), 1)?;
    prints(&rt, deck.as_str(), paper.as_str(), 256)
}

fn some_fault(outcomes: &Outcomes, cause: Cause) -> bool {
    let fault = Outcome::Fault(cause);
    outcomes.card == fault
        || outcomes.input == fault
        || outcomes.job == fault
        || outcomes.output == fault
        || outcomes.printer == fault
}

// One call fails: the paper has the beginning of what one thread prints, some outcome is this fault, and a
// buffer was stopped.
fn stops<R: Threads + Wait + Sync + AllocGlobal + Abort>(
    rt: &R,
    kind: Kind,
    call: u64,
) -> Result<(), Fail> {
    let (deck, paper) = many_jobs(rt.alloc(), 4)?;
    let came = batch(rt, deck.as_str(), 2, kind.fails_at(call))?;
    assert!(rt; some_fault(&came.outcomes, kind.cause()), "{kind:?} {call}");
    assert!(rt; came.stopped_by != [None; 4], "{kind:?} {call}");
    assert!(rt;
        paper.as_bytes().starts_with(came.paper.as_slice()),
        "{kind:?} {call}"
    );
    assert!(rt; came.paper.len() < paper.len(), "{kind:?} {call}");
    Ok(())
}

#[test]
fn each_device_that_fails_in_turn_is_the_cause(rt: HostRuntime) -> Result<(), Fail> {
    for (kind, calls) in [
        (Kind::Read, 18u64),
        (Kind::Print, 18),
        (Kind::InputWrite, 4),
        (Kind::InputRead, 4),
        (Kind::OutputWrite, 4),
        (Kind::OutputRead, 4),
    ] {
        for made in 0..calls {
            stops(&rt, kind, made + 1)?;
        }
    }
    Ok(())
}
