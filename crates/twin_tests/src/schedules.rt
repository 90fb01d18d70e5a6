// A deck under the schedules 0 to 9.

use crate::failing::NONE_FAILS;
use crate::made_files::no_files;
use crate::runs::{Came, DONE, Setting, run};
use network_run::{Counts, Rule};
use std::alloc::Global;
use std::process::Abort;

/// How many calls the runs of a deck have in all that don't wait, how often the disk is granted, and how many
/// calls wait under each of the schedules 0 to 9.
pub struct Tally {
    pub calls: u64,
    pub grants: u64,
    pub delays: [u64; 10],
}

/// A deck with its paper, and what is counted over spools of 128 pages.
pub struct Row {
    pub deck: &'static str,
    pub paper: &'static str,
    pub tally: Tally,
}

/// What a run of this deck comes to over spools of so many pages, without files.
pub fn under(rt: &impl Abort, alloc: Global, deck: &[u8], pages: [u16; 4], number: u32) -> Came {
    let setting = Setting { deck, pages };
    let rule = Rule::Numbered { number };
    run(rt, alloc, setting, no_files(rt, alloc), NONE_FAILS, rule)
}

/// All are done, and this is printed.
pub fn has_printed(rt: &impl Abort, came: &Came, paper: &[u8]) {
    assert!(rt; came.outcomes == DONE);
    assert!(rt; came.paper.as_slice() == paper);
}

/// Under each schedule the deck is printed so over spools of so many pages, and this is counted.
pub fn comes_to(
    rt: &impl Abort,
    alloc: Global,
    deck: &[u8],
    paper: &[u8],
    pages: [u16; 4],
    tally: &Tally,
) {
    let mut number = 0u32;
    for delays in &tally.delays {
        let counts = Counts {
            events: tally.calls.saturating_add(*delays),
            delays: *delays,
            grants: tally.grants,
        };
        let came = under(rt, alloc, deck, pages, number);
        has_printed(rt, &came, paper);
        assert!(rt; came.counts == counts, "{number}");
        number = number.saturating_add(1);
    }
}

/// Under each schedule the deck of this row is printed so, and this is counted.
pub fn prints(rt: &impl Abort, alloc: Global, row: &Row) {
    let (deck, paper) = (row.deck.as_bytes(), row.paper.as_bytes());
    comes_to(rt, alloc, deck, paper, [128; 4], &row.tally);
}

/// Under each schedule the deck is printed so.
pub fn is_printed(rt: &impl Abort, alloc: Global, deck: &str, paper: &str) {
    for number in 0..10u32 {
        let came = under(rt, alloc, deck.as_bytes(), [128; 4], number);
        has_printed(rt, &came, paper.as_bytes());
    }
}
