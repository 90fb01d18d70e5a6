// Units of three pages over spools of one: no run is stuck, whichever side has them.

use crate::schedules::{Tally, comes_to};
use std::alloc::Global;
use std::process::Abort;

// A card of eighty columns, of which six fill a page.
const CARD: &str =
    "=-+*=-+*=-+*=-+*=-+*=-+*=-+*=-+*=-+*=-+*=-+*=-+*=-+*=-+*=-+*=-+*=-+*=-+*=-+*=-+*\n";

// A list of thirteen such cards, or of none.
#[derive(Clone, Copy)]
struct List {
    opener: &'static str,
    title: &'static str,
    is_long: bool,
    end: &'static str,
}

const LONG_A: List = List {
    opener: "#LIST A\n",
    title: "JOB A\n",
    is_long: true,
    end: "A: LISTED 13 CARDS\n",
};

const LONG_B: List = List {
    opener: "#LIST B\n",
    title: "JOB B\n",
    is_long: true,
    end: "B: LISTED 13 CARDS\n",
};

const SHORT: List = List {
    opener: "#LIST C\n",
    title: "JOB C\n",
    is_long: false,
    end: "C: LISTED 0 CARDS\n",
};

// Adds the cards of a list to a text, between a first line and a last one.
fn add(text: &mut String, first: &str, list: &List, last: &str) -> Option<()> {
    text.push_str(first).ok()?;
    if list.is_long {
        for _ in 0..13u32 {
            text.push_str(CARD).ok()?;
        }
    }
    text.push_str(last).ok()
}

// The deck of these lists, and its paper.
fn texts(alloc: Global, lists: &[List; 4]) -> Option<(String, String)> {
    let mut deck = String::new(alloc);
    let mut paper = String::new(alloc);
    for list in lists {
        add(&mut deck, list.opener, list, "")?;
        add(&mut paper, list.title, list, list.end)?;
    }
    Some((deck, paper))
}

fn pass(rt: &impl Abort, alloc: Global, lists: &[List; 4], tally: &Tally) {
    let (deck, paper) = texts(alloc, lists).expect(rt, "ample memory");
    comes_to(rt, alloc, deck.as_bytes(), paper.as_bytes(), [1; 4], tally);
}

// The counts are those of `oracle/twin`.
const TO_A: Tally = Tally {
    calls: 383,
    grants: 40,
    delays: [71, 78, 80, 87, 83, 78, 82, 77, 82, 72],
};

#[test]
fn long_units_to_the_first_side_pass_spools_of_one_page(rt: HostRuntime) {
    pass(&rt, rt.alloc(), &[LONG_A, SHORT, LONG_A, SHORT], &TO_A);
}

const TO_B: Tally = Tally {
    calls: 383,
    grants: 40,
    delays: [71, 67, 67, 74, 74, 74, 72, 79, 74, 72],
};

#[test]
fn long_units_to_the_other_side_pass_spools_of_one_page(rt: HostRuntime) {
    pass(&rt, rt.alloc(), &[SHORT, LONG_B, SHORT, LONG_B], &TO_B);
}
