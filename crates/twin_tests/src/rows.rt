// Decks under the schedules 0 to 9: the paper is the one-thread output, and the counts are those that a plain
// simulation of the six counts (`oracle/twin --rows`).

use crate::schedules::{Row, Tally, prints};

const THREE_LISTS: Row = Row {
    deck: "#LIST A\nX\n#LIST B\nY\n#LIST C\n",
    paper: "JOB A\nX\nA: LISTED 1 CARDS\nJOB B\nY\nB: LISTED 1 CARDS\nJOB C\nC: LISTED 0 CARDS\n",
    tally: Tally {
        calls: 141,
        grants: 20,
        delays: [26, 23, 27, 26, 29, 29, 26, 28, 30, 32],
    },
};

#[test]
fn three_lists_are_printed_in_order(rt: HostRuntime) {
    prints(&rt, rt.alloc(), &THREE_LISTS);
}

const CARDS_BETWEEN: Row = Row {
    deck: "X\n\n#LIST A\n#END\nY\n",
    paper: "1 CARDS SKIPPED\nJOB A\nA: LISTED 0 CARDS\n1 CARDS SKIPPED\n",
    tally: Tally {
        calls: 112,
        grants: 16,
        delays: [23, 20, 21, 25, 24, 22, 22, 24, 25, 25],
    },
};

#[test]
fn cards_between_are_skipped(rt: HostRuntime) {
    prints(&rt, rt.alloc(), &CARDS_BETWEEN);
}

const NO_CARD: Row = Row {
    deck: "",
    paper: "",
    tally: Tally {
        calls: 51,
        grants: 8,
        delays: [10, 10, 9, 10, 10, 12, 11, 8, 9, 7],
    },
};

#[test]
fn an_empty_deck_prints_nothing(rt: HostRuntime) {
    prints(&rt, rt.alloc(), &NO_CARD);
}
