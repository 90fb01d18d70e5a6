// The decks of lists of `decks/` under the schedules 0 to 9: the paper is that of the batch, and the counts are
// those that a plain simulation of the six counts (`oracle/twin`).

use crate::schedules::{Row, Tally, prints};

const LISTING: Row = Row {
    deck: "#LIST A\nHELLO\n#END\n",
    paper: "JOB A\nHELLO\nA: LISTED 1 CARDS\n",
    tally: Tally {
        calls: 86,
        grants: 12,
        delays: [16, 19, 16, 17, 13, 13, 14, 16, 12, 18],
    },
};

#[test]
fn a_listing_is_printed(rt: HostRuntime) {
    prints(&rt, rt.alloc(), &LISTING);
}

const LONG: Row = Row {
    deck: "\
        #LIST LONG\n\
        CARD 01 OF A LONG LIST, WHICH FILLS ITS PAGES AS IT COMES\n\
        CARD 02 OF A LONG LIST, WHICH FILLS ITS PAGES AS IT COMES\n\
        CARD 03 OF A LONG LIST, WHICH FILLS ITS PAGES AS IT COMES\n\
        CARD 04 OF A LONG LIST, WHICH FILLS ITS PAGES AS IT COMES\n\
        CARD 05 OF A LONG LIST, WHICH FILLS ITS PAGES AS IT COMES\n\
        CARD 06 OF A LONG LIST, WHICH FILLS ITS PAGES AS IT COMES\n\
        CARD 07 OF A LONG LIST, WHICH FILLS ITS PAGES AS IT COMES\n\
        CARD 08 OF A LONG LIST, WHICH FILLS ITS PAGES AS IT COMES\n\
        CARD 09 OF A LONG LIST, WHICH FILLS ITS PAGES AS IT COMES\n\
        CARD 10 OF A LONG LIST, WHICH FILLS ITS PAGES AS IT COMES\n\
        CARD 11 OF A LONG LIST, WHICH FILLS ITS PAGES AS IT COMES\n\
        CARD 12 OF A LONG LIST, WHICH FILLS ITS PAGES AS IT COMES\n\
        CARD 13 OF A LONG LIST, WHICH FILLS ITS PAGES AS IT COMES\n\
        CARD 14 OF A LONG LIST, WHICH FILLS ITS PAGES AS IT COMES\n\
        CARD 15 OF A LONG LIST, WHICH FILLS ITS PAGES AS IT COMES\n\
        CARD 16 OF A LONG LIST, WHICH FILLS ITS PAGES AS IT COMES\n\
        CARD 17 OF A LONG LIST, WHICH FILLS ITS PAGES AS IT COMES\n\
        CARD 18 OF A LONG LIST, WHICH FILLS ITS PAGES AS IT COMES\n\
        CARD 19 OF A LONG LIST, WHICH FILLS ITS PAGES AS IT COMES\n\
        CARD 20 OF A LONG LIST, WHICH FILLS ITS PAGES AS IT COMES\n\
        CARD 21 OF A LONG LIST, WHICH FILLS ITS PAGES AS IT COMES\n\
        CARD 22 OF A LONG LIST, WHICH FILLS ITS PAGES AS IT COMES\n\
        CARD 23 OF A LONG LIST, WHICH FILLS ITS PAGES AS IT COMES\n\
        CARD 24 OF A LONG LIST, WHICH FILLS ITS PAGES AS IT COMES\n\
        #END\n",
    paper: "\
        JOB LONG\n\
        CARD 01 OF A LONG LIST, WHICH FILLS ITS PAGES AS IT COMES\n\
        CARD 02 OF A LONG LIST, WHICH FILLS ITS PAGES AS IT COMES\n\
        CARD 03 OF A LONG LIST, WHICH FILLS ITS PAGES AS IT COMES\n\
        CARD 04 OF A LONG LIST, WHICH FILLS ITS PAGES AS IT COMES\n\
        CARD 05 OF A LONG LIST, WHICH FILLS ITS PAGES AS IT COMES\n\
        CARD 06 OF A LONG LIST, WHICH FILLS ITS PAGES AS IT COMES\n\
        CARD 07 OF A LONG LIST, WHICH FILLS ITS PAGES AS IT COMES\n\
        CARD 08 OF A LONG LIST, WHICH FILLS ITS PAGES AS IT COMES\n\
        CARD 09 OF A LONG LIST, WHICH FILLS ITS PAGES AS IT COMES\n\
        CARD 10 OF A LONG LIST, WHICH FILLS ITS PAGES AS IT COMES\n\
        CARD 11 OF A LONG LIST, WHICH FILLS ITS PAGES AS IT COMES\n\
        CARD 12 OF A LONG LIST, WHICH FILLS ITS PAGES AS IT COMES\n\
        CARD 13 OF A LONG LIST, WHICH FILLS ITS PAGES AS IT COMES\n\
        CARD 14 OF A LONG LIST, WHICH FILLS ITS PAGES AS IT COMES\n\
        CARD 15 OF A LONG LIST, WHICH FILLS ITS PAGES AS IT COMES\n\
        CARD 16 OF A LONG LIST, WHICH FILLS ITS PAGES AS IT COMES\n\
        CARD 17 OF A LONG LIST, WHICH FILLS ITS PAGES AS IT COMES\n\
        CARD 18 OF A LONG LIST, WHICH FILLS ITS PAGES AS IT COMES\n\
        CARD 19 OF A LONG LIST, WHICH FILLS ITS PAGES AS IT COMES\n\
        CARD 20 OF A LONG LIST, WHICH FILLS ITS PAGES AS IT COMES\n\
        CARD 21 OF A LONG LIST, WHICH FILLS ITS PAGES AS IT COMES\n\
        CARD 22 OF A LONG LIST, WHICH FILLS ITS PAGES AS IT COMES\n\
        CARD 23 OF A LONG LIST, WHICH FILLS ITS PAGES AS IT COMES\n\
        CARD 24 OF A LONG LIST, WHICH FILLS ITS PAGES AS IT COMES\n\
        LONG: LISTED 24 CARDS\n",
    tally: Tally {
        calls: 260,
        grants: 20,
        delays: [46, 53, 47, 42, 51, 54, 43, 41, 51, 45],
    },
};

#[test]
fn a_long_list_is_printed(rt: HostRuntime) {
    prints(&rt, rt.alloc(), &LONG);
}

const MIXED: Row = Row {
    deck: "\
        A STRAY CARD\n\
        #LIST FIRST\n\
        ONE\n\
        TWO\n\
        #JOB SQUARES\n\
        VAR I: INTEGER;\n\
        BEGIN\n\
        FOR I := 1 TO 4 DO BEGIN WRITEINT(I * I); WRITE(' ') END;\n\
        WRITEINT(-1)\n\
        END.\n\
        #END\n\
        \n\
        BETWEEN\n\
        #END\n\
        #RUN OLD PROGRAM\n\
        #LIST SECOND\n\
        #DATA\n\
        #END\n\
        #job case\n\
        VAR I: INTEGER;\n\
        BEGIN\n\
        FOR I := 1 TO 5 DO\n\
        CASE I OF\n\
        1, 3, 5: WRITE('O');\n\
        2, 4: BEGIN WRITE('E'); WRITE(NL) END\n\
        END\n\
        END.\n\
        #DATA\n\
        UNREAD\n\
        #LIST LAST\n",
    paper: "\
        1 CARDS SKIPPED\n\
        JOB FIRST\n\
        ONE\n\
        TWO\n\
        FIRST: LISTED 2 CARDS\n\
        JOB SQUARES\n\
        1 4 9 16 -1\n\
        SQUARES: TERMINATED\n\
        2 CARDS SKIPPED\n\
        JOB OLD\n\
        OLD: NO FILE\n\
        JOB SECOND\n\
        SECOND: BAD CONTROL CARD 1\n\
        JOB CASE\n\
        OE\n\
        OE\n\
        O\n\
        CASE: TERMINATED\n\
        JOB LAST\n\
        LAST: LISTED 0 CARDS\n",
    tally: Tally {
        calls: 323,
        grants: 37,
        delays: [72, 64, 65, 65, 64, 66, 76, 65, 67, 67],
    },
};

#[test]
fn mixed_jobs_are_printed(rt: HostRuntime) {
    prints(&rt, rt.alloc(), &MIXED);
}

const SEVERAL: Row = Row {
    deck: "\
        #LIST TEA\n\
        BLACK\n\
        \x20 GREEN\n\
        #list milk\n\
        #END\n\
        BETWEEN TWO GROUPS\n\
        #LIST SUGAR\n\
        WHITE\n\
        #NOTE\n\
        BROWN\n\
        #END\n",
    paper: "\
        JOB TEA\n\
        BLACK\n\
        \x20 GREEN\n\
        TEA: LISTED 2 CARDS\n\
        JOB MILK\n\
        MILK: LISTED 0 CARDS\n\
        1 CARDS SKIPPED\n\
        JOB SUGAR\n\
        WHITE\n\
        SUGAR: BAD CONTROL CARD 2\n",
    tally: Tally {
        calls: 165,
        grants: 20,
        delays: [28, 36, 36, 33, 32, 32, 31, 32, 33, 29],
    },
};

#[test]
fn several_lists_are_printed(rt: HostRuntime) {
    prints(&rt, rt.alloc(), &SEVERAL);
}

const SKIPPED: Row = Row {
    deck: "X\n\n#LIST A\n",
    paper: "1 CARDS SKIPPED\nJOB A\nA: LISTED 0 CARDS\n",
    tally: Tally {
        calls: 103,
        grants: 16,
        delays: [27, 21, 22, 20, 22, 22, 19, 21, 24, 23],
    },
};

#[test]
fn skipped_cards_are_printed(rt: HostRuntime) {
    prints(&rt, rt.alloc(), &SKIPPED);
}

const SPOILED: Row = Row {
    deck: "\
        #LIST A\n\
        THE FIRST CARD\n\
        XXXXXXXXXXXXXXXXXXXXXXXXXXXXXXXXXXXXXXXXXXXXXXXXXXXXXXXXXXXXXXXXXXXXXXXXXXXXXXXXX\n\
        THE THIRD CARD\n\
        #END\n",
    paper: "JOB A\nTHE FIRST CARD\nA: SPOILED CARD 2\n",
    tally: Tally {
        calls: 92,
        grants: 12,
        delays: [13, 16, 13, 17, 18, 13, 18, 17, 17, 20],
    },
};

#[test]
fn spoiled_cards_are_printed(rt: HostRuntime) {
    prints(&rt, rt.alloc(), &SPOILED);
}
