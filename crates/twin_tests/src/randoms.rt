// Random decks, each with a schedule and spools of a few pages: paper and counts are those of the plain
// simulation (`oracle/twin --random 400 7`).

use crate::schedules::{has_printed, under};
use network_run::Counts;

struct Run {
    deck: &'static str,
    number: u32,
    pages: [u16; 4],
    paper: &'static str,
    counts: [u64; 3],
}

const RUNS: [Run; 10] = [
    Run {
        deck: "\
            XXXXXXXXXXXXXXXXXXX\n\
            #LIST BC\n\
            XXXXXXXXXXXXXXXXXXX\n\
            XXXXXXXXXXXXXXXXXXX\n\
            #LIST BC\n\
            XXXXXXXXXXXXXXXXXXX\n\
            #LIST BC\n\
            XXXXXXXXXXXXXXXXXXX\n",
        number: 300026767,
        pages: [1, 1, 256, 2],
        paper: "\
            1 CARDS SKIPPED\n\
            JOB BC\n\
            XXXXXXXXXXXXXXXXXXX\n\
            XXXXXXXXXXXXXXXXXXX\n\
            BC: LISTED 2 CARDS\n\
            JOB BC\n\
            XXXXXXXXXXXXXXXXXXX\n\
            BC: LISTED 1 CARDS\n\
            JOB BC\n\
            XXXXXXXXXXXXXXXXXXX\n\
            BC: LISTED 1 CARDS\n",
        counts: [212, 36, 24],
    },
    Run {
        deck: "\
            \x20 PLAIN  \n\
            \x20 PLAIN  \n\
            #END\n\
            #LIST A\n\
            XXXXXXXXXXXXXXXXXXXXXXXXXXXXXXXXXXXXXXXXXXXXXXXXXXXXX\n\
            #bad\n\
            #END\n\
            XXXXXXXXXXXXXXXXXXXXXXXXXXXXXXXXXXXXXXXXXXXXXXXXXXXXX\n",
        number: 520398591,
        pages: [2, 2, 2, 256],
        paper: "\
            3 CARDS SKIPPED\n\
            JOB A\n\
            XXXXXXXXXXXXXXXXXXXXXXXXXXXXXXXXXXXXXXXXXXXXXXXXXXXXX\n\
            A: BAD CONTROL CARD 2\n\
            1 CARDS SKIPPED\n",
        counts: [147, 23, 16],
    },
    Run {
        deck: "#LIST A\n",
        number: 1098919727,
        pages: [2, 1, 256, 1],
        paper: "JOB A\nA: LISTED 0 CARDS\n",
        counts: [91, 14, 12],
    },
    Run {
        deck: "\
            #END\n\
            \x20 PLAIN  \n\
            \x20 PLAIN  \n\
            XXXXXXXXXXXXXXXXXXXXXXXXXXXXXXXXXXXXXXXXXXXXXXXXXXXXXXXX\n\
            #END\n\
            #DATA\n\
            #LIST A\n\
            XXXXXXXXXXXXXXXXXXXXXXXXXXXXXXXXXXXXXXXXXXXXXXXXXXXXXXXX\n",
        number: 66299230,
        pages: [1, 256, 2, 256],
        paper: "\
            6 CARDS SKIPPED\n\
            JOB A\n\
            XXXXXXXXXXXXXXXXXXXXXXXXXXXXXXXXXXXXXXXXXXXXXXXXXXXXXXXX\n\
            A: LISTED 1 CARDS\n",
        counts: [149, 28, 16],
    },
    Run {
        deck: "#END\n#LIST A\n#bad\n",
        number: 1132975115,
        pages: [256, 2, 256, 1],
        paper: "1 CARDS SKIPPED\nJOB A\nA: BAD CONTROL CARD 1\n",
        counts: [127, 24, 16],
    },
    Run {
        deck: "#bad\n#LIST A\n#LIST A\n",
        number: 233855216,
        pages: [2, 256, 256, 256],
        paper: "1 CARDS SKIPPED\nJOB A\nA: LISTED 0 CARDS\nJOB A\nA: LISTED 0 CARDS\n",
        counts: [154, 28, 20],
    },
    Run {
        deck: "\
            YYYYYYYYYYYYYYYYYYYYYYYYYYYYYYYYYYYYYYYYYYYYYYYYYYYYYYYYYYYYYYYYYYYYYYYYYYYYYYYYY\n\
            XXXXXXXXXXXXXXXXXXXXXXX\n\
            #LIST A\n",
        number: 1924198680,
        pages: [2, 2, 256, 256],
        paper: "2 CARDS SKIPPED\nJOB A\nA: LISTED 0 CARDS\n",
        counts: [124, 21, 16],
    },
    Run {
        deck: "#LIST A\nXXXXXXXXXXXXXXXXXXXXXXXXXXXXXXXXXXXXXXXXXXXXXXXXXXXXXXXXXXXXXXXXXXXXXXXXX\n#JOB J\n",
        number: 1420105846,
        pages: [256, 1, 2, 256],
        paper: "\
            JOB A\n\
            XXXXXXXXXXXXXXXXXXXXXXXXXXXXXXXXXXXXXXXXXXXXXXXXXXXXXXXXXXXXXXXXXXXXXXXXX\n\
            A: LISTED 1 CARDS\n\
            JOB J\n\
            J: SYNTAX ERROR IN LINE 1\n",
        counts: [133, 24, 16],
    },
    Run {
        deck: "#LIST A\n",
        number: 1395618102,
        pages: [256, 1, 256, 256],
        paper: "JOB A\nA: LISTED 0 CARDS\n",
        counts: [91, 14, 12],
    },
    Run {
        deck: "#LIST list9\nXXXXXXXXXXXXXXXXXXXXXXXXXXXXXXXXXXXXXXXXXXXXXXXXXXXXXXXXXXXXXXX\n  PLAIN  \n",
        number: 1680021786,
        pages: [256, 256, 1, 2],
        paper: "\
            JOB LIST9\n\
            XXXXXXXXXXXXXXXXXXXXXXXXXXXXXXXXXXXXXXXXXXXXXXXXXXXXXXXXXXXXXXX\n\
            \x20 PLAIN\n\
            LIST9: LISTED 2 CARDS\n",
        counts: [102, 13, 12],
    },
];

#[test]
fn random_decks_are_printed_and_counted_as_by_the_simulation(rt: HostRuntime) {
    for row in &RUNS {
        let came = under(&rt, rt.alloc(), row.deck.as_bytes(), row.pages, row.number);
        let [events, delays, grants] = row.counts;
        let counts = Counts {
            events,
            delays,
            grants,
        };
        has_printed(&rt, &came, row.paper.as_bytes());
        assert!(rt; came.counts == counts);
    }
}
