// Whole runs over memory: whichever process goes first, the paper is the one-thread output.

use crate::failing::NONE_FAILS;
use crate::made_files::no_files;
use crate::runs::{By, DONE, Setting, run};
use network_run::{Counts, Rule};
use std::process::Abort;
use std::sync::Wait;
use std::test::Fail;
use std::thread::Threads;

// What a run of this rule counts; all are done.
fn counts<R: Threads + Wait + Sync + AllocGlobal + Abort>(
    rt: &R,
    deck: &str,
    pages: (u16, u16),
    rule: Rule,
    paper: Option<&str>,
) -> Result<Option<Counts>, Fail> {
    let setting = Setting {
        deck: deck.as_bytes(),
        piece: 7,
        pages,
        failing: NONE_FAILS,
    };
    let came = run(rt, By::Core(rule), setting, no_files(rt, rt.alloc()))?;
    assert!(rt; came.outcomes == DONE);
    if let Some(paper) = paper {
        assert_eq!(rt; came.paper.as_slice(), paper.as_bytes());
    }
    Ok(came.counts)
}

const LISTING: &str = "#LIST A\nHELLO\n#END\n";

const LISTED: Option<&str> = Some("JOB A\nHELLO\nA: LISTED 1 CARDS\n");

fn counted(events: u64, delays: u64, grants: u64) -> Option<Counts> {
    Some(Counts {
        events,
        delays,
        grants,
    })
}

#[test]
fn a_listing_is_printed(rt: HostRuntime) -> Result<(), Fail> {
    for (rule, events, delays) in [(Rule::Least, 51, 6), (Rule::Cyclic { last: 5 }, 54, 9)] {
        let counts = counts(&rt, LISTING, (256, 256), rule, LISTED)?;
        assert_eq!(rt; counts, counted(events, delays, 4));
    }
    Ok(())
}

#[test]
fn schedules_tell_runs_apart(rt: HostRuntime) -> Result<(), Fail> {
    for (number, events, delays) in [
        (0, 51, 6),
        (1, 52, 7),
        (2, 52, 7),
        (3, 53, 8),
        (4, 52, 7),
        (5, 51, 6),
        (6, 53, 8),
        (7, 54, 9),
        (8, 54, 9),
        (9, 54, 9),
    ] {
        let rule = Rule::Numbered { number };
        let counts = counts(&rt, LISTING, (256, 256), rule, LISTED)?;
        assert_eq!(rt; counts, counted(events, delays, 4), "{number}");
    }
    Ok(())
}

// Three cards, three lines and one job.
#[test]
fn no_run_is_longer_than_its_bound(rt: HostRuntime) -> Result<(), Fail> {
    let bound = 40 * (3 + 3 + 2) + 10;
    let mut longest = 0;
    for number in 0..100u32 {
        let rule = Rule::Numbered { number };
        if let Some(counts) = counts(&rt, LISTING, (1, 1), rule, LISTED)? {
            longest = counts.events.max(longest);
        }
    }
    assert!(rt; longest >= 54);
    assert!(rt; longest <= bound);
    Ok(())
}

// Decks, each with the number of a schedule, the pages of the two spools, and the events, delays and grants
// that the plain simulation counts.
const SHORT: [(&str, u32, (u16, u16), [u64; 3]); 10] = [
    (
        "\nXXXXXXXXXXXXXXXXXXXXXXXXXXXXXXXXXXXXXXXXXXXXXXXXXXXXXXXXXXXXXXXXXXXXXXXXXXXXXXXX\n#bad\n",
        196844699,
        (1, 2),
        [46, 7, 4],
    ),
    (
        "  PLAIN  \n  PLAIN  \nXXXXXXXXXXXXXXXXXXXXXXXXXXXXXXXXX\n",
        1193222565,
        (2, 1),
        [47, 8, 4],
    ),
    (
        "XXXXXX\n#JOB J\n#END\n\n#DATA\n#END\n\n\n",
        1240372477,
        (2, 2),
        [75, 12, 4],
    ),
    (
        "#LIST A\n#LIST A\n  PLAIN  \n",
        501892721,
        (256, 2),
        [58, 7, 4],
    ),
    (
        "#LIST BC\nXXXXXXXXXXXXXXXXXXXXXXXXXXXXXXXXXXXXXX\n#DATA\n",
        1301709977,
        (1, 1),
        [50, 5, 4],
    ),
    (
        "#JOB J\n#LIST BC\nXXXXXXXXXXXXXXXXXXXXXXXXXXXXXXXXXXXXXXXXXXXXXXXXXXXXXXXXX\n",
        1318286290,
        (1, 2),
        [61, 10, 4],
    ),
    (
        "YYYYYYYYYYYYYYYYYYYYYYYYYYYYYYYYYYYYYYYYYYYYYYYYYYYYYYYYYYYYYYYYYYYYYYYYYYYYYYYYY\n",
        347712949,
        (256, 256),
        [38, 5, 4],
    ),
    (
        "  PLAIN  \nXXXXXXXXXXXXXXXXXXXXXXXXXXXXXXXXXXXXXXX\n\n#DATA\n\
         XXXXXXXXXXXXXXXXXXXXXXXXXXXXXXXXXXXXXXX\n#LIST A\n#LIST A\n\n",
        1425724992,
        (1, 1),
        [82, 13, 4],
    ),
    ("#JOB J\n#END\n#END\n", 1773264063, (1, 1), [52, 7, 4]),
    ("  PLAIN  \n", 1369597099, (1, 2), [39, 6, 4]),
];

const LONG: [(&str, u32, (u16, u16), [u64; 3]); 10] = [
    (
        "XXXXXXXXXXXXXXXXXXXXXXXXXXXXXXX\nXXXXXXXXXXXXXXXXXXXXXXXXXXXXXXX\n#END\n",
        589833353,
        (1, 2),
        [45, 6, 4],
    ),
    (
        "#LIST BC\n  PLAIN  \nXXXXXXXXXXXXXXXXXXXXXXXXXXXXXXXXXXXXXXXXXXXXXXXXXXX\n",
        1351531223,
        (1, 256),
        [57, 9, 4],
    ),
    (
        "XXXX\n#LIST list9\nXXXX\nXXXX\n\n#JOB J\n#LIST list9\nXXXX\n",
        326801271,
        (1, 256),
        [96, 12, 4],
    ),
    (
        "XXXXXXXXXXXXXXXXXXXXXXXXXXXXXXXXXXXXXXXX\n#bad\n#END\n#END\n#END\n#END\n#END\n\
         XXXXXXXXXXXXXXXXXXXXXXXXXXXXXXXXXXXXXXXX\n",
        1544862794,
        (256, 256),
        [62, 8, 4],
    ),
    (
        "#LIST BC\n\n\n\n\n  PLAIN  \n#LIST BC\n\n",
        1495538832,
        (2, 2),
        [99, 18, 4],
    ),
    (
        "\nXXXXXXXXXXXXXXXXXXXXXXXXXXXXXXXXXXXXXXXXXXXXXXXX\n#JOB J\n",
        1352774131,
        (1, 2),
        [52, 7, 4],
    ),
    (
        "#LIST A\n  PLAIN  \n\
         YYYYYYYYYYYYYYYYYYYYYYYYYYYYYYYYYYYYYYYYYYYYYYYYYYYYYYYYYYYYYYYYYYYYYYYYYYYYYYYYY\nXX\n\
         #END\nXX\nXX\n#LIST A\n\n#END\n#LIST A\n\nXX\nXX\n#LIST A\nXX\n\n#END\nXX\n#LIST A\nXX\n\
         #LIST A\n#LIST A\nXX\nXX\nXX\n#JOB J\n\n#LIST A\n#END\n#bad\n#LIST A\n#LIST A\n#END\nXX\n\
         XX\nXX\nXX\n#LIST A\n#JOB J\n#END\n#END\nXX\n#LIST A\n#LIST A\nXX\n#END\n#END\nXX\nXX\n\
         XX\n#DATA\n\nXX\n#JOB J\nXX\n#JOB J\n\
         YYYYYYYYYYYYYYYYYYYYYYYYYYYYYYYYYYYYYYYYYYYYYYYYYYYYYYYYYYYYYYYYYYYYYYYYYYYYYYYYY\n\
         #JOB J\nXX\n",
        1148854960,
        (256, 256),
        [464, 86, 6],
    ),
    (
        "XXXXXXXXXXXXXXXXXXXXXXXXXXXXXXXXXXXXXXXXX\nXXXXXXXXXXXXXXXXXXXXXXXXXXXXXXXXXXXXXXXXX\n\
         XXXXXXXXXXXXXXXXXXXXXXXXXXXXXXXXXXXXXXXXX\nXXXXXXXXXXXXXXXXXXXXXXXXXXXXXXXXXXXXXXXXX\n\
         #LIST list9\n#JOB J\n  PLAIN  \nXXXXXXXXXXXXXXXXXXXXXXXXXXXXXXXXXXXXXXXXX\n\
         XXXXXXXXXXXXXXXXXXXXXXXXXXXXXXXXXXXXXXXXX\n  PLAIN  \n#LIST list9\n#LIST list9\n\
         #LIST list9\n#JOB J\n#DATA\nXXXXXXXXXXXXXXXXXXXXXXXXXXXXXXXXXXXXXXXXX\n\
         XXXXXXXXXXXXXXXXXXXXXXXXXXXXXXXXXXXXXXXXX\n#LIST list9\n\
         XXXXXXXXXXXXXXXXXXXXXXXXXXXXXXXXXXXXXXXXX\nXXXXXXXXXXXXXXXXXXXXXXXXXXXXXXXXXXXXXXXXX\n",
        1672467304,
        (2, 1),
        [177, 30, 6],
    ),
    (
        "  PLAIN  \n#END\n#LIST A\n#LIST A\nXXXXXXXXXXXXXXXXXXXXXXXXXXXXXXXXXXXXXXXXXXXX\n#JOB J\n\
         #LIST A\nXXXXXXXXXXXXXXXXXXXXXXXXXXXXXXXXXXXXXXXXXXXX\n\
         XXXXXXXXXXXXXXXXXXXXXXXXXXXXXXXXXXXXXXXXXXXX\n\
         XXXXXXXXXXXXXXXXXXXXXXXXXXXXXXXXXXXXXXXXXXXX\n#END\n\
         XXXXXXXXXXXXXXXXXXXXXXXXXXXXXXXXXXXXXXXXXXXX\n#LIST A\n  PLAIN  \n#END\n\
         XXXXXXXXXXXXXXXXXXXXXXXXXXXXXXXXXXXXXXXXXXXX\n\
         XXXXXXXXXXXXXXXXXXXXXXXXXXXXXXXXXXXXXXXXXXXX\n\
         XXXXXXXXXXXXXXXXXXXXXXXXXXXXXXXXXXXXXXXXXXXX\n\
         XXXXXXXXXXXXXXXXXXXXXXXXXXXXXXXXXXXXXXXXXXXX\n\
         XXXXXXXXXXXXXXXXXXXXXXXXXXXXXXXXXXXXXXXXXXXX\n",
        1509437510,
        (1, 2),
        [181, 31, 6],
    ),
    (
        "#JOB J\n#END\nXXXXXXXXXXXXXXXXXXXXXXXXXXXXXXXXXXXXXXX\n\
         XXXXXXXXXXXXXXXXXXXXXXXXXXXXXXXXXXXXXXX\nXXXXXXXXXXXXXXXXXXXXXXXXXXXXXXXXXXXXXXX\n\
         XXXXXXXXXXXXXXXXXXXXXXXXXXXXXXXXXXXXXXX\n#LIST list9\n#LIST list9\n#END\n\
         XXXXXXXXXXXXXXXXXXXXXXXXXXXXXXXXXXXXXXX\nXXXXXXXXXXXXXXXXXXXXXXXXXXXXXXXXXXXXXXX\n\
         XXXXXXXXXXXXXXXXXXXXXXXXXXXXXXXXXXXXXXX\nXXXXXXXXXXXXXXXXXXXXXXXXXXXXXXXXXXXXXXX\n\
         XXXXXXXXXXXXXXXXXXXXXXXXXXXXXXXXXXXXXXX\n\n#DATA\n\
         XXXXXXXXXXXXXXXXXXXXXXXXXXXXXXXXXXXXXXX\n#END\nXXXXXXXXXXXXXXXXXXXXXXXXXXXXXXXXXXXXXXX\n\
         XXXXXXXXXXXXXXXXXXXXXXXXXXXXXXXXXXXXXXX\n",
        1475216845,
        (256, 2),
        [145, 25, 6],
    ),
];

#[test]
fn runs_agree_with_a_plain_simulation(rt: HostRuntime) -> Result<(), Fail> {
    for (deck, number, pages, [events, delays, grants]) in SHORT {
        let counts = counts(&rt, deck, pages, Rule::Numbered { number }, None)?;
        assert_eq!(rt; counts, counted(events, delays, grants), "{number}");
    }
    Ok(())
}

#[test]
fn longer_runs_agree_with_a_plain_simulation(rt: HostRuntime) -> Result<(), Fail> {
    for (deck, number, pages, [events, delays, grants]) in LONG {
        let counts = counts(&rt, deck, pages, Rule::Numbered { number }, None)?;
        assert_eq!(rt; counts, counted(events, delays, grants), "{number}");
    }
    Ok(())
}
