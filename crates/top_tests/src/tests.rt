// Decks, their papers and the counts of their runs, and words that are no command.

use crate::running::{Came, Failing, NONE_FAILS, Setting, run, undisturbed};
use solo_devices::Took;
use std::alloc::Global;
use std::process::Abort;
use std::sync::Wait;
use std::test::Fail;
use std::thread::Threads;

/// A card of 81 columns.
const WIDE: &str =
    "---------1---------2---------3---------4---------5---------6---------7---------8-";

/// Decks, and the papers that the rules of decks and reports give them.
const PAPERS: [(&str, &str); 33] = [
    ("", ""),
    ("#LIST A", "JOB A\nA: LISTED 0 CARDS\n"),
    (
        "#LIST A\nHELLO\n#END\n",
        "JOB A\nHELLO\nA: LISTED 1 CARDS\n",
    ),
    (
        "#list a\nHello\n#end\n",
        "JOB A\nHello\nA: LISTED 1 CARDS\n",
    ),
    (
        "#LiSt Sum1\nX\n#END\n",
        "JOB SUM1\nX\nSUM1: LISTED 1 CARDS\n",
    ),
    (
        "#LIST      A   \nX\n#END    \n",
        "JOB A\nX\nA: LISTED 1 CARDS\n",
    ),
    (
        "#LIST A\r\nHELLO\r\n#END\r\n",
        "JOB A\nHELLO\nA: LISTED 1 CARDS\n",
    ),
    ("#LIST A\nX\r\r\n#END\n", "JOB A\nA: SPOILED CARD 1\n"),
    (
        "#LIST A\n  X  \n\n#END\n",
        "JOB A\n  X\n\nA: LISTED 2 CARDS\n",
    ),
    (
        "#LIST A\nX\n#LIST B\nY\n#END\n",
        "JOB A\nX\nA: LISTED 1 CARDS\nJOB B\nY\nB: LISTED 1 CARDS\n",
    ),
    (
        "#LIST A\n#LIST B\n#END\n#END\n",
        "JOB A\nA: LISTED 0 CARDS\nJOB B\nB: LISTED 0 CARDS\n1 CARDS SKIPPED\n",
    ),
    ("X\n#LIST A", "1 CARDS SKIPPED\nJOB A\nA: LISTED 0 CARDS\n"),
    ("\n   \n\r\n", ""),
    ("X\n\nY\n", "2 CARDS SKIPPED\n"),
    ("#END\n#DATA\n#STOP\n", "3 CARDS SKIPPED\n"),
    ("A\tB\n\x7f\n~\n", "3 CARDS SKIPPED\n"),
    ("#LIST A\nA\tB\nC\n#END\n", "JOB A\nA: SPOILED CARD 1\n"),
    (
        "#LIST A\nX\n\x1f\n#END X\n#END\n",
        "JOB A\nX\nA: SPOILED CARD 2\n",
    ),
    (
        "#LIST A\nX\n#END X\n\t\n#END\n",
        "JOB A\nX\nA: BAD CONTROL CARD 2\n",
    ),
    (
        "#LIST A\n#DATA\nX\n#END\n",
        "JOB A\nA: BAD CONTROL CARD 1\n",
    ),
    ("#LIST A\n#\n#END\n", "JOB A\nA: BAD CONTROL CARD 1\n"),
    (
        "#LIST A\n# LIST B\n#END\n",
        "JOB A\nA: BAD CONTROL CARD 1\n",
    ),
    (
        "#LIST A\n #END\n#END\n",
        "JOB A\n #END\nA: LISTED 1 CARDS\n",
    ),
    (
        "#LIST A\nX\n#STOP\n#END\nY\n",
        "JOB A\nX\nA: BAD CONTROL CARD 2\n1 CARDS SKIPPED\n",
    ),
    (
        "#LIST A\t\nX\n#LIST B\n",
        "2 CARDS SKIPPED\nJOB B\nB: LISTED 0 CARDS\n",
    ),
    ("#LIST\n#LIST 1\n#LIST A B\n", "3 CARDS SKIPPED\n"),
    (
        "#LIST ABCDEFGHIJKLM\n#LIST ABCDEFGHIJKL\n",
        "1 CARDS SKIPPED\nJOB ABCDEFGHIJKL\nABCDEFGHIJKL: LISTED 0 CARDS\n",
    ),
    (
        "#JOB P\nbegin end.\n#DATA\n1\n#END\n",
        "JOB P\nP: TERMINATED\n",
    ),
    (
        "#job p 1000000\n\t\n#LIST A\nX\n#END\n",
        "JOB P\nP: SPOILED CARD 1\nJOB A\nX\nA: LISTED 1 CARDS\n",
    ),
    ("#JOB P 0\n#JOB P 1000001\n", "2 CARDS SKIPPED\n"),
    (
        "#RUN P F\n1\n#END\n2\n",
        "JOB P\nP: NO FILE\n1 CARDS SKIPPED\n",
    ),
    ("#RUN P\n#RUN P F 1\n", "2 CARDS SKIPPED\n"),
    (
        "#LIST A\n#END\n\n#LIST B\n#END\n\n",
        "JOB A\nA: LISTED 0 CARDS\nJOB B\nB: LISTED 0 CARDS\n",
    ),
];

/// Runs `batch` over a deck that comes in pieces of so many bytes.
fn batch(
    rt: &(impl Threads + Wait + Sync + AllocGlobal + Abort),
    deck: &[u8],
    piece: usize,
) -> Result<Came, Fail> {
    let setting = Setting {
        piece,
        ..undisturbed(deck)
    };
    run(rt, &["batch"], setting)
}

/// Whether the deck has this paper, however it is cut into pieces.
fn has_paper(
    rt: &(impl Threads + Wait + Sync + AllocGlobal + Abort),
    deck: &[u8],
    paper: &[u8],
) -> Result<bool, Fail> {
    for piece in [1, 2, 7, 512] {
        let came = batch(rt, deck, piece)?;
        if !came.has(paper, b"") {
            return Ok(false);
        }
    }
    Ok(true)
}

#[test]
fn a_listing_is_printed(rt: HostRuntime) -> Result<(), Fail> {
    let came = batch(&rt, LISTING, 512)?;
    assert!(rt; came.has(LISTED, b""));
    Ok(())
}

#[test]
fn each_deck_has_its_paper(rt: HostRuntime) -> Result<(), Fail> {
    for (deck, paper) in PAPERS {
        let has = has_paper(&rt, deck.as_bytes(), paper.as_bytes())?;
        assert!(rt; has, "{deck}");
    }
    Ok(())
}

#[test]
fn a_wide_card_is_spoiled(rt: HostRuntime) -> Result<(), Fail> {
    let deck = format!(in rt.alloc(); "#LIST A\nONE\n{WIDE}\nTHREE\n#END\n")?;
    assert!(rt; has_paper(&rt, deck.as_bytes(), b"JOB A\nONE\nA: SPOILED CARD 2\n")?);
    Ok(())
}

/// Runs these words over the listing, where this write of the paper fails.
fn unwritten(
    rt: &(impl Threads + Wait + Sync + AllocGlobal + Abort),
    texts: &[&str],
    paper_write: u64,
) -> Result<Came, Fail> {
    let failing = Failing {
        paper_write,
        ..NONE_FAILS
    };
    let setting = Setting {
        failing,
        ..undisturbed(LISTING)
    };
    run(rt, texts, setting)
}

#[test]
fn the_paper_ends_where_a_write_fails(rt: HostRuntime) -> Result<(), Fail> {
    let came = unwritten(&rt, &["batch"], 3)?;
    assert_eq!(rt; came.status, 4);
    assert_eq!(rt; came.paper.as_slice(), b"JOB A\nHELLO\n".as_slice());
    assert_eq!(rt; came.failures.paper, 1);
    Ok(())
}

/// One line of so many characters.
fn long_line(alloc: Global, characters: usize) -> Result<Vec<u8>, Fail> {
    Ok(b"X".repeat(alloc, characters)?)
}

#[test]
fn a_deck_has_16777216_bytes_at_most(rt: HostRuntime) -> Result<(), Fail> {
    let mut deck = long_line(rt.alloc(), 16_777_216)?;
    let whole = batch(&rt, deck.as_slice(), 512)?;
    assert!(rt; whole.has(b"1 CARDS SKIPPED\n", b""));
    deck.push(b'X')?;
    let longer = batch(&rt, deck.as_slice(), 512)?;
    assert_eq!(rt; longer.status, 6);
    assert!(rt; longer.paper.is_empty());
    Ok(())
}

/// Words that are no command.
const OTHERS: [&[&str]; 5] = [
    &[],
    &["core"],
    &["batch", "--schedule", "7"],
    &["core", "--schedule", "2147483648"],
    &["--", "batch"],
];

// Nothing is read or printed.
#[test]
fn other_words_are_no_command(rt: HostRuntime) -> Result<(), Fail> {
    for texts in OTHERS {
        let came = run(&rt, texts, undisturbed(b"X\n"))?;
        assert_eq!(rt; came.status, 1, "{texts:?}");
        assert!(rt; came.paper.is_empty());
        assert_eq!(rt; came.next, Took::Bytes(2));
    }
    Ok(())
}

/// A deck of one list, and its paper.
const LISTING: &[u8] = b"#LIST A\nHELLO\n#END\n";

const LISTED: &[u8] = b"JOB A\nHELLO\nA: LISTED 1 CARDS\n";

/// The numbers of its events, delays and grants under some schedules, as a plain simulation counts them.
const COUNTED: [(&str, &str); 6] = [
    ("0", "51 EVENTS, 6 DELAYS, 4 GRANTS"),
    ("1", "52 EVENTS, 7 DELAYS, 4 GRANTS"),
    ("3", "53 EVENTS, 8 DELAYS, 4 GRANTS"),
    ("5", "51 EVENTS, 6 DELAYS, 4 GRANTS"),
    ("7", "54 EVENTS, 9 DELAYS, 4 GRANTS"),
    ("0000000009", "54 EVENTS, 9 DELAYS, 4 GRANTS"),
];

#[test]
fn the_core_prints_what_it_counted(rt: HostRuntime) -> Result<(), Fail> {
    for (schedule, counts) in COUNTED {
        let came = run(&rt, &["core", "--schedule", schedule], undisturbed(LISTING))?;
        let paper = format!(in rt.alloc(); "JOB A\nHELLO\nA: LISTED 1 CARDS\nCOUNTS: {counts}\n")?;
        assert!(rt; came.has(paper.as_bytes(), b""), "{schedule}");
    }
    Ok(())
}

#[test]
fn an_option_stands_before_or_behind_its_command(rt: HostRuntime) -> Result<(), Fail> {
    for words in [
        &["core", "--schedule=7"].as_slice(),
        &["--schedule", "7", "core"].as_slice(),
    ] {
        let came = run(&rt, words, undisturbed(LISTING))?;
        assert_eq!(rt; came.status, 0);
    }
    Ok(())
}

// The third line is the last of the report, and the fourth that of the counts.
#[test]
fn a_failed_write_ends_the_core_without_counts(rt: HostRuntime) -> Result<(), Fail> {
    for (write, paper) in [(3, b"JOB A\nHELLO\n".as_slice()), (4, LISTED)] {
        let came = unwritten(&rt, &["core", "--schedule", "7"], write)?;
        assert_eq!(rt; came.status, 4);
        assert_eq!(rt; came.paper.as_slice(), paper);
    }
    Ok(())
}
