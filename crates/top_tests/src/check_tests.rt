// Descriptions of access rights that are judged.
use crate::running::{Failing, NONE_FAILS, Setting, run, undisturbed};
use solo_base::Cause;
use std::process::Abort;
use std::sync::Wait;
use std::test::Fail;
use std::thread::Threads;

/// Descriptions and the lines of their judgements, worked out by hand.
const JUDGED: [(&str, &str); 12] = [
    ("", "ACCEPTED 0 MONITORS, 0 PROCESSES\n"),
    (
        "MONITOR A\nMONITOR B\nPROCESS P\nRIGHT P A B\nRIGHT A B\nORDER A B\n",
        "ACCEPTED 2 MONITORS, 1 PROCESSES\n",
    ),
    (
        "MONITOR A\nMONITOR B\nPROCESS P\nRIGHT P A B\nRIGHT A B\nORDER B A\n",
        "RIGHT OF A TO B IS BACKWARD\n",
    ),
    (
        "MONITOR A\nMONITOR B\nPROCESS P\nRIGHT P A B\nRIGHT A B\nORDER A\n",
        "NOT ORDERED: B\n",
    ),
    (
        "MONITOR A\nRIGHT A A\nORDER A\n",
        "RIGHT OF A TO A IS BACKWARD\n",
    ),
    ("MONITOR A\nPROCESS A\n", "CARD 2: DECLARED TWICE\n"),
    ("MONITOR A\r\norder a", "ACCEPTED 1 MONITORS, 0 PROCESSES\n"),
    ("\nMONITOR A\n\nORDER\n", "CARD 4: BAD LINE\n"),
    ("MONITOR\tA\n", "CARD 1: BAD LINE\n"),
    ("MONITOR A\nRIGHT P A\n", "CARD 2: UNKNOWN NAME\n"),
    ("MONITOR A\nORDER A A\n", "CARD 2: ORDERED TWICE\n"),
    (
        "MONITOR ABCDEFGHIJKL\nRIGHT ABCDEFGHIJKL ABCDEFGHIJKL\nORDER ABCDEFGHIJKL\n",
        "RIGHT OF ABCDEFGHIJKL TO ABCDEFGHIJKL IS BACKWARD\n",
    ),
];

/// The first call of each area would fail.
const NO_AREA: Failing = Failing {
    input_write: 1,
    input_read: 1,
    output_write: 1,
    output_read: 1,
    files_read: 1,
    ..NONE_FAILS
};

/// Whether a description has this line, and no area is used.
fn is_judged(
    rt: &(impl Threads + Wait + Sync + AllocGlobal + Abort),
    deck: &str,
    line: &str,
) -> Result<bool, Fail> {
    let over = Setting {
        failing: NO_AREA,
        ..undisturbed(deck.as_bytes())
    };
    let came = run(rt, &["check"], over)?;
    Ok(came.has(line.as_bytes(), b"") && came.failures.files == 0)
}

#[test]
fn a_description_has_the_line_of_its_judgement(rt: HostRuntime) -> Result<(), Fail> {
    for (deck, line) in JUDGED {
        assert!(rt; is_judged(&rt, deck, line)?, "{deck}");
    }
    Ok(())
}

/// Whether a description over failing devices is refused with this status and cause.
fn is_refused(
    rt: &(impl Threads + Wait + Sync + AllocGlobal + Abort),
    failing: Failing,
    status: u8,
    cause: Cause,
) -> Result<bool, Fail> {
    let over = Setting {
        failing,
        ..undisturbed(b"MONITOR A\nORDER A\n")
    };
    let came = run(rt, &["check"], over)?;
    Ok(came.is_refused(status, cause))
}

#[test]
fn a_read_that_fails_is_told(rt: HostRuntime) -> Result<(), Fail> {
    let failing = Failing {
        deck_read: 1,
        ..NONE_FAILS
    };
    assert!(rt; is_refused(&rt, failing, 2, Cause::ReadFault)?);
    Ok(())
}

#[test]
fn a_line_that_is_not_printed_is_told(rt: HostRuntime) -> Result<(), Fail> {
    let failing = Failing {
        paper_write: 1,
        ..NONE_FAILS
    };
    assert!(rt; is_refused(&rt, failing, 4, Cause::PrintFault)?);
    Ok(())
}
