// Decks that are made, run in memory and counted.
ghost use Rattle.std.specs.Prelude.{◌≡◌, IfOk};

use crate::made_area::{formatted, readable, write_page, zeros};
use crate::running::{
    Failing, Setting, run, run_over, run_over_files, sink, source, spool, undisturbed,
};
use made_deck::make_deck;
use solo_base::{Cause, Page};
use solo_devices::{Area, BlankArea, SureArea};
use std::alloc::Global;
use std::process::Abort;
use std::sync::Wait;
use std::test::Fail;
use std::thread::Threads;

const MAKE: &[&str] = &["make", "--number", "0"];

/// What is told of the deck of 0 and of its run, and of the deck of 1000 and its run.
const OF_0: &str = "JOBS 100\nCARDS 569\nLINES 598\nCHARACTERS 3219\n\
    COUNTS: 4531 EVENTS, 805 DELAYS, 48 GRANTS\n";

const OF_1000: &str = "JOBS 1100\nCARDS 6237\nLINES 6598\nCHARACTERS 37753\n\
    COUNTS: 49716 EVENTS, 8862 DELAYS, 520 GRANTS\n";

/// The first read of the deck would fail.
const UNREAD: Failing = Failing {
    deck_read: 1,
    input_write: 0,
    input_read: 0,
    output_write: 0,
    output_read: 0,
    paper_write: 0,
    files_read: 0,
};

/// A deck that `make` reads nothing of, where these calls would fail.
fn over(failing: Failing) -> Setting<'static> {
    Setting {
        failing,
        ..undisturbed(b"X\n")
    }
}

/// What `core` prints of the deck of 0 under the schedule of 0.
fn printed(rt: &(impl Threads + Wait + Sync + AllocGlobal + Abort)) -> Result<Vec<u8>, Fail> {
    let deck = make_deck(rt.alloc(), 0).ok().expect(rt, "ample memory");
    let came = run(
        rt,
        &["core", "--schedule", "0"],
        undisturbed(deck.as_slice()),
    )?;
    Ok(came.paper)
}

/// Whether `make` prints these numbers of the deck of this number, and reads nothing.
fn is_made(
    rt: &(impl Threads + Wait + Sync + AllocGlobal + Abort),
    digits: &str,
    numbers: &str,
) -> Result<bool, Fail> {
    let came = run(rt, &["make", "--number", digits], over(UNREAD))?;
    Ok(came.has(numbers.as_bytes(), b"") && came.failures.deck == 0)
}

#[test]
fn the_deck_of_0_has_its_numbers_and_counts(rt: HostRuntime) -> Result<(), Fail> {
    assert!(rt; is_made(&rt, "0", OF_0)?);
    Ok(())
}

#[test]
fn the_deck_of_1000_has_its_numbers_and_counts(rt: HostRuntime) -> Result<(), Fail> {
    assert!(rt; is_made(&rt, "1000", OF_1000)?);
    Ok(())
}

#[test]
fn a_made_deck_has_the_lines_and_counts_that_core_prints(rt: HostRuntime) -> Result<(), Fail> {
    let alloc = rt.alloc();
    let printed = printed(&rt)?;
    let printed = str::from_utf8(printed.as_slice()).ok().expect(&rt, "text");
    let (reports, counts) = printed.split_once("COUNTS").expect(&rt, "counts");
    let lines = reports.lines().count();
    let characters = reports.len() - lines;
    let end = format!(in alloc; "LINES {lines}\nCHARACTERS {characters}\nCOUNTS{counts}")?;
    assert!(rt; OF_0.ends_with(end.as_str()));
    Ok(())
}

/// The numbers of the deck of 0, without the counts of its run.
const UNCOUNTED: &[u8] = b"JOBS 100\nCARDS 569\nLINES 598\nCHARACTERS 3219\n";

#[test]
fn a_failed_write_ends_the_numbers(rt: HostRuntime) -> Result<(), Fail> {
    for (paper_write, whole) in [(1, b"".as_slice()), (5, UNCOUNTED)] {
        let failing = Failing {
            paper_write,
            ..UNREAD
        };
        let came = run(&rt, MAKE, over(failing))?;
        assert_eq!(rt; came.status, 4);
        assert_eq!(rt; came.paper.as_slice(), whole);
    }
    Ok(())
}

#[test]
fn a_failed_area_leaves_the_paper(rt: HostRuntime) -> Result<(), Fail> {
    for (input_write, output_read) in [(1, 0), (0, 2)] {
        let failing = Failing {
            input_write,
            output_read,
            ..UNREAD
        };
        let came = run(&rt, MAKE, over(failing))?;
        assert!(rt; came.is_refused(3, Cause::DiskFault));
        assert_eq!(rt; came.failures.deck, 0);
    }
    Ok(())
}

#[test]
fn a_damaged_page_leaves_the_paper(rt: HostRuntime) -> Result<(), Fail> {
    let alloc = rt.alloc();
    let came = run_over(
        &rt,
        MAKE,
        source(&rt, alloc, b"X\n", 512, 1)?,
        sink(alloc, 0)?,
        readable(alloc, formatted(alloc)?, 0)?,
        BlankArea::new(256),
        spool(&rt, alloc, 256, 0, 0)?,
    )?;
    assert_eq!(rt; came.status, 8);
    assert!(rt; came.paper.is_empty());
    Ok(())
}

/// Whether `make` ends so over these files, of which this read fails, before it reads the deck, uses a
/// spool or prints.
fn is_refused(
    rt: &(impl Threads + Wait + Sync + AllocGlobal + Abort),
    files: SureArea,
    read: u64,
    status: u8,
    cause: Cause,
) -> Result<bool, Fail>
    requires { ⟦<SureArea as Area>⟧.size files ≡ 4288 }
{
    let failing = Failing {
        input_write: 1,
        input_read: 1,
        output_write: 1,
        output_read: 1,
        ..UNREAD
    };
    let files = readable(rt.alloc(), files, read)?;
    let came = run_over_files(rt, MAKE, over(failing), files)?;
    let failures = came.failures;
    Ok(
        came.is_refused(status, cause)
            && failures.deck == 0
            && failures.input == 0
            && failures.output == 0,
    )
}

/// An area without a file, of which this page is of ones.
fn broken(alloc: Global, page: u16) -> Result<SureArea, Fail>
    ensures { IfOk result (λ area. ⟦<SureArea as Area>⟧.size area ≡ 4288) }
{
    let mut area = formatted(alloc)?;
    write_page(&mut area, page, &Page([1; 512]))?;
    Ok(area)
}

#[test]
fn files_that_break_the_format_come_first(rt: HostRuntime) -> Result<(), Fail> {
    let alloc = rt.alloc();
    assert!(rt; is_refused(&rt, zeros(alloc)?, 0, 7, Cause::NotSolo { page: 0 })?);
    for page in [3, 17] {
        assert!(rt; is_refused(&rt, broken(alloc, page)?, 0, 7, Cause::NotSolo { page })?);
    }
    Ok(())
}

#[test]
fn a_failed_read_of_the_files_comes_first(rt: HostRuntime) -> Result<(), Fail> {
    assert!(rt; is_refused(&rt, zeros(rt.alloc())?, 1, 3, Cause::DiskFault)?);
    Ok(())
}
