// Runs in which one page of a spool is damaged as it is read.
ghost use Rattle.std.specs.Prelude.{◌≡◌, ◌<◌, ◌≤◌, IfOk};

use crate::device_tests::{COMMANDS, eight_lines};
use crate::failure_tests::eight_printed;
use crate::made_area::{formatted, readable};
use crate::running::{Counted, run_over, sink, source, spool};
use solo_base::Cause;
use solo_cli::Refusal;
use solo_devices::{Area, HurtArea, SureArea};
use std::alloc::Global;
use std::process::Abort;
use std::sync::Wait;
use std::test::Fail;
use std::thread::Threads;

/// The pages of a spool's area.
const PAGES: u16 = 2;

/// An area whose page of this place, from 0, has this byte at `at` as it is read first.
fn hurt_area(alloc: Global, page: u16, at: u16, byte: u8) -> Result<HurtArea, Fail>
    requires { at < 512 }
    ensures { IfOk result (λ area. ⟦<HurtArea as Area>⟧.size area ≡ 2) }
{
    let read = u64::from(page) + 1;
    match SureArea::new(alloc, PAGES) {
        Ok(area) => Ok(HurtArea::new(area, read, at, byte)),
        Err(_) => Err("no memory".into()),
    }
}

/// Whether the list of eight lines ends so over these areas, and the paper has a part of the whole.
fn is_damaged<I: Area + Counted + Drop + Send, O: Area + Counted + Drop + Send>(
    rt: &(impl Threads + Wait + Sync + AllocGlobal + Abort),
    words: &[&str],
    input: I,
    output: O,
    damaged: Cause,
) -> Result<bool, Fail>
    requires input { (0 < I.size input) × (I.size input ≤ 256) }
    requires output { (0 < O.size output) × (O.size output ≤ 256) }
{
    let alloc = rt.alloc();
    let lines = eight_lines(alloc)?;
    let deck = source(rt, alloc, lines.as_slice(), 512, 0)?;
    let files = readable(alloc, formatted(alloc)?, 0)?;
    let came = run_over(rt, words, deck, sink(alloc, 0)?, files, input, output)?;
    Ok(
        came.status == 8
            && came.cause == Some(Refusal::Fault(damaged))
            && eight_printed(alloc)?.starts_with(came.paper.as_slice()),
    )
}

/// Whether such a page of the input spool, and one of the output spool, in a run of its own, is refused so.
fn are_damaged(
    rt: &(impl Threads + Wait + Sync + AllocGlobal + Abort),
    words: &[&str],
    page: u16,
    hurt: (u16, u8),
    damaged: Cause,
) -> Result<bool, Fail>
    requires { hurt.0 < 512 }
{
    let alloc = rt.alloc();
    let (at, byte) = hurt;
    let sure = spool(rt, alloc, PAGES, 0, 0)?;
    if !is_damaged(rt, words, hurt_area(alloc, page, at, byte)?, sure, damaged)? {
        return Ok(false);
    }
    let sure = spool(rt, alloc, PAGES, 0, 0)?;
    is_damaged(rt, words, sure, hurt_area(alloc, page, at, byte)?, damaged)
}

/// Each of two pages of each spool has this byte at `at` as it is read, in a run of its own: it then has this
/// number, or its own where there is none, and is refused at this place.
fn each_page_is_damaged(
    rt: &(impl Threads + Wait + Sync + AllocGlobal + Abort),
    at: u16,
    byte: u8,
    number: Option<u16>,
    place: u16,
) -> Result<(), Fail> {
    assert!(rt; at < 512);
    for words in COMMANDS {
        for page in 0..2u16 {
            let damaged = Cause::Damaged {
                expected: page,
                found: number.unwrap_or(page),
                at: place,
            };
            let is = are_damaged(rt, words, page, (at, byte), damaged)?;
            assert!(rt; is, "{page} {at}");
        }
    }
    Ok(())
}

// Both pages hold more than one item, and neither is full.
#[test]
fn each_place_of_a_page_may_be_damaged(rt: HostRuntime) -> Result<(), Fail> {
    for (at, byte, number, place) in [
        (1, 9, Some(9), 0),
        (2, 2, None, 2),
        (3, 1, None, 3),
        (4, 3, None, 4),
        (7, 127, None, 6),
        (511, 1, None, 511),
    ] {
        each_page_is_damaged(&rt, at, byte, number, place)?;
    }
    Ok(())
}
