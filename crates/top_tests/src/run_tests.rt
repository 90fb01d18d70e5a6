// Decks with jobs of files, by threads and by the core.
ghost use Rattle.std.specs.Prelude.{◌≡◌};

use crate::made_area::{code, formatted, page_of, readable, with_file, write_page};
use crate::running::{run_over_files, undisturbed};
use disk_layout::FileKind;
use solo_base::{Cause, Page};
use solo_devices::{Area, SureArea};
use std::alloc::Global;
use std::process::Abort;
use std::sync::Wait;
use std::test::Fail;
use std::thread::Threads;

const BATCH: &[&str] = &["batch"];

const CORE: &[&str] = &["core", "--schedule", "7"];

const DECK: &[u8] = b"#RUN A PROG\n";

/// Whether a run of these words with these files prints this report, and behind it what begins so.
fn prints(
    rt: &(impl Threads + Wait + Sync + AllocGlobal + Abort),
    words: &[&str],
    files: SureArea,
    report: &[u8],
    behind: &[u8],
) -> Result<bool, Fail>
    requires { ⟦<SureArea as Area>⟧.size files ≡ 4288 }
{
    let files = readable(rt.alloc(), files, 0)?;
    let came = run_over_files(rt, words, undisturbed(DECK), files)?;
    Ok(came.has(report, behind))
}

/// Whether a batch and a run of the core print this report of the job whose file has this page.
fn both_print(
    rt: &(impl Threads + Wait + Sync + AllocGlobal + Abort),
    kind: FileKind,
    page: &Page,
    report: &[u8],
) -> Result<bool, Fail> {
    let alloc = rt.alloc();
    let by_batch = prints(rt, BATCH, with_file(alloc, kind, page)?, report, b"")?;
    let by_core = prints(rt, CORE, with_file(alloc, kind, page)?, report, b"COUNTS: ")?;
    Ok(by_batch && by_core)
}

#[test]
fn the_code_of_a_file_is_run(rt: HostRuntime) -> Result<(), Fail> {
    let report = b"JOB A\nA\nA: TERMINATED\n";
    assert!(rt; both_print(&rt, FileKind::SeqCode, &code(&[]), report)?);
    Ok(())
}

#[test]
fn without_its_file_a_job_has_none(rt: HostRuntime) -> Result<(), Fail> {
    let alloc = rt.alloc();
    let report = b"JOB A\nA: NO FILE\n";
    assert!(rt; prints(&rt, BATCH, formatted(alloc)?, report, b"")?);
    assert!(rt; prints(&rt, CORE, formatted(alloc)?, report, b"COUNTS: ")?);
    Ok(())
}

#[test]
fn a_text_is_no_code(rt: HostRuntime) -> Result<(), Fail> {
    let report = b"JOB A\nA: NOT CODE\n";
    assert!(rt; both_print(&rt, FileKind::Ascii, &code(&[]), report)?);
    Ok(())
}

#[test]
fn the_least_wrong_byte_of_a_code_file_is_named(rt: HostRuntime) -> Result<(), Fail> {
    let report = b"JOB A\nA: BAD CODE AT 7\n";
    let page = code(&[(7, b'2'), (511, 1)]);
    assert!(rt; both_print(&rt, FileKind::SeqCode, &page, report)?);
    Ok(())
}

#[test]
fn a_jump_behind_the_tick_is_bad(rt: HostRuntime) -> Result<(), Fail> {
    let report = b"JOB A\nA: BAD CODE AT 35\n";
    let page = code(&[(35, 27), (37, 1)]);
    assert!(rt; both_print(&rt, FileKind::SeqCode, &page, report)?);
    Ok(())
}

/// 75 lines of 132 characters and one of 100 are 10,000, of which each takes a tick.
fn ten_thousand(alloc: Global) -> Result<Vec<u8>, Fail> {
    let mut report = b"JOB A\n".to_vec(alloc)?;
    for _ in 0..75 {
        report.extend_from_slice([b'A'; 132].as_slice())?;
        report.push(b'\n')?;
    }
    report.extend_from_slice([b'A'; 100].as_slice())?;
    report.extend_from_slice(b"\nA: TIME LIMIT IN LINE 1\n")?;
    Ok(report)
}

#[test]
fn a_jump_to_the_tick_runs_to_the_limit(rt: HostRuntime) -> Result<(), Fail> {
    let report = ten_thousand(rt.alloc())?;
    let page = code(&[(35, 27)]);
    assert!(rt; both_print(&rt, FileKind::SeqCode, &page, report.as_slice())?);
    Ok(())
}

/// Whether a batch over the files of which a byte of a page is so names this page as broken.
fn is_broken(
    rt: &(impl Threads + Wait + Sync + AllocGlobal + Abort),
    page: u16,
    at: usize,
    byte: u8,
) -> Result<bool, Fail> {
    let alloc = rt.alloc();
    let mut files = with_file(alloc, FileKind::SeqCode, &code(&[]))?;
    let mut changed = page_of(&mut files, page)?;
    if let Some(place) = changed.0.get_mut(at) {
        *place = byte;
    }
    write_page(&mut files, page, &changed)?;
    let files = readable(alloc, files, 0)?;
    let came = run_over_files(rt, BATCH, undisturbed(DECK), files)?;
    Ok(came.is_refused(7, Cause::NotSolo { page }))
}

// Byte 9 of the first page is the number of the format.
#[test]
fn an_area_of_format_1_is_broken_at_its_first_page(rt: HostRuntime) -> Result<(), Fail> {
    assert!(rt; is_broken(&rt, 0, 9, 1)?);
    Ok(())
}

// Page 16 has the first half of the page map, and page 18 the length of the file.
#[test]
fn a_map_and_a_length_that_are_wrong_are_named(rt: HostRuntime) -> Result<(), Fail> {
    assert!(rt; is_broken(&rt, 16, 2, 63)?);
    assert!(rt; is_broken(&rt, 18, 0, 16)?);
    Ok(())
}
