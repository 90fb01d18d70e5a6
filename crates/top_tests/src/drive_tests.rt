// Decks over drives whose file is shorter than an area.
ghost use Rattle.std.specs.Prelude.{◌≡◌, IfOk};

use crate::made_area::{formatted, page_of, readable};
use crate::running::{run_over, run_over_files, sink, source, spool, undisturbed};
use solo_devices::Area;
use solo_edge::{DriveArea, Recorded, Unknown};
use std::alloc::Global;
use std::fs::{self, File, OpenOptions};
use std::test::Fail;

const LISTING: &[u8] = b"#LIST A\nHELLO\n#END\n";

const PAPER: &[u8] = b"JOB A\nHELLO\nA: LISTED 1 CARDS\n";

/// The area of so many pages of a drive whose file has these bytes.
fn drive(
    rt: &HostRuntime,
    path: &str,
    bytes: &[u8],
    pages: u16,
) -> Result<DriveArea<Recorded<File>, Unknown>, Fail>
    ensures { IfOk result (λ area. ⟦<DriveArea<Recorded<File>, Unknown> as Area>⟧.size area ≡ pages) }
{
    fs::write(rt, path, bytes)?;
    let file = OpenOptions::new().read(true).write(true).open(rt, path)?;
    fs::remove_file(rt, path)?;
    Ok(DriveArea::<_, Unknown>::over(Some(file), 0, pages))
}

/// The bytes of the pages that a mount of no files reads.
fn first_pages(alloc: Global) -> Result<Vec<u8>, Fail> {
    let mut area = formatted(alloc)?;
    let mut bytes = Vec::new(alloc);
    for n in 0..18 {
        let page = page_of(&mut area, n)?;
        bytes.extend_from_slice(page.0.as_slice())?;
    }
    Ok(bytes)
}

#[test]
fn files_are_mounted_of_a_drive_that_ends_behind_them(rt: HostRuntime) -> Result<(), Fail> {
    let bytes = first_pages(rt.alloc())?;
    let files = drive(&rt, "solo_cli_whole", bytes.as_slice(), 4288)?;
    let came = run_over_files(&rt, &["batch"], undisturbed(LISTING), files)?;
    assert!(rt; came.has(PAPER, b""));
    assert_eq!(rt; came.failures.files, 0);
    Ok(())
}

#[test]
fn a_read_past_the_end_of_the_drive_is_a_fault_of_the_files(rt: HostRuntime) -> Result<(), Fail> {
    let mut bytes = first_pages(rt.alloc())?;
    bytes.pop();
    let files = drive(&rt, "solo_cli_short", bytes.as_slice(), 4288)?;
    let came = run_over_files(&rt, &["batch"], undisturbed(LISTING), files)?;
    assert_eq!(rt; came.status, 3);
    assert_eq!(rt; came.failures.files, 1);
    assert!(rt; came.paper.is_empty());
    Ok(())
}

#[test]
fn a_spool_writes_nothing_behind_the_end_of_its_drive(rt: HostRuntime) -> Result<(), Fail> {
    let alloc = rt.alloc();
    let came = run_over(
        &rt,
        &["batch"],
        source(&rt, alloc, LISTING, 512, 0)?,
        sink(alloc, 0)?,
        readable(alloc, formatted(alloc)?, 0)?,
        drive(&rt, "solo_cli_spool", &[], 256)?,
        spool(&rt, alloc, 256, 0, 0)?,
    )?;
    assert_eq!(rt; came.status, 3);
    assert_eq!(rt; came.failures.input, 1);
    assert!(rt; came.paper.is_empty());
    Ok(())
}
