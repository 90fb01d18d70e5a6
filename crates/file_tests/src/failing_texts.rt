use crate::made_area::{failing_area, mount};
use crate::text_calls::{listed, read, stored};
use disk_files::{FileArea, FileFault};
use disk_pages::AREA_PAGES;
use disk_system::{SystemFault, format};
use solo_devices::{Area, MemArea};
use std::alloc::Global;
use std::process::Abort;

// Formats an area, and makes every call once.
fn script(rt: &impl Abort, alloc: Global, mut area: MemArea) -> Result<(), SystemFault> {
    assert!(rt; area.size() == AREA_PAGES);
    if format(&mut area).is_err() {
        return Err(SystemFault::File(FileFault::DiskFault));
    }
    match mount(rt, alloc, area) {
        Ok(mut files) => {
            let answer = calls(rt, alloc, &mut files);
            assert!(rt; files.sound() == answer.is_ok());
            answer
        }
        Err((_, fault)) => Err(SystemFault::File(fault)),
    }
}

fn calls(rt: &impl Abort, alloc: Global, files: &mut FileArea<MemArea>) -> Result<(), SystemFault> {
    stored(rt, alloc, files, b"text", &[b'A'; 600])?;
    let text = read(rt, alloc, files, b"text")?;
    assert!(rt; text.as_slice() == [b'A'; 600].as_slice());
    let lines = listed(rt, alloc, files)?;
    assert!(rt; lines.len() == 1);
    Ok(())
}

// Whether the script comes to its end with this read and this write failing. Else it is told so.
fn ends(rt: &impl Abort, alloc: Global, read: u64, write: u64) -> bool {
    let area = failing_area(rt, alloc, read, write);
    match script(rt, alloc, area) {
        Ok(()) => true,
        Err(fault) => {
            assert!(rt; fault == SystemFault::File(FileFault::DiskFault));
            false
        }
    }
}

#[test]
fn each_read_that_fails_is_a_disk_fault(rt: HostRuntime) {
    let mut last = 0;
    for read in 1..200u64 {
        if ends(&rt, rt.alloc(), read, 100_000) {
            last = read;
            break;
        }
    }
    // a mount reads 18 pages here, and the calls some more
    assert!(rt; 26 <= last && last < 100);
}

#[test]
fn each_write_that_fails_is_a_disk_fault(rt: HostRuntime) {
    let mut last = 0;
    for write in 1..200u64 {
        if ends(&rt, rt.alloc(), 100_000, write) {
            last = write;
            break;
        }
    }
    // 18 pages are formatted
    assert!(rt; 30 <= last && last < 60);
}
