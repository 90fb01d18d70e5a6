use crate::file_calls::{Call, first_refusal};
use crate::made_area::{failing_area, formatted, mount, name};
use disk_files::{FileArea, FileFault};
use disk_layout::FileKind;
use solo_devices::MemArea;
use std::alloc::Global;
use std::process::Abort;

// How many pages a format writes.
const FORMATTED: u64 = 18;

// Every call once or more, and the first refusal.
fn script(rt: &impl Abort, files: &mut FileArea<MemArea>) -> Option<FileFault> {
    let tea = name(rt, b"tea");
    let milk = name(rt, b"milk");
    first_refusal(
        rt,
        files,
        &[
            Call::Create(tea, FileKind::Ascii),
            Call::Append(tea, 1),
            Call::Append(tea, 2),
            Call::Replace(tea, 1, 3),
            Call::Read(tea, 2),
            Call::Protect(tea, true),
            Call::Lookup(tea),
            Call::Protect(tea, false),
            Call::Rename(tea, milk),
            Call::Delete(milk),
        ],
    )
}

// A mount of an area that may be broken: sound, or a page is named.
fn mounts_or_names(rt: &impl Abort, alloc: Global, area: MemArea) {
    match mount(rt, alloc, area) {
        Ok(files) => assert!(rt; files.sound()),
        Err((_, FileFault::NotSolo { .. })) => (),
        Err(_) => panic!(rt; "another fault"),
    }
}

// Runs the script on files, and tells whether it came to its end. After a fault the files aren't sound.
fn script_ends(rt: &impl Abort, alloc: Global, files: FileArea<MemArea>) -> bool {
    let mut files = files;
    let answer = script(rt, &mut files);
    let ended = answer.is_none();
    assert!(rt; files.sound() == ended);
    if !ended {
        assert!(rt; answer == Some(FileFault::DiskFault));
        mounts_or_names(rt, alloc, files.into_inner());
    }
    ended
}

// Mounts an area and runs the script with this read and this write failing, counted from the first on after
// it was formatted, and tells whether it came to its end.
fn ends(rt: &impl Abort, alloc: Global, read: u64, write: u64) -> bool {
    let mut area = failing_area(rt, alloc, read, write.saturating_add(FORMATTED));
    formatted(rt, &mut area);
    match mount(rt, alloc, area) {
        Ok(files) => script_ends(rt, alloc, files),
        Err((area, fault)) => {
            assert!(rt; fault == FileFault::DiskFault);
            mounts_or_names(rt, alloc, area);
            false
        }
    }
}

#[test]
fn after_a_failed_read_a_mount_is_sound_or_names_a_page(rt: HostRuntime) {
    let mut last = 0;
    for read in 1..1000u64 {
        if ends(&rt, rt.alloc(), read, 100_000) {
            last = read;
            break;
        }
    }
    // a mount reads 18 pages here, and the script does at least one a call
    assert!(rt; 28 <= last && last < 100);
}

#[test]
fn after_a_failed_write_a_mount_is_sound_or_names_a_page(rt: HostRuntime) {
    let mut last = 0;
    for write in 1..1000u64 {
        if ends(&rt, rt.alloc(), 100_000, write) {
            last = write;
            break;
        }
    }
    assert!(rt; 20 <= last && last < 100);
}
