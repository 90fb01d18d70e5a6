use crate::file_calls::{is_file, is_filled};
use crate::made_area::{
    failing_area, has_bytes, mounted, name, page_of, set_byte, set_page, zero_area,
};
use crate::made_older::{begin, end, put_file, with_file};
use crate::text_calls::read;
use disk_files::FileArea;
use disk_layout::{FileKind, key_of, label};
use disk_pages::AREA_PAGES;
use disk_system::{MigrateFault, migrate};
use solo_base::trim_end;
use solo_devices::{Area, SureArea};
use std::alloc::Global;
use std::process::Abort;

// How many files a migrated area has, or why it isn't migrated.
fn migrated<A: Area>(rt: &impl Abort, alloc: Global, area: &mut A) -> Result<u16, MigrateFault> {
    assert!(rt; area.size() == AREA_PAGES);
    Ok(migrate(alloc, area)?.files)
}

#[test]
fn a_small_area_of_format_1_gets_its_parts(rt: HostRuntime) {
    let label = label();
    let zeros = zero_area(&rt, rt.alloc());
    let mut area = with_file(&rt, zeros, b"TEXT        ", 1);
    assert!(rt; migrated(&rt, rt.alloc(), &mut area) == Ok(1));
    has_bytes(&rt, &mut area, 0, 0, &label.0);
    // the index page has the part 20, and the part page 19
    has_bytes(&rt, &mut area, 18, 0, b"\0\x01\0\x14\0\0");
    has_bytes(&rt, &mut area, 20, 0, b"\0\x13");
    // nothing is left to do
    assert!(rt; migrated(&rt, rt.alloc(), &mut area) == Ok(1));
    let mut files = mounted(&rt, rt.alloc(), area);
    let text = read(&rt, rt.alloc(), &mut files, b"text");
    assert!(rt; text.ok().expect(&rt, "a text").len() == 512);
}

// Names of keys that are all different, so that each stands at the place of its key.
fn names(rt: &impl Abort) -> [[u8; 12]; 17] {
    let mut names = [[b' '; 12]; 17];
    let mut keys = [0u16; 17];
    let mut found = 0usize;
    for first in b'A'..b'Z' {
        for second in b'A'..b'Z' {
            let mut name = [b' '; 12];
            name[0] = first;
            name[1] = second;
            let key = key_of(&name);
            if found < 17 && !keys.contains(&key) {
                names[found] = name;
                keys[found] = key;
                found += 1;
            }
        }
    }
    assert!(rt; found == 17);
    names
}

// So many pages have 17 files that fill an area.
const FULL: [u16; 17] = [
    255, 255, 255, 255, 255, 255, 255, 255, 255, 255, 255, 255, 255, 255, 255, 255, 173,
];

// Four files of 255 pages, and shorter ones.
const LONG_AND_SHORT: [u16; 17] = [
    255, 255, 255, 255, 4, 5, 6, 7, 8, 9, 10, 11, 12, 13, 14, 15, 16,
];

// An area of format 1 with 17 files of so many pages.
fn seventeen_files(rt: &impl Abort, alloc: Global, pages: &[u16; 17]) -> SureArea {
    let names = names(rt);
    let mut older = begin(rt, zero_area(rt, alloc));
    for k in 0..17usize {
        put_file(rt, &mut older, &names[k], pages[k]);
    }
    end(rt, older)
}

// A copy of an area.
fn copy_of(rt: &impl Abort, alloc: Global, area: &mut SureArea) -> SureArea {
    let mut copy = zero_area(rt, alloc);
    for n in 0..AREA_PAGES {
        let page = page_of(rt, area, n);
        set_page(rt, &mut copy, n, &page);
    }
    copy
}

#[test]
fn a_full_area_of_format_1_has_no_room_for_parts(rt: HostRuntime) {
    let mut area = seventeen_files(&rt, rt.alloc(), &FULL);
    let mut before = copy_of(&rt, rt.alloc(), &mut area);
    assert!(rt;
        migrated(&rt, rt.alloc(), &mut area)
            == Err(MigrateFault::NoRoom {
                needed: 33,
                free: 0
            })
    );
    for n in 0..AREA_PAGES {
        let page = page_of(&rt, &mut before, n);
        has_bytes(&rt, &mut area, n, 0, &page.0);
    }
}

// A file has so many pages, and page j, from 0, is of the byte j mod 251.
fn has_pages(rt: &impl Abort, files: &mut FileArea<SureArea>, letters: &[u8], pages: u16) {
    let name = name(rt, letters);
    is_file(rt, files, &name, (FileKind::Ascii, false, pages));
    for j in 0..pages {
        is_filled(rt, files, &name, j + 1, (j % 251) as u8);
    }
}

#[test]
fn files_of_255_pages_are_the_same_afterwards(rt: HostRuntime) {
    let mut area = seventeen_files(&rt, rt.alloc(), &LONG_AND_SHORT);
    assert!(rt; migrated(&rt, rt.alloc(), &mut area) == Ok(17));
    let mut files = mounted(&rt, rt.alloc(), area);
    let names = names(&rt);
    for k in 0..17usize {
        has_pages(&rt, &mut files, trim_end(&names[k]), LONG_AND_SHORT[k]);
    }
}

#[test]
fn a_damaged_area_of_format_1_is_named(rt: HostRuntime) {
    let mut zeros = zero_area(&rt, rt.alloc());
    assert!(rt; migrated(&rt, rt.alloc(), &mut zeros) == Err(MigrateFault::NotSolo { page: 0 }));
    for (page, byte, value, named) in [
        (0, 20, 1, 0),
        (3, 128 + 15, 17, 3),
        (16, 2, 31, 16),
        (17, 30, 1, 17),
        (18, 0, 1, 18),
        (18, 1, 2, 18),
        (18, 5, 19, 18),
        (18, 3, 18, 16),
        (18, 3, 17, 16),
    ] {
        let zeros = zero_area(&rt, rt.alloc());
        let mut area = with_file(&rt, zeros, b"TEXT        ", 1);
        set_byte(&rt, &mut area, page, byte, value);
        assert!(rt;
            migrated(&rt, rt.alloc(), &mut area) == Err(MigrateFault::NotSolo { page: named }),
            "at {page}"
        );
    }
}

// How an area of format 1 is migrated with this read and this write failing.
fn migrated_with(
    rt: &impl Abort,
    alloc: Global,
    read: u64,
    write: u64,
) -> Result<u16, MigrateFault> {
    let area = failing_area(rt, alloc, read, write);
    let mut area = with_file(rt, area, b"TEXT        ", 1);
    migrated(rt, alloc, &mut area)
}

#[test]
fn each_read_and_write_of_a_migration_that_fails_is_a_disk_fault(rt: HostRuntime) {
    let mut done = 0u32;
    for n in 1..60u64 {
        for (read, write) in [(n, 100_000), (100_000, n + 6)] {
            match migrated_with(&rt, rt.alloc(), read, write) {
                Ok(_) => done = done.saturating_add(1),
                Err(fault) => assert!(rt; fault == MigrateFault::DiskFault || n == 1),
            }
        }
    }
    assert!(rt; done > 40);
}
