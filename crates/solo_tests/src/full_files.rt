use crate::made_files::{add_file, append, blank_files, name};
use crate::made_programs::Step::{Get, Length, Open, Put};
use crate::stack_runs::{Row, each_tells};
use disk_files::{FileArea, FileKind};
use solo_devices::SureArea;
use std::process::Abort;

// Makes a file of so many pages.
fn add_pages(rt: &impl Abort, files: &mut FileArea<SureArea>, letters: &str, count: u16) {
    let file = name(rt, letters);
    add_file(files, &file, FileKind::Scratch, b"").expect(rt, "a file");
    for n in 0..count {
        append(files, &file, (n % 251) as u8).expect(rt, "room");
    }
}

fn free_pages(rt: &impl Abort, files: &FileArea<SureArea>) -> u16 {
    assert!(rt; files.sound());
    files.free_pages()
}

// With two pages left free at first. A page of a file takes one, and the first of a part of 250 two.
const FULL: [Row; 5] = [
    (
        &[Open(1, "FIRST"), Length(1), Put(1, 4001, 65)],
        "opened true;length 4000;refused;call error 3 3;",
    ),
    (
        &[
            Open(1, "FIRST"),
            Put(1, 4000, 65),
            Get(1, 4000),
            Get(1, 4001),
        ],
        "opened true;done;page 65 0;refused;call error 4 4;",
    ),
    // one is free then, and the third file would take two
    (
        &[
            Open(1, "SECOND"),
            Put(1, 249, 65),
            Open(2, "THIRD"),
            Put(2, 1, 65),
        ],
        "opened true;done;opened true;refused;call error 4 4;",
    ),
    // none is free then
    (
        &[
            Open(1, "SECOND"),
            Put(1, 250, 66),
            Length(1),
            Put(1, 251, 67),
        ],
        "opened true;done;length 250;refused;call error 4 4;",
    ),
    (
        &[Open(1, "SECOND"), Length(1), Put(1, 250, 68), Get(1, 250)],
        "opened true;length 250;done;page 68 0;terminated 4 4;",
    ),
];

#[test]
fn a_page_is_refused_behind_4000_and_without_a_free_page(rt: HostRuntime) {
    let mut files = blank_files(&rt, rt.alloc());
    add_pages(&rt, &mut files, "FIRST", 4000);
    add_pages(&rt, &mut files, "SECOND", 248);
    add_pages(&rt, &mut files, "THIRD", 0);
    // 4,270 less 4,000 with their index and 16 parts, 248 with theirs and one part, and one index
    assert!(rt; free_pages(&rt, &files) == 2);
    each_tells(&rt, rt.alloc(), &mut files, &FULL);
    assert!(rt; free_pages(&rt, &files) == 0);
}
