use crate::file_calls::{Call, answer_is, free_pages, is_file, names};
use crate::made_area::{blank_files, formatted, has_bytes, mounted, name, set_page, zero_area};
use crate::text_calls::{
    bytes, is_text_of, listed, no_text_is, pages_read, pages_stored, store_is,
};
use disk_files::{FileArea, FileFault};
use disk_layout::{FileKind, label};
use disk_system::{SystemFault, is_text};
use solo_base::{LineList, Page};
use solo_devices::SureArea;
use std::alloc::Global;
use std::process::Abort;

#[test]
fn an_area_of_ones_is_formatted(rt: HostRuntime) {
    let label = label();
    let mut area = zero_area(&rt, rt.alloc());
    for n in [0, 1, 8, 15, 16, 17, 18, 4287] {
        set_page(&rt, &mut area, n, &Page([1; 512]));
    }
    formatted(&rt, &mut area);
    has_bytes(&rt, &mut area, 0, 0, &label.0);
    has_bytes(&rt, &mut area, 16, 0, &[255, 255, 3, 0]);
    for (n, byte) in [(1, 0), (8, 0), (15, 0), (17, 0), (18, 1), (4287, 1)] {
        has_bytes(&rt, &mut area, n, 0, &[byte; 512]);
    }
    let files = mounted(&rt, rt.alloc(), area);
    assert!(rt; names(&rt, &files) == 0);
    assert!(rt; free_pages(&rt, &files) == 4270);
}

#[test]
fn a_text_stands_in_its_pages(rt: HostRuntime) {
    let mut files = blank_files(&rt, rt.alloc());
    store_is(&rt, rt.alloc(), &mut files, (b"text", b"HI\n"), Ok(()));
    let mut area = files.into_inner();
    // the name, the kind, the address, no protection, spare bytes, the key 37, and the search length
    has_bytes(&rt, &mut area, 3, 128, b"TEXT        \0\x02\0\x12\0\0");
    has_bytes(&rt, &mut area, 3, 146, b"\0\0\0\0\0\0\0\0\0\0\0\x25\0\x01");
    has_bytes(&rt, &mut area, 18, 0, b"\0\x01\0\x13");
    has_bytes(&rt, &mut area, 19, 0, b"\0\x14");
    has_bytes(&rt, &mut area, 20, 0, b"HI\n\x19");
    has_bytes(&rt, &mut area, 20, 4, &[0; 508]);
}

// Stores a text of so many bytes, reads it again, and deletes it. It takes so many pages.
fn is_read_again(
    rt: &impl Abort,
    alloc: Global,
    files: &mut FileArea<SureArea>,
    count: usize,
    pages: u16,
) {
    let file = name(rt, b"text");
    let text = bytes(rt, alloc, count, b'A');
    store_is(rt, alloc, files, (b"text", &text), Ok(()));
    is_file(rt, files, &file, (FileKind::Ascii, false, pages));
    is_text_of(rt, alloc, files, b"text", &text);
    answer_is(rt, files, Call::Delete(file), None);
}

#[test]
fn a_text_of_any_length_is_read_again(rt: HostRuntime) {
    let mut files = blank_files(&rt, rt.alloc());
    for (count, pages) in [
        (0, 1),
        (1, 1),
        (511, 1),
        (512, 2),
        (513, 2),
        (130_559, 255),
        (130_560, 256),
        (2_047_999, 4000),
    ] {
        is_read_again(&rt, rt.alloc(), &mut files, count, pages);
    }
    let long = bytes(&rt, rt.alloc(), 2_048_000, b'A');
    let full = Err(SystemFault::File(FileFault::FileFull));
    store_is(&rt, rt.alloc(), &mut files, (b"text", &long), full);
    assert!(rt; free_pages(&rt, &files) == 4270);
}

// A text of so many bytes is stored, or is not, and so many pages are free then.
fn store_leaves(
    rt: &impl Abort,
    alloc: Global,
    files: &mut FileArea<SureArea>,
    (letters, count): (&[u8], usize),
    (wanted, free): (Result<(), SystemFault>, u16),
) {
    let text = bytes(rt, alloc, count, b'B');
    store_is(rt, alloc, files, (letters, &text), wanted);
    assert!(rt; free_pages(rt, files) == free);
}

#[test]
fn a_store_without_room_is_refused(rt: HostRuntime) {
    let alloc = rt.alloc();
    let mut files = blank_files(&rt, alloc);
    let exists = Err(SystemFault::File(FileFault::Exists));
    let full = Err(SystemFault::File(FileFault::DiskFull));
    // 4,270 without 3,907 pages, their 16 parts and their index page
    store_leaves(&rt, alloc, &mut files, (b"a", 2_000_000), (Ok(()), 346));
    store_leaves(&rt, alloc, &mut files, (b"a", 3_000_000), (exists, 346));
    // 344 pages need two parts and an index page
    store_leaves(&rt, alloc, &mut files, (b"b", 175_616), (full, 346));
    store_leaves(&rt, alloc, &mut files, (b"b", 175_615), (Ok(()), 0));
}

// Makes a file for each of 240 names of two letters.
fn create_all(rt: &impl Abort, files: &mut FileArea<SureArea>) {
    for first in b'A'..b'P' {
        for second in b'A'..b'Q' {
            let file = name(rt, &[first, second]);
            answer_is(rt, files, Call::Create(file, FileKind::Scratch), None);
        }
    }
}

#[test]
fn a_name_too_many_is_refused(rt: HostRuntime) {
    let mut files = blank_files(&rt, rt.alloc());
    create_all(&rt, &mut files);
    let text = bytes(&rt, rt.alloc(), 3_000_000, b'B');
    let full = Err(SystemFault::File(FileFault::CatalogFull));
    store_is(&rt, rt.alloc(), &mut files, (b"z", &text), full);
}

// Whether a list has this line at this place.
fn has_line(lines: &LineList, place: usize, wanted: &str) -> bool {
    place < lines.len() && lines.get(place).bytes() == wanted.as_bytes()
}

// The lines are these.
fn are_lines(rt: &impl Abort, lines: &LineList, wanted: &[&str]) {
    assert!(rt; lines.len() == wanted.len());
    for (place, line) in wanted.iter().enumerate() {
        assert!(rt; has_line(lines, place, line), "line {place}");
    }
}

const CATALOGUE: [&str; 4] = [
    "BOOT CONCODE 0 PAGES",
    "PROG SEQCODE 0 PAGES",
    "TEX2 SCRATCH 0 PAGES",
    "TEXT ASCII 2 PAGES PROTECTED",
];

#[test]
fn files_are_listed_by_name(rt: HostRuntime) {
    let mut files = blank_files(&rt, rt.alloc());
    store_is(&rt, rt.alloc(), &mut files, (b"text", &[b'B'; 600]), Ok(()));
    for (letters, kind) in [
        (b"prog", FileKind::SeqCode),
        (b"boot", FileKind::ConCode),
        (b"tex2", FileKind::Scratch),
    ] {
        let create = Call::Create(name(&rt, letters), kind);
        answer_is(&rt, &mut files, create, None);
    }
    let protect = Call::Protect(name(&rt, b"text"), true);
    answer_is(&rt, &mut files, protect, None);
    let lines = listed(&rt, rt.alloc(), &mut files).ok();
    are_lines(&rt, &lines.expect(&rt, "the lines"), &CATALOGUE);
}

#[test]
fn a_byte_25_is_in_no_text(rt: HostRuntime) {
    assert!(rt; is_text(b""));
    assert!(rt; is_text(b"A\x18\x1a"));
    assert!(rt; !is_text(b"A\x19"));
}

#[test]
fn a_text_that_is_none_is_refused(rt: HostRuntime) {
    let alloc = rt.alloc();
    let mut files = blank_files(&rt, alloc);
    let no_file = SystemFault::File(FileFault::NoFile);
    no_text_is(&rt, alloc, &mut files, b"text", no_file);
    let (text, all) = (name(&rt, b"text"), name(&rt, b"all"));
    let create = Call::Create(text, FileKind::Scratch);
    answer_is(&rt, &mut files, create, None);
    no_text_is(&rt, alloc, &mut files, b"text", SystemFault::NotText);
    // an empty file, and one without the byte 25
    let create = Call::Create(all, FileKind::Ascii);
    answer_is(&rt, &mut files, create, None);
    is_text_of(&rt, alloc, &mut files, b"all", b"");
    answer_is(&rt, &mut files, Call::Append(all, 7), None);
    is_text_of(&rt, alloc, &mut files, b"all", &[7; 512]);
}

#[test]
fn whole_pages_of_any_kind_are_stored_and_read(rt: HostRuntime) {
    let mut files = blank_files(&rt, rt.alloc());
    let some = bytes(&rt, rt.alloc(), 1100, b'X');
    let answer = pages_stored(&rt, &mut files, b"data", FileKind::Scratch, &some);
    assert!(rt; answer == Ok(()));
    let data = name(&rt, b"data");
    is_file(&rt, &mut files, &data, (FileKind::Scratch, false, 2));
    assert!(rt; free_pages(&rt, &files) == 4266);
    let again = pages_read(&rt, rt.alloc(), &mut files, b"data", 2)
        .ok()
        .expect(&rt, "the bytes");
    let whole = bytes(&rt, rt.alloc(), 1024, b'X');
    assert!(rt; again.as_slice() == whole.as_slice());
    let mut area = files.into_inner();
    // the index page, its part, and the two pages, in the order in which they were taken
    has_bytes(&rt, &mut area, 18, 0, b"\0\x02\0\x13");
    has_bytes(&rt, &mut area, 19, 0, b"\0\x14\0\x15");
    has_bytes(&rt, &mut area, 21, 0, &[b'X'; 512]);
}
