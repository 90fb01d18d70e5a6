use crate::file_calls::{Call, answer_is, answers, free_pages, is_filled, names};
use crate::made_area::{blank_files, has_bytes, mounted, numbered};
use disk_files::{FileArea, FileFault};
use disk_layout::{FileKind, key_of};
use solo_base::Ident;
use solo_devices::SureArea;
use std::process::Abort;

// Puts so many pages behind a file.
fn append_all(rt: &impl Abort, files: &mut FileArea<SureArea>, name: Ident, count: u16) {
    for n in 0..count {
        answer_is(rt, files, Call::Append(name, (n % 251) as u8), None);
    }
}

// A call that makes an empty file.
fn create(name: Ident) -> Call {
    Call::Create(name, FileKind::Scratch)
}

#[test]
fn there_is_room_for_240_names(rt: HostRuntime) {
    let mut files = blank_files(&rt, rt.alloc());
    for number in 1..241u16 {
        answer_is(&rt, &mut files, create(numbered(&rt, number)), None);
    }
    let full = Some(FileFault::CatalogFull);
    answer_is(&rt, &mut files, create(numbered(&rt, 241)), full);
    assert!(rt; names(&rt, &files) == 240);
    answer_is(&rt, &mut files, Call::Delete(numbered(&rt, 7)), None);
    answer_is(&rt, &mut files, create(numbered(&rt, 241)), None);
    let again = mounted(&rt, rt.alloc(), files.into_inner());
    assert!(rt; names(&rt, &again) == 240);
    assert!(rt; free_pages(&rt, &again) == 4030);
}

// A file of 4,000 pages takes no page more.
fn fill_file(rt: &impl Abort, files: &mut FileArea<SureArea>, file: Ident) {
    answer_is(rt, files, create(file), None);
    append_all(rt, files, file, 4000);
    let full = Some(FileFault::FileFull);
    answer_is(rt, files, Call::Append(file, 1), full);
}

// A file of the pages that are left, and one without a page, and then there is no room.
fn fill_area(rt: &impl Abort, files: &mut FileArea<SureArea>, file: Ident) {
    answer_is(rt, files, create(file), None);
    append_all(rt, files, file, 250);
    let full = Some(FileFault::DiskFull);
    answer_is(rt, files, Call::Append(file, 1), full);
    answer_is(rt, files, create(numbered(rt, 3)), None);
    answer_is(rt, files, create(numbered(rt, 4)), full);
}

#[test]
fn a_file_takes_4000_pages_and_the_area_is_full(rt: HostRuntime) {
    let (first, second) = (numbered(&rt, 1), numbered(&rt, 2));
    let mut files = blank_files(&rt, rt.alloc());
    fill_file(&rt, &mut files, first);
    fill_area(&rt, &mut files, second);
    let mut again = mounted(&rt, rt.alloc(), files.into_inner());
    assert!(rt; free_pages(&rt, &again) == 0);
    is_filled(&rt, &mut again, &first, 4000, (3999 % 251) as u8);
    answer_is(&rt, &mut again, Call::Delete(first), None);
    assert!(rt; free_pages(&rt, &again) == 4017);
    append_all(&rt, &mut again, second, 1);
    let _last = mounted(&rt, rt.alloc(), again.into_inner());
}

// The first four numbered names whose key is 240.
fn names_of_the_last_key(rt: &impl Abort) -> [Ident; 4] {
    let mut names = [
        numbered(rt, 0),
        numbered(rt, 0),
        numbered(rt, 0),
        numbered(rt, 0),
    ];
    let mut found = 0;
    for number in 1..9999u16 {
        let name = numbered(rt, number);
        if key_of(&name.bytes()) == 240 && found < 4 {
            names[found] = name;
            found += 1;
        }
    }
    assert!(rt; found == 4);
    names
}

#[test]
fn names_of_one_key_go_on_at_the_first_place(rt: HostRuntime) {
    let [first, second, third, fourth] = names_of_the_last_key(&rt);
    let mut files = blank_files(&rt, rt.alloc());
    answers(
        &rt,
        &mut files,
        &[
            (create(first), None),
            (create(second), None),
            (create(third), None),
            (Call::Delete(first), None),
            (Call::Lookup(second), None),
            (Call::Rename(third, fourth), None),
        ],
    );
    let mut area = files.into_inner();
    // the last place of the catalogue, and the first two
    has_bytes(&rt, &mut area, 15, 480, &fourth.bytes());
    has_bytes(&rt, &mut area, 1, 0, &second.bytes());
    has_bytes(&rt, &mut area, 1, 32, &[0; 12]);
    let _again = mounted(&rt, rt.alloc(), area);
}
