use crate::file_calls::{Call, answer_is, free_pages, is_file, is_filled};
use crate::made_area::{mount, mounted, name, page_of, set_byte, set_page, zero_area};
use disk_files::bare_area::judge_older;
use disk_files::{FileArea, FileFault};
use disk_layout::{Entry, FileKind, key_of, label, label1};
use disk_pages::{AREA_PAGES, PageMap, set_number};
use solo_base::{Ident, Page};
use solo_devices::{Area, SureArea};
use std::alloc::Global;
use std::process::Abort;

// The entry of no file.
const BLANK: Entry = Entry {
    name: [0; 12],
    kind: 0,
    address: 0,
    protection: 0,
    key: 0,
    searches: 0,
};

// The page that has this entry alone, at the place of its key.
fn catalogue_page(entry: &Entry) -> Page {
    let mut page = Page::zeros();
    entry.write(&mut page, 32 * (entry.key.saturating_sub(1) % 16));
    page
}

// An area with one empty file of this name, whose index page is page 18.
fn one_file(rt: &impl Abort, alloc: Global, name: &[u8; 12]) -> SureArea {
    let mut area = zero_area(rt, alloc);
    set_page(rt, &mut area, 0, &label());
    let key = key_of(name);
    let entry = Entry {
        name: *name,
        kind: 2,
        address: 18,
        protection: 0,
        key,
        searches: 1,
    };
    set_page(rt, &mut area, 1 + (key - 1) / 16, &catalogue_page(&entry));
    set_page(rt, &mut area, 16, &low_bits(1));
    area
}

// The first page of the bit map where so many pages of files are taken.
fn low_bits(count: u16) -> Page {
    let mut map = PageMap::fresh();
    for _ in 0..count {
        let _page = map.allocate();
    }
    map.to_pages().0
}

// Appends to a file and replaces its first page.
fn write_tea(rt: &impl Abort, files: &mut FileArea<SureArea>, tea: Ident) {
    answer_is(rt, files, Call::Append(tea, 7), None);
    answer_is(rt, files, Call::Append(tea, 8), None);
    answer_is(rt, files, Call::Replace(tea, 1, 9), None);
    is_filled(rt, files, &tea, 1, 9);
    is_filled(rt, files, &tea, 2, 8);
    let past = Some(FileFault::PageRange);
    answer_is(rt, files, Call::Read(tea, 3), past);
}

// Makes a file, once.
fn create_milk(rt: &impl Abort, files: &mut FileArea<SureArea>, milk: Ident) {
    let exists = Some(FileFault::Exists);
    answer_is(rt, files, Call::Create(milk, FileKind::SeqCode), None);
    answer_is(rt, files, Call::Create(milk, FileKind::Ascii), exists);
}

// A file that is protected takes no page.
fn protect_tea(rt: &impl Abort, files: &mut FileArea<SureArea>, tea: Ident) {
    let protected = Some(FileFault::Protected);
    answer_is(rt, files, Call::Protect(tea, true), None);
    answer_is(rt, files, Call::Append(tea, 1), protected);
}

#[test]
fn a_file_is_looked_up_appended_to_read_and_replaced(rt: HostRuntime) {
    let (tea, milk) = (name(&rt, b"tea"), name(&rt, b"milk"));
    let area = one_file(&rt, rt.alloc(), b"TEA         ");
    let mut files = mounted(&rt, rt.alloc(), area);
    assert!(rt; free_pages(&rt, &files) == 4269);
    answer_is(&rt, &mut files, Call::Lookup(milk), Some(FileFault::NoFile));
    write_tea(&rt, &mut files, tea);
    protect_tea(&rt, &mut files, tea);
    assert!(rt; free_pages(&rt, &files) == 4266);
    create_milk(&rt, &mut files, milk);
    is_file(&rt, &mut files, &tea, (FileKind::Ascii, true, 2));
    is_file(&rt, &mut files, &milk, (FileKind::SeqCode, false, 0));
    let again = mounted(&rt, rt.alloc(), files.into_inner());
    assert!(rt; free_pages(&rt, &again) == 4265);
}

// The page that a mount of an area names.
fn page_named(rt: &impl Abort, alloc: Global, area: SureArea) -> Option<u16> {
    match mount(rt, alloc, area) {
        Err((_, FileFault::NotSolo { page })) => Some(page),
        _ => None,
    }
}

#[test]
fn the_least_page_that_breaks_the_format_is_named(rt: HostRuntime) {
    for (page, byte, named) in [
        (0, 0, 0),
        (4, 31, 4),
        (5, 32, 5),
        (16, 3, 16),
        (17, 24, 17),
        (18, 511, 18),
    ] {
        let mut area = one_file(&rt, rt.alloc(), b"A           ");
        set_byte(&rt, &mut area, page, byte, 77);
        assert!(rt;
            page_named(&rt, rt.alloc(), area) == Some(named),
            "at {page}"
        );
    }
}

// How an area is judged by format 1: how many pages are free, and the address of TEA.
fn judged(rt: &impl Abort, alloc: Global, area: &mut SureArea) -> Result<(u16, u16), FileFault> {
    assert!(rt; area.size() == AREA_PAGES);
    let mut entries = [BLANK; 240];
    let map = judge_older(alloc, area, &mut entries)?;
    let place = key_of(b"TEA         ") as usize - 1;
    Ok((map.free(), entries[place].address))
}

// A page that begins with these numbers.
fn page_of_numbers(first: u16, second: u16, third: u16) -> Page {
    let mut page = Page::zeros();
    set_number(&mut page, 0, first);
    set_number(&mut page, 2, second);
    set_number(&mut page, 4, third);
    page
}

#[test]
fn an_area_of_format_1_is_judged(rt: HostRuntime) {
    let mut area = one_file(&rt, rt.alloc(), b"TEA         ");
    for (n, page, wanted) in [
        (0, label(), Err(FileFault::NotSolo { page: 0 })),
        (0, label1(), Ok((4269, 18))),
        // one page, whose bit isn't set, and then is
        (
            18,
            page_of_numbers(1, 19, 0),
            Err(FileFault::NotSolo { page: 16 }),
        ),
        (16, low_bits(2), Ok((4268, 18))),
        // a number behind those that the length says
        (
            18,
            page_of_numbers(1, 19, 20),
            Err(FileFault::NotSolo { page: 18 }),
        ),
    ] {
        set_page(&rt, &mut area, n, &page);
        assert!(rt; judged(&rt, rt.alloc(), &mut area) == wanted, "page {n}");
    }
}
