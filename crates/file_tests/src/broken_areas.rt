use crate::file_calls::{Call, answers};
use crate::made_area::{blank_files, mount, name, set_byte};
use disk_files::FileFault;
use disk_layout::FileKind;
use solo_devices::SureArea;
use std::alloc::Global;
use std::process::Abort;

// A byte of a page that is made another: the page, the byte, the value.
type Damage = (u16, usize, u8);

// An area with the files A, of the pages 20 to 22 with the index page 18 and the part 19, and B, of page 25
// with the index page 23 and the part 24. Their entries stand in page 5 at the bytes 32 and 64.
fn two_files(rt: &impl Abort, alloc: Global) -> SureArea {
    let first = name(rt, b"A");
    let second = name(rt, b"B");
    let mut files = blank_files(rt, alloc);
    answers(
        rt,
        &mut files,
        &[
            (Call::Create(first, FileKind::Ascii), None),
            (Call::Append(first, 0), None),
            (Call::Append(first, 1), None),
            (Call::Append(first, 2), None),
            (Call::Create(second, FileKind::Ascii), None),
            (Call::Append(second, 0), None),
        ],
    );
    files.into_inner()
}

// The page that a mount of the two files names after this damage.
fn page_named(rt: &impl Abort, alloc: Global, damages: &[Damage]) -> Option<u16> {
    let mut area = two_files(rt, alloc);
    for (page, byte, value) in damages {
        set_byte(rt, &mut area, *page, *byte, *value);
    }
    match mount(rt, alloc, area) {
        Err((_, FileFault::NotSolo { page })) => Some(page),
        _ => None,
    }
}

// Each of these bytes, made another alone, names its page.
fn each_names(rt: &impl Abort, alloc: Global, damages: &[(Damage, u16)]) {
    for (damage, named) in damages {
        let answer = page_named(rt, alloc, &[*damage]);
        assert!(rt; answer == Some(*named), "{damage:?}");
    }
}

// Two bytes, made others together, name a page.
fn pairs_name(rt: &impl Abort, alloc: Global, pairs: &[(Damage, Damage, u16)]) {
    for (one, two, named) in pairs {
        let answer = page_named(rt, alloc, &[*one, *two]);
        assert!(rt; answer == Some(*named), "{one:?} and {two:?}");
    }
}

#[test]
fn two_files_break_no_format(rt: HostRuntime) {
    assert!(rt; page_named(&rt, rt.alloc(), &[]) == None);
}

#[test]
fn each_byte_that_breaks_the_catalogue_names_its_page(rt: HostRuntime) {
    for damage in [
        (0, 0, b's'),
        (0, 9, 1),
        (0, 11, 0),
        (0, 511, 1),
        // of A: the name, no kind and one too many, the address, the protection, the spare bytes, the key,
        // the search length
        (5, 32, b'a'),
        (5, 45, 0),
        (5, 45, 5),
        (5, 47, 17),
        (5, 46, 255),
        (5, 49, 2),
        (5, 50, 1),
        (5, 59, 1),
        (5, 61, 67),
        (5, 63, 0),
        (5, 63, 2),
        // of B: the address of A
        (5, 79, 18),
        // no file: a name, an address, a key, a search length
        (1, 0, b'A'),
        (15, 495, 18),
        (15, 509, 1),
        (15, 511, 1),
    ] {
        each_names(&rt, rt.alloc(), &[(damage, damage.0)]);
    }
    // B has the name of A, and its key
    pairs_name(&rt, rt.alloc(), &[((5, 64, b'A'), (5, 93, 66), 5)]);
}

#[test]
fn each_byte_that_breaks_a_page_of_addresses_names_it(rt: HostRuntime) {
    each_names(
        &rt,
        rt.alloc(),
        &[
            // of the index page of A: a number behind those in use
            ((18, 5, 1), 18),
            ((18, 511, 1), 18),
            // of its part: a number behind those in use
            ((19, 7, 1), 19),
            ((19, 511, 1), 19),
        ],
    );
    pairs_name(
        &rt,
        rt.alloc(),
        &[
            // of the index page of A: a length over 4,000
            ((18, 0, 15), (18, 1, 161), 18),
            // a number outside the pages of files, and no bit for the page that stood there
            ((19, 1, 17), (16, 2, 0xEF), 19),
            // a number twice, an index page and a part page, and no bit for page 21
            ((19, 3, 20), (16, 2, 0xDF), 19),
            ((19, 3, 18), (16, 2, 0xDF), 19),
            ((19, 3, 23), (16, 2, 0xDF), 19),
            ((19, 3, 24), (16, 2, 0xDF), 19),
            // the page of a lesser part, and no bit for page 25
            ((24, 1, 20), (16, 3, 1), 24),
            // the part of a lesser index page, and no bits for the pages 24 and 25
            ((23, 3, 19), (16, 3, 0), 23),
        ],
    );
}

#[test]
fn the_parts_of_an_index_page_are_judged(rt: HostRuntime) {
    // 256 pages: the second part is no page of files, the first again, an index page
    for number in [5, 19, 23] {
        pairs_name(&rt, rt.alloc(), &[((18, 0, 1), (18, 5, number), 18)]);
    }
}

#[test]
fn each_bit_that_is_wrong_names_its_page(rt: HostRuntime) {
    each_names(
        &rt,
        rt.alloc(),
        &[
            ((16, 0, 0xFE), 16),
            ((16, 2, 0x7F), 16),
            ((16, 3, 0x07), 16),
            ((16, 511, 0x80), 16),
            ((17, 0, 1), 17),
            ((17, 23, 0x80), 17),
            ((17, 24, 1), 17),
            ((17, 511, 1), 17),
            // a page of A that isn't named any more
            ((19, 1, 5), 16),
        ],
    );
}

#[test]
fn of_two_pages_the_lesser_is_named(rt: HostRuntime) {
    pairs_name(
        &rt,
        rt.alloc(),
        &[
            ((19, 511, 1), (5, 45, 5), 5),
            ((15, 511, 1), (1, 31, 1), 1),
            ((17, 24, 1), (18, 511, 1), 17),
            ((17, 24, 1), (16, 511, 1), 16),
            ((24, 511, 1), (18, 511, 1), 18),
            ((24, 511, 1), (19, 511, 1), 19),
            ((0, 511, 1), (5, 45, 5), 0),
        ],
    );
}
