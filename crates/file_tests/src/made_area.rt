//! Areas that tests begin with, and their pages.

use disk_files::{FileArea, FileFault};
use disk_pages::AREA_PAGES;
use disk_system::format;
use solo_base::{Ident, Page};
use solo_devices::{Area, MemArea, SureArea};
use std::alloc::Global;
use std::process::Abort;

/// An area of zeros.
pub fn zero_area(rt: &impl Abort, alloc: Global) -> SureArea {
    SureArea::new(alloc, AREA_PAGES)
        .ok()
        .expect(rt, "ample memory")
}

/// Makes an area one without a file.
pub fn formatted<A: Area>(rt: &impl Abort, area: &mut A) {
    assert!(rt; area.size() == AREA_PAGES);
    assert!(rt; format(area).is_ok());
}

/// An area without a file.
pub fn blank_area(rt: &impl Abort, alloc: Global) -> SureArea {
    let mut area = zero_area(rt, alloc);
    formatted(rt, &mut area);
    area
}

/// An area of zeros whose reads and writes with these numbers fail, counted from 1.
pub fn failing_area(rt: &impl Abort, alloc: Global, read: u64, write: u64) -> MemArea {
    let reads = vec![in alloc; read].ok().expect(rt, "ample memory");
    let writes = vec![in alloc; write].ok().expect(rt, "ample memory");
    MemArea::new(alloc, AREA_PAGES, reads, writes)
        .ok()
        .expect(rt, "ample memory")
}

/// The files of an area.
pub fn mount<A: Area>(
    rt: &impl Abort,
    alloc: Global,
    area: A,
) -> Result<FileArea<A>, (A, FileFault)> {
    assert!(rt; area.size() == AREA_PAGES);
    FileArea::mount(alloc, area)
}

/// The files of an area that is a Solo disk.
pub fn mounted<A: Area>(rt: &impl Abort, alloc: Global, area: A) -> FileArea<A> {
    match mount(rt, alloc, area) {
        Ok(files) => files,
        Err(_) => panic!(rt; "no Solo disk"),
    }
}

/// The files of an area without a file.
pub fn blank_files(rt: &impl Abort, alloc: Global) -> FileArea<SureArea> {
    mounted(rt, alloc, blank_area(rt, alloc))
}

/// An identifier.
pub fn name(rt: &impl Abort, letters: &[u8]) -> Ident {
    Ident::of(letters).expect(rt, "a name")
}

/// The name of F and four digits.
pub fn numbered(rt: &impl Abort, number: u16) -> Ident {
    let mut letters = [b'F'; 5];
    let mut rest = number;
    for place in 0..4usize {
        letters[4 - place] = b'0' + (rest % 10) as u8;
        rest /= 10;
    }
    name(rt, &letters)
}

/// A page of this byte.
pub fn filled(byte: u8) -> Page {
    Page([byte; 512])
}

/// Page n of an area.
pub fn page_of<A: Area>(rt: &impl Abort, area: &mut A, n: u16) -> Page {
    assert!(rt; n < area.size());
    let mut page = Page::zeros();
    area.read(n, &mut page);
    page
}

/// Makes page n of an area another.
pub fn set_page<A: Area>(rt: &impl Abort, area: &mut A, n: u16, page: &Page) {
    assert!(rt; n < area.size());
    area.write(n, page);
}

/// Makes one byte of page n of an area another.
pub fn set_byte<A: Area>(rt: &impl Abort, area: &mut A, n: u16, at: usize, byte: u8) {
    let mut page = page_of(rt, area, n);
    assert!(rt; at < 512);
    page.0[at] = byte;
    set_page(rt, area, n, &page);
}

/// These bytes stand in page n of an area, from this one on.
pub fn has_bytes<A: Area>(rt: &impl Abort, area: &mut A, n: u16, at: usize, bytes: &[u8]) {
    let page = page_of(rt, area, n);
    assert!(rt; at < 512);
    assert!(rt; page.0[at..].starts_with(bytes), "byte {at} of page {n}");
}
