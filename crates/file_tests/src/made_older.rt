//! Areas of format 1 that tests begin with.

use crate::made_area::{page_of, set_page};
use disk_layout::{Entry, key_of, label1};
use disk_pages::{PageMap, set_number};
use solo_base::Page;
use solo_devices::Area;
use std::process::Abort;

/// An area of format 1 while it is filled.
#[derive(Drop)]
pub struct OlderArea<A: Area> {
    pub area: A,
    pub map: PageMap,
}

/// Writes the label of an area of format 1 without a file.
pub fn begin<A: Area>(rt: &impl Abort, area: A) -> OlderArea<A> {
    let mut area = area;
    set_page(rt, &mut area, 0, &label1());
    OlderArea {
        area,
        map: PageMap::fresh(),
    }
}

/// Puts a file of so many pages, at most 255, behind the others, at the place of its key. Page j, from
/// 0, is of the byte j mod 251.
pub fn put_file<A: Area>(rt: &impl Abort, older: &mut OlderArea<A>, name: &[u8; 12], pages: u16) {
    let index = older.map.allocate().expect(rt, "a free page");
    put_pages(rt, older, index, pages.min(255));
    put_entry(rt, &mut older.area, name, index);
}

// Writes so many pages, at most 255, and the page that has their numbers.
fn put_pages<A: Area>(rt: &impl Abort, older: &mut OlderArea<A>, index: u16, pages: u16) {
    let pages = pages.min(255);
    let mut map_page = Page::zeros();
    set_number(&mut map_page, 0, pages);
    for j in 0..pages {
        let page = older.map.allocate().expect(rt, "a free page");
        set_number(&mut map_page, 2 * (j + 1), page);
        set_page(rt, &mut older.area, page, &Page([(j % 251) as u8; 512]));
    }
    set_page(rt, &mut older.area, index, &map_page);
}

// Writes the entry of a file.
fn put_entry<A: Area>(rt: &impl Abort, area: &mut A, name: &[u8; 12], address: u16) {
    let key = key_of(name);
    let entry = Entry {
        name: *name,
        kind: 2,
        address,
        protection: 0,
        key,
        searches: 1,
    };
    let n = 1 + (key - 1) / 16;
    let mut page = page_of(rt, area, n);
    entry.write(&mut page, 32 * ((key - 1) % 16));
    set_page(rt, area, n, &page);
}

/// The area, with its bit map.
pub fn end<A: Area>(rt: &impl Abort, older: OlderArea<A>) -> A {
    let mut area = older.area;
    let (low, high) = older.map.to_pages();
    set_page(rt, &mut area, 16, &low);
    set_page(rt, &mut area, 17, &high);
    area
}

/// The area of format 1 with this one file.
pub fn with_file<A: Area>(rt: &impl Abort, area: A, name: &[u8; 12], pages: u16) -> A {
    let mut older = begin(rt, area);
    put_file(rt, &mut older, name, pages);
    end(rt, older)
}
