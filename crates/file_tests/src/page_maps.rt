use disk_pages::{
    AREA_PAGES, FIRST_FILE_PAGE, PageMap, name_bytes, number, set_name_bytes, set_number,
};
use solo_base::Page;
use std::process::Abort;

/// Each of these pages is taken, or is not.
fn are_taken(rt: &impl Abort, map: &PageMap, pages: &[(u16, bool)]) {
    for (page, taken) in pages {
        let page = *page;
        assert!(rt; page < AREA_PAGES);
        assert!(rt; map.is_taken(page) == *taken, "at {page}");
    }
}

/// Whether a page has these bytes from this place on.
fn has_bytes(page: &Page, at: usize, bytes: &[u8]) -> bool {
    at < 512 && page.0[at..].starts_with(bytes)
}

fn is_same(one: &Page, other: &Page) -> bool {
    one.0.as_slice() == other.0.as_slice()
}

#[test]
fn a_fresh_map_has_the_system_pages(rt: HostRuntime) {
    let map = PageMap::fresh();
    assert!(rt; map.free() == 4270);
    let pages = [(0, true), (17, true), (18, false), (4287, false)];
    are_taken(&rt, &map, &pages);
    let (low, high) = map.to_pages();
    assert!(rt; has_bytes(&low, 0, &[255, 255, 3, 0]));
    assert!(rt; high.0[0] == 0);
}

/// Takes all pages in their order, up to the last.
fn take_all(rt: &impl Abort, map: &mut PageMap) {
    for page in FIRST_FILE_PAGE..AREA_PAGES {
        assert!(rt; map.allocate() == Some(page));
    }
}

#[test]
fn pages_are_taken_in_order_until_the_map_is_full(rt: HostRuntime) {
    let mut map = PageMap::fresh();
    take_all(&rt, &mut map);
    assert!(rt; map.free() == 0);
    assert!(rt; map.allocate() == None);
    let (low, high) = map.to_pages();
    assert!(rt; is_same(&low, &Page([255; 512])));
    assert!(rt; has_bytes(&high, 22, &[255, 255, 0, 0]));
}

/// Gives a page back.
fn give_back(rt: &impl Abort, map: &mut PageMap, page: u16) {
    assert!(rt; page < AREA_PAGES && FIRST_FILE_PAGE <= page);
    assert!(rt; map.is_taken(page));
    map.give_back(page);
}

#[test]
fn a_page_given_back_is_taken_again(rt: HostRuntime) {
    let mut map = PageMap::fresh();
    take_all(&rt, &mut map);
    for page in [4287, 20, 18] {
        give_back(&rt, &mut map, page);
    }
    assert!(rt; map.free() == 3);
    for page in [18, 20, 4287] {
        assert!(rt; map.allocate() == Some(page));
    }
    assert!(rt; map.allocate() == None);
}

#[test]
fn a_map_is_read_from_its_pages(rt: HostRuntime) {
    let mut low = Page([0; 512]);
    let mut high = Page([0; 512]);
    low.0[0] = 255;
    low.0[1] = 255;
    low.0[2] = 7;
    high.0[23] = 128;
    let map = PageMap::of_pages(&low, &high);
    assert!(rt; map.free() == 4268);
    are_taken(&rt, &map, &[(17, true), (18, true), (19, false)]);
    are_taken(&rt, &map, &[(4286, false), (4287, true)]);
    let (low_again, high_again) = map.to_pages();
    assert!(rt; is_same(&low_again, &low));
    assert!(rt; is_same(&high_again, &high));
}

#[test]
fn bits_that_break_the_format_are_left_out(rt: HostRuntime) {
    let low = Page([0; 512]);
    let mut high = Page([0; 512]);
    high.0[24] = 1;
    let mut map = PageMap::of_pages(&low, &high);
    assert!(rt; map.free() == 4270);
    let (_, high_again) = map.to_pages();
    assert!(rt; high_again.0[24] == 0);
    assert!(rt; map.allocate() == Some(18));
}

#[test]
fn fields_are_read_as_they_were_written(rt: HostRuntime) {
    let mut page = Page([9; 512]);
    set_number(&mut page, 510, 4288);
    set_name_bytes(&mut page, 498, *b"CARDS       ");
    assert!(rt; has_bytes(&page, 497, &[9, 67, 65]));
    assert!(rt; has_bytes(&page, 509, &[32, 16, 192]));
    assert!(rt; number(&page, 510) == 4288);
    assert!(rt; name_bytes(&page, 498) == *b"CARDS       ");
}
