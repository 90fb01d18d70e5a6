ghost use Rattle.std.specs.Prelude.{◌≡◌, false};

use page_codec::{BadPage, Packer, PageItems, Unpacker};
use solo_base::{Item, LINE_LENGTH, Line, PAGE_LENGTH, Page};
use std::process::Abort;

fn line(rt: &impl Abort, bytes: &[u8]) -> Item {
    Item::Line(Line::of(bytes).expect(rt, "it is a line"))
}

/// A line of so many letters B.
fn letters(rt: &impl Abort, count: usize) -> Item {
    assert!(rt; count <= LINE_LENGTH);
    line(rt, &[b'B'; LINE_LENGTH][..count])
}

/// Whether the next item is this line.
fn is_next(items: &mut PageItems, bytes: &[u8]) -> bool {
    match items.next() {
        Some(Item::Line(line)) => line.bytes() == bytes,
        _ => false,
    }
}

/// The items that are left are these lines.
fn are_left(rt: &impl Abort, items: &mut PageItems, lines: &[&[u8]]) {
    for line in lines {
        assert!(rt; is_next(items, line), "{line:?}");
    }
    assert!(rt; items.next().is_none());
}

/// Adds an item for which there is room on the page in hand.
fn put(rt: &impl Abort, packer: &mut Packer, item: &Item) {
    assert!(rt; packer.push(item).is_none());
}

/// The two pages of a listing: six cards of 80 columns, and one of so many.
fn listing(rt: &impl Abort, columns: usize) -> (Page, Page) {
    let mut packer = Packer::new();
    put(rt, &mut packer, &line(rt, b"JOB A"));
    for _ in 0..6 {
        put(rt, &mut packer, &letters(rt, 80));
    }
    let early = packer.push(&letters(rt, columns));
    let late = packer.push(&line(rt, b"A: LISTED 7 CARDS"));
    let first = early.or(late).expect(rt, "a page is full");
    (first, packer.finish())
}

/// Whether a page begins with these bytes.
fn begins(page: &Page, bytes: &[u8]) -> bool {
    page.0.starts_with(bytes)
}

#[test]
fn seven_cards_fill_the_first_page_of_a_listing(rt: HostRuntime) {
    for (columns, on_first, on_last) in [
        // 6 + 486 + 14 bytes of items, and then 18
        (
            13,
            [0, 0, 0, 0, 1, 250, 5, b'J'],
            [0, 1, 1, 0, 0, 18, 17, b'A'],
        ),
        // with one column more 6 + 486, and then 15 + 18
        (
            14,
            [0, 0, 0, 0, 1, 236, 5, b'J'],
            [0, 1, 1, 0, 0, 33, 14, b'B'],
        ),
    ] {
        let (first, last) = listing(&rt, columns);
        assert!(rt; begins(&first, &on_first));
        assert!(rt; begins(&last, &on_last));
    }
}

/// A page, which is the last or is not, has these lines.
fn is_taken(rt: &impl Abort, unpacker: &mut Unpacker, page: &Page, last: bool, lines: &[&[u8]])
    requires { unpacker.old.ended ≡ false }
    ensures { unpacker.new.ended ≡ last }
{
    let items = unpacker.take(page, last);
    let mut items = items.ok().expect(rt, "a page");
    assert!(rt; items.last() == last);
    are_left(rt, &mut items, lines);
}

#[test]
fn the_pages_of_a_listing_are_read_back(rt: HostRuntime) {
    let (first, last) = listing(&rt, 13);
    let mut unpacker = Unpacker::new();
    let card = [b'B'; 80].as_slice();
    let end = [b'B'; 13].as_slice();
    let lines = [b"JOB A", card, card, card, card, card, card, end];
    is_taken(&rt, &mut unpacker, &first, false, &lines);
    is_taken(&rt, &mut unpacker, &last, true, &[b"A: LISTED 7 CARDS"]);
}

#[test]
fn a_spoiled_card_is_one_byte(rt: HostRuntime) {
    let mut packer = Packer::new();
    put(&rt, &mut packer, &Item::Spoiled);
    let page = packer.finish();
    assert!(rt; begins(&page, &[0, 0, 1, 0, 0, 1, 255, 0]));
    let mut unpacker = Unpacker::new();
    let items = unpacker.take(&page, true);
    let mut items = items.ok().expect(&rt, "a page");
    assert!(rt; matches!(items.next(), Some(Item::Spoiled)));
    assert!(rt; items.next().is_none());
}

/// The page of the lines HI and A: 0, 0, 1, 0, 0, 5, 2, `H`, `I`, 1, `A`, and zeros.
fn short_page(rt: &impl Abort) -> Page {
    let mut packer = Packer::new();
    put(rt, &mut packer, &line(rt, b"HI"));
    put(rt, &mut packer, &line(rt, b"A"));
    packer.finish()
}

/// How a page is refused that has this byte at a place.
fn refused_with(rt: &impl Abort, page: &Page, byte: usize, value: u8) -> Option<BadPage> {
    let mut wrong = *page;
    assert!(rt; byte < PAGE_LENGTH);
    wrong.0[byte] = value;
    Unpacker::new().take(&wrong, true).err()
}

/// A byte, its wrong value, the number of a page that is found, and the place that is refused.
const WRONG: [(usize, u8, u16, u16); 14] = [
    (1, 7, 7, 0),
    (0, 1, 256, 0),
    (2, 0, 0, 2),
    (3, 1, 0, 3),
    (4, 2, 0, 4),
    (6, 133, 0, 6),
    (6, 3, 0, 6),
    (8, 10, 0, 6),
    (9, 2, 0, 9),
    (10, 127, 0, 9),
    (5, 4, 0, 9),
    (5, 3, 0, 9),
    (11, 1, 0, 11),
    (511, 32, 0, 511),
];

#[test]
fn a_wrong_byte_is_found_at_its_place(rt: HostRuntime) {
    let page = short_page(&rt);
    for (byte, value, found, at) in WRONG {
        let refusal = BadPage {
            expected: 0,
            found,
            at,
        };
        assert!(rt;
            refused_with(&rt, &page, byte, value) == Some(refusal),
            "at {byte}"
        );
    }
}

#[test]
fn a_refusal_changes_nothing(rt: HostRuntime) {
    let page = Packer::new().finish();
    let mut unpacker = Unpacker::new();
    let refusal = unpacker.take(&page, false).err();
    // the mark is another
    assert!(rt; refusal.expect(&rt, "a refusal").at == 2);
    let items = unpacker.take(&page, true);
    assert!(rt; items.ok().expect(&rt, "a page").last());
}

#[test]
fn a_page_before_the_last_is_full(rt: HostRuntime) {
    let mut packer = Packer::new();
    put(&rt, &mut packer, &letters(&rt, 132));
    let mut page = packer.finish();
    page.0[2] = 0;
    // 133 bytes are fewer than 374
    assert!(rt;
        matches!(
            Unpacker::new().take(&page, false),
            Err(BadPage { at: 4, .. })
        )
    );
}

/// Packs two lines and one for which there is no room, and takes the page that is full, of this number.
fn pass_page(
    rt: &impl Abort,
    packer: &mut Packer,
    unpacker: &mut Unpacker,
    long: &Item,
    number: u32,
)
    requires { unpacker.old.ended ≡ false }
    ensures { unpacker.new.ended ≡ false }
{
    put(rt, packer, long);
    put(rt, packer, long);
    let page = packer.push(long).expect(rt, "the page is full");
    assert!(rt; u32::from(page.0[0]) * 256 + u32::from(page.0[1]) == number);
    assert!(rt; unpacker.take(&page, false).is_ok());
}

#[test]
fn the_places_begin_again_after_65536_pages(rt: HostRuntime) {
    let mut packer = Packer::new();
    let mut unpacker = Unpacker::new();
    let long = letters(&rt, 132);
    // three lines fill a page, and the fourth begins the next
    put(&rt, &mut packer, &long);
    for place in 0..65_538u32 {
        pass_page(&rt, &mut packer, &mut unpacker, &long, place % 65_536);
    }
    assert!(rt; unpacker.take(&packer.finish(), true).is_ok());
}
