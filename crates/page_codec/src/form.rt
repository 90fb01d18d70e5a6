ghost use Rattle.std.specs.Prelude.{◌≡◌, ◌+◌, ◌≤◌, ◌++◌, length, take, drop};
ghost use Rattle.page_codec.specs.Form.{page_of, mark};

use solo_base::{LINE_LENGTH, PAGE_LENGTH, Page};

/// How many bytes stand before the items of a page: its place in its stream in two bytes, its mark,
/// a zero, and the length of its items in two bytes.
pub const HEADER_LENGTH: usize = 6;

/// How many bytes of items a page has room for.
pub const CONTENT_ROOM: usize = PAGE_LENGTH - HEADER_LENGTH;

/// How many bytes an item has at most: a length and 132 characters.
pub const ITEM_LENGTH: usize = 1 + LINE_LENGTH;

/// How many bytes of items a page has at least that isn't the last: one item more had no room.
pub const LEAST_FULL: usize = CONTENT_ROOM - ITEM_LENGTH + 1;

/// The one byte of a spoiled card.
pub const SPOILED: u8 = 255;

/// The page at a place of a stream, with its mark and the bytes of its items.
pub fn page_of(place: u16, last: bool, content: &[u8]) -> Page
    requires { length content.now ≤ CONTENT_ROOM }
    ensures { result ≡ page_of place last content.now }
{
    let [place_high, place_low] = place.to_be_bytes();
    let [length_high, length_low] = (content.len() as u16).to_be_bytes();
    let header = [
        place_high,
        place_low,
        mark(last),
        0,
        length_high,
        length_low,
    ];
    let mut bytes = [0; PAGE_LENGTH];
    write_at(&mut bytes, 0, &header);
    write_at(&mut bytes, HEADER_LENGTH, content);
    Page(bytes)
}

/// What byte 2 of a page is.
pub fn mark(last: bool) -> u8
    ensures { result ≡ mark last }
{
    u8::from(last)
}

/// Writes a piece over the bytes from a place on.
fn write_at(bytes: &mut [u8], at: usize, piece: &[u8])
    requires { at + length piece.now ≤ length bytes.old }
    ensures { bytes.new ≡ take at bytes.old ++ piece.now ++ drop (at + length piece.now) bytes.old }
{
    for (i, byte) in piece.iter().enumerate() {
        bytes[at + i] = *byte;
    }
}
