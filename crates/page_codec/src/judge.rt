ghost use Rattle.std.specs.Prelude.{◌≡◌, ◌+◌, ◌≤◌, ◌<◌, ℕ, length, slice_index};
ghost use Rattle.page_codec.specs.Reading.{begins_item, characters, bad_item_after, first_other_than_zero, has_length, bad_body, bad_place};

use crate::form::{CONTENT_ROOM, HEADER_LENGTH, LEAST_FULL, SPOILED, mark};
use solo_base::{LINE_LENGTH, PAGE_LENGTH, all_printable, number_at};

/// What shows that a page isn't the one that was expected: the place in the stream that was expected,
/// the one that the page has, and its least byte that is wrong.
#[derive(Clone, Copy, Debug, PartialEq, Eq)]
pub struct BadPage {
    pub expected: u16,
    pub found: u16,
    pub at: u16,
}

/// How many bytes of an item follow its first.
pub fn characters(first: u8) -> usize
    ensures { result ≡ characters first }
{
    if first == SPOILED { 0 } else { first as usize }
}

/// Whether a byte, with those that follow it, begins a whole item.
fn begins_item(first: u8, rest: &[u8]) -> bool
    ensures { result ≡ begins_item first rest.now }
{
    let length = first as usize;
    first == SPOILED
        || (length <= LINE_LENGTH && length <= rest.len() && all_printable(&rest[..length]))
}

/// The place in its page of the first byte of the content that doesn't begin a whole item.
fn bad_item(content: &[u8]) -> Option<u16>
    requires { length content.now ≤ CONTENT_ROOM }
    ensures { result ≡ bad_item_after HEADER_LENGTH 0 content.now }
{
    let mut at = HEADER_LENGTH as u16;
    let mut left = content;
    while let [first, rest @ ..] = left {
        if !begins_item(*first, rest) {
            return Some(at);
        }
        let passed = characters(*first);
        at += 1 + passed as u16;
        left = &rest[passed..];
    }
    None
}

/// The place in its page of the first byte that isn't 0, of bytes from a place on.
fn first_other_than_zero(bytes: &[u8], from: u16) -> Option<u16>
    requires { from + length bytes.now ≤ PAGE_LENGTH }
    ensures { result ≡ first_other_than_zero from bytes.now }
{
    let mut at = from;
    for byte in bytes {
        if *byte != 0 {
            return Some(at);
        }
        at += 1;
    }
    None
}

/// Whether a page with this mark can have so many bytes of items.
fn has_length(last: bool, length: usize) -> bool
    ensures { result ≡ has_length last length }
{
    length <= CONTENT_ROOM && (last || LEAST_FULL <= length)
}

/// The least byte of a page that is wrong, where the page with this number and this mark is expected.
pub fn bad_place(bytes: &[u8; PAGE_LENGTH], expected: u16, last: bool) -> Option<u16>
    ensures place { result ≡ bad_place expected last bytes.now }
    ensures bytes { (i : ℕ) → slice_index bytes.now i < 256 }
{
    if number_at(bytes, 0) != expected {
        return Some(0);
    }
    if bytes[2] != mark(last) {
        return Some(2);
    }
    if bytes[3] != 0 {
        return Some(3);
    }
    let length = number_at(bytes, 4) as usize;
    if !has_length(last, length) {
        return Some(4);
    }
    bad_body(bytes, length)
}

/// The least byte behind the header that is wrong, of a page with so many bytes of items.
fn bad_body(bytes: &[u8; PAGE_LENGTH], length: usize) -> Option<u16>
    requires { length ≤ CONTENT_ROOM }
    ensures { result ≡ bad_body length bytes.now }
{
    let (content, rest) = bytes[HEADER_LENGTH..].split_at(length);
    bad_item(content).or_else(|| first_other_than_zero(rest, (HEADER_LENGTH + length) as u16))
}
