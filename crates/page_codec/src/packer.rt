ghost use Rattle.std.specs.Prelude.{◌≡◌, ◌+◌, ◌%◌, ◌^◌, ◌≤◌, true, false, List, [], ◌∷◌, ◌++◌, length, option_to_list, Some};
ghost use Rattle.solo_base.specs.declared.item.Item.{Item};
ghost use Rattle.solo_base.specs.declared.item.Item.TheVariants.{Line as LineOf};
ghost use Rattle.solo_base.specs.declared.page.Page.{Page};
ghost use Rattle.page_codec.specs.Items.{item_bytes, IsItem};
ghost use Rattle.page_codec.specs.Form.{page_of};
ghost use Rattle.page_codec.specs.Packing.{first_page, page_given, hand_after, HasPacked};
ghost use Rattle.page_codec.specs.Due.{page_due};
ghost use Rattle.page_codec.specs.Stream.{IsStream};

use crate::form::{CONTENT_ROOM, SPOILED, page_of};
use arrayvec::ArrayVec;
use solo_base::{Item, Line, Page};
use std::marker::Model;

/// Puts items into pages. An item goes into the page in hand if it fits, else into the next. Places
/// of pages count modulo 65,536.
#[derive(Debug, Drop)]
pub struct Packer {
    place: u16,
    content: ArrayVec<u8, CONTENT_ROOM>,
}

impl Model for Packer {
    ghost use Rattle.page_codec.specs.Packing.{PageInHand};

    ghost Value = { PageInHand };

    ghost view = { λ packer. record { place = packer.place; content = packer.content.items } };
}

impl Packer {
    /// A packer with the first page in hand, which has no items.
    pub fn new() -> Packer
        ensures first { result ≡ first_page }
        ensures history { HasPacked result [] [] }
    {
        Packer {
            place: 0,
            content: ArrayVec::new(),
        }
    }

    /// Adds an item. It gives the page in hand, which isn't the last, where the item doesn't fit
    /// behind those held; the item then begins the next page.
    pub fn push(&mut self, item: &Item) -> Option<Page>
        ensures page { result ≡ page_given self.old item.now }
        ensures hand { self.new ≡ hand_after self.old item.now }
        ensures history { (items : List Item) (pages : List Page) → HasPacked self.old items pages
            → HasPacked self.new (items ++ item.now ∷ []) (pages ++ option_to_list result) }
    {
        let mut due = None;
        self.push_into(item, &mut due);
        due
    }

    /// Adds an item as `push` does, and writes the page that it gives, if any, into the caller's place.
    pub fn push_into(&mut self, item: &Item, due: &mut Option<Page>)
        ensures page { due.new ≡ page_due self.old item.now due.old }
        ensures hand { self.new ≡ hand_after self.old item.now }
        ensures history { (items : List Item) (pages : List Page) → HasPacked self.old items pages
            → HasPacked self.new (items ++ item.now ∷ []) (pages ++ option_to_list (page_given self.old item.now)) }
    {
        if length_of(item) <= self.content.remaining_capacity() {
            append(&mut self.content, item);
            return;
        }
        self.turn(due);
        append(&mut self.content, item);
    }

    /// Adds a line as `push_into` adds an item.
    pub fn push_line(&mut self, line: &Line, due: &mut Option<Page>)
        ensures page { due.new ≡ page_due self.old (LineOf line.now) due.old }
        ensures hand { self.new ≡ hand_after self.old (LineOf line.now) }
    {
        if length_of_line(line) <= self.content.remaining_capacity() {
            append_line(&mut self.content, line);
            return;
        }
        self.turn(due);
        append_line(&mut self.content, line);
    }

    /// Gives the page in hand, which isn't the last. The next one has no items.
    #[inline(never)]
    fn turn(&mut self, due: &mut Option<Page>)
        ensures page { due.new ≡ Some (page_of self.old.place false self.old.content) }
        ensures hand { self.new ≡ record { place = (self.old.place + 1) % 2 ^ 16; content = [] } }
    {
        *due = Some(page_of(self.place, false, &self.content));
        self.place = self.place.wrapping_add(1);
        self.content.clear();
    }

    /// The last page.
    pub fn finish(self) -> Page
        ensures page { result ≡ page_of self.place true self.content }
        ensures stream { (items : List Item) (pages : List Page) → HasPacked self items pages
            → IsStream 0 (pages ++ result ∷ []) items }
    {
        page_of(self.place, true, &self.content)
    }
}

/// How many bytes an item is.
fn length_of(item: &Item) -> usize
    ensures length { result ≡ length (item_bytes item.now) }
    ensures most { result ≤ CONTENT_ROOM }
    ensures item { IsItem item.now }
{
    match item {
        Item::Line(line) => length_of_line(line),
        Item::Spoiled => 1,
    }
}

/// How many bytes a line is.
fn length_of_line(line: &Line) -> usize
    ensures length { result ≡ length (item_bytes (LineOf line.now)) }
    ensures most { result ≤ CONTENT_ROOM }
    ensures line { IsItem (LineOf line.now) }
{
    1 + line.bytes().len()
}

/// Puts the bytes of an item behind others: those of a line, or the one byte of a spoiled card.
fn append(content: &mut ArrayVec<u8, CONTENT_ROOM>, item: &Item)
    requires { length content.old.items + length (item_bytes item.now) ≤ CONTENT_ROOM }
    ensures { content.new.items ≡ content.old.items ++ item_bytes item.now }
{
    match item {
        Item::Line(line) => append_line(content, line),
        Item::Spoiled => content.push(SPOILED),
    }
}

/// Puts the length and the characters of a line behind others.
fn append_line(content: &mut ArrayVec<u8, CONTENT_ROOM>, line: &Line)
    requires { length content.old.items + length (item_bytes (LineOf line.now)) ≤ CONTENT_ROOM }
    ensures { content.new.items ≡ content.old.items ++ item_bytes (LineOf line.now) }
{
    let characters = line.bytes();
    content.push(characters.len() as u8);
    let _ = content.try_extend_from_slice(characters);
}
