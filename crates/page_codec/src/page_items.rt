ghost use Rattle.std.specs.Prelude.{◌≡◌, ◌++◌, ◌↔◌, ◌≤◌, [], ◌∷◌, true, false, None, option_to_list, IsNone};
ghost use Rattle.solo_base.specs.declared.item.Item.{Item};
ghost use Rattle.page_codec.specs.Places.{content_length, content_of};
ghost use Rattle.page_codec.specs.Reading.{begins_item, begins_with, item_at, items_after, bad_item_after};

use crate::form::{CONTENT_ROOM, HEADER_LENGTH, SPOILED};
use crate::judge::characters;
use solo_base::{Item, Line, Page, number_at};
use std::marker::Model;

/// The items of a page that are still to be given, in order, and whether the page is the last.
#[derive(Debug, Drop)]
pub struct PageItems {
    page: Page,
    at: usize,
    end: usize,
    last: bool,
}

impl Model for PageItems {
    ghost use Rattle.std.specs.Prelude.{◌≡◌, ◌≤◌, ◌-◌, None, take, drop, length};
    ghost use Rattle.solo_base.specs.declared.page.TheConstants.{PAGE_LENGTH};
    ghost use Rattle.page_codec.specs.Reading.{PageContent, items_after, bad_item_after};

    ghost Value = { PageContent };

    ghost view = { λ given. record {
      items = items_after 0 (take (given.end - given.at) (drop given.at given.page.0));
      last = given.last;
    } };

    ghost invariant = { λ given. (given.at ≤ given.end) × (given.end ≤ PAGE_LENGTH)
        × (bad_item_after given.at 0 (take (given.end - given.at) (drop given.at given.page.0)) ≡ None) };
}

impl PageItems {
    /// The items of a page whose content is items.
    pub(crate) fn of(page: &Page, last: bool) -> PageItems
        requires length { content_length page.now.0 ≤ CONTENT_ROOM }
        requires items { bad_item_after HEADER_LENGTH 0 (content_of page.now.0) ≡ None }
        ensures { result ≡ record { items = items_after 0 (content_of page.now.0); last = last } }
    {
        PageItems {
            page: *page,
            at: HEADER_LENGTH,
            end: HEADER_LENGTH + number_at(&page.0, 4) as usize,
            last,
        }
    }

    /// The next item, or `None` after the last one.
    pub fn next(&mut self) -> Option<Item>
        ensures items { self.old.items ≡ option_to_list result ++ self.new.items }
        ensures none { IsNone result ↔ (self.old.items ≡ []) }
        ensures last { self.new.last ≡ self.old.last }
    {
        let content = &self.page.0[self.at..self.end];
        let [first, rest @ ..] = content else {
            return None;
        };
        let first = *first;
        let item = item_at(first, rest);
        self.at += 1 + characters(first);
        Some(item)
    }

    /// Whether the next item is a line that begins with this character.
    pub fn begins_with(&self, character: u8) -> bool
        ensures { result ≡ begins_with character self.now.items }
    {
        match &self.page.0[self.at..self.end] {
            [length, first, ..] => *length != 0 && *length != SPOILED && *first == character,
            _ => false,
        }
    }

    /// Passes over the next item, if there is one: whether there was.
    pub fn pass(&mut self) -> bool
        ensures passed { result ≡ true → (item : Item) × (self.old.items ≡ item ∷ self.new.items) }
        ensures none { result ≡ false → (self.old.items ≡ []) × (self.new.items ≡ []) }
        ensures last { self.new.last ≡ self.old.last }
    {
        let content = &self.page.0[self.at..self.end];
        let [first, ..] = content else {
            return false;
        };
        self.at += 1 + characters(*first);
        true
    }

    /// The same items once more.
    pub fn copy(&self) -> PageItems
        ensures { result ≡ self.now }
    {
        PageItems {
            page: self.page,
            at: self.at,
            end: self.end,
            last: self.last,
        }
    }

    /// Whether the page is the last of its stream.
    pub fn last(&self) -> bool
        ensures { result ≡ self.now.last }
    {
        self.last
    }
}

/// The item with this first byte, whose characters follow it.
fn item_at(first: u8, rest: &[u8]) -> Item
    requires { begins_item first rest.now ≡ true }
    ensures { result ≡ item_at first rest.now }
{
    if first == SPOILED {
        return Item::Spoiled;
    }
    let mut line = Line::new();
    line.append(&rest[..first as usize]);
    Item::Line(line)
}
