ghost use Rattle.std.specs.Prelude.{◌≡◌, ℕ, false, List, [], ◌∷◌, ◌++◌, Ok, Err, IfOk, ◌↔◌};
ghost use Rattle.solo_base.specs.declared.item.Item.{Item};
ghost use Rattle.solo_base.specs.declared.page.Page.{Page};
ghost use Rattle.page_codec.specs.Form.{IsPage};
ghost use Rattle.solo_base.specs.PageBytes.{number_at};
ghost use Rattle.page_codec.specs.Places.{IsLeastWrong};
ghost use Rattle.page_codec.specs.Reading.{page_read};
ghost use Rattle.page_codec.specs.Stream.{at_the_first, awaited_after, HasTaken};

use crate::judge::{BadPage, bad_place};
use crate::page_items::PageItems;
use solo_base::{Page, number_at};
use std::marker::Model;

/// Takes the pages of a stream in order and gives their items. Places of pages count modulo 65,536.
#[derive(Debug, Drop)]
pub struct Unpacker {
    place: u16,
    ended: bool,
}

impl Model for Unpacker {
    ghost use Rattle.page_codec.specs.Stream.{Awaited};

    ghost Value = { Awaited };

    ghost view = { λ unpacker. record { place = unpacker.place; ended = unpacker.ended } };
}

impl Unpacker {
    /// An unpacker that expects the first page of a stream.
    pub fn new() -> Unpacker
        ensures first { result ≡ at_the_first }
        ensures history { HasTaken result [] [] }
    {
        Unpacker {
            place: 0,
            ended: false,
        }
    }

    /// The items of the next page; none is taken after the last. A page is refused where it isn't in
    /// the form with the place that comes next and the mark `last`, and the unpacker then stays as it
    /// was. For a page of a page buffer `last` is `page.last()`; for a page of a spool it is the mark
    /// that the spool answers.
    pub fn take(&mut self, page: &Page, last: bool) -> Result<PageItems, BadPage>
        requires { self.old.ended ≡ false }
        ensures read { result ≡ page_read self.old.place last page.now }
        ensures awaited { self.new ≡ awaited_after self.old last result }

        // It is taken exactly where it is in the form, and its items are those that it then gives.
        ensures form { (items : List Item) → IsPage self.old.place last items page.now
            ↔ (result ≡ Ok (record { items = items; last = last })) }
        ensures wrong { (at : ℕ) → IsLeastWrong self.old.place last page.now.0 at
            ↔ (result ≡ Err (record { expected = self.old.place; found = number_at page.now.0 0; at = at })) }

        ensures history { (pages : List Page) (items : List Item) → HasTaken self.old pages items
            → IfOk result (λ given. HasTaken self.new (pages ++ page.now ∷ []) (items ++ given.items)) }
    {
        if let Some(at) = bad_place(&page.0, self.place, last) {
            return Err(BadPage {
                expected: self.place,
                found: number_at(&page.0, 0),
                at,
            });
        }
        self.place = self.place.wrapping_add(1);
        self.ended = last;
        Ok(PageItems::of(page, last))
    }
}
