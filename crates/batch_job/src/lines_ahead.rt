ghost use Rattle.std.specs.Prelude.{◌≡◌, ◌++◌, ◌+◌, ◌<◌, ◌≤◌, List, [], None, IsTrue, true, false, length, option_to_list, IfOk, OnOk};
ghost use Rattle.batch_job.specs.declared.lines_ahead.End.TheVariants as EndOf;
ghost use Rattle.batch_job.specs.JobStream.{Account, IsAccount, HasNoLine, IsTold, Passes, Rests, new_stream, fed, stream_of, lines_made, turns_left, goes_on};
ghost use Rattle.page_codec.specs.Reading.{items_left};

use crate::Part;
use crate::item_lines::ItemLines;
use crate::page_loads::PageLoads;
use crate::taking::{end_part, take_item};
use page_codec::PageItems;
use solo_base::{Item, Line, NoMemory};
use std::alloc::Global;

/// How far a stream is from its end.
#[derive(Clone, Copy, Debug, PartialEq, Eq)]
pub enum End {
    /// More pages follow.
    NotYet,
    /// It comes behind the items of the page in hand.
    Due,
    /// Its lines are made.
    Told,
}

/// The lines of the items of a stream, made item by item.
#[derive(Debug, Drop)]
pub struct LinesAhead {
    pub alloc: Global,
    pub part: Part,
    pub waiting: ItemLines,
    pub items: Option<PageItems>,
    pub loads: PageLoads,
    pub end: End,
}

impl LinesAhead {
    /// The lines of a stream before its first page.
    pub fn new(alloc: Global) -> LinesAhead
        ensures { stream_of result ≡ new_stream }
    {
        LinesAhead {
            alloc,
            part: Part::Stretch { count: 0 },
            waiting: ItemLines::none(),
            items: None,
            loads: PageLoads::none(alloc),
            end: End::NotYet,
        }
    }

    /// Takes the items of the next page.
    pub fn feed(&mut self, items: PageItems) -> Result<(), NoMemory>
        ensures { OnOk result (stream_of self.new ≡ fed (stream_of self.old) items) }
    {
        self.loads = PageLoads::of(self.alloc, items.copy())?;
        self.end = if items.last() { End::Due } else { End::NotYet };
        self.items = Some(items);
        Ok(())
    }

    /// The next line that is made, or `None` where none comes before the next item.
    pub fn next(&mut self) -> Option<Line>
        ensures passes { (a : Account) → IsAccount (stream_of self.old) a
            → Passes a (stream_of self.new) (option_to_list result) }
        ensures none { result ≡ None → HasNoLine (stream_of self.new) }
        ensures rests { result ≡ None → (a : Account) → IsAccount (stream_of self.old) a
            → Rests a (stream_of self.new) }
        ensures left { lines_made (stream_of self.new) + length (option_to_list result)
            ≤ lines_made (stream_of self.old) }
        ensures turns { turns_left (stream_of self.new) ≡ turns_left (stream_of self.old) }
        ensures end { self.new.end ≡ self.old.end }
        ensures wanted { (stream_of self.new).wanted ≡ (stream_of self.old).wanted }
    {
        // The line goes out as it comes: one that is taken out and put in again is copied twice more.
        let waiting = self.waiting.next();
        if waiting.is_some() {
            return waiting;
        }
        self.part.next()
    }

    /// Makes the lines of the next item, or of the end, and says whether there was one. All lines that were
    /// made are pushed.
    pub fn make(&mut self) -> Result<bool, NoMemory>
        requires none { HasNoLine (stream_of self.old) }
        requires wanted { (stream_of self.old).wanted ≡ [] }
        ensures passes { IfOk result (λ made. (a : Account) → IsAccount (stream_of self.old) a
            → Passes a (stream_of self.new) []) }
        ensures none { IfOk result (λ made. made ≡ false → (stream_of self.new ≡ stream_of self.old)
            × IsTold self.new.end (items_left self.new.items)) }
        ensures falls { IfOk result (λ made. IsTrue made
            → turns_left (stream_of self.new) < turns_left (stream_of self.old)) }
        ensures end { IfOk result (λ made. goes_on self.new.end ≡ goes_on self.old.end) }
        ensures wanted { IfOk result (λ made. (stream_of self.new).wanted ≡ []) }
    {
        match self.end {
            End::NotYet => self.make_item(),
            End::Due => {
                if self.make_item()? {
                    return Ok(true);
                }
                self.make_end()?;
                Ok(true)
            }
            End::Told => Ok(false),
        }
    }

    /// Makes the lines of the next item, and says whether there was one.
    fn make_item(&mut self) -> Result<bool, NoMemory>
        requires none { HasNoLine (stream_of self.old) }
        requires goes_on { self.old.end ≡ EndOf.Told → ⊥ }
        requires wanted { (stream_of self.old).wanted ≡ [] }
        ensures passes { IfOk result (λ made. (a : Account) → IsAccount (stream_of self.old) a
            → Passes a (stream_of self.new) []) }
        ensures none { IfOk result (λ made. made ≡ false → (stream_of self.new ≡ stream_of self.old)
            × (items_left self.new.items ≡ [])) }
        ensures falls { IfOk result (λ made. IsTrue made
            → turns_left (stream_of self.new) < turns_left (stream_of self.old)) }
        ensures end { IfOk result (λ made. self.new.end ≡ self.old.end) }
        ensures wanted { IfOk result (λ made. (stream_of self.new).wanted ≡ []) }
    {
        match next_item(&mut self.items) {
            None => Ok(false),
            Some(item) => {
                let waiting = &mut self.waiting;
                take_item(self.alloc, &mut self.part, &mut self.loads, &item, waiting)?;
                Ok(true)
            }
        }
    }

    /// Makes the lines of the end.
    fn make_end(&mut self) -> Result<(), NoMemory>
        requires none { HasNoLine (stream_of self.old) }
        requires left { items_left self.old.items ≡ [] }
        requires due { self.old.end ≡ EndOf.Due }
        requires wanted { (stream_of self.old).wanted ≡ [] }
        ensures passes { OnOk result ((a : Account) → IsAccount (stream_of self.old) a
            → Passes a (stream_of self.new) []) }
        ensures falls { OnOk result (turns_left (stream_of self.new) < turns_left (stream_of self.old)) }
        ensures end { OnOk result (self.new.end ≡ EndOf.Told) }
        ensures wanted { OnOk result ((stream_of self.new).wanted ≡ []) }
    {
        let ending = end_part(self.alloc, &mut self.part)?;
        self.waiting = ItemLines::ending_with(ending);
        self.end = End::Told;
        Ok(())
    }
}

/// The next of these items.
fn next_item(items: &mut Option<PageItems>) -> Option<Item>
    ensures items { items_left items.old ≡ option_to_list result ++ items_left items.new }
    ensures none { result ≡ None → items_left items.new ≡ [] }
{
    match items {
        Some(items) => items.next(),
        None => None,
    }
}
