ghost use Rattle.std.specs.Prelude.{◌≡◌, ◌++◌, [], None, option_to_list};
ghost use Rattle.batch_procs.specs.Sends.{lines_of};
ghost use Rattle.batch_procs.specs.Pages.{damaged, lines_left};
ghost use Rattle.page_codec.specs.Reading.{items_left};

use crate::job_work::JobWork;
use crate::machine::Machine;
use crate::pages::Pages;
use crate::work::Work;
use crate::{Action, Lent, Reply};
use page_codec::{BadPage, PageItems};
use solo_base::{BufferNo, Cause, Feed, Item, Line, NoMemory, Outcome};
use std::alloc::Global;

/// The output process: it takes pages from the spool 3, and puts their lines into the line buffer 4.
pub type OutputProc<J> = Machine<J, OutputWork>;

/// What the output process keeps: the pages that it awaits, and of the page in hand what is due first,
/// the items behind it, and whether the end comes behind these.
#[derive(Drop)]
pub struct OutputWork {
    pages: Pages,
    due: Option<Feed>,
    items: Option<PageItems>,
    ending: bool,
}

impl<J: JobWork> Work<J> for OutputWork {
    ghost use Rattle.std.specs.Prelude.{◌≡◌, true, false, List, IfOk, OnErr};
    ghost use Rattle.batch_procs.specs.Parcels.{Parcel};
    ghost use Rattle.batch_procs.specs.declared.actions.Action.TheVariants as act;
    ghost use Rattle.batch_procs.specs.Fits.{MayLack};
    ghost use Rattle.batch_procs.specs.Work.{MayTake, Takes};
    ghost use Rattle.batch_procs.specs.Table.{output};
    ghost use Rattle.batch_procs.specs.Keeping.{output_keeps};
    ghost use Rattle.batch_procs.specs.Relays.{output-relay};

    ghost process = { output };

    ghost keeps = { output_keeps };

    ghost relay = { output-relay J.Load };

    fn begin(_alloc: Global) -> OutputWork {
        OutputWork {
            pages: Pages::new(),
            due: None,
            items: None,
            ending: false,
        }
    }

    fn buffer(place: u8) -> Option<BufferNo> {
        [3, 4].get(place as usize).copied()
    }

    #[inline(always)]
    fn aim(&self) -> Action<'_> {
        match &self.due {
            Some(feed) => Action::PutFeed(Lent::of(feed)),
            None if self.pages.is_ended() => Action::Ended(Outcome::Done),
            None => Action::TakePage,
        }
    }

    #[inline(always)]
    fn put(&mut self) {
        self.due = next_feed(&mut self.items, &mut self.ending);
    }

    // The clauses of `Work`, which the prover does not yet give this method by itself.
    #[inline(always)]
    fn take(&mut self, reply: Reply<'_, J::Load>) -> Result<Option<Outcome>, NoMemory>
        ensures ok { (taken sent : List (Parcel J.Load)) → output_keeps self.old taken sent false
            → MayTake output taken sent reply.entry →
            IfOk result (λ cause. Takes output (output_keeps self.new) taken sent reply.entry cause) }
        ensures err { OnErr result (((output {L = J.Load}).works ≡ true) × MayLack act.TakePage reply.entry) }
    {
        let Reply::Page { page, last } = reply else {
            return Ok(None);
        };
        if self.pages.is_ended() {
            return Ok(None);
        }
        match self.pages.take(page.get(), last) {
            Ok(items) => {
                self.items = Some(items);
                self.ending = last;
                self.due = next_feed(&mut self.items, &mut self.ending);
                Ok(None)
            }
            Err(bad) => Ok(Some(Outcome::Fault(damage(bad)))),
        }
    }

    fn load(&mut self, _load: J::Load) {}

    fn work(&mut self) -> Result<(), NoMemory> {
        Ok(())
    }
}

/// The cause where a page isn't the one that was expected.
pub fn damage(bad: BadPage) -> Cause
    ensures { result ≡ damaged bad }
{
    Cause::Damaged {
        expected: bad.expected,
        found: bad.found,
        at: bad.at,
    }
}

/// The next line of the items, or the end behind them.
fn next_feed(items: &mut Option<PageItems>, ending: &mut bool) -> Option<Feed>
    ensures feeds { lines_left (items_left items.old) ending.old ≡ option_to_list result
        ++ lines_left (items_left items.new) ending.new }
    ensures none { result ≡ None → lines_left (items_left items.new) ending.new ≡ [] }
{
    if let Some(line) = next_line(items) {
        return Some(Feed::Item(Item::Line(line)));
    }
    if *ending {
        *ending = false;
        return Some(Feed::End);
    }
    None
}

/// The next line; spoiled items are passed over.
fn next_line(items: &mut Option<PageItems>) -> Option<Line>
    ensures lines { lines_of (items_left items.old) ≡ option_to_list result
        ++ lines_of (items_left items.new) }
    ensures none { result ≡ None → items_left items.new ≡ [] }
{
    match items {
        Some(items) => next_line_of(items),
        None => None,
    }
}

fn next_line_of(items: &mut PageItems) -> Option<Line>
    ensures lines { lines_of items.old.items ≡ option_to_list result ++ lines_of items.new.items }
    ensures none { result ≡ None → items.new.items ≡ [] }
{
    'passing: while let Some(item) = items.next() {
        if let Item::Line(line) = item {
            return Some(line);
        }
    }
    None
}
