ghost use Rattle.std.specs.Prelude.{◌≡◌, ◌++◌, ◌||◌, not, [], None, true, OnErr, option_to_list};
ghost use Rattle.page_codec.specs.Reading.{items_left};
ghost use Rattle.batch_procs.specs.Sends.{lines_of};
ghost use Rattle.twin_procs.specs.Output.{GoesOn, Turns};
ghost use Rattle.twin_law.specs.Output.{OutputPlace, output_aims, output};
ghost use Rattle.twin_procs.specs.Machine.{IsHanded, IsPage, TakesSo};
ghost use Rattle.twin_procs.specs.Output.{OutputStands};

use crate::TwinAction;
use crate::machine::TwinMachine;
use crate::page_streams::{PageStreams, damaged, has_some};
use crate::proc::TwinProc;
use crate::sides::TwinSide;
use batch_procs::{JobWork, Reply};
use page_codec::PageItems;
use solo_base::{BufferNo, Feed, Item, Line, NoMemory, Outcome};
use std::alloc::Global;

/// The output process: it gathers whole streams of lines from both sides in turn, and puts the lines into the
/// line buffer 6. The stream behind one without lines is the last.
pub type TwinOutput<J> = TwinMachine<J, OutputProc>;

/// Where the output process stands.
#[derive(Drop)]
pub enum OutputAt {
    TakesLines,
    PutsLine(Line),
    PutsOver,
    HasGathered,
}

/// What the output process keeps: its place, the side in turn, the pages that it awaits, what it hasn't put
/// of the page in hand, whether the stream in turn had a line so far, whether a stream had none, and whether
/// all is over behind the page in hand.
#[derive(Drop)]
pub struct OutputProc {
    place: OutputAt,
    side: TwinSide,
    pages: PageStreams,
    items: Option<PageItems>,
    some: bool,
    ended: bool,
    over: bool,
}

impl<J: JobWork> TwinProc<J> for OutputProc {
    ghost use Rattle.twin_law.specs.Output.{output};
    ghost use Rattle.twin_procs.specs.Output.{OutputStands};
    ghost use Rattle.twin_procs.specs.Closing.{output-closes};

    ghost process = { output };

    ghost stands = { OutputStands };

    ghost closes = { output-closes J.Load };

    fn begin(_alloc: Global) -> OutputProc {
        OutputProc {
            place: OutputAt::TakesLines,
            side: TwinSide::A,
            pages: PageStreams::new(),
            items: None,
            some: false,
            ended: false,
            over: false,
        }
    }

    fn stop(done: bool, place: u8) -> Option<BufferNo> {
        if done {
            return [4, 5].get(place as usize).copied();
        }
        [4, 5, 6].get(place as usize).copied()
    }

    #[inline(always)]
    fn aim(&self) -> TwinAction {
        match &self.place {
            OutputAt::TakesLines => TwinAction::TakePage(self.side.from_job()),
            OutputAt::PutsLine(line) => TwinAction::PutFeed {
                buffer: 6,
                feed: Feed::Item(Item::Line(line.copy())),
            },
            OutputAt::PutsOver => TwinAction::PutFeed {
                buffer: 6,
                feed: Feed::End,
            },
            OutputAt::HasGathered => TwinAction::Ended(Outcome::Done),
        }
    }

    fn done(&mut self) -> Result<(), NoMemory> {
        match &self.place {
            OutputAt::PutsLine(_) => self.go_on(),
            _ => self.place = OutputAt::HasGathered,
        }
        Ok(())
    }

    // The clauses of `TwinProc`, which the prover does not yet give this method by itself.
    fn take(&mut self, reply: Reply<'_, J::Load>) -> Result<Option<Outcome>, NoMemory>
        ensures ok { (at : OutputPlace) → OutputStands self.old at → IsHanded (output_aims at) reply.entry →
            TakesSo (output {L = J.Load}) (OutputStands self.new) at reply.entry result }
        ensures err { OnErr result (((output {L = J.Load}).works ≡ true) × IsPage reply.entry) }
    {
        let Reply::Page { page, last } = reply else {
            return Ok(None);
        };
        match self.pages.take(page.get(), last) {
            Ok(items) => {
                self.turn(&items, last);
                self.items = Some(items);
                self.go_on();
                Ok(None)
            }
            Err(bad) => Ok(Some(Outcome::Fault(damaged(bad)))),
        }
    }
}

impl OutputProc {
    /// Behind the last page of a stream the other side is in turn.
    fn turn(&mut self, items: &PageItems, last: bool)
        ensures { Turns self.old self.new items.now.items last }
    {
        let some = has_some(self.some, items);
        if last {
            self.over = self.ended;
            self.ended = is_ended(self.ended, some);
            self.side = self.side.other();
            self.some = false;
        } else {
            self.over = false;
            self.some = some;
        }
    }

    /// Goes on with the next line of the page in hand, or behind it.
    fn go_on(&mut self)
        ensures { GoesOn self.old self.new }
    {
        match next_line(&mut self.items) {
            Some(line) => self.place = OutputAt::PutsLine(line),
            None if self.over => self.place = OutputAt::PutsOver,
            None => self.place = OutputAt::TakesLines,
        }
    }
}

/// Whether a stream had no line, this one or one before.
fn is_ended(ended: bool, some: bool) -> bool
    ensures { result ≡ (ended || not some) }
{
    ended || !some
}

/// The next line; spoiled items are passed over.
fn next_line(items: &mut Option<PageItems>) -> Option<Line>
    ensures lines { lines_of (items_left items.old) ≡ option_to_list result
        ++ lines_of (items_left items.new) }
    ensures none { result ≡ None → items_left items.new ≡ [] }
{
    match items {
        Some(items) => next_line_of(items),
        None => None,
    }
}

fn next_line_of(items: &mut PageItems) -> Option<Line>
    ensures lines { lines_of items.old.items ≡ option_to_list result ++ lines_of items.new.items }
    ensures none { result ≡ None → items.new.items ≡ [] }
{
    'passing: while let Some(item) = items.next() {
        if let Item::Line(line) = item {
            return Some(line);
        }
    }
    None
}
