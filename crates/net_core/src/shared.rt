ghost use Rattle.std.specs.Prelude.{◌≡◌, ◌≤◌, ◌<◌, ℕ, true, List, Some};
ghost use Rattle.batch_procs.specs.declared.actions.Action.TheVariants as act;
ghost use Rattle.batch_ends.specs.Tells.{opened_over};
ghost use Rattle.net_core.specs.Causes.{HasCauses};
ghost use Rattle.net_core.specs.Faults.{units_of};
ghost use Rattle.net_core.specs.Shared.{SharedStands, MayPerform, Performs};

use crate::{
    await_item, await_room, put_feed, put_page, release, request, stop_line, stop_spool, take_feed,
    take_page,
};
use batch_ends::{Peripherals, Units, print, read_card};
use batch_procs::{Action, JobWork, Loader, Reply};
use disk_spool::Spool;
use resource_mon::Resource;
use slot_buffer::{LineBuffer, SlotBuffer};
use solo_base::{BufferNo, Feed, Page, ProcNo, Side};
use solo_devices::{Area, CardUnit, PrinterUnit, Sink, Source};
use std::alloc::Global;
use std::marker::PhantomData;

/// What the five processes share: the deck, the line buffers 1 and 4, the spools 2 and 3 with their areas,
/// the paper, what loads the files that jobs name, and the desk that grants the disk.
#[derive(Drop)]
pub struct Shared<J, S: Source, K: Sink, F, A: Area, B: Area> {
    pub deck: CardUnit<S>,
    pub cards: LineBuffer,
    pub input: Spool<A>,
    pub output: Spool<B>,
    pub lines: LineBuffer,
    pub paper: PrinterUnit<K>,
    pub files: F,
    pub desk: Resource<5>,
    /// Of which the code that is loaded takes its memory.
    pub alloc: Global,
    pub of: PhantomData<J>,
}

impl<J: JobWork, S: Source, K: Sink, F: Loader<J>, A: Area, B: Area> Shared<J, S, K, F, A, B> {
    /// What the five share before their first action.
    pub fn make(alloc: Global, units: Units<S, K, F, A, B>) -> Self
        requires deck { units.deck.live ≡ true }
        requires paper { units.paper.live ≡ true }
        requires input { (0 < A.size units.input) × (A.size units.input ≤ 256) }
        requires output { (0 < B.size units.output) × (B.size units.output ≤ 256) }
        ensures stands { SharedStands ⟦<Units<S, K, F, A, B> as Peripherals<J>>⟧.tells result
            (opened_over ⟦<Units<S, K, F, A, B> as Peripherals<J>>⟧.tells units) }
        ensures units { units_of result ≡ units }
    {
        let Units {
            deck,
            paper,
            files,
            input,
            output,
        } = units;
        Shared {
            deck,
            cards: SlotBuffer::new(),
            input: Spool::make(input),
            output: Spool::make(output),
            lines: SlotBuffer::new(),
            paper,
            files,
            desk: Resource::new(),
            alloc,
            of: PhantomData,
        }
    }

    /// Performs the action of a process. A page that it takes is lent from the room. No reply: the process
    /// waits.
    // Inlined, as a reply is copied whole where it crosses a call.
    #[inline(always)]
    pub fn perform<'a>(
        &mut self,
        p: ProcNo,
        action: Action<'_>,
        room: &'a mut Page,
    ) -> Option<Reply<'a, J::Load>>
        requires may { MayPerform ⟦<Units<S, K, F, A, B> as Peripherals<J>>⟧.tells self.old p action }
        ensures performs { Performs J.jobs ⟦<Units<S, K, F, A, B> as Peripherals<J>>⟧.tells
            self.old self.new p action.entry result }
        ensures causes { HasCauses ⟦<Units<S, K, F, A, B> as Peripherals<J>>⟧.tells
            ⟦<Units<S, K, F, A, B> as Peripherals<J>>⟧.counts self.old self.new p action.entry result }
    {
        match action {
            Action::ReadCard => Some(read_card::<J, S>(&mut self.deck)),
            Action::PutFeed(feed) => self.put_feed(p, feed.get()),
            Action::TakeFeed => self.take_feed(p),
            Action::AwaitRoom => self.await_room(p),
            Action::AwaitItem => self.await_item(p),
            Action::Request => request::<J, 5>(&mut self.desk, p),
            Action::PutPage(page) => Some(self.put_page(p, page.get())),
            Action::TakePage => Some(self.take_page(p, room)),
            Action::Load(file) => Some(self.files.load(self.alloc, &file)),
            Action::Release => Some(release::<J, 5>(&mut self.desk)),
            Action::Local => Some(Reply::Done),
            Action::Print(line) => Some(print::<J, K>(&mut self.paper, line.get())),
            Action::Stop(buffer) => Some(self.stop(p, buffer)),
            Action::Ended(_) => Some(Reply::Done),
        }
    }

    #[inline(always)]
    fn put_feed<'a>(&mut self, p: ProcNo, feed: &Feed) -> Option<Reply<'a, J::Load>>
        requires may { MayPerform ⟦<Units<S, K, F, A, B> as Peripherals<J>>⟧.tells
            self.old p (act.PutFeed feed.now) }
        ensures performs { Performs J.jobs ⟦<Units<S, K, F, A, B> as Peripherals<J>>⟧.tells
            self.old self.new p (act.PutFeed feed.now) result }
        ensures causes { HasCauses ⟦<Units<S, K, F, A, B> as Peripherals<J>>⟧.tells
            ⟦<Units<S, K, F, A, B> as Peripherals<J>>⟧.counts self.old self.new p (act.PutFeed feed.now) result }
    {
        if p == 1 {
            put_feed::<J>(&mut self.cards, p, feed)
        } else {
            put_feed::<J>(&mut self.lines, p, feed)
        }
    }

    #[inline(always)]
    fn take_feed<'a>(&mut self, p: ProcNo) -> Option<Reply<'a, J::Load>>
        requires may { MayPerform ⟦<Units<S, K, F, A, B> as Peripherals<J>>⟧.tells self.old p act.TakeFeed }
        ensures performs { Performs J.jobs ⟦<Units<S, K, F, A, B> as Peripherals<J>>⟧.tells
            self.old self.new p act.TakeFeed result }
        ensures causes { HasCauses ⟦<Units<S, K, F, A, B> as Peripherals<J>>⟧.tells
            ⟦<Units<S, K, F, A, B> as Peripherals<J>>⟧.counts self.old self.new p act.TakeFeed result }
    {
        if p == 2 {
            take_feed::<J>(&mut self.cards, p)
        } else {
            take_feed::<J>(&mut self.lines, p)
        }
    }

    #[inline(always)]
    fn await_room<'a>(&mut self, p: ProcNo) -> Option<Reply<'a, J::Load>>
        requires may { MayPerform ⟦<Units<S, K, F, A, B> as Peripherals<J>>⟧.tells self.old p act.AwaitRoom }
        ensures performs { Performs J.jobs ⟦<Units<S, K, F, A, B> as Peripherals<J>>⟧.tells
            self.old self.new p act.AwaitRoom result }
        ensures causes { HasCauses ⟦<Units<S, K, F, A, B> as Peripherals<J>>⟧.tells
            ⟦<Units<S, K, F, A, B> as Peripherals<J>>⟧.counts self.old self.new p act.AwaitRoom result }
    {
        if p == 2 {
            await_room::<J, A>(&mut self.input, p)
        } else {
            await_room::<J, B>(&mut self.output, p)
        }
    }

    #[inline(always)]
    fn await_item<'a>(&mut self, p: ProcNo) -> Option<Reply<'a, J::Load>>
        requires may { MayPerform ⟦<Units<S, K, F, A, B> as Peripherals<J>>⟧.tells self.old p act.AwaitItem }
        ensures performs { Performs J.jobs ⟦<Units<S, K, F, A, B> as Peripherals<J>>⟧.tells
            self.old self.new p act.AwaitItem result }
        ensures causes { HasCauses ⟦<Units<S, K, F, A, B> as Peripherals<J>>⟧.tells
            ⟦<Units<S, K, F, A, B> as Peripherals<J>>⟧.counts self.old self.new p act.AwaitItem result }
    {
        if p == 3 {
            await_item::<J, A>(&mut self.input, p)
        } else {
            await_item::<J, B>(&mut self.output, p)
        }
    }

    #[inline(always)]
    fn put_page<'a>(&mut self, p: ProcNo, page: &Page) -> Reply<'a, J::Load>
        requires may { MayPerform ⟦<Units<S, K, F, A, B> as Peripherals<J>>⟧.tells
            self.old p (act.PutPage page.now) }
        ensures performs { Performs J.jobs ⟦<Units<S, K, F, A, B> as Peripherals<J>>⟧.tells
            self.old self.new p (act.PutPage page.now) (Some result) }
        ensures causes { HasCauses ⟦<Units<S, K, F, A, B> as Peripherals<J>>⟧.tells
            ⟦<Units<S, K, F, A, B> as Peripherals<J>>⟧.counts
            self.old self.new p (act.PutPage page.now) (Some result) }
    {
        if p == 2 {
            put_page::<J, A>(&mut self.input, page)
        } else {
            put_page::<J, B>(&mut self.output, page)
        }
    }

    #[inline(always)]
    fn take_page<'a>(&mut self, p: ProcNo, room: &'a mut Page) -> Reply<'a, J::Load>
        requires may { MayPerform ⟦<Units<S, K, F, A, B> as Peripherals<J>>⟧.tells self.old p act.TakePage }
        ensures performs { Performs J.jobs ⟦<Units<S, K, F, A, B> as Peripherals<J>>⟧.tells
            self.old self.new p act.TakePage (Some result) }
        ensures causes { HasCauses ⟦<Units<S, K, F, A, B> as Peripherals<J>>⟧.tells
            ⟦<Units<S, K, F, A, B> as Peripherals<J>>⟧.counts self.old self.new p act.TakePage (Some result) }
    {
        if p == 3 {
            take_page::<J, A>(&mut self.input, room)
        } else {
            take_page::<J, B>(&mut self.output, room)
        }
    }

    #[inline(always)]
    fn stop<'a>(&mut self, p: ProcNo, buffer: BufferNo) -> Reply<'a, J::Load>
        requires may { MayPerform ⟦<Units<S, K, F, A, B> as Peripherals<J>>⟧.tells
            self.old p (act.Stop buffer) }
        ensures performs { Performs J.jobs ⟦<Units<S, K, F, A, B> as Peripherals<J>>⟧.tells
            self.old self.new p (act.Stop buffer) (Some result) }
        ensures causes { HasCauses ⟦<Units<S, K, F, A, B> as Peripherals<J>>⟧.tells
            ⟦<Units<S, K, F, A, B> as Peripherals<J>>⟧.counts
            self.old self.new p (act.Stop buffer) (Some result) }
    {
        let side = side_at(p, buffer);
        if buffer == 1 {
            stop_line::<J>(&mut self.cards, buffer, side)
        } else if buffer == 2 {
            stop_spool::<J, A>(&mut self.input, buffer, side)
        } else if buffer == 3 {
            stop_spool::<J, B>(&mut self.output, buffer, side)
        } else {
            stop_line::<J>(&mut self.lines, buffer, side)
        }
    }
}

ghost use Rattle.core_law.specs.Core.{side_at};

/// The side of a buffer at which a process sits beside it.
pub(crate) fn side_at(p: ProcNo, buffer: BufferNo) -> Side
    ensures { result ≡ side_at p buffer }
{
    if p == buffer {
        Side::Sender
    } else {
        Side::Receiver
    }
}
