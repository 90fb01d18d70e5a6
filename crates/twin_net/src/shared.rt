ghost use Rattle.std.specs.Prelude.{◌≡◌, ◌≤◌, ◌<◌, true, Some};
ghost use Rattle.batch_procs.specs.declared.actions.Reply.TheVariants as reply;
ghost use Rattle.twin_law.specs.Process.{PutFeed, TakeFeed, Load, Stop};
ghost use Rattle.twin_ends.specs.TwinTells.{twin_opened};
ghost use Rattle.twin_net.specs.TwinStands.{TwinStands, shared_units};
ghost use Rattle.twin_net.specs.Doing.{meant, is_failure, MayLoad, MayDo, MayPutFeed, MayTakeFeed, MayStopAt, DoneSo};

use crate::TwinSpools;
use crate::turns::side_at;
use batch_ends::{print, read_card};
use batch_procs::{JobWork, Loader, Reply};
use disk_spool::Spool;
use net_core::{put_feed, release, request, stop_line, take_feed};
use resource_mon::Resource;
use slot_buffer::{LineBuffer, SlotBuffer};
use solo_base::{BufferNo, Feed, Ident, Page, ProcNo};
use solo_devices::{Area, CardUnit, PrinterUnit, Sink, Source};
use std::alloc::Global;
use std::marker::PhantomData;
use twin_ends::{TwinPeripherals, TwinUnits};
use twin_procs::TwinAction;

/// What the six processes share: the deck, the line buffers 1 and 6, the four spools with their areas, the
/// paper, what loads the files that jobs name, with whether no load failed, and the desk that grants the
/// disk.
#[derive(Drop)]
pub struct TwinShared<J, S: Source, K: Sink, F, A: Area> {
    pub deck: CardUnit<S>,
    pub cards: LineBuffer,
    pub spools: TwinSpools<A>,
    pub lines: LineBuffer,
    pub paper: PrinterUnit<K>,
    pub files: F,
    pub sound: bool,
    pub desk: Resource<6>,
    /// Of which the code that is loaded takes its memory.
    pub alloc: Global,
    pub of: PhantomData<J>,
}

impl<J: JobWork, S: Source, K: Sink, F: Loader<J>, A: Area> TwinShared<J, S, K, F, A> {
    /// What the six share before their first action.
    pub fn make(alloc: Global, units: TwinUnits<S, K, F, A>) -> Self
        requires deck { units.deck.live ≡ true }
        requires paper { units.paper.live ≡ true }
        requires to_a { (0 < A.size units.to_a) × (A.size units.to_a ≤ 256) }
        requires to_b { (0 < A.size units.to_b) × (A.size units.to_b ≤ 256) }
        requires from_a { (0 < A.size units.from_a) × (A.size units.from_a ≤ 256) }
        requires from_b { (0 < A.size units.from_b) × (A.size units.from_b ≤ 256) }
        ensures stands { TwinStands ⟦<TwinUnits<S, K, F, A> as TwinPeripherals<J>>⟧.tells result
            (twin_opened ⟦<TwinUnits<S, K, F, A> as TwinPeripherals<J>>⟧.tells units) }
        ensures units { shared_units result ≡ units }
        ensures sound { result.sound ≡ true }
    {
        let TwinUnits {
            deck,
            paper,
            files,
            to_a,
            to_b,
            from_a,
            from_b,
        } = units;
        TwinShared {
            deck,
            cards: SlotBuffer::new(),
            spools: TwinSpools {
                to_a: Spool::make(to_a),
                to_b: Spool::make(to_b),
                from_a: Spool::make(from_a),
                from_b: Spool::make(from_b),
            },
            lines: SlotBuffer::new(),
            paper,
            files,
            sound: true,
            desk: Resource::new(),
            alloc,
            of: PhantomData,
        }
    }

    /// Performs the action of a process. A page that it takes is lent from the room. No reply: the process
    /// waits.
    pub fn perform<'a>(
        &mut self,
        p: ProcNo,
        action: TwinAction,
        room: &'a mut Page,
    ) -> Option<Reply<'a, J::Load>>
        requires { MayDo ⟦<TwinUnits<S, K, F, A> as TwinPeripherals<J>>⟧.tells self.old p action }
        ensures { DoneSo J.jobs ⟦<TwinUnits<S, K, F, A> as TwinPeripherals<J>>⟧.tells
            ⟦<TwinUnits<S, K, F, A> as TwinPeripherals<J>>⟧.counts self.old self.new p (meant action) result }
    {
        match action {
            TwinAction::ReadCard => Some(read_card::<J, S>(&mut self.deck)),
            TwinAction::PutFeed { buffer, feed } => self.put_feed(p, buffer, &feed),
            TwinAction::TakeFeed(buffer) => self.take_feed(p, buffer),
            TwinAction::AwaitRoom(buffer) => self.spools.await_room::<J>(p, buffer),
            TwinAction::AwaitItem(buffer) => self.spools.await_item::<J>(p, buffer),
            TwinAction::Request => request::<J, 6>(&mut self.desk, p),
            TwinAction::PutPage { buffer, page } => Some(self.spools.put_page::<J>(buffer, &page)),
            TwinAction::TakePage(buffer) => Some(self.spools.take_page::<J>(buffer, room)),
            TwinAction::Load(file) => Some(self.load(p, &file)),
            TwinAction::Release => Some(release::<J, 6>(&mut self.desk)),
            TwinAction::Local => Some(Reply::Done),
            TwinAction::Print(line) => Some(print::<J, K>(&mut self.paper, &line)),
            TwinAction::Stop(buffer) => Some(self.stop(p, buffer)),
            TwinAction::Ended(_) => Some(Reply::Done),
        }
    }

    fn put_feed<'a>(&mut self, p: ProcNo, b: BufferNo, feed: &Feed) -> Option<Reply<'a, J::Load>>
        requires { MayPutFeed self.old p b }
        ensures { DoneSo J.jobs ⟦<TwinUnits<S, K, F, A> as TwinPeripherals<J>>⟧.tells
            ⟦<TwinUnits<S, K, F, A> as TwinPeripherals<J>>⟧.counts self.old self.new p
            (PutFeed b feed.now) result }
    {
        if b == 1 {
            put_feed::<J>(&mut self.cards, p, feed)
        } else {
            put_feed::<J>(&mut self.lines, p, feed)
        }
    }

    fn take_feed<'a>(&mut self, p: ProcNo, b: BufferNo) -> Option<Reply<'a, J::Load>>
        requires { MayTakeFeed self.old p b }
        ensures { DoneSo J.jobs ⟦<TwinUnits<S, K, F, A> as TwinPeripherals<J>>⟧.tells
            ⟦<TwinUnits<S, K, F, A> as TwinPeripherals<J>>⟧.counts self.old self.new p (TakeFeed b) result }
    {
        if b == 1 {
            take_feed::<J>(&mut self.cards, p)
        } else {
            take_feed::<J>(&mut self.lines, p)
        }
    }

    /// Loads a file, unless a load failed before: then the files aren't asked, and this one fails too.
    fn load<'a>(&mut self, p: ProcNo, file: &Ident) -> Reply<'a, J::Load>
        requires { MayLoad ⟦<TwinUnits<S, K, F, A> as TwinPeripherals<J>>⟧.tells self.old }
        ensures { DoneSo J.jobs ⟦<TwinUnits<S, K, F, A> as TwinPeripherals<J>>⟧.tells
            ⟦<TwinUnits<S, K, F, A> as TwinPeripherals<J>>⟧.counts self.old self.new p
            (Load file.now) (Some result) }
    {
        let _ = p;
        if !self.sound {
            return Reply::Failed;
        }
        let reply = self.files.load(self.alloc, file);
        self.sound = !is_failed(&reply);
        reply
    }

    fn stop<'a>(&mut self, p: ProcNo, b: BufferNo) -> Reply<'a, J::Load>
        requires { MayStopAt self.old p b }
        ensures { DoneSo J.jobs ⟦<TwinUnits<S, K, F, A> as TwinPeripherals<J>>⟧.tells
            ⟦<TwinUnits<S, K, F, A> as TwinPeripherals<J>>⟧.counts self.old self.new p
            (Stop b) (Some result) }
    {
        let side = side_at(p, b);
        if b == 1 {
            stop_line::<J>(&mut self.cards, b, side)
        } else if b == 6 {
            stop_line::<J>(&mut self.lines, b, side)
        } else {
            self.spools.stop::<J>(b, side)
        }
    }
}

fn is_failed<L>(reply: &Reply<'_, L>) -> bool
    ensures { result ≡ is_failure reply.now }
{
    matches!(reply, Reply::Failed)
}
