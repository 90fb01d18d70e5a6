ghost use Rattle.std.specs.Prelude.{◌≡◌, true, Bool, Option, OnErr};
ghost use Rattle.deck_units.specs.Units.{opens, is_inside, is_dropped};
ghost use Rattle.page_codec.specs.Packing.{PageInHand};
ghost use Rattle.twin_law.specs.Sides.{Twin};
ghost use Rattle.twin_law.specs.Input.{Takes, begins_unit, last_of, empty_page, packs, deals, behind_feed};
ghost use Rattle.twin_procs.specs.Standing.{InputStands};
ghost use Rattle.twin_law.specs.Input.{InputPlace, input_aims, input};
ghost use Rattle.twin_procs.specs.Machine.{IsHanded, IsPage, TakesSo};

use crate::TwinAction;
use crate::machine::TwinMachine;
use crate::proc::TwinProc;
use crate::sides::TwinSide;
use batch_procs::{JobWork, Reply};
use deck_format::{control_in, counts, ends_in, opener_in};
use page_codec::Packer;
use solo_base::{BufferNo, Feed, Item, NoMemory, Outcome, Page};
use std::alloc::Global;

/// The input process: it takes cards from the line buffer 1, and deals the units of the deck to both sides in
/// turn, each a stream of pages of its own; behind them each side gets a stream without items.
pub type TwinInput<J> = TwinMachine<J, InputProc>;

/// Where the input process stands.
#[derive(Drop)]
pub enum InputAt {
    Takes,
    /// A full page of a unit.
    PutsFull(Page),
    /// The last page of a unit, before the item that opens the next.
    PutsUnit(Page, Item),
    /// The last page of the last unit.
    PutsLast(Page),
    PutsEmptyA,
    PutsEmptyB,
    HasDealt,
}

/// What the input process keeps: its place, the side in turn, whether the next item stands in a group, and
/// the page in hand, if a unit is under way.
#[derive(Drop)]
pub struct InputProc {
    place: InputAt,
    side: TwinSide,
    inside: bool,
    packer: Option<Packer>,
}

impl<J: JobWork> TwinProc<J> for InputProc {
    ghost use Rattle.twin_law.specs.Input.{input};
    ghost use Rattle.twin_procs.specs.Standing.{InputStands};
    ghost use Rattle.twin_procs.specs.Closing.{input-closes};

    ghost process = { input };

    ghost stands = { InputStands };

    ghost closes = { input-closes J.Load };

    fn begin(_alloc: Global) -> InputProc {
        InputProc {
            place: InputAt::Takes,
            side: TwinSide::A,
            inside: false,
            packer: None,
        }
    }

    fn stop(done: bool, place: u8) -> Option<BufferNo> {
        if done {
            return [2, 3].get(place as usize).copied();
        }
        [1, 2, 3].get(place as usize).copied()
    }

    #[inline(always)]
    fn aim(&self) -> TwinAction {
        match &self.place {
            InputAt::Takes => TwinAction::TakeFeed(1),
            InputAt::PutsFull(page) => put_to(self.side.to_job(), page),
            InputAt::PutsUnit(page, _) => put_to(self.side.to_job(), page),
            InputAt::PutsLast(page) => put_to(self.side.to_job(), page),
            InputAt::PutsEmptyA => put_to(2, &empty_page()),
            InputAt::PutsEmptyB => put_to(3, &empty_page()),
            InputAt::HasDealt => TwinAction::Ended(Outcome::Done),
        }
    }

    fn done(&mut self) -> Result<(), NoMemory> {
        match &self.place {
            InputAt::PutsFull(_) => self.place = InputAt::Takes,
            InputAt::PutsUnit(_, opener) => {
                let packer = begin_unit(opener);
                self.begin_next(packer);
            }
            InputAt::PutsLast(_) => self.place = InputAt::PutsEmptyA,
            InputAt::PutsEmptyA => self.place = InputAt::PutsEmptyB,
            InputAt::PutsEmptyB => self.place = InputAt::HasDealt,
            _ => {}
        }
        Ok(())
    }

    // The clauses of `TwinProc`, which the prover does not yet give this method by itself.
    fn take(&mut self, reply: Reply<'_, J::Load>) -> Result<Option<Outcome>, NoMemory>
        ensures ok { (at : InputPlace) → InputStands self.old at → IsHanded (input_aims at) reply.entry →
            TakesSo (input {L = J.Load}) (InputStands self.new) at reply.entry result }
        ensures err { OnErr result (((input {L = J.Load}).works ≡ true) × IsPage reply.entry) }
    {
        match reply {
            Reply::Feed(feed) => self.deal(feed),
            _other => {}
        }
        Ok(None)
    }
}

impl InputProc {
    /// Deals what was taken: an item, or the end.
    fn deal(&mut self, feed: Feed)
        ensures { (side : Twin) (inside : Bool) (hand : Option PageInHand)
            → InputStands self.old (Takes side inside hand)
            → InputStands self.new (behind_feed side inside hand feed) }
    {
        match feed {
            Feed::Item(item) => self.add(item),
            Feed::End => self.end_deck(),
        }
    }

    /// Packs an item, unless it is left out.
    fn add(&mut self, item: Item)
        ensures { (side : Twin) (inside : Bool) (hand : Option PageInHand)
            → InputStands self.old (Takes side inside hand)
            → InputStands self.new (deals side inside hand item) }
    {
        let dropped = is_dropped(self.inside, &item);
        self.inside = is_inside(self.inside, &item);
        if !dropped {
            self.pack(item);
        }
    }

    /// Packs an item; one that opens a unit waits until the last page of the unit before it is put.
    fn pack(&mut self, item: Item)
        ensures { (side : Twin) (inside : Bool) (hand : Option PageInHand)
            → InputStands self.old (Takes side inside hand)
            → InputStands self.new (packs side inside hand item) }
    {
        match self.packer.take() {
            None => self.packer = Some(begin_unit(&item)),
            Some(packer) => {
                if opens(&item) {
                    self.place = InputAt::PutsUnit(packer.finish(), item);
                } else {
                    self.push(packer, &item);
                }
            }
        }
    }

    /// Pushes an item onto the page in hand, which goes out where it is full.
    fn push(&mut self, packer: Packer, item: &Item)
        ensures { PushesInput self.old self.new packer item.now }
    {
        let mut packer = packer;
        if let Some(page) = packer.push(item) {
            self.place = InputAt::PutsFull(page);
        }
        self.packer = Some(packer);
    }

    /// Behind the last card: the page in hand is the last of its unit, if one is under way.
    fn end_deck(&mut self)
        ensures { (side : Twin) (inside : Bool) (hand : Option PageInHand)
            → InputStands self.old (Takes side inside hand)
            → InputStands self.new (ends_deck side hand) }
    {
        match self.packer.take() {
            None => self.place = InputAt::PutsEmptyA,
            Some(packer) => self.place = InputAt::PutsLast(packer.finish()),
        }
    }

    /// The next unit begins, with this page in hand, for the other side.
    fn begin_next(&mut self, packer: Packer)
        ensures { BeginsNext self.old self.new packer }
    {
        self.place = InputAt::Takes;
        self.side = self.side.other();
        self.inside = true;
        self.packer = Some(packer);
    }
}

ghost use Rattle.twin_law.specs.Input.{ends_deck};
ghost use Rattle.twin_procs.specs.declared.actions.TwinAction.TheVariants as say;
ghost use Rattle.twin_procs.specs.Standing.{PushesInput, BeginsNext};

fn put_to(buffer: BufferNo, page: &Page) -> TwinAction
    ensures { result ≡ say.PutPage buffer page.now }
{
    TwinAction::PutPage {
        buffer,
        page: *page,
    }
}

/// The one page of a stream without items.
pub fn empty_page() -> Page
    ensures { result ≡ empty_page }
{
    Packer::new().finish()
}

/// The page in hand that begins with this item.
fn begin_unit(item: &Item) -> Packer
    ensures { result ≡ begins_unit item.now }
{
    let mut packer = Packer::new();
    let _ = packer.push(item);
    packer
}

/// Whether an item opens a group.
fn opens(item: &Item) -> bool
    ensures { result ≡ opens item.now }
{
    opener_in(&control_in(item)).is_some()
}

/// Whether what stands behind an item stands in a group.
fn is_inside(inside: bool, item: &Item) -> bool
    ensures { result ≡ is_inside inside item.now }
{
    opens(item) || (inside && !ends_in(&control_in(item)))
}

/// Whether an item is left out: a blank card outside groups.
fn is_dropped(inside: bool, item: &Item) -> bool
    ensures { result ≡ is_dropped inside item.now }
{
    !inside && !counts(item)
}
