ghost use Rattle.std.specs.Prelude.{◌≡◌, ℕ, Bool, List};
ghost use Rattle.solo_devices.specs.declared.card_read.CardRead.TheVariants as read;
ghost use Rattle.solo_law.specs.InputPlaces.{Reads, behind_card, closes_file};
ghost use Rattle.solo_procs.specs.Input.{InputStands};

use crate::SoloAction;
use crate::machine::Machine;
use crate::orders::is_nil;
use crate::proc::Proc;
use deck_format::{control_in, ends_in};
use page_codec::Packer;
use solo_base::{Arg, BufferNo, Item, Line, NoMemory, Outcome, Page};
use solo_devices::CardRead;
use std::alloc::Global;
use std::mem;

/// The input process: it waits for an order, packs the next card file into pages, and reports whether none
/// of its cards was spoiled.
pub type SoloInput = Machine<InputProc>;

/// Where the input process stands.
#[derive(Drop)]
pub enum InputAt {
    AwaitsOrder,
    Reads,
    PutsFull(Page),
    PutsLast(Page),
    Reports,
    IsOver,
}

/// What the input process keeps: its place, the page in hand, and whether no card of the file was spoiled.
#[derive(Drop)]
pub struct InputProc {
    place: InputAt,
    packer: Packer,
    sound: bool,
}

impl Proc for InputProc {
    ghost use Rattle.solo_law.specs.InputPlaces.{input};
    ghost use Rattle.solo_procs.specs.Input.{InputStands};
    ghost use Rattle.solo_procs.specs.Closing.{input-closes};

    ghost process = { input };

    ghost is_at = { λ proc at. InputStands proc.place proc.packer proc.sound at };

    ghost ready = { λ proc at. InputStands proc.place proc.packer proc.sound at };

    ghost came = { λ proc at need. ⊥ };

    ghost Kept = { Unit {0} };

    ghost kept = { λ proc. tt };

    ghost fresh = { λ kept. Unit {0} };

    ghost stands = { λ proc at there. there };

    ghost closes = { input-closes };

    fn begin(_alloc: Global) -> InputProc {
        InputProc {
            place: InputAt::AwaitsOrder,
            packer: Packer::new(),
            sound: true,
        }
    }

    fn buffer(place: u8) -> Option<BufferNo> {
        [1, 2, 3].get(place as usize).copied()
    }

    #[inline(always)]
    fn does(&self) -> SoloAction {
        match &self.place {
            InputAt::AwaitsOrder => SoloAction::TakeArg(1),
            InputAt::Reads => SoloAction::ReadCard,
            InputAt::PutsFull(page) => SoloAction::PutPage {
                buffer: 2,
                page: *page,
            },
            InputAt::PutsLast(page) => SoloAction::PutPage {
                buffer: 2,
                page: *page,
            },
            InputAt::Reports => SoloAction::PutArg {
                buffer: 3,
                arg: Arg::Bool(self.sound),
            },
            InputAt::IsOver => SoloAction::Ended(Outcome::Done),
        }
    }

    fn done(&mut self) {
        match &self.place {
            InputAt::PutsFull(_) => self.place = InputAt::Reads,
            InputAt::PutsLast(_) => self.place = InputAt::Reports,
            InputAt::Reports => self.place = InputAt::AwaitsOrder,
            _ => {}
        }
    }

    #[inline(always)]
    fn card(&mut self, card: CardRead) {
        match card {
            CardRead::Card(line) => self.add(line),
            CardRead::Spoiled => self.sound = false,
            CardRead::End => self.close_file(),
            _other => {}
        }
    }

    fn arg(&mut self, arg: Arg) {
        if is_nil(&arg) {
            self.place = InputAt::IsOver;
            return;
        }
        self.place = InputAt::Reads;
        self.packer = Packer::new();
        self.sound = true;
    }

    fn page(&mut self, _page: Page) -> Result<Option<Outcome>, NoMemory> {
        Ok(None)
    }
}

impl InputProc {
    /// Packs a card, or ends the card file by it. The cards behind a spoiled one are dropped.
    fn add(&mut self, line: Line)
        ensures { (pages : ℕ) (hand : List (List ℕ)) (clean : Bool)
            → InputStands self.old.place self.old.packer self.old.sound (Reads pages hand clean)
            → InputStands self.new.place self.new.packer self.new.sound
            (behind_card pages hand clean (read.Card line)) }
    {
        let card = Item::Line(line);
        if ends_in(&control_in(&card)) {
            self.close_file();
            return;
        }
        if !self.sound {
            return;
        }
        if let Some(page) = self.packer.push(&card) {
            self.place = InputAt::PutsFull(page);
        }
    }

    /// Ends the card file: the page in hand is its last.
    fn close_file(&mut self)
        ensures { (pages : ℕ) (hand : List (List ℕ)) (clean : Bool)
            → InputStands self.old.place self.old.packer self.old.sound (Reads pages hand clean)
            → InputStands self.new.place self.new.packer self.new.sound (closes_file pages hand clean) }
    {
        let packer = mem::replace(&mut self.packer, Packer::new());
        self.place = InputAt::PutsLast(packer.finish());
    }
}
