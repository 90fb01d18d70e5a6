ghost use Rattle.std.specs.Prelude.{◌≡◌, true, None, OnErr};
ghost use Rattle.batch_procs.specs.Causes.{fault_read};
ghost use Rattle.twin_law.specs.Ends.{CardPlace, card_aims, behind_read, card};
ghost use Rattle.twin_procs.specs.Machine.{IsHanded, IsPage, TakesSo};
ghost use Rattle.twin_procs.specs.Standing.{CardStands};

use crate::TwinAction;
use crate::machine::TwinMachine;
use crate::proc::TwinProc;
use batch_procs::{JobWork, Reply};
use solo_base::{BufferNo, Cause, Feed, Item, NoMemory, Outcome};
use solo_devices::CardRead;
use std::alloc::Global;

/// The card process: it reads the cards of the deck, and puts each into the line buffer 1.
pub type TwinCard<J> = TwinMachine<J, CardProc>;

/// Where the card process stands.
#[derive(Drop)]
pub enum CardAt {
    Reads,
    Puts(Item),
    PutsEnd,
    HasPut,
}

/// What the card process keeps: its place.
#[derive(Drop)]
pub struct CardProc {
    place: CardAt,
}

impl<J: JobWork> TwinProc<J> for CardProc {
    ghost use Rattle.twin_law.specs.Ends.{card};
    ghost use Rattle.twin_procs.specs.Standing.{CardStands};
    ghost use Rattle.twin_procs.specs.Closing.{card-closes};

    ghost process = { card };

    ghost stands = { λ proc at. CardStands proc.place at };

    ghost closes = { card-closes J.Load };

    fn begin(_alloc: Global) -> CardProc {
        CardProc {
            place: CardAt::Reads,
        }
    }

    fn stop(done: bool, place: u8) -> Option<BufferNo> {
        if done {
            return None;
        }
        [1].get(place as usize).copied()
    }

    #[inline(always)]
    fn aim(&self) -> TwinAction {
        match &self.place {
            CardAt::Reads => TwinAction::ReadCard,
            CardAt::Puts(item) => TwinAction::PutFeed {
                buffer: 1,
                feed: Feed::Item(copy(item)),
            },
            CardAt::PutsEnd => TwinAction::PutFeed {
                buffer: 1,
                feed: Feed::End,
            },
            CardAt::HasPut => TwinAction::Ended(Outcome::Done),
        }
    }

    fn done(&mut self) -> Result<(), NoMemory> {
        match &self.place {
            CardAt::PutsEnd => self.place = CardAt::HasPut,
            _ => self.place = CardAt::Reads,
        }
        Ok(())
    }

    // The clauses of `TwinProc`, which the prover does not yet give this method by itself.
    fn take(&mut self, reply: Reply<'_, J::Load>) -> Result<Option<Outcome>, NoMemory>
        ensures ok { (at : CardPlace) → CardStands self.old.place at → IsHanded (card_aims at) reply.entry →
            TakesSo (card {L = J.Load}) (CardStands self.new.place) at reply.entry result }
        ensures err { OnErr result (((card {L = J.Load}).works ≡ true) × IsPage reply.entry) }
    {
        match reply {
            Reply::Card(card) => Ok(self.read(card)),
            _other => Ok(None),
        }
    }
}

impl CardProc {
    /// Goes on with what was read, or says why it stops.
    fn read(&mut self, card: CardRead) -> Option<Outcome>
        ensures cause { result ≡ fault_read card }
        ensures place { result ≡ None → CardStands self.new.place (behind_read card) }
    {
        match card {
            CardRead::Card(line) => self.place = CardAt::Puts(Item::Line(line)),
            CardRead::Spoiled => self.place = CardAt::Puts(Item::Spoiled),
            CardRead::End => self.place = CardAt::PutsEnd,
            CardRead::Failed => return Some(Outcome::Fault(Cause::ReadFault)),
            CardRead::Limit => return Some(Outcome::Fault(Cause::DeckLimit)),
        }
        None
    }
}

/// The same once more.
#[inline(always)]
fn copy(item: &Item) -> Item
    ensures { result ≡ item.now }
{
    match item {
        Item::Line(line) => Item::Line(line.copy()),
        Item::Spoiled => Item::Spoiled,
    }
}
