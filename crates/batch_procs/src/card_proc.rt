ghost use Rattle.std.specs.Prelude.{◌≡◌, option_to_list};
ghost use Rattle.batch_procs.specs.Sends.{as_parcels};

use crate::job_work::JobWork;
use crate::machine::Machine;
use crate::work::Work;
use crate::{Action, Lent, Reply};
use solo_base::{BufferNo, Cause, Feed, Item, NoMemory, Outcome};
use solo_devices::CardRead;
use std::alloc::Global;

/// The card process: it reads the cards of the deck, and puts each into the line buffer 1.
pub type CardProc<J> = Machine<J, CardWork>;

/// What the card process keeps: what it read and hasn't put, and whether the deck has ended.
#[derive(Drop)]
pub struct CardWork {
    due: Option<Feed>,
    ended: bool,
}

impl<J: JobWork> Work<J> for CardWork {
    ghost use Rattle.std.specs.Prelude.{◌≡◌, true, false, List, IfOk, OnErr};
    ghost use Rattle.batch_procs.specs.Parcels.{Parcel};
    ghost use Rattle.batch_procs.specs.declared.actions.Action.TheVariants as act;
    ghost use Rattle.batch_procs.specs.Fits.{MayLack};
    ghost use Rattle.batch_procs.specs.Work.{MayTake, Takes};
    ghost use Rattle.batch_procs.specs.Table.{card};
    ghost use Rattle.batch_procs.specs.Keeping.{card_keeps};
    ghost use Rattle.batch_procs.specs.Relays.{card-relay};

    ghost process = { card };

    ghost keeps = { card_keeps };

    ghost relay = { card-relay J.Load };

    fn begin(_alloc: Global) -> CardWork {
        CardWork {
            due: None,
            ended: false,
        }
    }

    fn buffer(place: u8) -> Option<BufferNo> {
        [1].get(place as usize).copied()
    }

    #[inline(always)]
    fn aim(&self) -> Action<'_> {
        match &self.due {
            Some(feed) => Action::PutFeed(Lent::of(feed)),
            None if self.ended => Action::Ended(Outcome::Done),
            None => Action::ReadCard,
        }
    }

    #[inline(always)]
    fn put(&mut self) {
        self.due = None;
    }

    // The clauses of `Work`, which the prover does not yet give this method by itself.
    #[inline(always)]
    fn take(&mut self, reply: Reply<'_, J::Load>) -> Result<Option<Outcome>, NoMemory>
        ensures ok { (taken sent : List (Parcel J.Load)) → card_keeps self.old taken sent false
            → MayTake card taken sent reply.entry →
            IfOk result (λ cause. Takes card (card_keeps self.new) taken sent reply.entry cause) }
        ensures err { OnErr result (((card {L = J.Load}).works ≡ true) × MayLack act.TakePage reply.entry) }
    {
        match reply {
            Reply::Card(CardRead::Card(line)) => self.due = Some(Feed::Item(Item::Line(line))),
            Reply::Card(CardRead::Spoiled) => self.due = Some(Feed::Item(Item::Spoiled)),
            Reply::Card(CardRead::End) => {
                self.due = Some(Feed::End);
                self.ended = true;
            }
            Reply::Card(CardRead::Failed) => return Ok(Some(Outcome::Fault(Cause::ReadFault))),
            Reply::Card(CardRead::Limit) => return Ok(Some(Outcome::Fault(Cause::DeckLimit))),
            _other => {}
        }
        Ok(None)
    }

    fn load(&mut self, _load: J::Load) {}

    fn work(&mut self) -> Result<(), NoMemory> {
        Ok(())
    }
}
