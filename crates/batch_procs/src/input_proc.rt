ghost use Rattle.std.specs.Prelude.{◌≡◌, option_to_list};

use crate::job_work::JobWork;
use crate::machine::Machine;
use crate::pages::finish;
use crate::work::Work;
use crate::{Action, Lent, Reply};
use page_codec::Packer;
use solo_base::{BufferNo, Feed, NoMemory, Outcome, Page};
use std::alloc::Global;

/// The input process: it takes cards from the line buffer 1, packs them into pages, and puts these into
/// the spool 2.
pub type InputProc<J> = Machine<J, InputWork>;

/// What the input process keeps: the page in hand, the page that is due, and whether the end was taken.
#[derive(Drop)]
pub struct InputWork {
    packer: Packer,
    due: Option<Page>,
    ended: bool,
}

impl<J: JobWork> Work<J> for InputWork {
    ghost use Rattle.std.specs.Prelude.{◌≡◌, true, false, List, IfOk, OnErr};
    ghost use Rattle.batch_procs.specs.Parcels.{Parcel};
    ghost use Rattle.batch_procs.specs.declared.actions.Action.TheVariants as act;
    ghost use Rattle.batch_procs.specs.Fits.{MayLack};
    ghost use Rattle.batch_procs.specs.Work.{MayTake, Takes};
    ghost use Rattle.batch_procs.specs.Table.{input};
    ghost use Rattle.batch_procs.specs.Keeping.{input_keeps};
    ghost use Rattle.batch_procs.specs.Relays.{input-relay};

    ghost process = { input };

    ghost keeps = { input_keeps };

    ghost relay = { input-relay J.Load };

    fn begin(_alloc: Global) -> InputWork {
        InputWork {
            packer: Packer::new(),
            due: None,
            ended: false,
        }
    }

    fn buffer(place: u8) -> Option<BufferNo> {
        [1, 2].get(place as usize).copied()
    }

    #[inline(always)]
    fn aim(&self) -> Action<'_> {
        match &self.due {
            Some(page) => Action::PutPage(Lent::of(page)),
            None if self.ended => Action::Ended(Outcome::Done),
            None => Action::TakeFeed,
        }
    }

    #[inline(always)]
    fn put(&mut self) {
        self.due = None;
    }

    // The clauses of `Work`, which the prover does not yet give this method by itself.
    #[inline(always)]
    fn take(&mut self, reply: Reply<'_, J::Load>) -> Result<Option<Outcome>, NoMemory>
        ensures ok { (taken sent : List (Parcel J.Load)) → input_keeps self.old taken sent false
            → MayTake input taken sent reply.entry →
            IfOk result (λ cause. Takes input (input_keeps self.new) taken sent reply.entry cause) }
        ensures err { OnErr result (((input {L = J.Load}).works ≡ true) × MayLack act.TakePage reply.entry) }
    {
        match reply {
            Reply::Feed(Feed::Item(item)) => self.packer.push_into(&item, &mut self.due),
            Reply::Feed(Feed::End) => {
                finish(&mut self.packer, &mut self.due);
                self.ended = true;
            }
            _other => {}
        }
        Ok(None)
    }

    fn load(&mut self, _load: J::Load) {}

    fn work(&mut self) -> Result<(), NoMemory> {
        Ok(())
    }
}
