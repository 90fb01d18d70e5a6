ghost use Rattle.std.specs.Prelude.{◌≡◌, option_to_list};

use crate::job_work::JobWork;
use crate::machine::Machine;
use crate::work::Work;
use crate::{Action, Lent, Reply};
use solo_base::{BufferNo, Feed, Item, Line, NoMemory, Outcome};
use std::alloc::Global;

/// The printer process: it takes lines from the line buffer 4, and prints them.
pub type PrinterProc<J> = Machine<J, PrinterWork>;

/// What the printer process keeps: the line that it took and hasn't printed, and whether the end was taken.
#[derive(Drop)]
pub struct PrinterWork {
    due: Option<Line>,
    ended: bool,
}

impl<J: JobWork> Work<J> for PrinterWork {
    ghost use Rattle.std.specs.Prelude.{◌≡◌, true, false, List, IfOk, OnErr};
    ghost use Rattle.batch_procs.specs.Parcels.{Parcel};
    ghost use Rattle.batch_procs.specs.declared.actions.Action.TheVariants as act;
    ghost use Rattle.batch_procs.specs.Fits.{MayLack};
    ghost use Rattle.batch_procs.specs.Work.{MayTake, Takes};
    ghost use Rattle.batch_procs.specs.Table.{printer};
    ghost use Rattle.batch_procs.specs.Keeping.{printer_keeps};
    ghost use Rattle.batch_procs.specs.Relays.{printer-relay};

    ghost process = { printer };

    ghost keeps = { printer_keeps };

    ghost relay = { printer-relay J.Load };

    fn begin(_alloc: Global) -> PrinterWork {
        PrinterWork {
            due: None,
            ended: false,
        }
    }

    fn buffer(place: u8) -> Option<BufferNo> {
        [4].get(place as usize).copied()
    }

    #[inline(always)]
    fn aim(&self) -> Action<'_> {
        match &self.due {
            Some(line) => Action::Print(Lent::of(line)),
            None if self.ended => Action::Ended(Outcome::Done),
            None => Action::TakeFeed,
        }
    }

    #[inline(always)]
    fn put(&mut self) {
        self.due = None;
    }

    // The clauses of `Work`, which the prover does not yet give this method by itself.
    #[inline(always)]
    fn take(&mut self, reply: Reply<'_, J::Load>) -> Result<Option<Outcome>, NoMemory>
        ensures ok { (taken sent : List (Parcel J.Load)) → printer_keeps self.old taken sent false
            → MayTake printer taken sent reply.entry →
            IfOk result (λ cause. Takes printer (printer_keeps self.new) taken sent reply.entry cause) }
        ensures err { OnErr result (((printer {L = J.Load}).works ≡ true) × MayLack act.TakePage reply.entry) }
    {
        match reply {
            Reply::Feed(feed) => {
                self.ended = is_end(&feed);
                self.due = line_of(feed);
            }
            _other => {}
        }
        Ok(None)
    }

    fn load(&mut self, _load: J::Load) {}

    fn work(&mut self) -> Result<(), NoMemory> {
        Ok(())
    }
}

ghost use Rattle.std.specs.Prelude.{◌∷◌, []};
ghost use Rattle.batch_procs.specs.Parcels.{is_the_end};
ghost use Rattle.batch_procs.specs.Sends.{items, lines_of};

fn is_end(feed: &Feed) -> bool
    ensures { result ≡ is_the_end feed.now }
{
    matches!(feed, Feed::End)
}

/// The line that is handed over; a spoiled item is passed over.
fn line_of(feed: Feed) -> Option<Line>
    ensures { option_to_list result ≡ lines_of (items (feed ∷ [])) }
{
    match feed {
        Feed::Item(Item::Line(line)) => Some(line),
        Feed::Item(Item::Spoiled) | Feed::End => None,
    }
}
