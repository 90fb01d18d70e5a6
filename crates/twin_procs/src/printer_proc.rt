ghost use Rattle.std.specs.Prelude.{◌≡◌, true, OnErr};
ghost use Rattle.twin_law.specs.Ends.{PrinterPlace, TakesLine, printer_aims, behind_line, printer};
ghost use Rattle.twin_procs.specs.Machine.{IsHanded, IsPage, TakesSo};
ghost use Rattle.twin_procs.specs.Standing.{PrinterStands};

use crate::TwinAction;
use crate::machine::TwinMachine;
use crate::proc::TwinProc;
use batch_procs::{JobWork, Reply};
use solo_base::{BufferNo, Feed, Item, Line, NoMemory, Outcome};
use std::alloc::Global;

/// The printer process: it takes lines from the line buffer 6, and prints them.
pub type TwinPrinter<J> = TwinMachine<J, PrinterProc>;

/// Where the printer process stands.
#[derive(Drop)]
pub enum PrinterAt {
    TakesLine,
    PrintsLine(Line),
    HasPrinted,
}

/// What the printer process keeps: its place.
#[derive(Drop)]
pub struct PrinterProc {
    place: PrinterAt,
}

impl<J: JobWork> TwinProc<J> for PrinterProc {
    ghost use Rattle.twin_law.specs.Ends.{printer};
    ghost use Rattle.twin_procs.specs.Standing.{PrinterStands};
    ghost use Rattle.twin_procs.specs.Closing.{printer-closes};

    ghost process = { printer };

    ghost stands = { λ proc at. PrinterStands proc.place at };

    ghost closes = { printer-closes J.Load };

    fn begin(_alloc: Global) -> PrinterProc {
        PrinterProc {
            place: PrinterAt::TakesLine,
        }
    }

    fn stop(done: bool, place: u8) -> Option<BufferNo> {
        if done {
            return None;
        }
        [6].get(place as usize).copied()
    }

    #[inline(always)]
    fn aim(&self) -> TwinAction {
        match &self.place {
            PrinterAt::TakesLine => TwinAction::TakeFeed(6),
            PrinterAt::PrintsLine(line) => TwinAction::Print(line.copy()),
            PrinterAt::HasPrinted => TwinAction::Ended(Outcome::Done),
        }
    }

    fn done(&mut self) -> Result<(), NoMemory> {
        self.place = PrinterAt::TakesLine;
        Ok(())
    }

    // The clauses of `TwinProc`, which the prover does not yet give this method by itself.
    fn take(&mut self, reply: Reply<'_, J::Load>) -> Result<Option<Outcome>, NoMemory>
        ensures ok { (at : PrinterPlace) → PrinterStands self.old.place at →
            IsHanded (printer_aims at) reply.entry →
            TakesSo (printer {L = J.Load}) (PrinterStands self.new.place) at reply.entry result }
        ensures err { OnErr result (((printer {L = J.Load}).works ≡ true) × IsPage reply.entry) }
    {
        match reply {
            Reply::Feed(feed) => self.accept(feed),
            _other => {}
        }
        Ok(None)
    }
}

impl PrinterProc {
    /// Goes on with what was taken; a spoiled item is passed over.
    fn accept(&mut self, feed: Feed)
        ensures { PrinterStands self.old.place TakesLine → PrinterStands self.new.place (behind_line feed) }
    {
        match feed {
            Feed::Item(Item::Line(line)) => self.place = PrinterAt::PrintsLine(line),
            Feed::Item(Item::Spoiled) => {}
            Feed::End => self.place = PrinterAt::HasPrinted,
        }
    }
}
