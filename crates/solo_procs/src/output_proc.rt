ghost use Rattle.std.specs.Prelude.{◌≡◌, ◌++◌, ℕ, Bool, List, [], None, option_to_list};
ghost use Rattle.exchange_law.specs.Pages.{lines_of};
ghost use Rattle.solo_law.specs.OutputPlaces.{prints};
ghost use Rattle.solo_procs.specs.Output.{OutputStands, IsUnprinted, lines_left};

use crate::SoloAction;
use crate::machine::Machine;
use crate::orders::is_nil;
use crate::page_streams::{PageStreams, damaged, is_last};
use crate::proc::Proc;
use page_codec::PageItems;
use solo_base::{Arg, BufferNo, Item, Line, NoMemory, Outcome, Page};
use solo_devices::CardRead;
use std::alloc::Global;

/// The output process: it waits for an order, prints the lines of each page up to the last, and reports.
pub type SoloOutput = Machine<OutputProc>;

/// Where the output process stands.
#[derive(Drop)]
pub enum OutputAt {
    AwaitsPrinting,
    TakesPage,
    PrintsLine(Line),
    ReportsPrinted,
    IsDone,
}

/// What the output process keeps: its place, the pages that it awaits, what it hasn't printed of the page in
/// hand, and whether that is the last of its stream.
#[derive(Drop)]
pub struct OutputProc {
    place: OutputAt,
    pages: PageStreams,
    items: Option<PageItems>,
    last: bool,
}

impl Proc for OutputProc {
    ghost use Rattle.solo_law.specs.OutputPlaces.{output};
    ghost use Rattle.solo_procs.specs.Output.{OutputStands};
    ghost use Rattle.solo_procs.specs.Closing.{output-closes};

    ghost process = { output };

    ghost is_at = { λ proc at. OutputStands proc.place proc.pages proc.items proc.last at };

    ghost ready = { λ proc at. OutputStands proc.place proc.pages proc.items proc.last at };

    ghost came = { λ proc at need. ⊥ };

    ghost Kept = { Unit {0} };

    ghost kept = { λ proc. tt };

    ghost fresh = { λ kept. Unit {0} };

    ghost stands = { λ proc at there. there };

    ghost closes = { output-closes };

    fn begin(_alloc: Global) -> OutputProc {
        OutputProc {
            place: OutputAt::AwaitsPrinting,
            pages: PageStreams::new(),
            items: None,
            last: false,
        }
    }

    fn buffer(place: u8) -> Option<BufferNo> {
        [4, 5, 6].get(place as usize).copied()
    }

    #[inline(always)]
    fn does(&self) -> SoloAction {
        match &self.place {
            OutputAt::AwaitsPrinting => SoloAction::TakeArg(4),
            OutputAt::TakesPage => SoloAction::TakePage(5),
            OutputAt::PrintsLine(line) => SoloAction::Print(line.copy()),
            OutputAt::ReportsPrinted => SoloAction::PutArg {
                buffer: 6,
                arg: Arg::Bool(true),
            },
            OutputAt::IsDone => SoloAction::Ended(Outcome::Done),
        }
    }

    fn done(&mut self) {
        match &self.place {
            OutputAt::PrintsLine(_) => self.go_on(),
            OutputAt::ReportsPrinted => self.place = OutputAt::AwaitsPrinting,
            _ => {}
        }
    }

    fn card(&mut self, _card: CardRead) {}

    fn arg(&mut self, arg: Arg) {
        if is_nil(&arg) {
            self.place = OutputAt::IsDone;
            return;
        }
        self.place = OutputAt::TakesPage;
    }

    fn page(&mut self, page: Page) -> Result<Option<Outcome>, NoMemory> {
        match self.pages.take(&page) {
            Ok(items) => {
                self.items = Some(items);
                self.last = is_last(&page);
                self.go_on();
                Ok(None)
            }
            Err(bad) => Ok(Some(Outcome::Fault(damaged(bad)))),
        }
    }
}

impl OutputProc {
    /// Goes on with the next line of the page in hand, or behind it.
    fn go_on(&mut self)
        ensures { (later : List (List ℕ)) (ending : Bool) (pages : ℕ)
            → IsUnprinted self.old.pages self.old.items self.old.last later ending pages
            → OutputStands self.new.place self.new.pages self.new.items self.new.last
            (prints later ending pages) }
    {
        match next_line(&mut self.items) {
            Some(line) => self.place = OutputAt::PrintsLine(line),
            None if self.last => self.place = OutputAt::ReportsPrinted,
            None => self.place = OutputAt::TakesPage,
        }
    }
}

/// The next line; spoiled items are passed over.
fn next_line(items: &mut Option<PageItems>) -> Option<Line>
    ensures lines { lines_left items.old ≡ option_to_list result ++ lines_left items.new }
    ensures none { result ≡ None → lines_left items.new ≡ [] }
{
    match items {
        Some(items) => next_line_of(items),
        None => None,
    }
}

/// The next line of these items.
pub fn next_line_of(items: &mut PageItems) -> Option<Line>
    ensures lines { lines_of items.old.items ≡ option_to_list result ++ lines_of items.new.items }
    ensures none { result ≡ None → items.new.items ≡ [] }
{
    'passing: while let Some(item) = items.next() {
        if let Item::Line(line) = item {
            return Some(line);
        }
    }
    None
}
