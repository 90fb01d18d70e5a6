ghost use Rattle.std.specs.Prelude.{◌≡◌, ◌++◌, OnOk};
ghost use Rattle.exchange_law.specs.Pages.{lines_of};

use crate::SoloAction;
use crate::commands::{Commands, Given, Need};
use crate::machine::Machine;
use crate::orders::{cards_order, printer_order};
use crate::output_proc::next_line_of;
use crate::page_streams::{PageStreams, damaged, is_last};
use crate::proc::Proc;
use page_codec::PageItems;
use solo_base::{Arg, BufferNo, Line, LineList, NoMemory, Outcome, Page};
use solo_devices::CardRead;
use std::alloc::Global;

/// The job process: it accepts a line, and meets the needs of its command in order.
pub type SoloJob<C> = Machine<JobProc<C>>;

/// Where the job process stands.
#[derive(Drop)]
pub enum JobAt {
    Listens,
    Toils,
    OrdersCards,
    TakesCards,
    TakesReport,
    Accepts,
    Displays(Line),
    OrdersPrinter(Page),
    PutsPage(Page),
    TakesPrinted,
    AnswersLine(Line),
    DismissesInput,
    DismissesOutput,
    HasLeft,
}

/// What the job process keeps: its commands, its place, what its next work begins with and what the last one
/// came to, the card file in hand, the pages that it awaits, the lines that are still to answer its command,
/// whether the command has ended, and whether it has put a page.
#[derive(Drop)]
pub struct JobProc<C> {
    pub(crate) commands: C,
    pub(crate) place: JobAt,
    pub(crate) given: Given,
    pub(crate) met: Option<Need>,
    pub(crate) cards: LineList,
    pub(crate) pages: PageStreams,
    pub(crate) answers: LineList,
    pub(crate) answered: usize,
    pub(crate) ends: bool,
    pub(crate) prints: bool,
    pub(crate) alloc: Global,
}

impl<C: Commands> Proc for JobProc<C> {
    ghost use Rattle.solo_law.specs.JobPlaces.{job};
    ghost use Rattle.solo_procs.specs.Job.{job_at, JobStands, job_came};
    ghost use Rattle.solo_procs.specs.Closing.{job-closes};
    ghost use Rattle.solo_procs.specs.Commands.{StartFresh};

    ghost process = { job };

    ghost is_at = { job_at };

    ghost ready = { JobStands C.awaits };

    ghost came = { job_came C.awaits };

    ghost Kept = { C };

    ghost kept = { λ proc. proc.commands };

    ghost fresh = { StartFresh C.opens C.plans C.follows C.passes };

    ghost stands = { λ proc at kept. kept.place };

    ghost closes = { job-closes };

    fn begin(alloc: Global) -> JobProc<C> {
        JobProc {
            commands: C::begin(alloc),
            place: JobAt::Listens,
            given: Given::Nothing,
            met: None,
            cards: LineList::new(alloc),
            pages: PageStreams::new(),
            answers: LineList::new(alloc),
            answered: 0,
            ends: false,
            prints: false,
            alloc,
        }
    }

    fn buffer(place: u8) -> Option<BufferNo> {
        [1, 2, 3, 4, 5, 6].get(place as usize).copied()
    }

    #[inline(always)]
    fn does(&self) -> SoloAction {
        match &self.place {
            JobAt::Listens => SoloAction::Accept,
            JobAt::Toils => SoloAction::Work,
            JobAt::OrdersCards => SoloAction::PutArg {
                buffer: 1,
                arg: cards_order(),
            },
            JobAt::TakesCards => SoloAction::TakePage(2),
            JobAt::TakesReport => SoloAction::TakeArg(3),
            JobAt::Accepts => SoloAction::Accept,
            JobAt::Displays(line) => SoloAction::Display(line.copy()),
            JobAt::OrdersPrinter(_) => SoloAction::PutArg {
                buffer: 4,
                arg: printer_order(),
            },
            JobAt::PutsPage(page) => SoloAction::PutPage {
                buffer: 5,
                page: *page,
            },
            JobAt::TakesPrinted => SoloAction::TakeArg(6),
            JobAt::AnswersLine(line) => SoloAction::Display(line.copy()),
            JobAt::DismissesInput => SoloAction::PutArg {
                buffer: 1,
                arg: Arg::Nil,
            },
            JobAt::DismissesOutput => SoloAction::PutArg {
                buffer: 4,
                arg: Arg::Nil,
            },
            JobAt::HasLeft => SoloAction::Ended(Outcome::Done),
        }
    }

    fn done(&mut self) {
        match &self.place {
            JobAt::Toils => self.meet(),
            JobAt::OrdersCards => self.order_cards(),
            JobAt::Displays(_) => self.toil(Given::Nothing),
            JobAt::OrdersPrinter(page) => {
                let page = *page;
                self.place = JobAt::PutsPage(page);
            }
            JobAt::PutsPage(_) => self.put(),
            JobAt::AnswersLine(_) => self.answer(),
            JobAt::DismissesInput => self.place = JobAt::DismissesOutput,
            JobAt::DismissesOutput => self.place = JobAt::HasLeft,
            _ => {}
        }
    }

    fn card(&mut self, card: CardRead) {
        match &self.place {
            JobAt::Listens => self.listen(card),
            JobAt::Accepts => self.accept(card),
            _ => {}
        }
    }

    fn arg(&mut self, arg: Arg) {
        match &self.place {
            JobAt::TakesReport => self.take_file(&arg),
            JobAt::TakesPrinted => self.answer(),
            _ => {}
        }
    }

    fn page(&mut self, page: Page) -> Result<Option<Outcome>, NoMemory> {
        match self.pages.take(&page) {
            Ok(mut items) => {
                add_lines(&mut self.cards, &mut items)?;
                self.close_page(is_last(&page));
                Ok(None)
            }
            Err(bad) => Ok(Some(Outcome::Fault(damaged(bad)))),
        }
    }
}

/// Adds the lines of a page to a card file.
fn add_lines(cards: &mut LineList, items: &mut PageItems) -> Result<(), NoMemory>
    ensures { OnOk result (cards.new ≡ cards.old ++ lines_of items.old.items) }
{
    'adding: while let Some(line) = next_line_of(items) {
        cards.push(&line)?;
    }
    Ok(())
}
