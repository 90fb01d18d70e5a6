// What the job process does with its answers.
ghost use Rattle.std.specs.Prelude.{◌≡◌, ℕ, suc, List, []};
ghost use Rattle.solo_base.specs.Blanks.{trimmed};
ghost use Rattle.solo_base.specs.declared.item.Item.{Item as ItemOf};
ghost use Rattle.solo_base.specs.declared.page.Page.{Page as PageOf};
ghost use Rattle.solo_law.specs.Work.{Work, Need as NeedOf};
ghost use Rattle.solo_law.specs.JobPlaces.{Listens, OrdersCards, TakesCards, TakesReport, Accepts, PutsPage, Behind, EndsWith, works, answers, meets, ends, puts_page, begins_with, behind_typed, behind_accepted, file_of, behind_put};
ghost use Rattle.solo_procs.specs.declared.job_proc.JobAt.TheVariants as here;
ghost use Rattle.exchange_law.specs.Pages.{last_page};
ghost use Rattle.solo_procs.specs.Job.{JobStands, CameSo, page_place};
ghost use Rattle.solo_procs.specs.JobSteps.{IsAnswering, IsPutting};

use crate::commands::{Commands, Given, Need};
use crate::job_proc::{JobAt, JobProc};
use crate::orders::says_true;
use solo_base::{Arg, Feed, Item, Line, LineList, Page, trim_end};
use solo_devices::CardRead;
use std::mem;

impl<C: Commands> JobProc<C> {
    /// A piece of work is to be done, which begins so.
    pub(crate) fn toil(&mut self, given: Given)
        ensures { self.new ≡ record self.old { place = here.Toils; given = given } }
    {
        self.place = JobAt::Toils;
        self.given = given;
    }

    /// The work has come to a need.
    pub(crate) fn meet(&mut self)
        ensures ready { (work : Work) (needed : NeedOf) → CameSo C.awaits self.old work needed
            → JobStands C.awaits self.new (meets work.pages needed) }
        ensures kept { self.new.commands ≡ self.old.commands }
    {
        match self.met.take() {
            Some(Need::Cards) => self.place = JobAt::OrdersCards,
            Some(Need::Line) => self.place = JobAt::Accepts,
            Some(Need::Display(line)) => self.place = JobAt::Displays(line),
            Some(Need::Page(page)) => {
                self.ends = false;
                self.put_page(page);
            }
            Some(Need::End { last, answers }) => {
                self.ends = true;
                self.answers = answers;
                self.answered = 0;
                self.end(last);
            }
            None => {}
        }
    }

    /// The command has ended, with a last page or none.
    fn end(&mut self, last: Option<Page>)
        ensures ready { (pages : ℕ) (printed lines : List (List ℕ)) → last ≡ last_page pages printed
            → IsPutting C.awaits self.old (EndsWith lines) pages
            → JobStands C.awaits self.new (ends pages printed lines) }
        ensures kept { self.new.commands ≡ self.old.commands }
    {
        match last {
            Some(page) => self.put_page(page),
            None => self.answer(),
        }
    }

    /// A page is put, the first of a command behind an order.
    fn put_page(&mut self, page: Page)
        ensures ready { (behind : Behind) (pages : ℕ) → IsPutting C.awaits self.old behind pages
            → JobStands C.awaits self.new (puts_page pages page behind) }
        ensures kept { self.new.commands ≡ self.old.commands }
    {
        if self.prints {
            self.place = JobAt::PutsPage(page);
            return;
        }
        self.place = JobAt::OrdersPrinter(page);
    }

    /// A page was put: the command goes on, or the report is awaited.
    pub(crate) fn put(&mut self)
        ensures ready { (page : PageOf) (behind : Behind) (pages : ℕ)
            → JobStands C.awaits self.old (PutsPage page behind pages)
            → JobStands C.awaits self.new (behind_put behind (suc pages)) }
        ensures kept { self.new.commands ≡ self.old.commands }
    {
        self.prints = true;
        if self.ends {
            self.place = JobAt::TakesPrinted;
            return;
        }
        self.toil(Given::Nothing);
    }

    /// The next line answers the command, or it is over.
    pub(crate) fn answer(&mut self)
        ensures ready { (lines : List (List ℕ)) → IsAnswering C.awaits self.old lines
            → JobStands C.awaits self.new (answers lines) }
        ensures kept { self.new.commands ≡ self.old.commands }
    {
        if self.answered < self.answers.len() {
            let line = self.answers.get(self.answered);
            self.answered += 1;
            self.place = JobAt::AnswersLine(line);
            return;
        }
        self.place = JobAt::Listens;
    }

    /// A card file is ordered.
    pub(crate) fn order_cards(&mut self)
        ensures ready { (pages : ℕ) → JobStands C.awaits self.old (OrdersCards pages)
            → JobStands C.awaits self.new (TakesCards 0 [] pages) }
        ensures kept { self.new.commands ≡ self.old.commands }
    {
        self.cards = LineList::new(self.alloc);
        self.place = JobAt::TakesCards;
    }

    /// A page of cards was taken: the last one, or another.
    pub(crate) fn close_page(&mut self, last: bool)
        ensures { self.new ≡ record self.old { place = page_place last } }
    {
        if last {
            self.place = JobAt::TakesReport;
            return;
        }
        self.place = JobAt::TakesCards;
    }

    /// The card file in hand, by its report.
    pub(crate) fn take_file(&mut self, report: &Arg)
        ensures ready { (items : List ItemOf) (pages : ℕ)
            → JobStands C.awaits self.old (TakesReport items pages)
            → JobStands C.awaits self.new (works (file_of items report.now) pages) }
        ensures kept { self.new.commands ≡ self.old.commands }
    {
        let cards = mem::replace(&mut self.cards, LineList::new(self.alloc));
        let spoiled = !says_true(report);
        self.toil(Given::Cards { cards, spoiled });
    }

    /// A typed line is a command, unless it is blank.
    pub(crate) fn listen(&mut self, typed: CardRead)
        ensures ready { JobStands C.awaits self.old Listens
            → JobStands C.awaits self.new (behind_typed typed) }
        ensures kept { self.new.commands ≡ self.old.commands }
    {
        match typed {
            CardRead::Card(line) => self.begin_command(line),
            CardRead::Spoiled => {
                self.prints = false;
                self.toil(Given::Line(Item::Spoiled));
            }
            CardRead::End => self.place = JobAt::DismissesInput,
            _other => {}
        }
    }

    fn begin_command(&mut self, line: Line)
        ensures ready { JobStands C.awaits self.old Listens
            → JobStands C.awaits self.new (begins_with (trimmed line) line) }
        ensures kept { self.new.commands ≡ self.old.commands }
    {
        if trim_end(line.bytes()).is_empty() {
            return;
        }
        self.prints = false;
        self.toil(Given::Line(Item::Line(line)));
    }

    /// A typed line is for a program.
    pub(crate) fn accept(&mut self, typed: CardRead)
        ensures ready { (pages : ℕ) → JobStands C.awaits self.old (Accepts pages)
            → JobStands C.awaits self.new (behind_accepted pages typed) }
        ensures kept { self.new.commands ≡ self.old.commands }
    {
        match typed {
            CardRead::Card(line) => self.toil(Given::Typed(Feed::Item(Item::Line(line)))),
            CardRead::Spoiled => self.toil(Given::Typed(Feed::Item(Item::Spoiled))),
            CardRead::End => self.toil(Given::Typed(Feed::End)),
            _other => {}
        }
    }
}
