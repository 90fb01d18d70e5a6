ghost use Rattle.std.specs.Prelude.{◌≡◌, ◌++◌, ◌&&◌, not, true, Bool, List, IfOk, OnOk, OnErr};
ghost use Rattle.solo_base.specs.declared.page.Page.{Page as PageOf};
ghost use Rattle.twin_law.specs.Job.{Stream, TakesItems, Toils, behind_items, with_page, behind_work, packs_lines, lines_ahead};
ghost use Rattle.twin_procs.specs.Job.{HasPage, job_stands};
ghost use Rattle.twin_law.specs.Job.{JobPlace, job_aims, job};
ghost use Rattle.twin_procs.specs.Machine.{IsHanded, IsPage, TakesSo};

use crate::TwinAction;
use crate::input_proc::empty_page;
use crate::machine::TwinMachine;
use crate::page_streams::{PageStreams, damaged, has_some};
use crate::proc::TwinProc;
use crate::sides::OnSide;
use batch_procs::{JobWork, Reply};
use page_codec::{Packer, PageItems};
use solo_base::{BufferNo, Ident, NoMemory, Outcome, Page};
use std::alloc::Global;
use std::marker::PhantomData;
use std::mem;

/// The job process of a side: it takes streams of pages of cards from the spool to it, and puts for each the
/// lines of its jobs as a stream of pages into the spool from it. A stream without items is the last.
pub type TwinJob<J, S> = TwinMachine<J, JobProc<J, S>>;

/// Where a job process stands.
#[derive(Drop)]
pub enum JobAt {
    TakesItems,
    /// It loads the files that its jobs want, and then packs their lines.
    Toils,
    /// A full page of lines; behind it there is more work.
    PutsLines(Page),
    /// The last page of the lines of a stream.
    PutsLastLines(Page),
    HasWorked,
}

/// What a job process keeps: its place, the work on the jobs of the stream under way, the pages that it
/// awaits, the page of lines in hand, whether the last page of the stream was taken, and whether one had an
/// item.
#[derive(Drop)]
pub struct JobProc<J, S> {
    place: JobAt,
    jobs: J,
    pages: PageStreams,
    packer: Packer,
    last: bool,
    some: bool,
    alloc: Global,
    of: PhantomData<S>,
}

impl<J: JobWork, S: OnSide> TwinProc<J> for JobProc<J, S> {
    ghost use Rattle.twin_law.specs.Job.{job};
    ghost use Rattle.twin_procs.specs.Job.{job_stands};
    ghost use Rattle.twin_procs.specs.Closing.{job-closes};

    ghost process = { job J.jobs S.side };

    ghost stands = { job_stands J.jobs J.keeps };

    ghost closes = { job-closes J.jobs S.side };

    fn begin(alloc: Global) -> JobProc<J, S> {
        JobProc {
            place: JobAt::TakesItems,
            jobs: J::begin(alloc),
            pages: PageStreams::new(),
            packer: Packer::new(),
            last: false,
            some: false,
            alloc,
            of: PhantomData,
        }
    }

    fn stop(_done: bool, place: u8) -> Option<BufferNo> {
        [S::side().to_job(), S::side().from_job()]
            .get(place as usize)
            .copied()
    }

    #[inline(always)]
    fn aim(&self) -> TwinAction {
        match &self.place {
            JobAt::TakesItems => TwinAction::TakePage(S::side().to_job()),
            JobAt::Toils => work_on(self.jobs.wants()),
            JobAt::PutsLines(page) => TwinAction::PutPage {
                buffer: S::side().from_job(),
                page: *page,
            },
            JobAt::PutsLastLines(page) => TwinAction::PutPage {
                buffer: S::side().from_job(),
                page: *page,
            },
            JobAt::HasWorked => TwinAction::Ended(Outcome::Done),
        }
    }

    fn done(&mut self) -> Result<(), NoMemory> {
        match &self.place {
            JobAt::Toils => self.work(),
            JobAt::PutsLines(_) => {
                self.place = JobAt::Toils;
                Ok(())
            }
            _ => {
                self.end_stream();
                Ok(())
            }
        }
    }

    // The clauses of `TwinProc`, which the prover does not yet give this method by itself.
    fn take(&mut self, reply: Reply<'_, J::Load>) -> Result<Option<Outcome>, NoMemory>
        ensures ok { (at : JobPlace J.Load) → job_stands J.jobs J.keeps self.old at →
            IsHanded (job_aims S.side at) reply.entry →
            TakesSo (job J.jobs S.side) (job_stands J.jobs J.keeps self.new) at reply.entry result }
        ensures err { OnErr result (((job J.jobs S.side).works ≡ true) × IsPage reply.entry) }
    {
        match reply {
            Reply::Page { page, last } => self.take_page(page.get(), last),
            Reply::Loaded(load) => {
                self.jobs.load(load);
                Ok(None)
            }
            _other => Ok(None),
        }
    }
}

impl<J: JobWork, S: OnSide> JobProc<J, S> {
    /// Takes the next page of the stream. One without items that is its last says that all work is done.
    fn take_page(&mut self, page: &Page, last: bool) -> Result<Option<Outcome>, NoMemory>
        ensures { (s : Stream J.Load) → job_stands J.jobs J.keeps self.old (TakesItems s) →
            IfOk result (λ cause.
            TakesPage J.jobs (job_stands J.jobs J.keeps self.new) s page.now last cause) }
    {
        match self.pages.take(page, last) {
            Ok(items) => {
                self.feed(items)?;
                Ok(None)
            }
            Err(bad) => Ok(Some(Outcome::Fault(damaged(bad)))),
        }
    }

    /// Takes the items of a page. A stream without any that is at its end says that all work is done.
    fn feed(&mut self, items: PageItems) -> Result<(), NoMemory>
        ensures { (s : Stream J.Load) → HasPage J.keeps self.old s items.last → OnOk result
            (job_stands J.jobs J.keeps self.new
            (behind_items J.jobs (s.items ++ items.items) (with_page s items.items) items.last)) }
    {
        let last = items.last();
        self.some = has_some(self.some, &items);
        if is_empty(last, self.some) {
            self.place = JobAt::PutsLastLines(empty_page());
            return Ok(());
        }
        self.jobs.feed(items)?;
        self.last = last;
        self.place = JobAt::Toils;
        Ok(())
    }

    /// Packs the next lines, up to a full page, or all so far.
    fn work(&mut self) -> Result<(), NoMemory>
        ensures { (s : Stream J.Load) (last : Bool) → job_stands J.jobs J.keeps self.old (Toils s last) →
            OnOk result (job_stands J.jobs J.keeps self.new
            (behind_work s last (packs_lines s.hand s.packed (lines_ahead J.jobs s last)))) }
    {
        let mut due = None;
        self.jobs.pack(&mut self.packer, &mut due)?;
        match due {
            Some(page) => self.place = JobAt::PutsLines(page),
            None => {
                if self.last {
                    self.finish_lines();
                } else {
                    self.place = JobAt::TakesItems;
                }
            }
        }
        Ok(())
    }

    /// The page of lines in hand is the last of its stream.
    fn finish_lines(&mut self)
        ensures { FinishesLines self.old self.new }
    {
        let packer = mem::replace(&mut self.packer, Packer::new());
        self.place = JobAt::PutsLastLines(packer.finish());
    }

    /// Behind the last lines of a stream the next begins, unless it had no items.
    fn end_stream(&mut self)
        ensures { (page : PageOf) (some : Bool) → job_stands J.jobs J.keeps self.old (PutsLastLines page some)
            → job_stands J.jobs J.keeps self.new (next_stream some) }
    {
        if !self.some {
            self.place = JobAt::HasWorked;
            return;
        }
        self.place = JobAt::TakesItems;
        self.jobs = J::begin(self.alloc);
        self.pages = PageStreams::new();
        self.packer = Packer::new();
        self.last = false;
        self.some = false;
    }
}

ghost use Rattle.std.specs.Prelude.{ℕ};
ghost use Rattle.batch_procs.specs.JobTold.{first_of};
ghost use Rattle.twin_law.specs.Job.{PutsLastLines, next_stream};
ghost use Rattle.twin_procs.specs.Said.{works_said};
ghost use Rattle.twin_procs.specs.Job.{TakesPage, FinishesLines};

/// Whether a stream is at its end and had no item.
fn is_empty(last: bool, some: bool) -> bool
    ensures { result ≡ (last && not some) }
{
    last && !some
}

/// Before it works the process loads the files that are wanted.
fn work_on(wanted: Option<Ident>) -> TwinAction
    ensures { (files : List (List ℕ)) → wanted ≡ first_of files → result ≡ works_said files }
{
    match wanted {
        Some(file) => TwinAction::Load(file),
        None => TwinAction::Local,
    }
}
