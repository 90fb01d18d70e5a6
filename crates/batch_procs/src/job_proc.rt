ghost use Rattle.std.specs.Prelude.{◌≡◌, ℕ, List};
ghost use Rattle.batch_procs.specs.JobTold.{first_of};
ghost use Rattle.batch_procs.specs.Process.{works_on};

use crate::job_work::JobWork;
use crate::machine::Machine;
use crate::output_proc::damage;
use crate::pages::{Pages, finish};
use crate::work::Work;
use crate::{Action, Lent, Reply};
use page_codec::Packer;
use solo_base::{BufferNo, Ident, NoMemory, Outcome, Page};
use std::alloc::Global;

/// The job process: it takes pages of cards from the spool 2, and puts pages of the jobs' lines into the
/// spool 3.
pub type JobProc<J> = Machine<J, JobProcWork<J>>;

/// What the job process keeps: the pages that it awaits, the work on the jobs of their items, the page in
/// hand and the page that is due, and whether there is work to do. Files are loaded before the work on a
/// page.
#[derive(Drop)]
pub struct JobProcWork<J> {
    pages: Pages,
    jobs: J,
    packer: Packer,
    due: Option<Page>,
    unworked: bool,
}

impl<J: JobWork> Work<J> for JobProcWork<J> {
    ghost use Rattle.std.specs.Prelude.{◌≡◌, true, false, List, IfOk, OnErr};
    ghost use Rattle.batch_procs.specs.Parcels.{Parcel};
    ghost use Rattle.batch_procs.specs.declared.actions.Action.TheVariants as act;
    ghost use Rattle.batch_procs.specs.Fits.{MayLack};
    ghost use Rattle.batch_procs.specs.Work.{MayTake, Takes};
    ghost use Rattle.batch_procs.specs.Table.{job};
    ghost use Rattle.batch_procs.specs.Keeping.{job_keeps};
    ghost use Rattle.batch_procs.specs.Relays.{job-relay};

    ghost process = { job J.jobs };

    ghost keeps = { job_keeps J.jobs J.keeps };

    ghost relay = { job-relay J.are_jobs };

    fn begin(alloc: Global) -> JobProcWork<J> {
        JobProcWork {
            pages: Pages::new(),
            jobs: J::begin(alloc),
            packer: Packer::new(),
            due: None,
            unworked: false,
        }
    }

    fn buffer(place: u8) -> Option<BufferNo> {
        [2, 3].get(place as usize).copied()
    }

    #[inline(always)]
    fn aim(&self) -> Action<'_> {
        match &self.due {
            Some(page) => Action::PutPage(Lent::of(page)),
            None if self.unworked => work_on(self.jobs.wants()),
            None if self.pages.is_ended() => Action::Ended(Outcome::Done),
            None => Action::TakePage,
        }
    }

    #[inline(always)]
    fn put(&mut self) {
        let Some(page) = &self.due else {
            return;
        };
        self.unworked = !page.last();
        self.due = None;
    }

    // The clauses of `Work`, which the prover does not yet give this method by itself.
    #[inline(always)]
    fn take(&mut self, reply: Reply<'_, J::Load>) -> Result<Option<Outcome>, NoMemory>
        ensures ok { (taken sent : List (Parcel J.Load)) → job_keeps J.jobs J.keeps self.old taken sent false
            → MayTake (job J.jobs) taken sent reply.entry →
            IfOk result (λ cause.
            Takes (job J.jobs) (job_keeps J.jobs J.keeps self.new) taken sent reply.entry cause) }
        ensures err { OnErr result (((job J.jobs).works ≡ true) × MayLack act.TakePage reply.entry) }
    {
        let Reply::Page { page, last } = reply else {
            return Ok(None);
        };
        if self.pages.is_ended() {
            return Ok(None);
        }
        match self.pages.take(page.get(), last) {
            Ok(items) => {
                self.jobs.feed(items)?;
                self.unworked = true;
                Ok(None)
            }
            Err(bad) => Ok(Some(Outcome::Fault(damage(bad)))),
        }
    }

    fn load(&mut self, load: J::Load) {
        self.jobs.load(load);
    }

    fn work(&mut self) -> Result<(), NoMemory> {
        self.unworked = false;
        self.jobs.pack(&mut self.packer, &mut self.due)?;
        if self.due.is_none() && self.pages.is_ended() {
            finish(&mut self.packer, &mut self.due);
        }
        Ok(())
    }
}

/// Before it works the process loads the files that are wanted.
fn work_on<'a>(wanted: Option<Ident>) -> Action<'a>
    ensures { (files : List (List ℕ)) → wanted ≡ first_of files → result ≡ works_on files }
{
    match wanted {
        Some(file) => Action::Load(file),
        None => Action::Local,
    }
}
