ghost use Rattle.std.specs.Prelude.{◌≡◌, ◌↔◌, IsTrue, ◌∷◌, true, None, List, [], Some, OnOk, OnErr};
ghost use Rattle.batch_procs.specs.declared.actions.Action.{Action as ActionOf};
ghost use Rattle.batch_procs.specs.declared.actions.Reply.TheVariants as reply;
ghost use Rattle.batch_procs.specs.Causes.{caused};
ghost use Rattle.batch_procs.specs.Fits.{Fits, MayWait};
ghost use Rattle.batch_procs.specs.History.{Entry, Does, LacksMemory, Delays};
ghost use Rattle.batch_procs.specs.Process.{next_action};
ghost use Rattle.batch_procs.specs.Laws.{HasEnded};
ghost use Rattle.batch_procs.specs.Machine.{StandsFor, NextIs};

use crate::job_work::JobWork;
use crate::round::Step;
use crate::work::Work;
use crate::{Action, Reply};
use solo_base::{Cause, NoMemory, Outcome};
use std::alloc::Global;
use std::marker::PhantomData;

/// A process as a machine, in a network over jobs of this kind: it says what it does next, and is given the
/// reply. It keeps no history.
#[derive(Drop)]
pub struct Machine<J, W> {
    pub(crate) work: W,
    pub(crate) step: Step,
    pub(crate) cause: Option<Outcome>,
    pub(crate) stops: u8,
    pub(crate) of: PhantomData<J>,
}

impl<J: JobWork, W: Work<J>> Machine<J, W> {
    /// The machine of a process that has done nothing.
    pub fn new(alloc: Global) -> Machine<J, W>
        ensures { StandsFor J.jobs W.process W.keeps result [] }
    {
        Machine {
            work: W::begin(alloc),
            step: Step::Free,
            cause: None,
            stops: 0,
            of: PhantomData,
        }
    }

    /// What the process does next. Of one that has ended nothing is said.
    #[inline(always)]
    pub fn next(&self) -> Action<'_>
        ensures next { (h : List (Entry J.Load)) → StandsFor J.jobs W.process W.keeps self.now h
            → NextIs (next_action W.process h) result }

        // A call that waits is made again.
        ensures waits { (h : List (Entry J.Load)) (action : ActionOf)
            → StandsFor J.jobs W.process W.keeps self.now h
            → next_action W.process h ≡ Some action → MayWait action
            → StandsFor J.jobs W.process W.keeps self.now (Delays action ∷ h) }
    {
        match self.cause {
            None => self.working(),
            Some(cause) => self.closing(cause),
        }
    }

    /// What a process without a cause does next.
    #[inline(always)]
    fn working(&self) -> Action<'_>
        ensures { (h : List (Entry J.Load)) → StandsFor J.jobs W.process W.keeps self.now h
            → self.now.cause ≡ None → NextIs (next_action W.process h) result }
    {
        match self.step {
            Step::Free => begin(self.work.aim()),
            Step::Awaited => Action::Request,
            Step::Granted => self.work.aim(),
            Step::Moved => Action::Release,
            Step::Ended => Action::Ended(Outcome::Done),
        }
    }

    /// What a process with a cause does next.
    #[inline(always)]
    fn closing(&self, cause: Outcome) -> Action<'_>
        ensures { (h : List (Entry J.Load)) → StandsFor J.jobs W.process W.keeps self.now h
            → self.now.cause ≡ Some cause → NextIs (next_action W.process h) result }
    {
        if self.step.holds_disk() {
            return Action::Release;
        }
        match W::buffer(self.stops) {
            Some(buffer) => Action::Stop(buffer),
            None => Action::Ended(cause),
        }
    }

    /// Whether the process has ended.
    pub fn has_ended(&self) -> bool
        ensures { (h : List (Entry J.Load)) → StandsFor J.jobs W.process W.keeps self.now h
            → IsTrue result ↔ HasEnded h }
    {
        matches!(self.step, Step::Ended)
    }

    /// Why the process closes down, or did. None: it has no cause to.
    pub fn cause(&self) -> Option<Outcome>
        ensures { (h : List (Entry J.Load)) → StandsFor J.jobs W.process W.keeps self.now h
            → result ≡ caused h }
    {
        self.cause
    }

    /// Gives the reply to the action that was next. Where memory is refused, this is the cause of the
    /// process, and it closes down.
    // Inlined, as a reply is copied whole where it crosses a call.
    #[inline(always)]
    pub fn give(&mut self, reply: Reply<'_, J::Load>) -> Result<(), NoMemory>
        ensures ok { OnOk result ((h : List (Entry J.Load)) (action : ActionOf)
            → StandsFor J.jobs W.process W.keeps self.old h →
            next_action W.process h ≡ Some action → Fits J.jobs action reply.entry
            → StandsFor J.jobs W.process W.keeps self.new (Does action reply.entry ∷ h)) }
        ensures err { OnErr result ((h : List (Entry J.Load)) (action : ActionOf)
            → StandsFor J.jobs W.process W.keeps self.old h →
            next_action W.process h ≡ Some action → Fits J.jobs action reply.entry
            → StandsFor J.jobs W.process W.keeps self.new (LacksMemory action reply.entry ∷ h)) }
        ensures works { OnErr result (W.process.works ≡ true) }
    {
        let action = self.next();
        let (step, stops) = (Step::after(&action), stops_after(self.stops, &action));
        let (done, fault) = (Done::of(&action), fault_at(&action));
        self.step = step;
        self.stops = stops;
        match answer::<J, W>(&mut self.work, done, fault, reply) {
            Ok(cause) => {
                add_cause(&mut self.cause, cause);
                Ok(())
            }
            Err(refused) => {
                add_cause(&mut self.cause, Some(Outcome::Fault(Cause::NoMemory)));
                Err(refused)
            }
        }
    }
}

ghost use Rattle.batch_procs.specs.Process.{begins};
ghost use Rattle.batch_procs.specs.Causes.{fault_at, or_new};
ghost use Rattle.batch_procs.specs.Machine.{Answers, done_by, stops_after};

/// The first call of what a process aims at: a move of a page begins with an await, and a load asks for the
/// disk.
#[inline(always)]
fn begin<'a>(aim: Action<'a>) -> Action<'a>
    ensures { result ≡ begins aim.entry }
{
    match aim {
        Action::PutPage(_) => Action::AwaitRoom,
        Action::TakePage => Action::AwaitItem,
        Action::Load(_) => Action::Request,
        other => other,
    }
}

/// How many buffers are stopped behind an action.
#[inline(always)]
fn stops_after(stops: u8, action: &Action<'_>) -> u8
    ensures { result ≡ stops_after stops action.now }
{
    match action {
        Action::Stop(_) => stops.saturating_add(1),
        _ => stops,
    }
}

/// The earlier cause stays.
fn add_cause(cause: &mut Option<Outcome>, new: Option<Outcome>)
    ensures { cause.new ≡ or_new cause.old new }
{
    if cause.is_none() {
        *cause = new;
    }
}

/// What it means for the work that an action is done.
#[derive(Clone, Copy)]
pub(crate) enum Done {
    /// What was due first is put or printed.
    Put,
    /// It works on what it took.
    Work,
    /// Nothing.
    Other,
}

impl Done {
    #[inline(always)]
    fn of(action: &Action<'_>) -> Done
        ensures { result ≡ done_by action.now }
    {
        match action {
            Action::PutFeed(_) | Action::PutPage(_) | Action::Print(_) => Done::Put,
            Action::Local => Done::Work,
            _ => Done::Other,
        }
    }
}

/// Uses the reply to an action, and says which cause it gives.
#[inline(always)]
fn answer<J: JobWork, W: Work<J>>(
    work: &mut W,
    done: Done,
    fault: Cause,
    reply: Reply<'_, J::Load>,
) -> Result<Option<Outcome>, NoMemory>
    ensures { (action : ActionOf) → done ≡ done_by action → fault ≡ fault_at action
        → Answers J.jobs W.process W.keeps work.old action reply.entry result work.new }
{
    match reply {
        Reply::Done => finish::<J, W>(work, done),
        Reply::Stopped => Ok(Some(Outcome::Stopped)),
        Reply::Failed => Ok(Some(Outcome::Fault(fault))),
        Reply::NoMemory => Ok(Some(Outcome::Fault(Cause::NoMemory))),
        Reply::Loaded(load) => {
            work.load(load);
            Ok(None)
        }
        handed => work.take(handed),
    }
}

/// An action is done.
#[inline(always)]
fn finish<J: JobWork, W: Work<J>>(work: &mut W, done: Done) -> Result<Option<Outcome>, NoMemory>
    ensures { (action : ActionOf) → done ≡ done_by action
        → Answers J.jobs W.process W.keeps work.old action reply.Done result work.new }
{
    match done {
        Done::Put => work.put(),
        Done::Work => work.work()?,
        Done::Other => {}
    }
    Ok(None)
}

/// The cause where the device of an action failed.
fn fault_at(action: &Action<'_>) -> Cause
    ensures { result ≡ fault_at action.now }
{
    match action {
        Action::Print(_) => Cause::PrintFault,
        _ => Cause::DiskFault,
    }
}
