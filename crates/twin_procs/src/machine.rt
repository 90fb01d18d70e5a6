ghost use Rattle.std.specs.Prelude.{◌≡◌, ◌∷◌, true, List, [], None, Some, IsNone, OnOk, OnErr};
ghost use Rattle.place_law.specs.Process.{Does, LacksMemory, Delays};
ghost use Rattle.place_law.specs.Ending.{outcome_by};
ghost use Rattle.twin_law.specs.Process.{Action, Entry, caused, closing, has_ended, next_action};
ghost use Rattle.twin_law.specs.Twin.{Fits, MayLack, MayWait};
ghost use Rattle.twin_procs.specs.Machine.{StandsFor, NextIs, closing_with};

use crate::TwinAction;
use crate::proc::TwinProc;
use batch_procs::{JobWork, Reply, Step};
use solo_base::{Cause, NoMemory, Outcome};
use std::alloc::Global;
use std::marker::PhantomData;

/// A process as a machine, in a network over jobs of this kind: it says what it does next, and is given the
/// reply. It keeps no history.
#[derive(Drop)]
pub struct TwinMachine<J, P> {
    pub(crate) process: P,
    pub(crate) step: Step,
    pub(crate) cause: Option<Outcome>,
    pub(crate) stops: u8,
    pub(crate) of: PhantomData<J>,
}

impl<J: JobWork, P: TwinProc<J>> TwinMachine<J, P> {
    /// The machine of a process that has done nothing.
    pub fn new(alloc: Global) -> TwinMachine<J, P>
        ensures { StandsFor P.process P.stands result [] }
    {
        TwinMachine {
            process: P::begin(alloc),
            step: Step::Free,
            cause: None,
            stops: 0,
            of: PhantomData,
        }
    }

    /// What the process does next. Of one that has ended nothing is said.
    // Inlined, since an action may hold a whole page: who looks at its kind alone then makes none.
    #[inline(always)]
    pub fn next(&self) -> TwinAction
        ensures next { (h : List (Entry J.Load)) → StandsFor P.process P.stands self.now h
            → NextIs (next_action P.process h) result }

        // A call that waits is made again.
        ensures waits { (h : List (Entry J.Load)) (action : Action)
            → StandsFor P.process P.stands self.now h
            → StandsFor P.process P.stands self.now (Delays action ∷ h) }
    {
        match self.cause {
            Some(_) => self.close(),
            None => {
                let aim = self.process.aim();
                if is_end(&aim) {
                    self.close()
                } else {
                    working(self.step, aim)
                }
            }
        }
    }

    /// What a process does next that closes down.
    #[inline(always)]
    fn close(&self) -> TwinAction
        ensures { (h : List (Entry J.Load)) → StandsFor P.process P.stands self.now h
            → closing P.process h ≡ Some (closing_with P.process self.now.cause)
            → NextIs (next_action P.process h) result }
    {
        if self.step.holds_disk() {
            return TwinAction::Release;
        }
        match P::stop(self.cause.is_none(), self.stops) {
            Some(buffer) => TwinAction::Stop(buffer),
            None => TwinAction::Ended(self.outcome()),
        }
    }

    /// Whether the process has ended.
    pub fn has_ended(&self) -> bool
        ensures { (h : List (Entry J.Load)) → StandsFor P.process P.stands self.now h → result ≡ has_ended h }
    {
        matches!(self.step, Step::Ended)
    }

    /// How the process ends, or has ended: by its cause, or without one with its work done.
    pub fn outcome(&self) -> Outcome
        ensures is { result ≡ outcome_by self.now.cause }
        ensures by { (h : List (Entry J.Load)) → StandsFor P.process P.stands self.now h
            → result ≡ outcome_by (caused P.process h) }
    {
        match self.cause {
            Some(cause) => cause,
            None => Outcome::Done,
        }
    }

    /// Gives the reply to the action that was next. Where memory is refused, this is the cause of the
    /// process, and it closes down.
    // Inlined, as an action and a reply are copied whole where they cross a call.
    #[inline(always)]
    pub fn give(&mut self, reply: Reply<'_, J::Load>) -> Result<(), NoMemory>
        ensures ok { OnOk result ((h : List (Entry J.Load)) (action : Action)
            → StandsFor P.process P.stands self.old h → next_action P.process h ≡ Some action
            → Fits action reply.entry → StandsFor P.process P.stands self.new (Does action reply.entry ∷ h)) }
        ensures err { OnErr result ((h : List (Entry J.Load)) (action : Action)
            → StandsFor P.process P.stands self.old h → next_action P.process h ≡ Some action
            → Fits action reply.entry → (P.process.works ≡ true) × MayLack action reply.entry
            × StandsFor P.process P.stands self.new (LacksMemory action reply.entry ∷ h)) }
    {
        let action = self.next();
        self.step = step_after(&action);
        self.stops = stops_after(self.stops, &action);
        match answer::<J, P>(&mut self.process, &action, reply) {
            Ok(cause) => {
                add_cause(&mut self.cause, cause);
                Ok(())
            }
            Err(refused) => {
                add_cause(&mut self.cause, Some(Outcome::Fault(Cause::NoMemory)));
                Err(refused)
            }
        }
    }
}

ghost use Rattle.place_law.specs.Process.{or_new};
ghost use Rattle.batch_procs.specs.declared.actions.Reply.TheVariants as reply;
ghost use Rattle.twin_procs.specs.Said.{is_end_said, makes_said, step_said, stops_said, changes_said, fault_said};
ghost use Rattle.twin_procs.specs.Machine.{Answers};

/// Whether a process ends by it.
#[inline(always)]
fn is_end(action: &TwinAction) -> bool
    ensures { result ≡ is_end_said action.now }
{
    matches!(action, TwinAction::Ended(_))
}

/// The next call on the way to what a process aims at: a move of a page begins with an await, and a load asks
/// for the disk.
#[inline(always)]
fn working(step: Step, aim: TwinAction) -> TwinAction
    ensures { result ≡ makes_said step aim }
{
    match step {
        Step::Free | Step::Ended => begin(aim),
        Step::Awaited => TwinAction::Request,
        Step::Granted => move_of(aim),
        Step::Moved => TwinAction::Release,
    }
}

ghost use Rattle.twin_procs.specs.Said.{begins_said, moves_said};

#[inline(always)]
fn begin(aim: TwinAction) -> TwinAction
    ensures { result ≡ begins_said aim }
{
    match aim {
        TwinAction::PutPage { buffer, page: _ } => TwinAction::AwaitRoom(buffer),
        TwinAction::TakePage(buffer) => TwinAction::AwaitItem(buffer),
        TwinAction::Load(_) => TwinAction::Request,
        other => other,
    }
}

#[inline(always)]
fn move_of(aim: TwinAction) -> TwinAction
    ensures { result ≡ moves_said aim }
{
    match &aim {
        TwinAction::PutPage { .. } | TwinAction::TakePage(_) | TwinAction::Load(_) => aim,
        _ => TwinAction::Release,
    }
}

/// Where it stands in its round behind an action.
#[inline(always)]
fn step_after(action: &TwinAction) -> Step
    ensures { result ≡ step_said action.now }
{
    match action {
        TwinAction::AwaitRoom(_) | TwinAction::AwaitItem(_) => Step::Awaited,
        TwinAction::Request => Step::Granted,
        TwinAction::PutPage { .. } | TwinAction::TakePage(_) | TwinAction::Load(_) => Step::Moved,
        TwinAction::Ended(_) => Step::Ended,
        _ => Step::Free,
    }
}

/// How many buffers are stopped behind an action.
#[inline(always)]
fn stops_after(stops: u8, action: &TwinAction) -> u8
    ensures { result ≡ stops_said stops action.now }
{
    match action {
        TwinAction::Stop(_) => stops.saturating_add(1),
        _ => stops,
    }
}

/// The earlier cause stays.
fn add_cause(cause: &mut Option<Outcome>, new: Option<Outcome>)
    ensures { cause.new ≡ or_new cause.old new }
{
    if cause.is_none() {
        *cause = new;
    }
}

/// Uses the reply to an action, and says which cause it gives.
#[inline(always)]
fn answer<J: JobWork, P: TwinProc<J>>(
    process: &mut P,
    action: &TwinAction,
    reply: Reply<'_, J::Load>,
) -> Result<Option<Outcome>, NoMemory>
    ensures { Answers P.process P.stands process.old action.now reply.entry result process.new }
{
    match reply {
        Reply::Done => finish::<J, P>(process, action),
        Reply::Stopped => Ok(Some(Outcome::Stopped)),
        Reply::Failed => Ok(Some(Outcome::Fault(fault_at(action)))),
        Reply::NoMemory => Ok(Some(Outcome::Fault(Cause::NoMemory))),
        handed => process.take(handed),
    }
}

/// An action is done.
#[inline(always)]
fn finish<J: JobWork, P: TwinProc<J>>(
    process: &mut P,
    action: &TwinAction,
) -> Result<Option<Outcome>, NoMemory>
    ensures { Answers P.process P.stands process.old action.now reply.Done result process.new }
{
    if changes(action) {
        process.done()?;
    }
    Ok(None)
}

/// Whether a process goes on to another place where an action is done.
fn changes(action: &TwinAction) -> bool
    ensures { result ≡ changes_said action.now }
{
    matches!(
        action,
        TwinAction::PutFeed { .. }
            | TwinAction::PutPage { .. }
            | TwinAction::Print(_)
            | TwinAction::Local
    )
}

/// The cause where the device of an action failed.
fn fault_at(action: &TwinAction) -> Cause
    ensures { result ≡ fault_said action.now }
{
    match action {
        TwinAction::Print(_) => Cause::PrintFault,
        _ => Cause::DiskFault,
    }
}
