ghost use Rattle.std.specs.Prelude.{◌≡◌, ◌↔◌, ◌∷◌, IsTrue, None, Some, List, [], OnOk, OnErr, true};
ghost use Rattle.place_law.specs.Process.{Entry, Does, LacksMemory, Delays, caused, how_ended, next_action, EntrySuits};
ghost use Rattle.solo_law.specs.Actions.{Action, Reply};
ghost use Rattle.solo_law.specs.Replies.{Fits, MayWait, view};
ghost use Rattle.solo_procs.specs.Machine.{Tracks, StandsFor, SaysNext, HasEnded, IsTold, ClosesSo};

use crate::proc::Proc;
use crate::{SoloAction, SoloReply};
use solo_base::{Cause, NoMemory, Outcome};
use solo_devices::CardRead;
use std::alloc::Global;

/// A process as a machine: it says what it does next, and is given the reply. It keeps no history.
#[derive(Drop)]
pub struct Machine<P: Proc> {
    pub(crate) process: P,
    pub(crate) cause: Option<Outcome>,
    pub(crate) stops: u8,
    pub(crate) ended: bool,
}

impl<P: Proc> Machine<P> {
    /// The machine of a process that has done nothing.
    pub fn new(alloc: Global) -> Machine<P>
        ensures stands { StandsFor P.process P.is_at P.ready result [] }
        ensures fresh { P.fresh (P.kept result.process) }
    {
        Machine {
            process: P::begin(alloc),
            cause: None,
            stops: 0,
            ended: false,
        }
    }

    /// What the process does next. Of one that has ended nothing is said.
    // Inlined, since an action may hold a whole page: who looks at its kind alone then makes none.
    #[inline(always)]
    pub fn next(&self) -> SoloAction
        ensures next { (h : List (Entry Action Reply)) → StandsFor P.process P.is_at P.ready self.now h
            → SaysNext (next_action view P.process h) result }

        // A call that waits is made again.
        ensures waits { (h : List (Entry Action Reply)) (action : Action)
            → StandsFor P.process P.is_at P.ready self.now h → next_action view P.process h ≡ Some action
            → MayWait action → StandsFor P.process P.is_at P.ready self.now (Delays action ∷ h) }
    {
        match self.cause {
            None => self.process.does(),
            Some(cause) => self.closing(cause),
        }
    }

    /// What a process with a cause does next.
    #[inline(always)]
    fn closing(&self, cause: Outcome) -> SoloAction
        ensures { (h : List (Entry Action Reply)) → StandsFor P.process P.is_at P.ready self.now h
            → self.now.cause ≡ Some cause → SaysNext (next_action view P.process h) result }
    {
        match P::buffer(self.stops) {
            Some(buffer) => SoloAction::Stop(buffer),
            None => SoloAction::Ended(cause),
        }
    }

    /// Whether the process has ended.
    pub fn has_ended(&self) -> bool
        ensures { (h : List (Entry Action Reply)) → StandsFor P.process P.is_at P.ready self.now h
            → IsTrue result ↔ HasEnded h }
    {
        self.ended
    }

    /// Why the process closes down, or did. None: it has no cause to.
    pub fn cause(&self) -> Option<Outcome>
        ensures { (h : List (Entry Action Reply)) → StandsFor P.process P.is_at P.ready self.now h
            → result ≡ caused view P.process h }
    {
        self.cause
    }

    /// Gives the reply to the action that was next. Where memory is refused, this is the cause of the
    /// process, and it closes down.
    // Inlined, as an action and a reply are copied whole where they cross a call.
    #[inline(always)]
    pub fn give(&mut self, reply: SoloReply) -> Result<(), NoMemory>
        ensures ok { OnOk result ((h : List (Entry Action Reply)) (action : Action) (answer : Reply)
            → Tracks P.process P.is_at self.old h → next_action view P.process h ≡ Some action
            → Fits action answer → IsTold P.process P.ready P.came self.old h reply answer
            → StandsFor P.process P.is_at P.ready self.new (Does action answer ∷ h)) }
        ensures err { OnErr result ((h : List (Entry Action Reply)) (action : Action) (answer : Reply)
            → Tracks P.process P.is_at self.old h → next_action view P.process h ≡ Some action
            → Fits action answer → IsTold P.process P.ready P.came self.old h reply answer
            → StandsFor P.process P.is_at P.ready self.new (LacksMemory action answer ∷ h)) }
        ensures lacks { OnErr result (P.process.may_lack ≡ true) }
        ensures kept { P.kept self.new.process ≡ P.kept self.old.process }
    {
        match self.cause {
            Some(_) => {
                self.close();
                Ok(())
            }
            None => {
                let action = self.process.does();
                match answer(&mut self.process, &action, reply) {
                    Ok(cause) => {
                        self.cause = cause;
                        self.ended = is_end(&action);
                        Ok(())
                    }
                    Err(refused) => {
                        self.cause = Some(Outcome::Fault(Cause::NoMemory));
                        Err(refused)
                    }
                }
            }
        }
    }

    /// A buffer was stopped, or the process has ended, with a cause.
    fn close(&mut self)
        ensures closes { ClosesSo P.process P.is_at P.ready self.old self.new }
        ensures process { self.new.process ≡ self.old.process }
    {
        match P::buffer(self.stops) {
            Some(_) => self.stops = self.stops.saturating_add(1),
            None => self.ended = true,
        }
    }
}

ghost use Rattle.place_law.specs.Process.{fault_in};
ghost use Rattle.solo_law.specs.Replies.{fault_read};
ghost use Rattle.solo_procs.specs.Said.{fault_said, is_end};
ghost use Rattle.solo_procs.specs.Machine.{Answers};

/// Uses the reply to an action, and says which cause it gives.
#[inline(always)]
fn answer<P: Proc>(
    process: &mut P,
    action: &SoloAction,
    reply: SoloReply,
) -> Result<Option<Outcome>, NoMemory>
    ensures uses { Answers P.process P.ready P.came process.old action.now reply result process.new }
    ensures kept { P.kept process.new ≡ P.kept process.old }
{
    match reply {
        SoloReply::Done => {
            process.done();
            Ok(None)
        }
        SoloReply::Stopped => Ok(Some(Outcome::Stopped)),
        SoloReply::Failed => Ok(Some(Outcome::Fault(fault_at(action)))),
        SoloReply::NoMemory => Ok(Some(Outcome::Fault(Cause::NoMemory))),
        SoloReply::Card(card) => {
            let cause = fault_read(&card);
            process.card(card);
            Ok(cause)
        }
        SoloReply::Arg(arg) => {
            process.arg(arg);
            Ok(None)
        }
        SoloReply::Page(page) => process.page(page),
    }
}

/// Whether an action is the last of its process.
fn is_end(action: &SoloAction) -> bool
    ensures { result ≡ is_end action.now }
{
    matches!(action, SoloAction::Ended(_))
}

/// The cause where the device of an action failed.
fn fault_at(action: &SoloAction) -> Cause
    ensures { result ≡ fault_said action.now }
{
    match action {
        SoloAction::Print(_) => Cause::PrintFault,
        SoloAction::Display(_) => Cause::ConsoleFault,
        _ => Cause::DiskFault,
    }
}

/// The cause where a card couldn't be read, or the deck or what is typed is too long.
fn fault_read(card: &CardRead) -> Option<Outcome>
    ensures { result ≡ fault_in (fault_read card.now) }
{
    match card {
        CardRead::Failed => Some(Outcome::Fault(Cause::ReadFault)),
        CardRead::Limit => Some(Outcome::Fault(Cause::DeckLimit)),
        _ => None,
    }
}
