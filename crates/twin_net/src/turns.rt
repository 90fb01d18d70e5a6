// Whether a process is at its turn.
ghost use Rattle.std.specs.Prelude.{◌≡◌, ◌↔◌, IsTrue, Some, List};
ghost use Rattle.queue_var.specs.Sides.{MayEnter, MayStop};
ghost use Rattle.network_law.specs.Network.{MayCall};
ghost use Rattle.network_law.specs.Stepping.{is_named, is_again};
ghost use Rattle.twin_law.specs.Process.{Action, Entry, next_action};
ghost use Rattle.twin_procs.specs.Machine.{StandsFor};
ghost use Rattle.twin_net.specs.TwinStands.{TwinStands};
ghost use Rattle.twin_net.specs.Doing.{meant};
ghost use Rattle.twin_net.specs.Turns.{TwinHasPlace, TwinIsAtTurn};
ghost use Rattle.solo_base.specs.declared.outcome.Side.TheVariants.{Sender};
ghost use Rattle.twin_law.specs.Twin.{call, seat, side_at, TwinState, IsBuffer};

use crate::TwinShared;
use batch_procs::{JobWork, Loader};
use solo_base::{BufferNo, ProcNo, Side};
use solo_devices::{Area, Sink, Source};
use twin_ends::{TwinPeripherals, TwinUnits};
use twin_procs::{TwinAction, TwinMachine, TwinProc};

/// The side of a buffer at which a process sits.
pub(crate) fn side_at(p: ProcNo, b: BufferNo) -> Side
    ensures { result ≡ side_at p b }
{
    if sender(b) == p {
        Side::Sender
    } else {
        Side::Receiver
    }
}

/// The process that puts into a buffer.
fn sender(b: BufferNo) -> ProcNo
    ensures { result ≡ seat b Sender }
{
    match b {
        1 => 1,
        2 => 2,
        3 => 2,
        4 => 3,
        5 => 4,
        _ => 5,
    }
}

impl<J: JobWork, S: Source, K: Sink, F: Loader<J>, A: Area> TwinShared<J, S, K, F, A> {
    /// Whether a process may enter a buffer by a side.
    fn may_enter(&self, b: BufferNo, side: Side, p: ProcNo) -> bool
        ensures { (s : TwinState J.Load) →
            TwinStands ⟦<TwinUnits<S, K, F, A> as TwinPeripherals<J>>⟧.tells self.now s →
            IsBuffer b → IsTrue result ↔ MayEnter (s.buffers b).sides side p }
    {
        if b == 1 {
            self.cards.may_enter(side, p)
        } else if b == 2 {
            self.spools.to_a.may_enter(side, p)
        } else if b == 3 {
            self.spools.to_b.may_enter(side, p)
        } else if b == 4 {
            self.spools.from_a.may_enter(side, p)
        } else if b == 5 {
            self.spools.from_b.may_enter(side, p)
        } else {
            self.lines.may_enter(side, p)
        }
    }

    /// Whether a side of a buffer may move a page or stop.
    fn may_stop(&self, b: BufferNo, side: Side) -> bool
        ensures { (s : TwinState J.Load) →
            TwinStands ⟦<TwinUnits<S, K, F, A> as TwinPeripherals<J>>⟧.tells self.now s →
            IsBuffer b → IsTrue result ↔ MayStop (s.buffers b).sides side }
    {
        if b == 1 {
            self.cards.may_stop(side)
        } else if b == 2 {
            self.spools.to_a.may_stop(side)
        } else if b == 3 {
            self.spools.to_b.may_stop(side)
        } else if b == 4 {
            self.spools.from_a.may_stop(side)
        } else if b == 5 {
            self.spools.from_b.may_stop(side)
        } else {
            self.lines.may_stop(side)
        }
    }

    /// Whether the turn of a buffer is handed.
    fn is_named(&self, b: BufferNo) -> bool
        ensures { (s : TwinState J.Load) →
            TwinStands ⟦<TwinUnits<S, K, F, A> as TwinPeripherals<J>>⟧.tells self.now s →
            IsBuffer b → result ≡ is_named (s.buffers b).sides.turn }
    {
        if b == 1 {
            self.cards.handed().is_some()
        } else if b == 2 {
            self.spools.to_a.handed().is_some()
        } else if b == 3 {
            self.spools.to_b.handed().is_some()
        } else if b == 4 {
            self.spools.from_a.handed().is_some()
        } else if b == 5 {
            self.spools.from_b.handed().is_some()
        } else {
            self.lines.handed().is_some()
        }
    }

    /// Whether the monitors let a process make its call now.
    #[inline(always)]
    pub fn may_call(&self, p: ProcNo, action: &TwinAction) -> bool
        ensures { (s : TwinState J.Load) →
            TwinStands ⟦<TwinUnits<S, K, F, A> as TwinPeripherals<J>>⟧.tells self.now s →
            TwinHasPlace s p (meant action.now) → IsTrue result ↔ MayCall s p (call p (meant action.now)) }
    {
        match action {
            TwinAction::PutFeed { buffer, feed: _ } => self.may_enter(*buffer, Side::Sender, p),
            TwinAction::TakeFeed(b) => self.may_enter(*b, Side::Receiver, p),
            TwinAction::AwaitRoom(b) => self.may_enter(*b, Side::Sender, p),
            TwinAction::AwaitItem(b) => self.may_enter(*b, Side::Receiver, p),
            TwinAction::Request => self.desk.may_request(p),
            TwinAction::PutPage { buffer, page: _ } => self.may_stop(*buffer, Side::Sender),
            TwinAction::TakePage(b) => self.may_stop(*b, Side::Receiver),
            TwinAction::Release => self.desk.handed().is_none(),
            TwinAction::Stop(b) => self.may_stop(*b, side_at(p, *b)),
            TwinAction::ReadCard
            | TwinAction::Load(_)
            | TwinAction::Local
            | TwinAction::Print(_)
            | TwinAction::Ended(_) => true,
        }
    }

    /// Whether a call that waits is made at a handed turn, and so is made again.
    #[inline(always)]
    pub fn is_again(&self, p: ProcNo, action: &TwinAction) -> bool
        ensures { (s : TwinState J.Load) →
            TwinStands ⟦<TwinUnits<S, K, F, A> as TwinPeripherals<J>>⟧.tells self.now s →
            TwinHasPlace s p (meant action.now) → result ≡ is_again s (call p (meant action.now)) }
    {
        let _ = p;
        match action {
            TwinAction::PutFeed { buffer, feed: _ } => self.is_named(*buffer),
            TwinAction::TakeFeed(b) => self.is_named(*b),
            TwinAction::AwaitRoom(b) => self.is_named(*b),
            TwinAction::AwaitItem(b) => self.is_named(*b),
            TwinAction::Request => self.desk.handed().is_some(),
            TwinAction::PutPage { .. }
            | TwinAction::TakePage(_)
            | TwinAction::Release
            | TwinAction::Stop(_)
            | TwinAction::ReadCard
            | TwinAction::Load(_)
            | TwinAction::Local
            | TwinAction::Print(_)
            | TwinAction::Ended(_) => false,
        }
    }
}

/// Whether a process has a next action, and is at its turn.
#[inline(always)]
pub fn may_step<J: JobWork, P: TwinProc<J>, S: Source, K: Sink, F: Loader<J>, A: Area>(
    machine: &TwinMachine<J, P>,
    p: ProcNo,
    shared: &TwinShared<J, S, K, F, A>,
) -> bool
    ensures { (h : List (Entry J.Load)) (s : TwinState J.Load) →
        StandsFor P.process P.stands machine.now h →
        TwinStands ⟦<TwinUnits<S, K, F, A> as TwinPeripherals<J>>⟧.tells shared.now s →
        ((action : Action) → next_action P.process h ≡ Some action → TwinHasPlace s p action) →
        IsTrue result ↔ TwinIsAtTurn P.process h s p }
{
    if machine.has_ended() {
        return false;
    }
    let action = machine.next();
    shared.may_call(p, &action)
}
