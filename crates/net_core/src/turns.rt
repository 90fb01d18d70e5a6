// Whether a process is at its turn.
ghost use Rattle.std.specs.Prelude.{◌≡◌, ◌↔◌, IsTrue, false, is_some, Some, ℕ, List};
ghost use Rattle.batch_procs.specs.declared.actions.Action.{Action as ActionOf};
ghost use Rattle.batch_procs.specs.History.{Entry};
ghost use Rattle.batch_procs.specs.Machine.{StandsFor};
ghost use Rattle.batch_procs.specs.Process.{next_action};
ghost use Rattle.queue_var.specs.Sides.{MayEnter, MayStop};
ghost use Rattle.network_law.specs.Network.{MayCall};
ghost use Rattle.network_law.specs.Stepping.{is_named, is_again, stepped_so};
ghost use Rattle.core_law.specs.Core.{call, upstream, CoreState, IsBuffer};
ghost use Rattle.net_core.specs.Shared.{SharedStands};
ghost use Rattle.net_core.specs.Steps.{is_end};
ghost use Rattle.net_core.specs.Turns.{HasPlace, IsAtTurn};

use crate::Shared;
use crate::shared::side_at;
use batch_ends::{Peripherals, Units};
use batch_procs::{Action, JobWork, Loader, Machine, Work};
use network_run::Stepped;
use solo_base::{BufferNo, ProcNo, Side};
use solo_devices::{Area, Sink, Source};

impl<J: JobWork, S: Source, K: Sink, F: Loader<J>, A: Area, B: Area> Shared<J, S, K, F, A, B> {
    /// Whether a process may enter a buffer by a side.
    fn may_enter(&self, b: BufferNo, side: Side, p: ProcNo) -> bool
        ensures { (s : CoreState J.Load) →
            SharedStands ⟦<Units<S, K, F, A, B> as Peripherals<J>>⟧.tells self.now s →
            IsBuffer b → IsTrue result ↔ MayEnter (s.buffers b).sides side p }
    {
        if b == 1 {
            self.cards.may_enter(side, p)
        } else if b == 2 {
            self.input.may_enter(side, p)
        } else if b == 3 {
            self.output.may_enter(side, p)
        } else {
            self.lines.may_enter(side, p)
        }
    }

    /// Whether a side of a buffer may move a page or stop.
    fn may_stop(&self, b: BufferNo, side: Side) -> bool
        ensures { (s : CoreState J.Load) →
            SharedStands ⟦<Units<S, K, F, A, B> as Peripherals<J>>⟧.tells self.now s →
            IsBuffer b → IsTrue result ↔ MayStop (s.buffers b).sides side }
    {
        if b == 1 {
            self.cards.may_stop(side)
        } else if b == 2 {
            self.input.may_stop(side)
        } else if b == 3 {
            self.output.may_stop(side)
        } else {
            self.lines.may_stop(side)
        }
    }

    /// Whether the monitors let a process make its call now.
    #[inline(always)]
    pub fn may_call(&self, p: ProcNo, action: &Action<'_>) -> bool
        ensures { (s : CoreState J.Load) →
            SharedStands ⟦<Units<S, K, F, A, B> as Peripherals<J>>⟧.tells self.now s →
            HasPlace s p action.now → IsTrue result ↔ MayCall s p (call p action.now) }
    {
        match action {
            Action::PutFeed(_) | Action::AwaitRoom => self.may_enter(p, Side::Sender, p),
            Action::TakeFeed | Action::AwaitItem => self.may_enter(upstream(p), Side::Receiver, p),
            Action::Request => self.desk.may_request(p),
            Action::PutPage(_) => self.may_stop(p, Side::Sender),
            Action::TakePage => self.may_stop(upstream(p), Side::Receiver),
            Action::Release => self.desk.handed().is_none(),
            Action::Stop(b) => self.may_stop(*b, side_at(p, *b)),
            _ => true,
        }
    }

    /// The process to which the turn of a buffer is handed.
    fn handed(&self, b: BufferNo) -> Option<ProcNo>
        ensures { (s : CoreState J.Load) →
            SharedStands ⟦<Units<S, K, F, A, B> as Peripherals<J>>⟧.tells self.now s →
            IsBuffer b → is_some result ≡ is_named (s.buffers b).sides.turn }
    {
        if b == 1 {
            self.cards.handed()
        } else if b == 2 {
            self.input.handed()
        } else if b == 3 {
            self.output.handed()
        } else {
            self.lines.handed()
        }
    }

    /// How the step of a process goes that need not wait: it ends, its call is made again at a handed turn,
    /// or it acts.
    #[inline(always)]
    pub fn goes(&self, p: ProcNo, action: &Action<'_>) -> Stepped
        ensures { (s : CoreState J.Load) →
            SharedStands ⟦<Units<S, K, F, A, B> as Peripherals<J>>⟧.tells self.now s →
            HasPlace s p action.now →
            result ≡ stepped_so false (is_end action.now) (is_again s (call p action.now)) }
    {
        match action {
            Action::PutFeed(_) | Action::AwaitRoom => goes_by(self.handed(p)),
            Action::TakeFeed | Action::AwaitItem => goes_by(self.handed(upstream(p))),
            Action::Request => goes_by(self.desk.handed()),
            Action::Ended(_) => Stepped::Ended,
            _ => Stepped::Acted,
        }
    }
}

/// How a call goes that need not wait, by the process to which the turn was handed.
fn goes_by(handed: Option<ProcNo>) -> Stepped
    ensures { result ≡ stepped_so false false (is_some handed) }
{
    match handed {
        Some(_) => Stepped::Resumed,
        None => Stepped::Acted,
    }
}

/// The buffer that a process takes from.
fn upstream(p: ProcNo) -> BufferNo
    ensures { result ≡ upstream p }
{
    p.saturating_sub(1)
}

/// Whether a process has a next action, and is at its turn.
#[inline(always)]
pub fn may_step<J: JobWork, W: Work<J>, S: Source, K: Sink, F: Loader<J>, A: Area, B: Area>(
    machine: &Machine<J, W>,
    p: ProcNo,
    shared: &Shared<J, S, K, F, A, B>,
) -> bool
    ensures { (h : List (Entry J.Load)) (s : CoreState J.Load) →
        StandsFor J.jobs W.process W.keeps machine.now h →
        SharedStands ⟦<Units<S, K, F, A, B> as Peripherals<J>>⟧.tells shared.now s →
        ((action : ActionOf) → next_action W.process h ≡ Some action → HasPlace s p action) →
        IsTrue result ↔ IsAtTurn W.process h s p }
{
    if machine.has_ended() {
        return false;
    }
    let action = machine.next();
    shared.may_call(p, &action)
}
