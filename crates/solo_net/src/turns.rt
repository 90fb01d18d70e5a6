// Whether a process is at its turn.
ghost use Rattle.std.specs.Prelude.{◌≡◌, ◌↔◌, ℕ, IsTrue, Some, List, false};
ghost use Rattle.network_law.specs.Network.{MayCall};
ghost use Rattle.network_law.specs.Stepping.{is_again, is_named, stepped_so};
ghost use Rattle.place_law.specs.Process.{Entry, next_action};
ghost use Rattle.solo_law.specs.Actions.{Action, Reply};
ghost use Rattle.solo_law.specs.Buffers.{call};
ghost use Rattle.solo_law.specs.Replies.{view};
ghost use Rattle.solo_law.specs.Solo.{SoloState};
ghost use Rattle.solo_procs.specs.Machine.{StandsFor};
ghost use Rattle.solo_procs.specs.Said.{is_end};
ghost use Rattle.solo_net.specs.Actions.{unsaid, SoloHasPlace};
ghost use Rattle.solo_net.specs.SixBuffers.{SoloBuffersStand, sides_at};
ghost use Rattle.solo_net.specs.Turns.{SoloIsAtTurn};

use crate::Buffers;
use crate::buffers::{Asked, side_at};
use network_run::Stepped;
use solo_base::{BufferNo, ProcNo, Side};
use solo_procs::{Machine, Proc, SoloAction};

impl Buffers {
    /// Whether the buffers let a process make its call now.
    pub fn may_call(&self, p: ProcNo, action: &SoloAction) -> bool
        ensures { (s : SoloState) → SoloBuffersStand self.now s.buffers → SoloHasPlace (unsaid action.now)
            → IsTrue result ↔ MayCall s p (call p (unsaid action.now)) }
    {
        match action {
            SoloAction::PutArg { buffer, .. } => self.ask(
                *buffer,
                Asked::Enter {
                    side: Side::Sender,
                    p,
                },
            ),
            SoloAction::TakeArg(buffer) => self.ask(
                *buffer,
                Asked::Enter {
                    side: Side::Receiver,
                    p,
                },
            ),
            SoloAction::PutPage { buffer, .. } => self.ask(
                *buffer,
                Asked::Enter {
                    side: Side::Sender,
                    p,
                },
            ),
            SoloAction::TakePage(buffer) => self.ask(
                *buffer,
                Asked::Enter {
                    side: Side::Receiver,
                    p,
                },
            ),
            SoloAction::Stop(buffer) => self.ask(*buffer, Asked::Stop(side_at(p, *buffer))),
            _ => true,
        }
    }

    /// How a call goes that doesn't end in a delay: one that waits and finds its turn handed is made again.
    pub fn goes(&self, action: &SoloAction) -> Stepped
        ensures { (p : ℕ) (s : SoloState) → SoloBuffersStand self.now s.buffers
            → SoloHasPlace (unsaid action.now)
            → result ≡ stepped_so false (is_end action.now) (is_again s (call p (unsaid action.now))) }
    {
        match action {
            SoloAction::PutArg { buffer, .. } => self.goes_at(*buffer),
            SoloAction::TakeArg(buffer) => self.goes_at(*buffer),
            SoloAction::PutPage { buffer, .. } => self.goes_at(*buffer),
            SoloAction::TakePage(buffer) => self.goes_at(*buffer),
            SoloAction::Ended(_) => Stepped::Ended,
            _ => Stepped::Acted,
        }
    }

    /// How a put or a take goes, by the turn of its buffer.
    fn goes_at(&self, b: BufferNo) -> Stepped
        ensures { result ≡ stepped_so false false (is_named (sides_at self.now b).turn) }
    {
        if self.ask(b, Asked::Handed) {
            Stepped::Resumed
        } else {
            Stepped::Acted
        }
    }
}

/// Whether a process has a next action, and is at its turn.
pub fn may_step<P: Proc>(machine: &Machine<P>, p: ProcNo, buffers: &Buffers) -> bool
    ensures { (h : List (Entry Action Reply)) (s : SoloState)
        → StandsFor P.process P.is_at P.ready machine.now h → SoloBuffersStand buffers.now s.buffers
        → ((action : Action) → next_action view P.process h ≡ Some action → SoloHasPlace action)
        → IsTrue result ↔ SoloIsAtTurn P.process h s p }
{
    if machine.has_ended() {
        return false;
    }
    let action = machine.next();
    buffers.may_call(p, &action)
}
