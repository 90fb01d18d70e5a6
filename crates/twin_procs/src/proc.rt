ghost use Rattle.std.specs.Prelude.{◌≡◌, true, slice_get, OnOk, OnErr};
ghost use Rattle.batch_procs.specs.declared.actions.Reply.TheVariants as reply;
ghost use Rattle.twin_law.specs.Process.{Process};
ghost use Rattle.twin_procs.specs.Said.{aimed};
ghost use Rattle.twin_procs.specs.Machine.{stops_of, ClosesDown, IsDone, IsHanded, IsAtWork, IsPage, TakesSo};

use crate::TwinAction;
use batch_procs::{JobWork, Reply};
use solo_base::{BufferNo, NoMemory, Outcome};
use std::alloc::Global;

/// What makes one process of the twin network differ from another, over jobs of this kind: what it aims at at
/// each place, and where an answer leads it. The calls around a move and closing down are the machine's.
pub trait TwinProc<J: JobWork> {
    /// The process by its places.
    ghost process: { Process J.Load };

    /// It is at this place.
    ghost stands: { Self → process.Place → Type 0 };

    /// The process at the place where it begins.
    fn begin(alloc: Global) -> Self
        ensures { stands result process.start };

    /// The buffer at a place in the order in which they are stopped: its spools where its work is done, and
    /// else all its buffers.
    fn stop(done: bool, place: u8) -> Option<BufferNo>
        ensures { result ≡ slice_get (stops_of process done) place };

    /// What it aims at.
    fn aim(&self) -> TwinAction
        ensures { (at : process.Place) → stands self.now at → result ≡ aimed (process.aims at) };

    /// What was aimed at is done: something was put or printed, or it works.
    fn done(&mut self) -> Result<(), NoMemory>
        ensures ok { (at : process.Place) → stands self.old at → IsDone (process.aims at)
            → OnOk result (stands self.new (process.behind at reply.Done)) }
        ensures err { OnErr result ((process.works ≡ true)
            × ((at : process.Place) → stands self.old at → IsDone (process.aims at)
            → IsAtWork (process.aims at))) };

    /// Takes what a reply hands over, or says why the process stops.
    fn take(&mut self, reply: Reply<'_, J::Load>) -> Result<Option<Outcome>, NoMemory>
        ensures ok { (at : process.Place) → stands self.old at → IsHanded (process.aims at) reply.entry →
            TakesSo process (stands self.new) at reply.entry result }
        ensures err { OnErr result ((process.works ≡ true) × IsPage reply.entry) };

    /// How it closes down.
    ghost closes: { ClosesDown process };
}
