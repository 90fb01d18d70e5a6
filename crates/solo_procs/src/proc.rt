ghost use Rattle.std.specs.Prelude.{◌≡◌, true, slice_get, IfOk, OnErr};
ghost use Rattle.place_law.specs.Process.{Process};
ghost use Rattle.solo_law.specs.Work.{Need};
ghost use Rattle.solo_law.specs.Actions.{Action, Reply, OfCard, OfArg, OfPage};
ghost use Rattle.solo_law.specs.Replies.{Fits};
ghost use Rattle.solo_procs.specs.Said.{said, IsHeardDone};
ghost use Rattle.solo_procs.specs.Machine.{ClosesDown, Takes};

use crate::SoloAction;
use solo_base::{Arg, BufferNo, NoMemory, Outcome, Page};
use solo_devices::CardRead;
use std::alloc::Global;

/// What makes one process of Solo differ from another: what it does at each place, and where an answer
/// leads it. Closing down is the machine's.
pub trait Proc {
    /// The process by its places.
    ghost process: { Process Action Reply };

    /// It is at this place.
    ghost is_at: { Self → process.Place → Type 0 };

    /// And it is ready for an answer there.
    ghost ready: { Self → process.Place → Type 0 };

    /// Its work there came to this need.
    ghost came: { Self → process.Place → Need → Type 0 };

    /// What no answer changes.
    ghost Kept: { Type 0 };

    ghost kept: { Self → Kept };

    /// What holds of it at the beginning.
    ghost fresh: { Kept → Type 0 };

    /// The process at the place where it begins.
    fn begin(alloc: Global) -> Self
        ensures ready { ready result process.start }
        ensures fresh { fresh (kept result) };

    /// The buffer at a place in the order in which they are stopped.
    fn buffer(place: u8) -> Option<BufferNo>
        ensures { result ≡ slice_get process.buffers place };

    /// What it does at its place.
    fn does(&self) -> SoloAction
        ensures { (at : process.Place) → is_at self.now at → result ≡ said (process.does at) };

    /// What it does is done; a work has come to its need.
    fn done(&mut self)
        ensures ready { (at : process.Place) (answer : Reply) → Fits (process.does at) answer
            → IsHeardDone (ready self.old at) (came self.old at) answer
            → ready self.new (process.behind at answer) }
        ensures kept { kept self.new ≡ kept self.old };

    /// A card was read, or a line was typed.
    fn card(&mut self, card: CardRead)
        ensures ready { (at : process.Place) → ready self.old at → Fits (process.does at) (OfCard card)
            → ready self.new (process.behind at (OfCard card)) }
        ensures kept { kept self.new ≡ kept self.old };

    /// An argument was taken.
    fn arg(&mut self, arg: Arg)
        ensures ready { (at : process.Place) → ready self.old at → Fits (process.does at) (OfArg arg)
            → ready self.new (process.behind at (OfArg arg)) }
        ensures kept { kept self.new ≡ kept self.old };

    /// A page was taken: it gives the cause that is found in it.
    fn page(&mut self, page: Page) -> Result<Option<Outcome>, NoMemory>
        ensures ok { (at : process.Place) → ready self.old at → Fits (process.does at) (OfPage page)
            → IfOk result (λ cause. Takes process (ready self.new) at (OfPage page) cause) }
        ensures err { OnErr result (process.may_lack ≡ true) }
        ensures kept { kept self.new ≡ kept self.old };

    /// One that is ready at a place is there.
    ghost stands: { (proc : Self) (at : process.Place) → ready proc at → is_at proc at };

    /// How it closes down.
    ghost closes: { ClosesDown process };
}
