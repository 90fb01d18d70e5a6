ghost use Rattle.std.specs.Prelude.{◌≡◌, ◌++◌, ◌∷◌, ◌&&◌, ℕ, Bool, true, false, not, List, [], length, drop, slice_get, IfOk, OnOk, OnErr};
ghost use Rattle.batch_procs.specs.Parcels.{Parcel, OfLoad, is_last};
ghost use Rattle.batch_procs.specs.Process.{Process, aim_at};
ghost use Rattle.batch_procs.specs.declared.actions.Action.TheVariants as act;
ghost use Rattle.batch_procs.specs.Fits.{MayLack};
ghost use Rattle.batch_procs.specs.Laws.{IsRelay};
ghost use Rattle.batch_procs.specs.Work.{MayTake, Takes};

use crate::job_work::JobWork;
use crate::{Action, Reply};
use solo_base::{BufferNo, NoMemory, Outcome};
use std::alloc::Global;

/// What a process makes of what it takes, apart from the calls around it, in a network over these jobs.
pub trait Work<J: JobWork> {
    /// The process whose work it is.
    ghost process: { Process J.Load };

    /// It keeps what was taken and put, and whether there is work to do.
    ghost keeps: { Self → List (Parcel J.Load) → List (Parcel J.Load) → Bool → Type 0 };

    /// The work of a process that has taken nothing.
    fn begin(alloc: Global) -> Self
        ensures { keeps result [] [] false };

    /// The buffer at a place in the order in which they are stopped.
    fn buffer(place: u8) -> Option<BufferNo>
        ensures { result ≡ slice_get process.buffers place };

    /// What the process aims at: to put what is due, else to work, else to take, else to end.
    fn aim(&self) -> Action<'_>
        ensures { (taken sent : List (Parcel J.Load)) (unworked : Bool) → keeps self.now taken sent unworked →
            result ≡ aim_at process taken sent unworked };

    /// What was due first is put.
    fn put(&mut self)
        ensures { (taken sent more : List (Parcel J.Load)) (first : Parcel J.Load)
            → keeps self.old taken sent false
            → drop (length sent) (process.sends taken) ≡ first ∷ more →
            keeps self.new taken (sent ++ first ∷ []) (process.works && not (is_last first)) };

    /// Takes what a reply hands over, or says why the process stops.
    fn take(&mut self, reply: Reply<'_, J::Load>) -> Result<Option<Outcome>, NoMemory>
        ensures ok { (taken sent : List (Parcel J.Load)) → keeps self.old taken sent false
            → MayTake process taken sent reply.entry →
            IfOk result (λ cause. Takes process (keeps self.new) taken sent reply.entry cause) }
        ensures err { OnErr result ((process.works ≡ true) × MayLack act.TakePage reply.entry) };

    /// Takes what the file was loaded as that is wanted first.
    fn load(&mut self, load: J::Load)
        ensures { (taken sent : List (Parcel J.Load)) (file : List ℕ) (later : List (List ℕ))
            → keeps self.old taken sent true → process.wants taken ≡ file ∷ later
            → keeps self.new (taken ++ OfLoad load ∷ []) sent true };

    /// Works on what was taken. No file is wanted.
    fn work(&mut self) -> Result<(), NoMemory>
        ensures ok { (taken sent : List (Parcel J.Load)) → keeps self.old taken sent true
            → process.wants taken ≡ [] → OnOk result (keeps self.new taken sent false) }
        ensures err { OnErr result (process.works ≡ true) };

    /// What its list function has.
    ghost relay: { IsRelay process };
}
