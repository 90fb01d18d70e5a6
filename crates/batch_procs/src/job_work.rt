ghost use Rattle.std.specs.Prelude.{◌≡◌, ◌∷◌, ℕ, List, [], true, false, OnOk};
ghost use Rattle.batch_procs.specs.JobTold.{JobTold, nothing_told, with_page, with_found, wanted, first_of, PushesLines};

use crate::has_jobs::HasJobs;
use page_codec::{Packer, PageItems};
use solo_base::{Ident, NoMemory, Page};
use std::alloc::Global;

/// The work on the jobs of a deck: it is fed the items of the deck, a page at a time, and what the files that
/// they name are loaded as, and packs the lines that they print into pages.
pub trait JobWork: HasJobs + Drop {
    /// It keeps what it was told.
    ghost keeps: { Self → JobTold Self.Load → Type 0 };

    /// The work of one that was told nothing.
    fn begin(alloc: Global) -> Self
        ensures { keeps result nothing_told };

    /// Takes the items of the next page, once all lines of those before are pushed. None follows the last.
    fn feed(&mut self, items: PageItems) -> Result<(), NoMemory>
        ensures { OnOk result ((told : JobTold Self.Load) → keeps self.old told → told.rests ≡ true
            → told.ended ≡ false → keeps self.new (with_page told items)) };

    /// The first file of the jobs that were fed whose load wasn't given yet.
    fn wants(&self) -> Option<Ident>
        ensures { (told : JobTold Self.Load) → keeps self.now told
            → result ≡ first_of (wanted Self.jobs told) };

    /// Gives what was found of that file.
    fn load(&mut self, load: Self::Load)
        ensures { (told : JobTold Self.Load) (file : List ℕ) (later : List (List ℕ)) → keeps self.old told
            → wanted Self.jobs told ≡ file ∷ later → keeps self.new (with_found told load) };

    /// Makes and pushes the next lines until a push gives a page, and writes it into the caller's place. Where
    /// there is none then, all lines of the items so far are pushed. No file is wanted.
    fn pack(&mut self, packer: &mut Packer, due: &mut Option<Page>) -> Result<(), NoMemory>
        ensures { OnOk result ((told : JobTold Self.Load) → keeps self.old told → wanted Self.jobs told ≡ []
            → PushesLines Self.jobs (keeps self.new) told packer.old due.new packer.new) };
}
