ghost use Rattle.std.specs.Prelude.{◌≡◌, ◌≢◌, ◌≤◌, ℕ, List, Option, Some};
ghost use Rattle.solo_devices.specs.Count.{Rose};
ghost use Rattle.batch_procs.specs.declared.actions.Reply.TheVariants as reply;
ghost use Rattle.batch_procs.specs.Jobs.{FilesAs};
ghost use Rattle.batch_procs.specs.Loads.{AnswersLoad};

use crate::Reply;
use crate::job_work::JobWork;
use solo_base::Ident;
use std::alloc::Global;

/// What loads the files of jobs.
pub trait Loader<J: JobWork>: Drop {
    /// What each file is loaded as, where it tells this.
    ghost found: { Self → Option (FilesAs J.Load) };

    /// The pages that it loads from, where it tells them.
    ghost pages: { Self → Option (List (List ℕ)) };

    /// How often a load failed so far.
    ghost faults: { Self → ℕ };

    /// A file may be loaded: no load before this failed.
    ghost sound: { Self → Type 0 };

    /// Loads the file of this name. It changes no file.
    fn load<'a>(&mut self, alloc: Global, file: &Ident) -> Reply<'a, J::Load>
        requires { sound self.old }
        ensures loads { AnswersLoad J.jobs (found self.old) file.now result }
        ensures failed { result ≡ reply.Failed → Rose (faults self.old) (faults self.new) }
        ensures counts { faults self.old ≤ faults self.new }
        ensures found { found self.new ≡ found self.old }
        ensures left { pages self.new ≡ pages self.old }
        ensures sound { result ≢ reply.Failed → sound self.new };

    /// What is found is a load.
    ghost are_loads: { (loader : Self) (files : FilesAs J.Load) → found loader ≡ Some files
        → (file : List ℕ) → J.jobs.IsLoad (files file) };
}
