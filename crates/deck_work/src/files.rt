use crate::DeckWork;
use batch_procs::{Loader, Reply};
use disk_files::FileArea;
use disk_system::{LoadFault, Loaded, load_job};
use solo_base::Ident;
use solo_devices::Area;
use std::alloc::Global;

/// The mounted files, from which the programs of a deck's jobs are loaded.
#[derive(Drop)]
pub struct DeckFiles<A: Area + Drop> {
    pub files: FileArea<A>,
}

impl<A: Area + Drop> Loader<DeckWork> for DeckFiles<A> {
    ghost use Rattle.std.specs.Prelude.{◌≡◌, true};
    ghost use Rattle.deck_work.specs.DeckJobs.{files_found};
    ghost use Rattle.deck_work.specs.DeckLaws.{found_are_loads};

    ghost found = { λ loader. files_found (A.pages loader.files.area) };

    ghost pages = { λ loader. A.pages loader.files.area };

    ghost faults = { λ loader. A.faults loader.files.area };

    ghost sound = { λ loader. loader.files.sound ≡ true };

    ghost are_loads = { λ loader. found_are_loads (A.pages loader.files.area) };

    fn load<'a>(&mut self, alloc: Global, file: &Ident) -> Reply<'a, Loaded> {
        match load_job(alloc, file, &mut self.files) {
            Ok(load) => Reply::Loaded(load),
            Err(LoadFault::DiskFault) => Reply::Failed,
            Err(LoadFault::NoMemory) => Reply::NoMemory,
        }
    }
}
