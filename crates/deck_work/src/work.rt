use batch_job::JobStream;
use batch_procs::{HasJobs, JobWork};
use disk_system::Loaded;
use page_codec::{Packer, PageItems};
use solo_base::{Ident, NoMemory, Page};
use std::alloc::Global;

/// The work on the jobs of a deck, as the job process does it.
#[derive(Drop)]
pub struct DeckWork {
    stream: JobStream,
}

impl HasJobs for DeckWork {
    ghost use Rattle.deck_work.specs.DeckJobs.{deck_jobs};
    ghost use Rattle.deck_work.specs.DeckLaws.{deck_are_jobs};

    type Load = Loaded;

    ghost jobs = { deck_jobs };

    ghost are_jobs = { deck_are_jobs };
}

impl JobWork for DeckWork {
    ghost use Rattle.deck_work.specs.DeckKeeps.{deck_keeps};

    ghost keeps = { deck_keeps };

    fn begin(alloc: Global) -> DeckWork {
        DeckWork {
            stream: JobStream::new(alloc),
        }
    }

    fn feed(&mut self, items: PageItems) -> Result<(), NoMemory> {
        self.stream.feed(items)
    }

    fn wants(&self) -> Option<Ident> {
        self.stream.wants()
    }

    fn load(&mut self, load: Loaded) {
        self.stream.load(load);
    }

    fn pack(&mut self, packer: &mut Packer, due: &mut Option<Page>) -> Result<(), NoMemory> {
        match self.stream.wants() {
            Some(_wanted) => Ok(()),
            None => self.stream.pack(packer, due),
        }
    }
}
