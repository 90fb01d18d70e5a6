use crate::Job;
use crate::place::{Place, step};
use solo_base::{Item, NoMemory};
use std::alloc::Global;
use std::marker::Model;

/// Makes jobs of the items of a deck, one item after another.
#[derive(Debug, Drop)]
pub struct JobReader {
    place: Place,
    alloc: Global,
}

impl Model for JobReader {
    ghost use Rattle.deck_format.specs.declared.place.Place.{Place};

    ghost Value = { Place };

    ghost view = { λ reader. reader.place };
}

impl JobReader {
    ghost use Rattle.std.specs.Prelude.{◌≡◌, List, [], ◌∷◌, ◌++◌, IfOk, OnErr};
    ghost use Rattle.solo_base.specs.declared.item.Item.{Item};
    ghost use Rattle.deck_format.specs.declared.job.Job.{Job};
    ghost use Rattle.deck_format.specs.Jobs.{jobs};
    ghost use Rattle.deck_format.specs.JobReader.{jobs_from, given, StandsFor};
    ghost use Rattle.deck_format.specs.Completed.{completed};

    /// A reader that was given nothing, which takes no memory.
    pub fn new(alloc: Global) -> JobReader
        ensures fresh { (more : List Item) → jobs_from result more ≡ jobs more }
        ensures stands { StandsFor result [] [] }
    {
        JobReader {
            place: Place::Outside { count: 0 },
            alloc,
        }
    }

    /// Takes the next item, and gives the job that it completes. A refusal leaves the reader as it was.
    pub fn push(&mut self, item: &Item) -> Result<Option<Job>, NoMemory>
        // Whatever comes, the jobs still to be given are this one and those given from now on.
        ensures next { IfOk result (λ job. (more : List Item) →
            jobs_from self.old (item.now ∷ more) ≡ given job ++ jobs_from self.new more) }

        // So a reader that stood for some items does so with one more.
        ensures stands { IfOk result (λ job. (items : List Item) (jobs_given : List Job) →
            StandsFor self.old items jobs_given → StandsFor self.new (items ++ item.now ∷ []) (jobs_given ++ given job)) }

        // It is the one job that the item completes, and none comes only where the item completes none.
        ensures completes { IfOk result (λ job. (items : List Item) (jobs_given : List Job) →
            StandsFor self.old items jobs_given → completed (items ++ item.now ∷ []) ≡ completed items ++ given job) }
        ensures err { OnErr result (self.new ≡ self.old) }
    {
        step(&mut self.place, self.alloc, item)
    }

    /// Gives the job that the end of the deck completes.
    pub fn finish(self) -> Option<Job>
        ensures rest { given result ≡ jobs_from self [] }
        ensures stands { (items : List Item) (jobs_given : List Job) →
            StandsFor self items jobs_given → jobs items ≡ jobs_given ++ given result }
    {
        self.place.into_job()
    }
}
