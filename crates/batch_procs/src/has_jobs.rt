ghost use Rattle.batch_procs.specs.Jobs.{Jobs, AreJobs};

/// The jobs of a deck as data, which is all that a law of a network knows of them.
pub trait HasJobs {
    /// What the file of a job is loaded as.
    type Load: Drop;

    /// The files that items name, and the lines that they print.
    ghost jobs: { Jobs Self.Load };

    /// What holds of them.
    ghost are_jobs: { AreJobs jobs };
}
