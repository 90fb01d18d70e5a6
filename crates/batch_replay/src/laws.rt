ghost use Rattle.batch_ends.specs.declared.ends.Ran.{Ran};
ghost use Rattle.batch_ends.specs.declared.units.Units.{Units};
ghost use Rattle.batch_sides.specs.Files.{loading};
ghost use Rattle.batch_replay.specs.FiveRan.{BatchRan};
ghost use Rattle.batch_replay.specs.Told.{BatchPrints, RanAsOne};

use batch_procs::{JobWork, Loader};
use solo_devices::{Area, Sink, Source};

/// How a batch ran is a run of the core: from each opening over these units a state is reached with its five
/// histories, where a told deck and the paper are as the batch left them, and there is such an opening.
/// Nothing is done here: the contract is the law.
pub fn a_batch_is_a_run<J: JobWork, S: Source, K: Sink, F: Loader<J>, A: Area, B: Area>()
    ensures run { (units : Units S K F A B) (ran : Ran S K F A B)
        → BatchRan J.jobs S.left S.taken S.faults K.given K.faults
        (loading F.found F.pages F.faults F.sound) A.size A.pages A.faults B.size B.pages B.faults units ran
        → RanAsOne J.jobs S.left S.taken S.faults K.given K.faults
        (loading F.found F.pages F.faults F.sound) A.size A.pages A.faults B.size B.pages B.faults units ran }

    // So all that the law of the core says of reached states is said of it: what the paper gained, for one.
    ensures prints { (units : Units S K F A B) (ran : Ran S K F A B)
        (did : BatchRan J.jobs S.left S.taken S.faults K.given K.faults
        (loading F.found F.pages F.faults F.sound) A.size A.pages A.faults B.size B.pages B.faults units ran)
        → BatchPrints J.jobs S.left S.taken S.faults K.given K.faults
        (loading F.found F.pages F.faults F.sound) A.size A.pages A.faults B.size B.pages B.faults units
        ran did }
{}
