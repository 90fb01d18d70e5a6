// Each law is in a contract.

ghost use Rattle.std.specs.Prelude.{◌≡◌, ◌≤◌, List, length, Some};
ghost use Rattle.network_run.specs.Law.{AreEnabled};
ghost use Rattle.solo_base.specs.declared.item.Item.{Item};
ghost use Rattle.disk_contents.specs.declared.loading.Loaded.{Loaded};
ghost use Rattle.batch_job.specs.Report.{Loads};
ghost use Rattle.deck_work.specs.DeckJobs.{deck_jobs};
ghost use Rattle.core_law.specs.Core.{CoreState};
ghost use Rattle.core_law.specs.Opening.{Opening as CoreOpening};
ghost use Rattle.core_law.specs.TheLaw as core;
ghost use Rattle.twin_law.specs.Twin.{TwinState, TwinEvent};
ghost use Rattle.twin_law.specs.Opening.{AreTold, Opening};
ghost use Rattle.twin_law.specs.TheLaw.{the_law, first_state, IsReached};
ghost use Rattle.twin_law.specs.UnitWork.{AreByUnits};
ghost use Rattle.unit_work.specs.CoreBatch.{PrintsReports};
ghost use Rattle.unit_work.specs.TwinBatch.{BatchPrints, longest_batch};

/// A batch on one job process, whatever the order of the events, whichever calls of the devices fail and
/// wherever memory is refused: over told devices the paper gained a first part of the reports of the deck's
/// jobs, and all of it where all five ended with their work done. Nothing is done here: the contract is the
/// law.
pub fn batch_of_one_worker()
    ensures { (opening : CoreOpening deck_jobs) (s : CoreState Loaded) → core.IsReached opening s
        → PrintsReports opening s }
{}

/// The jobs of a batch can be worked on unit by unit: what one thread prints for a deck is what it prints for
/// its units, one behind the other, and for each it prints something. Nothing is done here: the contract is
/// the law.
pub fn batch_by_units()
    ensures { AreByUnits deck_jobs }
{}

/// A batch on two job processes, whatever the order of the events, whichever calls of the devices fail and
/// wherever memory is refused: over told devices the paper gained a first part of the reports of the deck's
/// jobs, and all of it where all six ended with their work done; and no run is longer than the cards, the
/// lines and the jobs of the deck allow. Nothing is done here: the contract is the law.
pub fn batch_of_two_workers()
    ensures prints { (opening : Opening deck_jobs) (s : TwinState Loaded) → IsReached opening s
        → BatchPrints opening s }
    ensures bound { (opening : Opening deck_jobs) (items : List Item) (found : Loads)
        (events : List (TwinEvent Loaded)) → AreTold opening.spools → opening.deck ≡ Some items
        → opening.files ≡ Some found → AreEnabled (the_law deck_jobs) (first_state opening) events
        → length events ≤ longest_batch found items }
{}
