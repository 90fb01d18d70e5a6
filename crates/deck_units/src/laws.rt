ghost use Rattle.std.specs.Prelude.{List};
ghost use Rattle.solo_base.specs.declared.item.Item.{Item};
ghost use Rattle.deck_units.specs.Laws.{AreUnits};

/// The jobs of a deck are those of its units, one behind the other; each unit has an item and a job. Nothing
/// is done here: the contract is the law.
pub fn units_have_the_jobs()
    ensures { (items : List Item) → AreUnits items }
{}
