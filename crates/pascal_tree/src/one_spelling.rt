// The law of spelling.

ghost use Rattle.std.specs.Prelude.{◌≡◌};
ghost use Rattle.pascal_tree.specs.Program.{Program};
ghost use Rattle.pascal_tree.specs.Limits.{IsTree};
ghost use Rattle.pascal_tree.specs.SpellProgram.{spelled};

/// No two trees have one spelling. The law is in the contract.
pub fn spells_one_tree()
    ensures { (tree other : Program) → IsTree tree → IsTree other → spelled tree ≡ spelled other
        → tree ≡ other }
{}
