// What holds of every tree's spelling.

ghost use Rattle.std.specs.Prelude.{◌≡◌, None};
ghost use Rattle.pascal_tree.specs.Program.{Program};
ghost use Rattle.pascal_tree.specs.Limits.{IsTree};
ghost use Rattle.pascal_tree.specs.SpellProgram.{spelled};
ghost use Rattle.pascal_read.specs.ParseWants.{report, program_wants};

/// The spelling of a tree is read to its end. The law is in the contract.
pub fn each_tree_is_read()
    ensures { (tree : Program) → IsTree tree → report (spelled tree) program_wants ≡ None }
{}
