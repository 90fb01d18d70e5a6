// A tree that breaks no rule.

ghost use Rattle.std.specs.Prelude.{◌≡◌, None};
ghost use Rattle.pascal_tree.specs.SeenProgram.{seen_program};
ghost use Rattle.pascal_tree.specs.DeclarationRules.{broken};

use crate::tree::Tree;
use std::marker::Model;

/// A tree that breaks none of the static rules.
///
/// Contracts see the program.
pub struct Checked {
    tree: Tree,
}

impl Drop for Checked {
    fn drop(self) {
        let Self { tree: _ } = self;
    }
}

impl Model for Checked {
    ghost use Rattle.std.specs.Prelude.{◌≡◌, None};
    ghost use Rattle.pascal_tree.specs.declared.declaration.Program.{Program};
    ghost use Rattle.pascal_tree.specs.contracts.declaration.Program as raw;
    ghost use Rattle.std.specs.Coded.{codes};
    ghost use Rattle.pascal_tree.specs.SeenProgram.{seen_program};
    ghost use Rattle.pascal_tree.specs.DeclarationRules.{broken};

    ghost Value = { Program };

    ghost coded = { Prim.hlevel (codes, raw.the_row.coded) };

    ghost view = { λ c. c.tree };

    ghost invariant = { λ c. broken (seen_program c.tree) ≡ None };
}

impl Checked {
    /// The tree, of which is known that it breaks no rule.
    pub fn of(tree: Tree) -> Checked
        requires { broken (seen_program tree) ≡ None }
        ensures { result ≡ tree }
    {
        Checked { tree }
    }

    /// The tree, which breaks no rule.
    pub fn tree(&self) -> &Tree
        ensures tree { result.now ≡ self.now }
        ensures unbroken { broken (seen_program self.now) ≡ None }
    {
        &self.tree
    }
}
