// The tree of a whole program.

use crate::declaration::Program;
use std::marker::Model;

/// A program that keeps the limits of the language: no statement and no factor is nested deeper
/// than 64, and the THEN statement of an IF with ELSE doesn't end in an IF without ELSE.
///
/// Contracts see the program.
pub struct Tree {
    pub program: Program,
}

impl Drop for Tree {
    fn drop(self) {
        let Self { program: _ } = self;
    }
}

impl Model for Tree {
    ghost use Rattle.pascal_tree.specs.declared.declaration.Program.{Program};
    ghost use Rattle.pascal_tree.specs.contracts.declaration.Program as raw;
    ghost use Rattle.std.specs.Coded.{codes};
    ghost use Rattle.pascal_tree.specs.SeenProgram.{seen_program};
    ghost use Rattle.pascal_tree.specs.Limits.{IsTree};

    ghost Value = { Program };

    ghost coded = { Prim.hlevel (codes, raw.the_row.coded) };

    ghost view = { λ t. t.program };

    ghost invariant = { λ t. IsTree (seen_program t.program) };
}
