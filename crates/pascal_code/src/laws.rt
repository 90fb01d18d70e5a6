// What the schemes give.

ghost use Rattle.std.specs.Prelude.{◌≡◌, length};
ghost use Rattle.pascal_tree.specs.Program.{Program};
ghost use Rattle.pascal_code.specs.Code.{code_of};
ghost use Rattle.pascal_code.specs.Size.{size};

/// The size of a program is the number of its instructions.
pub fn size_is_the_length()
    ensures { (p : Program) → size p ≡ length (code_of p).instrs }
{}
