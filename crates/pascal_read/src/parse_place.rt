// What reading by wants tells of the words of a program.

ghost use Rattle.std.specs.Prelude.{◌≡◌, ℕ, List, Some, None};
ghost use Rattle.pascal_tree.specs.Word.{Spot, AreWords};
ghost use Rattle.pascal_read.specs.ErrorPlace.{ErrorPlace, SpellATree, EndAtTheEnd};
ghost use Rattle.pascal_read.specs.ParseWants.{report, program_wants};

/// Words that are read to their end spell a tree, and where a reader is stuck is the place of the
/// first error. The laws are in the contract.
pub fn reading_tells()
    ensures tree { (words : List Spot) → AreWords words → report words program_wants ≡ None
        → SpellATree words }
    ensures error { (words : List Spot) (line : ℕ) → AreWords words → EndAtTheEnd words
        → report words program_wants ≡ Some line → ErrorPlace words line }
{}

/// Words that spell a tree have no first error, and other words have no two. The laws are in the
/// contract.
pub fn errors_have_one_place()
    ensures none { (words : List Spot) (line : ℕ) → ErrorPlace words line → SpellATree words → ⊥ }
    ensures one { (words : List Spot) (line other : ℕ) → ErrorPlace words line
        → ErrorPlace words other → line ≡ other }
{}
