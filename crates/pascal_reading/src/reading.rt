// What the cards of a program are read as.

ghost use Rattle.std.specs.Prelude.{◌≡◌, ◌↔◌, ℕ, List, Ok, Err};
ghost use Rattle.solo_base.specs.LineList.{AreLines};
ghost use Rattle.pascal_tree.specs.Word.{Spot};
ghost use Rattle.pascal_tree.specs.Program.{Program};
ghost use Rattle.pascal_tree.specs.Limits.{IsTree};
ghost use Rattle.pascal_tree.specs.SpellProgram.{spelled};
ghost use Rattle.pascal_read.specs.ErrorPlace.{ErrorPlace};
ghost use Rattle.pascal_read.specs.Scan.{words};
ghost use Rattle.pascal_reading.specs.Reading.{reading, tree, bad_word, syntax_error};

/// Cards are read as a tree exactly where their words are its spelling, as a bad word exactly where
/// the first stands, and as an error exactly at the place of the first. The laws are in the contract.
pub fn reading_is_exact()
    ensures tree { (cards : List (List ℕ)) (program : Program) → AreLines cards
        → (reading cards ≡ tree program)
        ↔ ((words cards ≡ Ok (spelled program)) × IsTree program) }
    ensures bad_word { (cards : List (List ℕ)) (line : ℕ)
        → (reading cards ≡ bad_word line) ↔ (words cards ≡ Err line) }
    ensures error { (cards : List (List ℕ)) (tokens : List Spot) (line : ℕ) → AreLines cards
        → words cards ≡ Ok tokens
        → (reading cards ≡ syntax_error line) ↔ ErrorPlace tokens line }
{}
