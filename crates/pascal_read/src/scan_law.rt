// What the words of cards keep.

ghost use Rattle.std.specs.Prelude.{◌≡◌, ℕ, List, Ok};
ghost use Rattle.solo_base.specs.LineList.{AreLines};
ghost use Rattle.pascal_tree.specs.Word.{Spot, AreWords};
ghost use Rattle.pascal_read.specs.ErrorPlace.{EndAtTheEnd};
ghost use Rattle.pascal_read.specs.Scan.{words};

/// The words of cards are words, and the end token is the last. The law is in the contract.
pub fn words_are_words()
    ensures { (cards : List (List ℕ)) (tokens : List Spot) → AreLines cards
        → words cards ≡ Ok tokens → AreWords tokens × EndAtTheEnd tokens }
{}
