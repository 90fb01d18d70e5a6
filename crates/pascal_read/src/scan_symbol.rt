ghost use Rattle.std.specs.Prelude.{◌≡◌, ◌<◌, ◌≤◌, ℕ, List, ◌∷◌, ◌++◌, length, Some, IfSome};
ghost use Rattle.pascal_tree.specs.Word.{IsWord};
ghost use Rattle.pascal_read.specs.Piece.{symbol_at, symbols, look_up, covered};
ghost use Rattle.pascal_tree.specs.declared.token.Symbol.{Symbol};
ghost use Rattle.pascal_read.specs.Found.{piece_of, found_symbol};

use crate::found::{CARD_END, Found};
use pascal_tree::{Symbol, Word};

/// The longest symbol at the front of what is left of a card.
pub fn symbol_at(rest: &[u8]) -> Option<Found>
    ensures piece { (later : List ℕ) → piece_of result ≡ symbol_at (rest.now ++ 10 ∷ later) }
    ensures begun { IfSome result (λ found. 0 < found.length) }
    ensures inside { IfSome result (λ found. found.length ≤ length rest.now) }
    ensures kept { IfSome result (λ found. IsWord found.word) }
{
    match rest {
        [] => None,
        [last] => symbol_of(*last, CARD_END),
        [first, second, ..] => symbol_of(*first, *second),
    }
}

/// The longest symbol that two characters begin.
fn symbol_of(first: u8, second: u8) -> Option<Found>
    ensures piece { (text : List ℕ) → piece_of result ≡ symbol_at (first ∷ second ∷ text) }
    ensures begun { IfSome result (λ found. 0 < found.length) }
    ensures inside { IfSome result (λ found. found.length ≤ 2) }
    ensures alone { second ≡ CARD_END → IfSome result (λ found. found.length ≤ 1) }
    ensures kept { IfSome result (λ found. IsWord found.word) }
{
    match first {
        b'+' => found(Symbol::Plus, 1),
        b'-' => found(Symbol::Minus, 1),
        b'*' => found(Symbol::Times, 1),
        b'&' => found(Symbol::And, 1),
        b'=' => found(Symbol::Equal, 1),
        b')' => found(Symbol::Close, 1),
        b'[' => found(Symbol::OpenIndex, 1),
        b']' => found(Symbol::CloseIndex, 1),
        b',' => found(Symbol::Comma, 1),
        b';' => found(Symbol::Semicolon, 1),
        b'<' => match second {
            b'>' => found(Symbol::NotEqual, 2),
            b'=' => found(Symbol::LessOrEqual, 2),
            _ => found(Symbol::Less, 1),
        },
        b'>' => match second {
            b'=' => found(Symbol::GreaterOrEqual, 2),
            _ => found(Symbol::Greater, 1),
        },
        b':' => match second {
            b'=' => found(Symbol::Becomes, 2),
            _ => found(Symbol::Colon, 1),
        },
        b'(' => match second {
            b'.' => found(Symbol::OpenIndex, 2),
            _ => found(Symbol::Open, 1),
        },
        b'.' => match second {
            b')' => found(Symbol::CloseIndex, 2),
            b'.' => found(Symbol::UpTo, 2),
            _ => found(Symbol::Period, 1),
        },
        _ => None,
    }
}

/// A symbol of so many characters.
fn found(symbol: Symbol, length: usize) -> Option<Found>
    ensures { result ≡ Some (found_symbol symbol length) }
{
    Some(Found {
        word: Word::Symbol(symbol),
        length,
    })
}

/// No symbol that a text begins with is longer than the one that is read there.
#[tactic(auto, using(crate::proofs::Longest::longest_symbol_is))]
pub fn longest_symbol()
    ensures { (spelling rest : List ℕ) (symbol : Symbol) → look_up symbols spelling ≡ Some symbol
        → length spelling ≤ covered (symbol_at (spelling ++ rest)) }
{}
