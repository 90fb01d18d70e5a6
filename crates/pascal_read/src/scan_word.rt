ghost use Rattle.std.specs.Prelude.{◌≡◌, ◌≢◌, ◌≤◌, ◌<◌, ◌+◌, ℕ, List, ◌∷◌, ◌++◌, length, slice_index, IsTrue, IfOk, IfSome};
ghost use Rattle.std.specs.List.{list_all};
ghost use Rattle.solo_base.specs.Line.{IsLine, is_printable};
ghost use Rattle.pascal_tree.specs.Word.{IsWord};
ghost use Rattle.pascal_read.specs.Piece.{piece_at, number_at, character_at, code_at};
ghost use Rattle.pascal_read.specs.Found.{piece_of};

use crate::found::Found;
use crate::scan_digits::{front_digits, value_within};
use crate::scan_name::name_at;
use crate::scan_symbol::symbol_at;
use pascal_tree::Word;
use solo_base::NoMemory;
use std::alloc::Global;

/// The greatest number that a program may write.
const GREATEST_NUMBER: u16 = 32767;

/// The greatest code that a program may write for a character.
const GREATEST_CODE: u16 = 127;

/// The word at the front of what is left of a card, which is no blank and no comment. `None` where
/// no word stands there.
pub fn word_at(alloc: Global, rest: &[u8]) -> Result<Option<Found>, NoMemory>
    requires line { IsLine rest.now }
    requires begun { 0 < length rest.now }
    requires no_blank { slice_index rest.now 0 ≢ 32 }
    requires no_comment { slice_index rest.now 0 ≢ 34 }
    ensures piece { IfOk result (λ answer. (later : List ℕ)
        → piece_of answer ≡ piece_at (rest.now ++ 10 ∷ later)) }
    ensures begun { IfOk result (λ answer. IfSome answer (λ found. 0 < found.length)) }
    ensures inside { IfOk result
        (λ answer. IfSome answer (λ found. found.length ≤ length rest.now)) }
    ensures kept { IfOk result (λ answer. IfSome answer (λ found. IsWord found.word)) }
{
    let first = rest[0];
    if first.is_ascii_alphabetic() {
        let found = name_at(alloc, rest)?;
        Ok(Some(found))
    } else if first.is_ascii_digit() {
        Ok(number_at(rest))
    } else if first == b'\'' {
        Ok(character_at(&rest[1..]))
    } else {
        Ok(symbol_at(rest))
    }
}

/// The number that begins with the digit at the front of `rest`.
fn number_at(rest: &[u8]) -> Option<Found>
    ensures piece { piece_of result ≡ number_at rest.now }
    ensures inside { IfSome result (λ found. found.length ≤ length rest.now) }
    ensures kept { IfSome result (λ found. IsWord found.word) }
{
    let digits = front_digits(rest);
    let number = value_within(0, digits, GREATEST_NUMBER)?;
    Some(Found {
        word: Word::Number(number),
        length: digits.len(),
    })
}

/// The character whose first quote stands before `rest`.
fn character_at(rest: &[u8]) -> Option<Found>
    requires { IsTrue (list_all is_printable rest.now) }
    ensures piece { piece_of result ≡ character_at rest.now }
    ensures inside { IfSome result (λ found. found.length ≤ length rest.now + 1) }
    ensures kept { IfSome result (λ found. IsWord found.word) }
{
    match rest {
        [code, b'\'', ..] if *code != b'\'' => Some(Found {
            word: Word::Character(*code),
            length: 3,
        }),
        [b'(', b':', digits @ ..] => code_at(digits),
        _ => None,
    }
}

/// The character whose code stands at the front of `rest`, behind `'(:`.
fn code_at(rest: &[u8]) -> Option<Found>
    ensures piece { piece_of result ≡ code_at rest.now }
    ensures inside { IfSome result (λ found. found.length ≤ length rest.now + 3) }
    ensures kept { IfSome result (λ found. IsWord found.word) }
{
    let digits = front_digits(rest);
    let behind = &rest[digits.len()..];
    if digits.is_empty() || !behind.starts_with(b":)'") {
        return None;
    }
    let code = value_within(0, digits, GREATEST_CODE)?;
    Some(Found {
        word: Word::Character(code as u8),
        length: digits.len() + 6,
    })
}
