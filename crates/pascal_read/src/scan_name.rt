ghost use Rattle.std.specs.Prelude.{◌≡◌, ◌≤◌, ◌<◌, length, map, take_while, slice_index, IsTrue, IfOk};
ghost use Rattle.std.specs.List.{list_all};
ghost use Rattle.solo_base.specs.Line.{IsLine};
ghost use Rattle.solo_base.specs.Ident.{is_letter, is_letter_or_digit, capital};
ghost use Rattle.pascal_tree.specs.Word.{IsName, IsWord};
ghost use Rattle.pascal_read.specs.Piece.{Spells, look_up, reserved_words, word_named, name_at};
ghost use Rattle.pascal_read.specs.Found.{in_table};

use crate::found::Found;
use pascal_tree::{Letters, Reserved, Symbol, Word};
use solo_base::{Line, NoMemory};
use std::alloc::Global;

/// The reserved words and their spelling.
const RESERVED_WORDS: [(&[u8], Reserved); 24] = [
    (b"ARRAY", Reserved::Array),
    (b"BEGIN", Reserved::Begin),
    (b"CASE", Reserved::Case),
    (b"CONST", Reserved::Const),
    (b"DIV", Reserved::Div),
    (b"DO", Reserved::Do),
    (b"DOWNTO", Reserved::Downto),
    (b"ELSE", Reserved::Else),
    (b"END", Reserved::End),
    (b"FOR", Reserved::For),
    (b"FUNCTION", Reserved::Function),
    (b"IF", Reserved::If),
    (b"MOD", Reserved::Mod),
    (b"NOT", Reserved::Not),
    (b"OF", Reserved::Of),
    (b"OR", Reserved::Or),
    (b"PROCEDURE", Reserved::Procedure),
    (b"PROGRAM", Reserved::Program),
    (b"REPEAT", Reserved::Repeat),
    (b"THEN", Reserved::Then),
    (b"TO", Reserved::To),
    (b"UNTIL", Reserved::Until),
    (b"VAR", Reserved::Var),
    (b"WHILE", Reserved::While),
];

/// The name or reserved word that begins with the letter at the front of `rest`.
pub fn name_at(alloc: Global, rest: &[u8]) -> Result<Found, NoMemory>
    requires line { IsLine rest.now }
    requires begun { 0 < length rest.now }
    requires letter { IsTrue (is_letter (slice_index rest.now 0)) }
    ensures piece { IfOk result (λ found. Spells found.word found.length ≡ name_at rest.now) }
    ensures begun { IfOk result (λ found. 0 < found.length) }
    ensures inside { IfOk result (λ found. found.length ≤ length rest.now) }
    ensures kept { IfOk result (λ found. IsWord found.word) }
{
    let letters = front_letters(rest);
    let word = word_named(alloc, in_capitals(letters))?;
    Ok(Found {
        word,
        length: letters.len(),
    })
}

/// The letters and digits with which the bytes begin.
fn front_letters(bytes: &[u8]) -> &[u8]
    ensures front { result.now ≡ take_while is_letter_or_digit bytes.now }
    ensures letters { IsTrue (list_all is_letter_or_digit result.now) }
{
    let count = bytes
        .iter()
        .take_while(|byte| byte.is_ascii_alphanumeric())
        .count();
    &bytes[..count]
}

/// The letters and digits, small letters read as capitals.
fn in_capitals(letters: &[u8]) -> Line
    requires short { length letters.now ≤ 132 }
    requires letters { IsTrue (list_all is_letter_or_digit letters.now) }
    ensures { result ≡ map capital letters.now }
{
    let mut name = Line::new();
    for letter in letters {
        name.push(letter.to_ascii_uppercase());
    }
    name
}

/// The word that a name in capitals is.
fn word_named(alloc: Global, name: Line) -> Result<Word, NoMemory>
    requires { IsName name }
    ensures word { IfOk result (λ word. word ≡ word_named name) }
    ensures kept { IfOk result (λ word. IsWord word) }
{
    if name.bytes() == b"AND".as_slice() {
        return Ok(Word::Symbol(Symbol::And));
    }
    match reserved(name.bytes()) {
        Some(found) => Ok(Word::Reserved(found)),
        None => Ok(Word::Name(Letters::of(alloc, name.bytes())?)),
    }
}

/// The reserved word with this spelling.
fn reserved(letters: &[u8]) -> Option<Reserved>
    ensures { result ≡ look_up reserved_words letters.now }
{
    find(&RESERVED_WORDS, letters)
}

/// The reserved word of the table with this spelling.
fn find(table: &[(&[u8], Reserved)], letters: &[u8]) -> Option<Reserved>
    ensures { result ≡ in_table table.now letters.now }
{
    match table {
        [] => None,
        [(spelling, word), others @ ..] => {
            if letters == *spelling {
                return Some(*word);
            }
            find(others, letters)
        }
    }
}
