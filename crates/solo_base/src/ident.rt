ghost use Rattle.std.specs.Prelude.{◌≡◌, ◌≤◌, ℕ, List, length, map, IsTrue, true, unsigned_abs};
ghost use Rattle.std.specs.List.{list_all};
ghost use Rattle.solo_base.specs.Line.{is_printable};
ghost use Rattle.solo_base.specs.Arithmetic.{is_byte, are_bytes};
ghost use Rattle.solo_base.specs.Blanks.{trimmed};
ghost use Rattle.solo_base.specs.Arguments.{name_words, word_name};
ghost use Rattle.solo_base.specs.Ident.{identifier, is_name, is_letter, is_letter_or_digit, capital, padded, IsIdent};

use crate::trim_end;
use std::marker::Model;

/// How many characters an identifier has.
pub const IDENT_LENGTH: usize = 12;

/// The name of a job, a program or a file: a letter, then letters and digits, in capitals, with
/// blanks behind it up to 12 characters.
#[derive(Clone, Copy, Debug)]
pub struct Ident {
    bytes: [u8; IDENT_LENGTH],
}

impl Model for Ident {
    ghost Value = { List ℕ };

    ghost view = { λ ident. ident.bytes };

    ghost invariant = { λ ident. IsIdent ident.bytes };

    ghost inverse = { λ bytes. record { bytes = bytes } };
}

impl Ident {
    /// The identifier that these bytes spell, small letters read as capitals. `None` where they are
    /// none: no bytes, more than 12, or not a letter followed by letters and digits.
    pub fn of(bytes: &[u8]) -> Option<Ident>
        ensures { result ≡ identifier bytes.now }
    {
        if bytes.len() > IDENT_LENGTH || !is_name(bytes) {
            return None;
        }
        Some(Ident {
            bytes: padded(bytes),
        })
    }

    /// The identifier that the words of a program's call spell, small letters read as capitals and the
    /// blanks at their end left out. `None` where a word is no byte, or the bytes are no identifier.
    pub fn of_words(words: &[i16; IDENT_LENGTH]) -> Option<Ident>
        ensures { result ≡ word_name words.now }
    {
        if !are_bytes(words) {
            return None;
        }
        let mut bytes = [0; IDENT_LENGTH];
        for place in 0..IDENT_LENGTH {
            bytes[place] = low_byte(words[place]);
        }
        Ident::of(trim_end(&bytes))
    }

    /// The words by which a program's call names it: the 12 characters, one a word.
    pub fn words(&self) -> [i16; IDENT_LENGTH]
        ensures { result ≡ name_words self.now }
    {
        let mut words = [0; IDENT_LENGTH];
        for place in 0..IDENT_LENGTH {
            words[place] = i16::from(self.bytes[place]);
        }
        words
    }

    /// The 12 characters.
    pub fn bytes(&self) -> [u8; IDENT_LENGTH]
        ensures bytes { result ≡ self.now }
        ensures ident { IsIdent self.now }
    {
        self.bytes
    }

    /// The name without the blanks behind it.
    pub fn name(&self) -> &[u8]
        ensures name { result.now ≡ trimmed self.now }
        ensures short { length result.now ≤ IDENT_LENGTH }
        ensures printable { IsTrue (list_all is_printable result.now) }
    {
        trim_end(&self.bytes)
    }
}

/// Whether the byte is a letter, of either case.
pub fn is_letter(byte: u8) -> bool
    ensures { result ≡ is_letter byte }
{
    (65 <= byte && byte <= 90) || (97 <= byte && byte <= 122)
}

/// Whether the byte is a letter or a digit.
pub fn is_letter_or_digit(byte: u8) -> bool
    ensures { result ≡ is_letter_or_digit byte }
{
    is_letter(byte) || (48 <= byte && byte <= 57)
}

/// The capital of a small letter, and any other byte itself.
pub fn capital(byte: u8) -> u8
    ensures { result ≡ capital byte }
{
    if 97 <= byte && byte <= 122 {
        byte - 32
    } else {
        byte
    }
}

/// Whether the bytes are a letter, followed by letters and digits.
fn is_name(bytes: &[u8]) -> bool
    ensures { result ≡ is_name bytes.now }
{
    match bytes {
        [first, others @ ..] => { is_letter(*first) && all_letters_or_digits(others) }
        [] => false,
    }
}

fn all_letters_or_digits(bytes: &[u8]) -> bool
    ensures { result ≡ list_all is_letter_or_digit bytes.now }
{
    bytes.iter().all(|byte| is_letter_or_digit(*byte))
}

/// Whether each of the words is a byte.
fn are_bytes(words: &[i16]) -> bool
    ensures { result ≡ are_bytes words.now }
{
    words.iter().all(|word| 0 <= *word && *word <= 255)
}

/// The byte that a word is, where it is one.
fn low_byte(word: i16) -> u8
    ensures { is_byte word ≡ true → result ≡ unsigned_abs word }
{
    u8::try_from(word).unwrap_or(0)
}

/// The bytes in capitals, with blanks behind them.
fn padded(bytes: &[u8]) -> [u8; IDENT_LENGTH]
    requires { length bytes.now ≤ IDENT_LENGTH }
    ensures { result ≡ padded (map capital bytes.now) }
{
    let mut padded = [b' '; IDENT_LENGTH];
    for (place, byte) in bytes.iter().enumerate() {
        padded[place] = capital(*byte);
    }
    padded
}
