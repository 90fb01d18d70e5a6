ghost use Rattle.std.specs.Prelude.{◌≡◌, ◌==◌, ◌+◌, ◌<◌, ◌≤◌, ℕ, List, [], ◌∷◌, ◌++◌, length, IsTrue};
ghost use Rattle.std.specs.List.{list_all};
ghost use Rattle.solo_base.specs.Line.{is_printable, line_of, IsLine};
ghost use Rattle.std.specs.Fmt.{decimal};

use arrayvec::ArrayVec;
use std::marker::Model;

/// How many characters a line holds at most.
pub const LINE_LENGTH: usize = 132;

/// How many digits a `u32` has at most.
pub const NUMBER_LENGTH: usize = 10;

/// A line of text: at most 132 bytes, each a printable character of ASCII (32 to 126), without a
/// line end. Cards, printed lines and the lines of a program are lines.
#[derive(Debug, Drop)]
pub struct Line {
    bytes: ArrayVec<u8, LINE_LENGTH>,
}

impl Model for Line {
    ghost Value = { List ℕ };

    ghost view = { λ line. line.bytes.items };

    ghost invariant = { λ line. IsLine line.bytes.items };
}

/// Whether the byte is a printable character.
pub fn is_printable(byte: u8) -> bool
    ensures { result ≡ is_printable byte }
{
    32 <= byte && byte <= 126
}

/// Whether each of the bytes is a printable character.
pub fn all_printable(bytes: &[u8]) -> bool
    ensures { result ≡ list_all is_printable bytes.now }
{
    bytes.iter().all(|byte| is_printable(*byte))
}

impl Line {
    /// The line of no characters.
    pub fn new() -> Line
        ensures { result ≡ [] }
    {
        Line {
            bytes: ArrayVec::new(),
        }
    }

    /// The line of these bytes, or `None` where there are more than 132 of them, or one that doesn't print.
    pub fn of(bytes: &[u8]) -> Option<Line>
        ensures { result ≡ line_of bytes.now }
    {
        if bytes.len() > LINE_LENGTH || !all_printable(bytes) {
            return None;
        }
        let mut line = Line::new();
        line.append(bytes);
        Some(line)
    }

    /// The characters, as bytes.
    pub fn bytes(&self) -> &[u8]
        ensures bytes { result.now ≡ self.now }
        ensures line { IsLine self.now }
    {
        self.bytes.as_slice()
    }

    /// How many characters it has.
    pub fn len(&self) -> usize
        ensures { result ≡ length self.now }
    {
        self.bytes.len()
    }

    /// Whether it has no characters.
    pub fn is_empty(&self) -> bool
        ensures { result ≡ (length self.now == 0) }
    {
        self.bytes.is_empty()
    }

    /// The same line once more.
    pub fn copy(&self) -> Line
        ensures { result ≡ self.now }
    {
        let mut line = Line::new();
        line.append(self.bytes());
        line
    }

    /// Adds a character at the end.
    pub fn push(&mut self, byte: u8)
        requires room { length self.old < LINE_LENGTH }
        requires printable { IsTrue (is_printable byte) }
        ensures { self.new ≡ self.old ++ byte ∷ [] }
    {
        self.bytes.push(byte);
    }

    /// Adds characters at the end.
    pub fn append(&mut self, bytes: &[u8])
        requires room { length self.old + length bytes.now ≤ LINE_LENGTH }
        requires printable { IsTrue (list_all is_printable bytes.now) }
        ensures { self.new ≡ self.old ++ bytes.now }
    {
        let _ = self.bytes.try_extend_from_slice(bytes);
    }

    /// Adds a number at the end, in decimal.
    pub fn append_number(&mut self, number: u32)
        requires { length self.old + NUMBER_LENGTH ≤ LINE_LENGTH }
        ensures { self.new ≡ self.old ++ decimal number }
    {
        if number < 10 {
            self.push(b'0' + number as u8);
            return;
        }
        self.append_number(number / 10);
        self.push(b'0' + (number % 10) as u8);
    }
}
