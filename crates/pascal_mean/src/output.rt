// What a program prints in the batch.

ghost use Rattle.std.specs.Prelude.{◌≡◌, ◌<◌, ℕ, IsTrue, OnOk, IfOk, length};
ghost use Rattle.std.specs.Fmt.{signed_decimal};
ghost use Rattle.solo_base.specs.Line.{is_printable};
ghost use Rattle.pascal_mean.specs.Batch.{shown, nothing_printed, with_character, with_characters, lines_in};

use solo_base::{LINE_LENGTH, Line, LineList, NoMemory, is_printable};
use std::alloc::Global;
use std::marker::Model;

/// The characters that a program wrote, as lines: code 10 ends a line, and a line of 132 characters
/// ends before the next one. A code that doesn't print is shown as `?`.
///
/// Contracts see the lines that have ended and the one in hand.
#[derive(Debug, Drop)]
pub struct Output {
    lines: LineList,
    line: Line,
}

impl Model for Output {
    ghost use Rattle.pascal_mean.specs.Batch.{Printed};

    ghost Value = { Printed };

    ghost view = { λ o. record { lines = o.lines; line = o.line } };
}

impl Output {
    /// Nothing printed yet.
    pub fn new(alloc: Global) -> Output
        ensures { result ≡ nothing_printed }
    {
        Output {
            lines: LineList::new(alloc),
            line: Line::new(),
        }
    }

    /// Prints one character.
    pub fn push(&mut self, code: u8) -> Result<(), NoMemory>
        ensures { OnOk result (self.new ≡ with_character self.old code) }
    {
        if code == b'\n' {
            self.end_line()
        } else if self.line.len() < LINE_LENGTH {
            self.line.push(shown(code));
            Ok(())
        } else {
            self.end_line()?;
            self.line.push(shown(code));
            Ok(())
        }
    }

    /// Prints characters in order.
    pub fn push_all(&mut self, codes: &[u8]) -> Result<(), NoMemory>
        ensures { OnOk result (self.new ≡ with_characters self.old codes.now) }
    {
        for code in codes {
            self.push(*code)?;
        }
        Ok(())
    }

    /// Prints a number in decimal.
    pub fn push_number(&mut self, number: i16) -> Result<(), NoMemory>
        ensures { OnOk result (self.new ≡ with_characters self.old (signed_decimal number)) }
    {
        self.push_all(signed(number).bytes())
    }

    /// All lines: the line in hand ends if it isn't empty.
    pub fn finish(mut self) -> Result<LineList, NoMemory>
        ensures { IfOk result (λ lines. lines ≡ lines_in self) }
    {
        if !self.line.is_empty() {
            self.lines.push(&self.line)?;
        }
        Ok(self.lines)
    }

    // Ends the line in hand.
    fn end_line(&mut self) -> Result<(), NoMemory>
        ensures { OnOk result (self.new ≡ with_character self.old 10) }
    {
        self.lines.push(&self.line)?;
        self.line = Line::new();
        Ok(())
    }
}

// A number in decimal.
fn signed(number: i16) -> Line
    ensures { result ≡ signed_decimal number }
{
    let mut digits = Line::new();
    let size = u32::from(number.unsigned_abs());
    if number < 0 {
        digits.push(b'-');
        digits.append_number(size);
        return digits;
    }
    digits.append_number(size);
    digits
}

// The character that is printed for a code.
fn shown(code: u8) -> u8
    ensures value { result ≡ shown code }
    ensures printable { IsTrue (is_printable result) }
{
    if is_printable(code) { code } else { b'?' }
}
