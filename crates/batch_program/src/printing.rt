// What a program prints, with the line in hand alone.

ghost use Rattle.std.specs.Prelude.{◌≡◌, ◌+◌, ◌<◌, ◌≤◌, [], ◌∷◌, ◌++◌, length, take, drop, IsTrue};
ghost use Rattle.std.specs.List.{list_all};
ghost use Rattle.std.specs.Fmt.{signed_decimal};
ghost use Rattle.solo_base.specs.Line.{is_printable};
ghost use Rattle.pascal_mean.specs.Batch.{shown, characters_of};
ghost use Rattle.batch_program.specs.Printing.{Prints};

use solo_base::{LINE_LENGTH, Line, SysCall, is_printable};
use std::mem;

/// Prints what a call writes, behind the line in hand. A call completes at most one line: it is given.
pub fn print_call(line: &mut Line, call: &SysCall) -> Option<Line>
    ensures { Prints line.old (characters_of call.now) result line.new }
{
    match call {
        SysCall::Write(code) => print(line, *code),
        SysCall::WriteInt(number) => print_all(line, &digits(*number)),
        _ => None,
    }
}

/// Prints a character.
fn print(line: &mut Line, code: u8) -> Option<Line>
    ensures { Prints line.old (code ∷ []) result line.new }
{
    if code == b'\n' {
        return Some(mem::replace(line, Line::new()));
    }
    if line.len() < LINE_LENGTH {
        line.push(shown(code));
        return None;
    }
    let full = mem::replace(line, Line::new());
    line.push(shown(code));
    Some(full)
}

/// Prints the characters of another line.
fn print_all(line: &mut Line, codes: &Line) -> Option<Line>
    ensures { Prints line.old codes.now result line.new }
{
    let codes = codes.bytes();
    let room = LINE_LENGTH - line.bytes().len();
    if codes.len() <= room {
        line.append(codes);
        return None;
    }
    line.append(&codes[..room]);
    let full = mem::replace(line, Line::new());
    line.append(&codes[room..]);
    Some(full)
}

/// A number in decimal.
fn digits(number: i16) -> Line
    ensures { result ≡ signed_decimal number }
{
    let mut digits = Line::new();
    if number < 0 {
        digits.push(b'-');
    }
    digits.append_number(u32::from(number.unsigned_abs()));
    digits
}

/// The character that is printed for a code.
fn shown(code: u8) -> u8
    ensures value { result ≡ shown code }
    ensures printable { IsTrue (is_printable result) }
{
    if is_printable(code) { code } else { b'?' }
}
