// What a program prints, with the line in hand alone.
ghost use Rattle.std.specs.Prelude.{◌≡◌, ◌∷◌, []};
ghost use Rattle.std.specs.Fmt.{signed_decimal};
ghost use Rattle.pascal_mean.specs.Batch.{characters_of};
ghost use Rattle.batch_program.specs.Printing.{Prints};

use file_commands::print;
use solo_base::{LINE_LENGTH, Line, SysCall};
use std::mem;

/// Prints what a call writes, behind the line in hand. A call completes at most one line: it is given.
pub fn print_call(line: &mut Line, call: &SysCall) -> Option<Line>
    ensures { Prints line.old (characters_of call.now) result line.new }
{
    match call {
        SysCall::Write(code) => print(line, *code),
        SysCall::WriteInt(number) => print_all(line, &digits(*number)),
        _ => None,
    }
}

// Prints the characters of another line.
fn print_all(line: &mut Line, codes: &Line) -> Option<Line>
    ensures { Prints line.old codes.now result line.new }
{
    let codes = codes.bytes();
    let room = LINE_LENGTH - line.bytes().len();
    if codes.len() <= room {
        line.append(codes);
        return None;
    }
    line.append(&codes[..room]);
    let full = mem::replace(line, Line::new());
    line.append(&codes[room..]);
    Some(full)
}

// A number in decimal.
fn digits(number: i16) -> Line
    ensures { result ≡ signed_decimal number }
{
    let mut digits = Line::new();
    if number < 0 {
        digits.push(b'-');
    }
    digits.append_number(u32::from(number.unsigned_abs()));
    digits
}
