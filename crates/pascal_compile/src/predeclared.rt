// The names that every program may use without a declaration.

ghost use Rattle.std.specs.Prelude.{◌≡◌, None};
ghost use Rattle.pascal_mean.specs.Predeclared.{predeclared};
ghost use Rattle.pascal_code.specs.Frames.{plain_frame};
ghost use Rattle.pascal_code.specs.Senses.{sense_in, first_sense};
ghost use Rattle.pascal_compile.specs.Seen.{seen_sense, in_table};

use crate::senses::{Sense, Standard};
use solo_base::Procedure;

/// The predeclared names.
const PREDECLARED: [(&[u8], Sense<'static>); 26] = [
    (b"INTEGER", Sense::Nothing),
    (b"BOOLEAN", Sense::Nothing),
    (b"CHAR", Sense::Nothing),
    (b"TRUE", Sense::Constant(1)),
    (b"FALSE", Sense::Constant(0)),
    (b"NL", Sense::Constant(10)),
    (b"EM", Sense::Constant(25)),
    (b"ABS", Sense::Function(Standard::Abs)),
    (b"SUCC", Sense::Function(Standard::Succ)),
    (b"PRED", Sense::Function(Standard::Pred)),
    (b"ORD", Sense::Function(Standard::Ord)),
    (b"CHR", Sense::Function(Standard::Chr)),
    (b"READ", Sense::Interface(Procedure::Read)),
    (b"WRITE", Sense::Interface(Procedure::Write)),
    (b"WRITEINT", Sense::Interface(Procedure::WriteInt)),
    (b"ACCEPT", Sense::Interface(Procedure::Accept)),
    (b"DISPLAY", Sense::Interface(Procedure::Display)),
    (b"OPEN", Sense::Interface(Procedure::Open)),
    (b"CLOSE", Sense::Interface(Procedure::Close)),
    (b"GET", Sense::Interface(Procedure::Get)),
    (b"PUT", Sense::Interface(Procedure::Put)),
    (b"LENGTH", Sense::Interface(Procedure::Length)),
    (b"LOOKUP", Sense::Interface(Procedure::Lookup)),
    (b"READARG", Sense::Interface(Procedure::ReadArg)),
    (b"WRITEARG", Sense::Interface(Procedure::WriteArg)),
    (b"RUN", Sense::Interface(Procedure::Run)),
];

/// What a predeclared name is to the code.
pub fn predeclared(letters: &[u8]) -> Sense<'static>
    ensures { seen_sense result
        ≡ first_sense None None (sense_in (plain_frame predeclared) letters.now) }
{
    find(&PREDECLARED, letters)
}

/// What the table says of a name.
fn find(table: &[(&[u8], Sense<'static>)], letters: &[u8]) -> Sense<'static>
    ensures { seen_sense result ≡ in_table table.now letters.now }
{
    match table {
        [] => Sense::Nothing,
        [(spelling, sense), others @ ..] => {
            if *spelling == letters {
                return *sense;
            }
            find(others, letters)
        }
    }
}
