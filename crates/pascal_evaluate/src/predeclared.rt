// The names that every program may use without a declaration.

ghost use Rattle.std.specs.Prelude.{◌≡◌};
ghost use Rattle.pascal_evaluate.specs.SeenNames.{seen_plain, predeclared_means, in_table};

use crate::means::{Plain, Scalar, Standard};
use solo_base::Procedure;

/// The predeclared names, and what they mean.
const PREDECLARED: [(&[u8], Plain); 26] = [
    (b"INTEGER", Plain::TypeName(Scalar::Integer)),
    (b"BOOLEAN", Plain::TypeName(Scalar::Boolean)),
    (b"CHAR", Plain::TypeName(Scalar::Char)),
    (b"TRUE", Plain::Constant(Scalar::Boolean, 1)),
    (b"FALSE", Plain::Constant(Scalar::Boolean, 0)),
    (b"NL", Plain::Constant(Scalar::Char, 10)),
    (b"EM", Plain::Constant(Scalar::Char, 25)),
    (b"ABS", Plain::Function(Standard::Abs)),
    (b"SUCC", Plain::Function(Standard::Succ)),
    (b"PRED", Plain::Function(Standard::Pred)),
    (b"ORD", Plain::Function(Standard::Ord)),
    (b"CHR", Plain::Function(Standard::Chr)),
    (b"READ", Plain::Interface(Procedure::Read)),
    (b"WRITE", Plain::Interface(Procedure::Write)),
    (b"WRITEINT", Plain::Interface(Procedure::WriteInt)),
    (b"ACCEPT", Plain::Interface(Procedure::Accept)),
    (b"DISPLAY", Plain::Interface(Procedure::Display)),
    (b"OPEN", Plain::Interface(Procedure::Open)),
    (b"CLOSE", Plain::Interface(Procedure::Close)),
    (b"GET", Plain::Interface(Procedure::Get)),
    (b"PUT", Plain::Interface(Procedure::Put)),
    (b"LENGTH", Plain::Interface(Procedure::Length)),
    (b"LOOKUP", Plain::Interface(Procedure::Lookup)),
    (b"READARG", Plain::Interface(Procedure::ReadArg)),
    (b"WRITEARG", Plain::Interface(Procedure::WriteArg)),
    (b"RUN", Plain::Interface(Procedure::Run)),
];

/// What a predeclared name means, and `Nothing` for any other.
pub fn predeclared(letters: &[u8]) -> Plain
    ensures { seen_plain result ≡ predeclared_means letters.now }
{
    find(&PREDECLARED, letters)
}

/// What the table says of a name.
fn find(table: &[(&[u8], Plain)], letters: &[u8]) -> Plain
    ensures { seen_plain result ≡ in_table table.now letters.now }
{
    match table {
        [] => Plain::Nothing,
        [(spelling, plain), others @ ..] => {
            if *spelling == letters {
                return *plain;
            }
            find(others, letters)
        }
    }
}
