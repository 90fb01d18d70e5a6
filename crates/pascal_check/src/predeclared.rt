// What is declared before each program.

ghost use Rattle.std.specs.Prelude.{◌≡◌, option_map};
ghost use Rattle.pascal_tree.specs.Scopes.{found};
ghost use Rattle.pascal_tree.specs.Scopes as scopes;
ghost use Rattle.pascal_check.specs.Seen.{seen_meaning, seen_table};

use crate::meaning::Meaning;
use pascal_tree::{Parameter, Scalar};

const NUMBER: Parameter = Parameter::Value(Scalar::Integer);

const LETTER: Parameter = Parameter::Value(Scalar::Character);

const TO_NUMBER: Parameter = Parameter::VariableOf(Scalar::Integer);

const TO_LETTER: Parameter = Parameter::VariableOf(Scalar::Character);

const TO_TRUTH: Parameter = Parameter::VariableOf(Scalar::Boolean);

const FILE_NAME: Parameter = Parameter::Characters(12);

const PAGE: Parameter = Parameter::Characters(512);

/// The predeclared names. NL is the code that ends a line, EM the one that ends a text.
const PREDECLARED: [(&[u8], Meaning<'static>); 26] = [
    (b"INTEGER", Meaning::TypeName(Scalar::Integer)),
    (b"BOOLEAN", Meaning::TypeName(Scalar::Boolean)),
    (b"CHAR", Meaning::TypeName(Scalar::Character)),
    (b"FALSE", Meaning::Constant(Scalar::Boolean, 0)),
    (b"TRUE", Meaning::Constant(Scalar::Boolean, 1)),
    (b"NL", Meaning::Constant(Scalar::Character, 10)),
    (b"EM", Meaning::Constant(Scalar::Character, 25)),
    (b"ABS", Meaning::Function(&[NUMBER], Scalar::Integer)),
    (b"SUCC", Meaning::Function(&[NUMBER], Scalar::Integer)),
    (b"PRED", Meaning::Function(&[NUMBER], Scalar::Integer)),
    (b"ORD", Meaning::Function(&[LETTER], Scalar::Integer)),
    (b"CHR", Meaning::Function(&[NUMBER], Scalar::Character)),
    (b"READ", Meaning::Procedure(&[TO_LETTER])),
    (b"WRITE", Meaning::Procedure(&[LETTER])),
    (b"WRITEINT", Meaning::Procedure(&[NUMBER])),
    (b"ACCEPT", Meaning::Procedure(&[TO_LETTER])),
    (b"DISPLAY", Meaning::Procedure(&[LETTER])),
    (b"OPEN", Meaning::Procedure(&[NUMBER, FILE_NAME, TO_TRUTH])),
    (b"CLOSE", Meaning::Procedure(&[NUMBER])),
    (b"GET", Meaning::Procedure(&[NUMBER, NUMBER, PAGE])),
    (b"PUT", Meaning::Procedure(&[NUMBER, NUMBER, PAGE])),
    (b"LENGTH", Meaning::Function(&[NUMBER], Scalar::Integer)),
    (
        b"LOOKUP",
        Meaning::Procedure(&[FILE_NAME, TO_NUMBER, TO_TRUTH]),
    ),
    (
        b"READARG",
        Meaning::Procedure(&[TO_NUMBER, TO_NUMBER, FILE_NAME]),
    ),
    (
        b"WRITEARG",
        Meaning::Procedure(&[NUMBER, NUMBER, FILE_NAME]),
    ),
    (
        b"RUN",
        Meaning::Procedure(&[FILE_NAME, TO_NUMBER, TO_NUMBER]),
    ),
];

/// What a predeclared name means, if these are the letters of one.
pub fn predeclared(letters: &[u8]) -> Option<Meaning<'static>>
    ensures { option_map seen_meaning result ≡ found scopes.predeclared letters.now }
{
    find(&PREDECLARED, letters)
}

// What the table says of a name, if the name stands in it.
fn find(table: &[(&[u8], Meaning<'static>)], letters: &[u8]) -> Option<Meaning<'static>>
    ensures { option_map seen_meaning result ≡ found (seen_table table.now) letters.now }
{
    match table {
        [] => None,
        [(spelling, meaning), others @ ..] => {
            if letters == *spelling {
                return Some(*meaning);
            }
            find(others, letters)
        }
    }
}
