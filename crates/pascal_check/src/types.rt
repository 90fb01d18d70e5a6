// What is asked of types.

ghost use Rattle.std.specs.Prelude.{◌≡◌, option_map};
ghost use Rattle.pascal_tree.specs.Scopes.{same_scalar, elements, words_of_type};
ghost use Rattle.pascal_tree.specs.ExpressionRules.{parameters_of, is_variable, is_characters, adding_type, multiplying_type};
ghost use Rattle.pascal_check.specs.Seen.{seen_meaning};

use crate::meaning::Meaning;
use pascal_tree::expression::{Adding, Multiplying};
use pascal_tree::{Parameter, Scalar, VariableType};

/// Whether two scalar types are one.
pub fn is_same(a: Scalar, b: Scalar) -> bool
    ensures { result ≡ same_scalar a b }
{
    match (a, b) {
        (Scalar::Integer, Scalar::Integer) => true,
        (Scalar::Boolean, Scalar::Boolean) => true,
        (Scalar::Character, Scalar::Character) => true,
        _ => false,
    }
}

/// How many elements lie between two bounds, the lower first.
pub fn elements(low: i16, high: i16) -> u32
    ensures { result ≡ elements low high }
{
    (i32::from(high) - i32::from(low)).unsigned_abs() + 1
}

/// How many words a variable takes.
pub fn words(of: VariableType) -> u32
    ensures { result ≡ words_of_type of }
{
    match of {
        VariableType::Plain(_) => 1,
        VariableType::Array { low, high, .. } => elements(low, high),
    }
}

/// What an operator between terms wants on both sides, and gives.
pub fn adding_type(adding: Adding) -> Scalar
    ensures { result ≡ adding_type adding }
{
    match adding {
        Adding::Plus | Adding::Minus => Scalar::Integer,
        Adding::Or => Scalar::Boolean,
    }
}

/// What an operator between factors wants on both sides, and gives.
pub fn multiplying_type(multiplying: Multiplying) -> Scalar
    ensures { result ≡ multiplying_type multiplying }
{
    match multiplying {
        Multiplying::Times | Multiplying::Div | Multiplying::Mod => Scalar::Integer,
        Multiplying::And => Scalar::Boolean,
    }
}

/// The parameters of a routine, and none of what is no routine.
pub fn parameters_of(meaning: Option<Meaning<'_>>) -> &[Parameter]
    ensures { result.now ≡ parameters_of (option_map seen_meaning meaning.entry) }
{
    match meaning {
        Some(Meaning::Procedure(parameters)) => parameters,
        Some(Meaning::Function(parameters, _)) => parameters,
        _ => &[],
    }
}

/// Whether a name is that of a scalar variable of a type.
pub fn is_variable(meaning: Option<Meaning<'_>>, wanted: Scalar) -> bool
    ensures { result ≡ is_variable (option_map seen_meaning meaning.entry) wanted }
{
    match meaning {
        Some(Meaning::Variable(VariableType::Plain(found))) => is_same(found, wanted),
        Some(Meaning::Reference(found)) => is_same(found, wanted),
        _ => false,
    }
}

/// Whether a name is that of an array of so many characters.
pub fn is_characters(meaning: Option<Meaning<'_>>, length: u16) -> bool
    ensures { result ≡ is_characters (option_map seen_meaning meaning.entry) length }
{
    match meaning {
        Some(
            Meaning::Variable(
                VariableType::Array {
                    low,
                    high,
                    element: Scalar::Character,
                },
            ),
        ) => elements(low, high) == u32::from(length),
        _ => false,
    }
}
