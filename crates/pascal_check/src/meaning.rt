// What a name means, lent by its declaration.

ghost use Rattle.std.specs.Prelude.{◌≡◌};
ghost use Rattle.pascal_check.specs.Seen.{seen_meaning};

use pascal_tree::{Means, Parameter, Scalar, VariableType};

/// What a name means at a place. A constant has its value, or its code where it is a character; a
/// reference is a VAR parameter; a routine lends what it wants of its arguments.
#[derive(Clone, Copy)]
pub enum Meaning<'a> {
    Constant(Scalar, i16),
    Variable(VariableType),
    Reference(Scalar),
    Procedure(&'a [Parameter]),
    Function(&'a [Parameter], Scalar),
    TypeName(Scalar),
}

impl<'a> Meaning<'a> {
    /// What a declared name means.
    pub fn of(means: &'a Means) -> Meaning<'a>
        ensures { seen_meaning result ≡ means.now }
    {
        match means {
            Means::Constant(type_, value) => Meaning::Constant(*type_, *value),
            Means::Variable(type_) => Meaning::Variable(*type_),
            Means::Reference(type_) => Meaning::Reference(*type_),
            Means::Procedure(wanted) => Meaning::Procedure(wanted.parameters()),
            Means::Function(wanted, answer) => Meaning::Function(wanted.parameters(), *answer),
            Means::TypeName(type_) => Meaning::TypeName(*type_),
        }
    }
}
