// What a name means at a place of a program.

ghost use Rattle.std.specs.Prelude.{◌≡◌};
ghost use Rattle.pascal_mean.specs.Scope.{found, number_named, constant_number, scalar_named, constant_scalar};
ghost use Rattle.pascal_evaluate.specs.SeenNames.{seen_scalar, seen_means, seen_sense, seen_items, seen_found, seen_scope};

use crate::means::{Item, Means, Plain, Scalar, Sense};
use crate::predeclared::predeclared;
use pascal_tree::constant::Constant;
use pascal_tree::leaf::Name;

/// The names that are declared at a place: those of the routine itself and those of the program
/// before it, both with the latest first.
#[derive(Clone, Copy)]
pub struct Scope<'a> {
    pub own: &'a [Item],
    pub known: &'a [Item],
}

impl<'a> Scope<'a> {
    /// What a name means: its latest declaration in the routine, else in the program, else the
    /// predeclared one.
    pub fn find(&self, letters: &[u8]) -> Sense<'a>
        ensures { seen_sense result ≡ seen_scope self.now letters.now }
    {
        if let Some(means) = found(self.own, letters) {
            return sense(means);
        }
        match found(self.known, letters) {
            Some(means) => sense(means),
            None => Sense::Plain(predeclared(letters)),
        }
    }

    /// The number that a constant stands for.
    pub fn number(&self, constant: &Constant) -> i16
        ensures { result ≡ constant_number (seen_scope self.now) constant.now }
    {
        match constant {
            Constant::Name(name) => number_named(self.find(name.letters.bytes())),
            Constant::Number(number) => number.value as i16,
            Constant::Negative(_, number) => -(number.value as i16),
            Constant::Character(character) => i16::from(character.code),
        }
    }

    /// The type of a constant.
    pub fn scalar(&self, constant: &Constant) -> Scalar
        ensures { seen_scalar result ≡ constant_scalar (seen_scope self.now) constant.now }
    {
        match constant {
            Constant::Name(name) => self.scalar_named(name),
            Constant::Number(_) | Constant::Negative(_, _) => Scalar::Integer,
            Constant::Character(_) => Scalar::Char,
        }
    }

    /// The type that a name stands for, or that of the constant.
    pub fn scalar_named(&self, name: &Name) -> Scalar
        ensures { seen_scalar result ≡ scalar_named (seen_scope self.now name.now.letters) }
    {
        match self.find(name.letters.bytes()) {
            Sense::Plain(Plain::Constant(scalar, _) | Plain::TypeName(scalar)) => scalar,
            _ => Scalar::Integer,
        }
    }
}

/// The latest declaration of a name in a list.
fn found<'a>(items: &'a [Item], letters: &[u8]) -> Option<&'a Means>
    ensures { seen_found result ≡ found (seen_items items.now) letters.now }
{
    for item in items {
        if item.letters.bytes() == letters {
            return Some(&item.means);
        }
    }
    None
}

fn sense(means: &Means) -> Sense<'_>
    ensures { seen_sense result ≡ seen_means means.now }
{
    match means {
        Means::Plain(plain) => Sense::Plain(*plain),
        Means::Routine(number, signature) => Sense::Routine(*number, signature),
    }
}

fn number_named(sense: Sense<'_>) -> i16
    ensures { result ≡ number_named (seen_sense sense.entry) }
{
    match sense {
        Sense::Plain(Plain::Constant(_, number)) => number,
        _ => 0,
    }
}
