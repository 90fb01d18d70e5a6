// The sign before the terms of an expression.

ghost use Rattle.std.specs.Prelude.{◌≡◌, is_some};

use crate::expression::Sign;
use std::marker::Model;

// Eight bytes, where an `Option<(Sign, u32)>` takes twelve.
#[derive(Clone, Copy)]
enum Held {
    None,
    Plus(u32),
    Minus(u32),
}

/// A sign with its line, or none.
///
/// Contracts see an option of both.
#[derive(Drop)]
pub struct LeadingSign {
    held: Held,
}

impl Model for LeadingSign {
    ghost use Rattle.std.specs.Prelude.{Option, ℕ};
    ghost use Rattle.pascal_tree.specs.declared.expression.Sign.{Sign};
    ghost use Rattle.pascal_tree.specs.Held.{sign_held};

    ghost Value = { Option (Sign × ℕ) };

    ghost view = { λ s. sign_held s.held };
}

impl LeadingSign {
    /// The sign in its place.
    pub fn of(sign: Option<(Sign, u32)>) -> LeadingSign
        ensures { result ≡ sign }
    {
        let held = match sign {
            None => Held::None,
            Some((Sign::Plus, line)) => Held::Plus(line),
            Some((Sign::Minus, line)) => Held::Minus(line),
        };
        LeadingSign { held }
    }

    /// The sign and its line, where there is one.
    pub fn get(&self) -> Option<(Sign, u32)>
        ensures { result ≡ self.now }
    {
        match self.held {
            Held::None => None,
            Held::Plus(line) => Some((Sign::Plus, line)),
            Held::Minus(line) => Some((Sign::Minus, line)),
        }
    }

    /// Whether there is one.
    pub fn is_some(&self) -> bool
        ensures { result ≡ is_some self.now }
    {
        self.get().is_some()
    }
}
