// A value that is lent.
ghost use Rattle.std.specs.Prelude.{◌≡◌};

use std::marker::Model;

/// A value that stays where it is: what is moved is a reference to it, and contracts see the value itself.
#[derive(Drop)]
pub struct Lent<'a, T>(&'a T);

impl<'a, T> Model for Lent<'a, T> {
    ghost Value = { T };

    ghost view = { λ lent. lent.0.now };
}

impl<'a, T> Lent<'a, T> {
    /// Lends a value.
    #[inline(always)]
    pub fn of(value: &'a T) -> Lent<'a, T>
        ensures { result ≡ value.now }
    {
        Lent(value)
    }

    /// The value that is lent.
    #[inline(always)]
    pub fn get(&self) -> &'a T
        ensures { result.now ≡ self.now }
    {
        self.0
    }
}
