ghost use Rattle.std.specs.Prelude.{◌≡◌, ◌<◌, ℕ, List, [], ◌∷◌, ◌++◌, length, OnOk, OnErr};

use solo_base::{Ident, NoMemory};
use std::alloc::Global;
use std::marker::Model;

/// The names of a card.
#[derive(Debug, Drop)]
pub struct Names {
    names: Vec<Ident>,
}

impl Model for Names {
    ghost Value = { List (List ℕ) };

    ghost view = { λ list. list.names.items };
}

impl Names {
    pub fn new(alloc: Global) -> Names
        ensures { result ≡ [] }
    {
        Names {
            names: Vec::new(alloc),
        }
    }

    /// Adds a name at the end.
    pub fn push(&mut self, name: Ident) -> Result<(), NoMemory>
        ensures { OnOk result (self.new ≡ self.old ++ name ∷ []) }
    {
        self.names.push(name)?;
        Ok(())
    }

    /// Takes the first name away.
    pub fn take_first(&mut self) -> Ident
        requires { 0 < length self.old }
        ensures { self.old ≡ result ∷ self.new }
    {
        self.names.remove(0)
    }

    pub fn as_slice(&self) -> &[Ident]
        ensures { result.now ≡ self.now }
    {
        self.names.as_slice()
    }
}
