ghost use Rattle.std.specs.Prelude.{◌≡◌, List, []};
ghost use Rattle.pascal_mean.specs.Batch.{but_the_first};
ghost use Rattle.program_run.specs.Characters.{first_of};

use std::alloc::Global;
use std::marker::Model;

/// Characters that are read one by one. Contracts see those that are left.
#[derive(Drop)]
pub struct Characters {
    codes: Vec<u8>,
    read: usize,
}

impl Model for Characters {
    ghost use Rattle.std.specs.Prelude.{ℕ, List, drop};

    ghost Value = { List ℕ };

    ghost view = { λ c. drop c.read c.codes.items };
}

impl Characters {
    /// No characters.
    pub fn none(alloc: Global) -> Characters
        ensures { result ≡ [] }
    {
        Characters::of(Vec::new(alloc))
    }

    /// These characters.
    pub fn of(codes: Vec<u8>) -> Characters
        ensures { result ≡ codes.items }
    {
        Characters { codes, read: 0 }
    }

    /// The next of them, if one is left.
    pub fn next(&mut self) -> Option<u8>
        ensures code { result ≡ first_of self.old }
        ensures rest { self.new ≡ but_the_first self.old }
    {
        match self.codes.as_slice().get(self.read) {
            Some(code) => {
                self.read += 1;
                Some(*code)
            }
            None => None,
        }
    }
}
