// The labels before a place of a CASE.

ghost use Rattle.std.specs.Prelude.{◌≡◌, [], ◌∷◌, ◌++◌, OnOk, false};
ghost use Rattle.std.specs.List.{list_any};
ghost use Rattle.std.specs.Ordering.{int_eq};

use solo_base::NoMemory;
use std::alloc::Global;
use std::collections::BTreeMap;
use std::marker::Model;

/// The values of labels, each with how many were added before it.
///
/// Contracts see them in the order in which they were added.
#[derive(Drop)]
pub struct Earlier {
    entries: BTreeMap<i16, usize>,
}

impl Model for Earlier {
    ghost use Rattle.std.specs.Prelude.{List, ℤ, ℕ};
    ghost use Rattle.pascal_check.specs.Listed.{values_added, AreNumbered, AreAmong};

    ghost Value = { List ℤ };

    ghost view = { λ e. values_added e.entries.entries };

    ghost invariant = { λ e. AreAmong e.entries.entries
        × AreNumbered (λ (v : ℤ × ℕ). v.1) (λ (v : ℤ × ℕ). v.0) e.entries.entries };
}

impl Earlier {
    /// No values.
    pub fn new(alloc: Global) -> Earlier
        ensures empty { result ≡ [] }
    {
        Earlier {
            entries: BTreeMap::new(alloc),
        }
    }

    /// Whether a value was added.
    pub fn contains(&self, value: i16) -> bool
        ensures { result ≡ list_any (int_eq value) self.now }
    {
        self.entries.contains_key(&value)
    }

    /// Adds a value that isn't there.
    pub fn add(&mut self, value: i16) -> Result<(), NoMemory>
        requires { list_any (int_eq value) self.old ≡ false }
        ensures { OnOk result (self.new ≡ self.old ++ value ∷ []) }
    {
        let before = self.entries.len();
        self.entries.insert(value, before)?;
        Ok(())
    }
}
