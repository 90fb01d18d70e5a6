// A list of declarations.

ghost use Rattle.std.specs.Prelude.{◌≡◌, [], ◌∷◌, OnOk, None, is_some, option_map};
ghost use Rattle.pascal_tree.specs.Scopes.{found, named_as};
ghost use Rattle.pascal_check.specs.Seen.{seen_meaning};

use crate::meaning::Meaning;
use pascal_tree::Means;
use solo_base::NoMemory;
use std::alloc::Global;
use std::collections::BTreeMap;
use std::marker::Model;

/// The names of one list, each with how many were declared before it and what it means.
///
/// Contracts see the list, the latest declaration first.
pub struct Names {
    alloc: Global,
    entries: BTreeMap<Vec<u8>, (usize, Means)>,
}

// Written out, so that who drops a list needn't know how it is kept.
impl Drop for Names {
    fn drop(self) {
        let Self {
            alloc: _,
            entries: _,
        } = self;
    }
}

impl Model for Names {
    ghost use Rattle.std.specs.Prelude.{List};
    ghost use Rattle.pascal_tree.specs.Scopes.{Declared};
    ghost use Rattle.pascal_check.specs.Listed.{latest_first, place_of, declared_by, AreNumbered, AreLookedUp};

    ghost Value = { List Declared };

    ghost view = { λ n. latest_first n.entries.entries };

    ghost invariant = { λ n. AreLookedUp n.entries.entries
        × AreNumbered place_of declared_by n.entries.entries };
}

impl Names {
    /// A list without a name.
    pub fn new(alloc: Global) -> Names
        ensures { result ≡ [] }
    {
        Names {
            alloc,
            entries: BTreeMap::new(alloc),
        }
    }

    /// What a name means by its declaration here.
    pub fn get(&self, name: &[u8]) -> Option<Meaning<'_>>
        ensures { option_map seen_meaning result ≡ found self.now name.now }
    {
        match self.entries.get(name) {
            Some((_, means)) => Some(Meaning::of(means)),
            None => None,
        }
    }

    /// Whether a name is declared here.
    pub fn contains(&self, name: &[u8]) -> bool
        ensures { result ≡ is_some (found self.now name.now) }
    {
        self.entries.contains_key(name)
    }

    /// Declares a name that isn't declared here.
    pub fn declare(&mut self, name: &[u8], means: Means) -> Result<(), NoMemory>
        requires { found self.old name.now ≡ None }
        ensures { OnOk result (self.new ≡ named_as name.now means ∷ self.old) }
    {
        let before = self.entries.len();
        let name = Vec::from_slice(self.alloc, name)?;
        self.entries.insert(name, (before, means))?;
        Ok(())
    }
}
