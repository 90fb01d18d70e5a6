// A list of declarations.

ghost use Rattle.std.specs.Prelude.{◌≡◌, ℕ, List, None, Some, option_map, bytes_eq, if◌then◌else◌, OnOk};
ghost use Rattle.pascal_compile.specs.Seen.{seen_sense, seen_names};

use crate::senses::Sense;
use solo_base::NoMemory;
use std::alloc::Global;
use std::collections::BTreeMap;

/// The names of one list, each with what it is to the code.
pub struct Names<'a> {
    alloc: Global,
    entries: BTreeMap<Vec<u8>, Sense<'a>>,
}

// Written out, so that who drops a list needn't know how it is kept.
impl<'a> Drop for Names<'a> {
    fn drop(self) {
        let Self {
            alloc: _,
            entries: _,
        } = self;
    }
}

impl<'a> Names<'a> {
    /// A list without a name.
    pub fn new(alloc: Global) -> Names<'a>
        ensures { (x : List ℕ) → seen_names result x ≡ None }
    {
        Names {
            alloc,
            entries: BTreeMap::new(alloc),
        }
    }

    /// A name by its latest declaration here.
    pub fn get(&self, letters: &[u8]) -> Option<Sense<'a>>
        ensures { option_map seen_sense result ≡ seen_names self.now letters.now }
    {
        self.entries.get(letters).copied()
    }

    /// Declares a name, behind those before it.
    pub fn declare(&mut self, letters: &[u8], sense: Sense<'a>) -> Result<(), NoMemory>
        ensures { OnOk result ((x : List ℕ) → seen_names self.new x
            ≡ (if bytes_eq letters.now x then Some (seen_sense sense.entry) else seen_names self.old x)) }
    {
        let letters = Vec::from_slice(self.alloc, letters)?;
        self.entries.insert(letters, sense)?;
        Ok(())
    }
}
