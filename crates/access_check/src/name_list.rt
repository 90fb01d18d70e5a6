ghost use Rattle.std.specs.Prelude.{◌≡◌, ℕ, List, [], ◌∷◌, ◌++◌, false, true, not, find, OnOk, IfOk};
ghost use Rattle.std.specs.List.{list_all};
ghost use Rattle.access_check.specs.Judgement.{again};
ghost use Rattle.access_check.specs.Places.{place, has};

use solo_base::{IDENT_LENGTH, Ident, NoMemory};
use std::alloc::Global;
use std::collections::BTreeMap;
use std::marker::Model;

/// Names in order, each of which stands there once. The place of a name is found by its characters.
#[derive(Drop)]
pub struct NameList {
    names: Vec<Ident>,
    places: BTreeMap<[u8; IDENT_LENGTH], usize>,
}

impl Model for NameList {
    ghost use Rattle.std.specs.Prelude.{ℕ, List};
    ghost use Rattle.access_check.specs.Places.{HasPlaces};

    ghost Value = { List (List ℕ) };

    ghost view = { λ list. list.names.items };

    ghost invariant = { λ list. HasPlaces list.names.items list.places };
}

impl NameList {
    pub fn new(alloc: Global) -> NameList
        ensures { result ≡ [] }
    {
        NameList {
            names: Vec::new(alloc),
            places: BTreeMap::new(alloc),
        }
    }

    pub fn as_slice(&self) -> &[Ident]
        ensures { result.now ≡ self.now }
    {
        self.names.as_slice()
    }

    /// The place of a name, counted from 0.
    pub fn place(&self, name: &Ident) -> Option<usize>
        ensures { result ≡ place self.now name.now }
    {
        self.places.get(&name.bytes()).copied()
    }

    pub fn has(&self, name: &Ident) -> bool
        ensures { result ≡ has self.now name.now }
    {
        self.place(name).is_some()
    }

    /// Adds a name at the end.
    pub fn push(&mut self, name: Ident) -> Result<(), NoMemory>
        requires { has self.old name ≡ false }
        ensures { OnOk result (self.new ≡ self.old ++ name ∷ []) }
    {
        let place = self.names.as_slice().len();
        self.names.reserve(1)?;
        self.places.insert(name.bytes(), place)?;
        self.names.push_reserved(name);
        Ok(())
    }
    /// Adds names at the end, up to the first that stands there. Whether none does.
    pub fn append(&mut self, names: &[Ident]) -> Result<bool, NoMemory>
        ensures fresh { IfOk result (λ fresh. fresh ≡ not (again self.old names.now)) }
        ensures new { IfOk result (λ fresh. fresh ≡ true → self.new ≡ self.old ++ names.now) }
    {
        let [name, more @ ..] = names else {
            return Ok(true);
        };
        if self.has(name) {
            return Ok(false);
        }
        self.push(*name)?;
        self.append(more)
    }

    /// Whether each of the names stands in the list.
    pub fn has_all(&self, names: &[Ident]) -> bool
        ensures { result ≡ list_all (has self.now) names.now }
    {
        match names {
            [name, more @ ..] => self.has(name) && self.has_all(more),
            [] => true,
        }
    }

    /// The first of the names that doesn't stand in the list.
    pub fn first_outside(&self, names: &[Ident]) -> Option<Ident>
        ensures { result ≡ find (λ name. not (has self.now name)) names.now }
    {
        match names {
            [name, more @ ..] if self.has(name) => self.first_outside(more),
            [name, ..] => Some(*name),
            [] => None,
        }
    }
}
