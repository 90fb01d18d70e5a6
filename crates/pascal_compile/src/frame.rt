// A frame that is laid out, declaration by declaration.

ghost use Rattle.std.specs.Prelude.{◌≡◌, ◌+◌, ℕ, min, List, Some, None, bytes_eq, if◌then◌else◌, OnOk};
ghost use Rattle.pascal_compile.specs.Seen.{seen_owner, seen_sense, seen_names};
ghost use Rattle.pascal_compile.specs.Holds.{held_sense, held_words};

use crate::names::Names;
use crate::senses::{Bounds, Owner, Sense};
use pascal_tree::leaf::Name;
use solo_base::NoMemory;
use std::alloc::Global;

/// What a name holds in a frame: a scalar, an array, or a reference to a variable.
#[derive(Clone, Copy)]
pub enum Held {
    Scalar,
    Array(Bounds),
    Reference,
}

impl Held {
    /// What the name is to the code, from a word of its owner's frame on.
    fn sense(self, owner: Owner, place: u16) -> Sense<'static>
        ensures { seen_sense result ≡ held_sense self (seen_owner owner) place }
    {
        match self {
            Held::Scalar => Sense::Variable(owner, place),
            Held::Array(bounds) => Sense::Array(owner, place, bounds),
            Held::Reference => Sense::Reference(place),
        }
    }

    /// How many words it takes, as far as 16 bits count them.
    fn words(self) -> u16
        ensures { result ≡ min (held_words self) 65535 }
    {
        match self {
            Held::Scalar => 1,
            Held::Array(bounds) => bounds.high.abs_diff(bounds.low).saturating_add(1),
            Held::Reference => 2,
        }
    }
}

/// The names of a program or of a routine, and how many words of its frame are taken: those of a
/// program that breaks no rule are at most 4,096, far below what 16 bits count.
pub struct Frame<'a> {
    pub owner: Owner,
    pub names: Names<'a>,
    pub words: u16,
}

// Written out, so that who drops a frame needn't know what it holds.
impl<'a> Drop for Frame<'a> {
    fn drop(self) {
        let Self {
            owner: _,
            names: _,
            words: _,
        } = self;
    }
}

impl<'a> Frame<'a> {
    /// A frame without words.
    pub fn new(alloc: Global, owner: Owner) -> Frame<'a>
        ensures names { (x : List ℕ) → seen_names result.names x ≡ None }
        ensures words { result.words ≡ 0 }
        ensures owner { result.owner ≡ owner }
    {
        Frame {
            owner,
            names: Names::new(alloc),
            words: 0,
        }
    }

    /// Declares what takes no word.
    pub fn declare(&mut self, name: &Name, sense: Sense<'a>) -> Result<(), NoMemory>
        ensures names { OnOk result ((x : List ℕ) → seen_names self.new.names x
            ≡ (if bytes_eq name.now.letters x then Some (seen_sense sense.entry)
            else seen_names self.old.names x)) }
        ensures words { self.new.words ≡ self.old.words }
        ensures owner { self.new.owner ≡ self.old.owner }
    {
        self.names.declare(name.letters.bytes(), sense)
    }

    /// Declares a name that holds words, in the next ones.
    pub fn lay_out(&mut self, name: &Name, held: Held) -> Result<(), NoMemory>
        ensures names { OnOk result ((x : List ℕ) → seen_names self.new.names x
            ≡ (if bytes_eq name.now.letters x
            then Some (held_sense held (seen_owner self.old.owner) self.old.words)
            else seen_names self.old.names x)) }
        ensures words { OnOk result (self.new.words ≡ min (self.old.words + held_words held) 65535) }
        ensures owner { self.new.owner ≡ self.old.owner }
    {
        let sense = held.sense(self.owner, self.words);
        self.names.declare(name.letters.bytes(), sense)?;
        self.words = self.words.saturating_add(held.words());
        Ok(())
    }

    /// Leaves a word for the result of a function.
    pub fn add_result(&mut self, function: bool)
        ensures names { (x : List ℕ) → seen_names self.new.names x ≡ seen_names self.old.names x }
        ensures words { self.new.words ≡ min (self.old.words + (if function then 1 else 0)) 65535 }
        ensures owner { self.new.owner ≡ self.old.owner }
    {
        self.words = self.words.saturating_add(u16::from(function));
    }
}
