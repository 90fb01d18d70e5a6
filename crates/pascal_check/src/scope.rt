// What the names at a place of a program mean.

ghost use Rattle.std.specs.Prelude.{◌≡◌, OnOk, None, Some, is_some, option_map};
ghost use Rattle.pascal_tree.specs.Scopes.{found, means_of};
ghost use Rattle.pascal_tree.specs.Scopes as scopes;
ghost use Rattle.pascal_tree.specs.StatementRules.{is_within};
ghost use Rattle.pascal_tree.specs.DeclarationRules.{empty_scope, inside};
ghost use Rattle.pascal_check.specs.Entered.{outside, left};
ghost use Rattle.pascal_check.specs.Seen.{seen_meaning};

use crate::meaning::Meaning;
use crate::names::Names;
use crate::predeclared::predeclared;
use pascal_tree::leaf::Name;
use pascal_tree::{Letters, Means};
use solo_base::NoMemory;
use std::alloc::Global;
use std::marker::Model;
use std::mem;

/// The declarations before a place.
///
/// Contracts see those of its own list, those of the program outside a routine, and the function in
/// whose body it stands.
pub struct Scope {
    alloc: Global,
    own: Names,
    outer: Names,
    within: Option<Letters>,
}

// Written out, so that who drops a scope needn't know what it holds.
impl Drop for Scope {
    fn drop(self) {
        let Self {
            alloc: _,
            own: _,
            outer: _,
            within: _,
        } = self;
    }
}

impl Model for Scope {
    ghost use Rattle.pascal_tree.specs.Scopes as scopes;

    ghost Value = { scopes.Scope };

    ghost view = { λ s. record { own = s.own; outer = s.outer; within = s.within } };
}

impl Scope {
    /// Where a program begins.
    pub fn new(alloc: Global) -> Scope
        ensures { result ≡ empty_scope }
    {
        Scope {
            alloc,
            own: Names::new(alloc),
            outer: Names::new(alloc),
            within: None,
        }
    }

    /// Where memory is taken from.
    pub fn alloc(&self) -> Global {
        self.alloc
    }

    /// What a name means here.
    pub fn meaning(&self, name: &Name) -> Option<Meaning<'_>>
        ensures { option_map seen_meaning result ≡ means_of self.now name.now.letters }
    {
        let name = name.letters.bytes();
        if let Some(means) = self.own.get(name) {
            return Some(means);
        }
        if let Some(means) = self.outer.get(name) {
            return Some(means);
        }
        predeclared(name)
    }

    /// Whether a name is declared in the list itself.
    pub fn declares(&self, name: &Name) -> bool
        ensures { result ≡ is_some (found self.now.own name.now.letters) }
    {
        self.own.contains(name.letters.bytes())
    }

    /// Declares a name that the list doesn't have.
    pub fn declare(&mut self, name: &Name, means: Means) -> Result<(), NoMemory>
        requires { found self.old.own name.now.letters ≡ None }
        ensures { OnOk result (self.new ≡ scopes.declare self.old name.now.letters means) }
    {
        self.own.declare(name.letters.bytes(), means)
    }

    /// Whether a name is that of the function in whose body this stands.
    pub fn is_within(&self, name: &Name) -> bool
        ensures { result ≡ is_within self.now.within name.now.letters }
    {
        match &self.within {
            None => false,
            Some(function) => function.bytes() == name.letters.bytes(),
        }
    }

    /// Goes into a routine, which has a list of its own.
    pub fn enter(&mut self)
        ensures { self.new ≡ inside self.old }
    {
        self.outer = mem::replace(&mut self.own, Names::new(self.alloc));
        self.within = None;
    }

    /// Whether a name is declared in the program's list, from inside a routine.
    pub fn declares_outside(&self, name: &Name) -> bool
        ensures { result ≡ is_some (found self.now.outer name.now.letters) }
    {
        self.outer.contains(name.letters.bytes())
    }

    /// Declares a routine in the program's list, from inside it.
    pub fn declare_outside(&mut self, name: &Name, means: Means) -> Result<(), NoMemory>
        requires { found self.old.outer name.now.letters ≡ None }
        ensures { OnOk result (self.new ≡ outside self.old name.now.letters means) }
    {
        self.outer.declare(name.letters.bytes(), means)
    }

    /// From here on stands the body of this function.
    pub fn begin_function(&mut self, name: &Name) -> Result<(), NoMemory>
        ensures { OnOk result (self.new
            ≡ record self.old { within = Some name.now.letters }) }
    {
        self.within = Some(name.letters.copy()?);
        Ok(())
    }

    /// Goes back from a routine to the program.
    pub fn leave(&mut self)
        ensures { self.new ≡ left self.old }
    {
        self.own = mem::replace(&mut self.outer, Names::new(self.alloc));
        self.within = None;
    }
}
