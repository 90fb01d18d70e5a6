// The open activations: what their names stand for.

ghost use Rattle.std.specs.Prelude.{◌≡◌, map, IfOk, OnOk};
ghost use Rattle.pascal_mean.specs.Variables.{fresh_map, put_value, put_element, put_reference};
ghost use Rattle.pascal_mean.specs.Calls.{with_given, begun_map};
ghost use Rattle.pascal_evaluate.specs.SeenNames.{seen_parameter};
ghost use Rattle.pascal_evaluate.specs.SeenStore.{seen_place, place_in, seen_activation, seen_given, all_given};

use crate::calls::Given;
use crate::entries::{Entry, put_in};
use crate::means::{Bounds, Parameter};
use pascal_tree::Letters;
use solo_base::NoMemory;
use std::alloc::Global;

/// A variable: the number of its activation, and its name.
pub struct Place {
    pub activation: usize,
    pub letters: Letters,
}

impl Drop for Place {
    fn drop(self) {
        let Self {
            activation: _,
            letters: _,
        } = self;
    }
}

/// An array: the number of its activation, its name and its bounds.
pub struct ArrayPlace {
    pub activation: usize,
    pub letters: Letters,
    pub bounds: Bounds,
}

impl Drop for ArrayPlace {
    fn drop(self) {
        let Self {
            activation: _,
            letters: _,
            bounds: _,
        } = self;
    }
}

/// A VAR parameter, and the variable that it is another name for.
pub struct Reference {
    pub letters: Letters,
    pub place: Place,
}

impl Drop for Reference {
    fn drop(self) {
        let Self {
            letters: _,
            place: _,
        } = self;
    }
}

/// What the names of one activation stand for, and the result that a function has so far.
pub struct Activation {
    pub values: Vec<Entry>,
    pub elements: Vec<Entry>,
    pub references: Vec<Reference>,
    pub answer: i16,
}

impl Drop for Activation {
    fn drop(self) {
        let Self {
            values: _,
            elements: _,
            references: _,
            answer: _,
        } = self;
    }
}

impl Activation {
    /// Each variable, element and result is 0.
    pub fn fresh(alloc: Global) -> Activation
        ensures { seen_activation result ≡ fresh_map }
    {
        Activation {
            values: Vec::new(alloc),
            elements: Vec::new(alloc),
            references: Vec::new(alloc),
            answer: 0,
        }
    }

    /// A variable has this value.
    pub fn put_value(&mut self, letters: &[u8], value: i16) -> Result<(), NoMemory>
        ensures { OnOk result (seen_activation self.new
            ≡ put_value letters.now value (seen_activation self.old)) }
    {
        let alloc = *self.values.allocator();
        put_in(&mut self.values, alloc, letters, 0, value)
    }

    /// The element of an array at an index has this value.
    pub fn put_element(&mut self, letters: &[u8], index: i32, value: i16) -> Result<(), NoMemory>
        ensures { OnOk result (seen_activation self.new
            ≡ put_element letters.now index value (seen_activation self.old)) }
    {
        let alloc = *self.values.allocator();
        put_in(&mut self.elements, alloc, letters, index, value)
    }

    /// A VAR parameter is another name for this variable.
    pub fn put_reference(&mut self, letters: &Letters, place: &Place) -> Result<(), NoMemory>
        ensures { OnOk result (seen_activation self.new
            ≡ put_reference letters.now (seen_place place.now) (seen_activation self.old)) }
    {
        let letters = letters.copy()?;
        let place = place.copy()?;
        self.references.insert(0, Reference { letters, place })?;
        Ok(())
    }

    /// A parameter has the value of its argument, or is another name for its variable.
    fn give(&mut self, letters: &Letters, given: &Given) -> Result<(), NoMemory>
        ensures { OnOk result (seen_activation self.new
            ≡ with_given letters.now (seen_given given.now) (seen_activation self.old)) }
    {
        match given {
            Given::Value(value) => self.put_value(letters.bytes(), *value),
            Given::Alias(place) => self.put_reference(letters, place),
            Given::Elements(_) => Ok(()),
        }
    }
}

/// An activation that begins with these arguments.
pub fn begun(
    alloc: Global,
    parameters: &[Parameter],
    given: &[Given],
) -> Result<Activation, NoMemory>
    ensures { IfOk result (λ activation. seen_activation activation
        ≡ begun_map (map seen_parameter parameters.now) (all_given given.now)) }
{
    match parameters {
        [] => Ok(Activation::fresh(alloc)),
        [parameter, more @ ..] => match given {
            [] => begun(alloc, more, given),
            [argument, others @ ..] => {
                let mut activation = begun(alloc, more, others)?;
                activation.give(&parameter.letters, argument)?;
                Ok(activation)
            }
        },
    }
}

impl Place {
    /// The variable with this name in this activation.
    pub fn of(alloc: Global, activation: usize, letters: &[u8]) -> Result<Place, NoMemory>
        ensures { IfOk result (λ place. seen_place place
            ≡ record { activation = activation; letters = letters.now }) }
    {
        let letters = Letters::of(alloc, letters)?;
        Ok(Place {
            activation,
            letters,
        })
    }

    /// The same variable once more.
    pub fn copy(&self) -> Result<Place, NoMemory>
        ensures { IfOk result (λ place. seen_place place ≡ seen_place self.now) }
    {
        let letters = self.letters.copy()?;
        Ok(Place {
            activation: self.activation,
            letters,
        })
    }
}

/// The variable that a VAR parameter is another name for.
pub fn referred(alloc: Global, references: &[Reference], letters: &[u8]) -> Result<Place, NoMemory>
    ensures { IfOk result (λ place. seen_place place ≡ place_in references.now letters.now) }
{
    match references {
        [] => Place::of(alloc, 0, b""),
        [reference, others @ ..] => {
            if reference.letters.bytes() == letters {
                return reference.place.copy();
            }
            referred(alloc, others, letters)
        }
    }
}
