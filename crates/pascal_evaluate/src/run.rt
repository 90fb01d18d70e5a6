// Where a program stands while it is evaluated.

ghost use Rattle.std.specs.Prelude.{◌≡◌, map, IfOk, OnOk};
ghost use Rattle.pascal_mean.specs.Situation.{take_tick};
ghost use Rattle.pascal_mean.specs.Meaning.{opening};
ghost use Rattle.pascal_mean.specs.Variables.{map_at, with_map, set_map, put_value, put_element, put_answer, owner_number, place_named, value_at, stored, assigned};
ghost use Rattle.pascal_evaluate.specs.SeenNames.{seen_owner, seen_sense};
ghost use Rattle.pascal_evaluate.specs.SeenStore.{seen_place, seen_activation, situation, or_fresh};
ghost use Rattle.pascal_evaluate.specs.Ran.{Ran};

use crate::activation::{Activation, Place, referred};
use crate::entries::value_in;
use crate::means::{Owner, Plain, Sense};
use crate::stop::Stop;
use solo_base::{NoMemory, ProgResult};
use std::alloc::Global;

/// A call that the batch answers.
#[derive(Clone, Copy)]
pub enum Made {
    Read,
    Write(u8),
    WriteInt(i16),
}

/// The open activations, the program's first; the line of the latest tick of the last one; the
/// ticks taken; the calls that were made.
#[derive(Drop)]
pub struct Run {
    pub activations: Vec<Activation>,
    pub line: u32,
    pub ticks: u32,
    pub made: Vec<Made>,
}

impl Run {
    /// Before the first statement of a program.
    pub fn opening(alloc: Global) -> Result<Run, NoMemory>
        ensures { IfOk result (λ run. situation run ≡ opening) }
    {
        let mut activations = Vec::new(alloc);
        activations.push(Activation::fresh(alloc))?;
        Ok(Run {
            activations,
            line: 0,
            ticks: 0,
            made: Vec::new(alloc),
        })
    }

    /// A tick in a line, within a limit.
    pub fn tick(&mut self, limit: u32, line: u32) -> Result<(), Stop>
        ensures { Ran (take_tick limit line (situation self.old)) result (situation self.new) }
    {
        self.line = line;
        if self.ticks < limit {
            self.ticks += 1;
            Ok(())
        } else {
            Err(Stop::Over(ProgResult::TimeLimit))
        }
    }

    /// The value of a variable.
    pub fn value(&self, place: &Place) -> i16
        ensures { result ≡ value_at (seen_place place.now) (situation self.now) }
    {
        match activation_at(&self.activations, place.activation) {
            Some(activation) => value_in(&activation.values, place.letters.bytes(), 0),
            None => 0,
        }
    }

    /// A variable has this value.
    pub fn store(&mut self, place: &Place, value: i16) -> Result<(), NoMemory>
        ensures { OnOk result (situation self.new
            ≡ stored (seen_place place.now) value (situation self.old)) }
    {
        let letters = place.letters.bytes();
        put_value(&mut self.activations, place.activation, letters, value)
    }

    /// The element of an activation's array at an index.
    pub fn element(&self, number: usize, letters: &[u8], index: i32) -> i16
        ensures { result ≡ (map_at (situation self.now).maps number).elements letters.now index }
    {
        match activation_at(&self.activations, number) {
            Some(activation) => value_in(&activation.elements, letters, index),
            None => 0,
        }
    }

    /// The element of an activation's array at an index has this value.
    pub fn store_element(
        &mut self,
        number: usize,
        letters: &[u8],
        index: i32,
        value: i16,
    ) -> Result<(), NoMemory>
        ensures { OnOk result (situation self.new
            ≡ set_map number (put_element letters.now index value) (situation self.old)) }
    {
        put_element(&mut self.activations, number, letters, index, value)
    }

    /// The result that an activation has so far.
    pub fn answer(&self, number: usize) -> i16
        ensures { result ≡ (map_at (situation self.now).maps number).answer }
    {
        match activation_at(&self.activations, number) {
            Some(activation) => activation.answer,
            None => 0,
        }
    }

    /// An activation has this result.
    pub fn set_answer(&mut self, number: usize, value: i16)
        ensures { situation self.new ≡ set_map number (put_answer value) (situation self.old) }
    {
        put_answer(&mut self.activations, number, value);
    }

    /// The variable that a VAR parameter of an activation is another name for.
    pub fn referred(&self, number: usize, letters: &[u8]) -> Result<Place, NoMemory>
        ensures { IfOk result (λ place. seen_place place
            ≡ (map_at (situation self.now).maps number).references letters.now) }
    {
        let alloc = *self.activations.allocator();
        match activation_at(&self.activations, number) {
            Some(activation) => referred(alloc, &activation.references, letters),
            None => Place::of(alloc, 0, b""),
        }
    }

    /// The variable that a name stands for in an activation.
    pub fn place_named(
        &self,
        sense: Sense<'_>,
        number: usize,
        letters: &[u8],
    ) -> Result<Place, NoMemory>
        ensures { IfOk result (λ place. seen_place place
            ≡ place_named (seen_sense sense.entry) number letters.now (situation self.now)) }
    {
        let alloc = *self.activations.allocator();
        match sense {
            Sense::Plain(Plain::Reference(_)) => self.referred(number, letters),
            Sense::Plain(Plain::Variable(owner, _)) => {
                Place::of(alloc, owner_number(owner, number), letters)
            }
            _ => Place::of(alloc, number, letters),
        }
    }

    /// The assignment of a value to a name without an index.
    pub fn assign(
        &mut self,
        sense: Sense<'_>,
        number: usize,
        letters: &[u8],
        value: i16,
    ) -> Result<(), NoMemory>
        ensures { OnOk result (situation self.new
            ≡ assigned (seen_sense sense.entry) number letters.now value (situation self.old)) }
    {
        match sense {
            Sense::Plain(Plain::Variable(_, _) | Plain::Reference(_)) => {
                let place = self.place_named(sense, number, letters)?;
                self.store(&place, value)
            }
            Sense::Routine(_, _) => {
                self.set_answer(number, value);
                Ok(())
            }
            Sense::Plain(_) => Ok(()),
        }
    }
}

/// The number of the activation whose variable a name is, where it stands in that with a number.
pub fn owner_number(owner: Owner, number: usize) -> usize
    ensures { result ≡ owner_number (seen_owner owner) number }
{
    match owner {
        Owner::OfProgram => 0,
        Owner::OfRoutine => number,
    }
}

fn activation_at(activations: &[Activation], number: usize) -> Option<&Activation>
    ensures { map_at (map seen_activation activations.now) number ≡ or_fresh result }
{
    if number < activations.len() {
        Some(&activations[number])
    } else {
        None
    }
}

fn put_value(
    activations: &mut [Activation],
    number: usize,
    letters: &[u8],
    value: i16,
) -> Result<(), NoMemory>
    ensures { OnOk result (map seen_activation activations.new
        ≡ with_map number (put_value letters.now value) (map seen_activation activations.old)) }
{
    if number < activations.len() {
        let activation = &mut activations[number];
        activation.put_value(letters, value)
    } else {
        Ok(())
    }
}

fn put_element(
    activations: &mut [Activation],
    number: usize,
    letters: &[u8],
    index: i32,
    value: i16,
) -> Result<(), NoMemory>
    ensures { OnOk result (map seen_activation activations.new
        ≡ with_map number (put_element letters.now index value)
        (map seen_activation activations.old)) }
{
    if number < activations.len() {
        let activation = &mut activations[number];
        activation.put_element(letters, index, value)
    } else {
        Ok(())
    }
}

fn put_answer(activations: &mut [Activation], number: usize, value: i16)
    ensures { map seen_activation activations.new
        ≡ with_map number (put_answer value) (map seen_activation activations.old) }
{
    if number < activations.len() {
        activations[number].answer = value;
    }
}
