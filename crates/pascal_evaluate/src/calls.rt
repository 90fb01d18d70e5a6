// How arguments are taken.

ghost use Rattle.std.specs.Prelude.{◌≡◌, ℕ, List, pos, negsuc, map, IfOk};
ghost use Rattle.pascal_mean.specs.Variables.{array_named};
ghost use Rattle.pascal_mean.specs.Calls.{passing_of, row_passing, passing_named, values_in, first_value};
ghost use Rattle.pascal_evaluate.specs.SeenNames.{seen_parameter, seen_sense};
ghost use Rattle.pascal_evaluate.specs.SeenStore.{seen_passing, seen_extent, all_given, last_alias, seen_alias, first_elements, seen_elements};

use crate::activation::{ArrayPlace, Place};
use crate::means::{Bounds, Parameter, Plain, Sense};
use crate::run::owner_number;
use solo_base::{NoMemory, Procedure};
use std::alloc::Global;

/// How an argument is taken: by its value, as a variable or as a whole array.
#[derive(Clone, Copy)]
pub enum Passing {
    ByValue,
    ByVariable,
    ByArray,
}

/// An argument as a call gets it.
pub enum Given {
    Value(i16),
    Alias(Place),
    Elements(ArrayPlace),
}

impl Drop for Given {
    fn drop(self) {
        match self {
            Self::Value(_) => {}
            Self::Alias(_) => {}
            Self::Elements(_) => {}
        }
    }
}

/// The arguments of what is called by a name.
pub fn passing_named(alloc: Global, sense: Sense<'_>) -> Result<Vec<Passing>, NoMemory>
    ensures { IfOk result (λ all. map seen_passing all.items ≡ passing_named (seen_sense sense.entry)) }
{
    match sense {
        Sense::Routine(_, signature) => passing_of_all(alloc, &signature.parameters),
        Sense::Plain(Plain::Function(_)) => { Ok(Vec::from_slice(alloc, &[Passing::ByValue])?) }
        Sense::Plain(Plain::Interface(procedure)) => {
            Ok(Vec::from_slice(alloc, row_passing(procedure))?)
        }
        Sense::Plain(_) => Ok(Vec::new(alloc)),
    }
}

fn passing_of_all(alloc: Global, parameters: &[Parameter]) -> Result<Vec<Passing>, NoMemory>
    ensures { IfOk result (λ all. map seen_passing all.items
        ≡ map passing_of (map seen_parameter parameters.now)) }
{
    let mut all = Vec::new(alloc);
    for parameter in parameters {
        all.push(passing_of(parameter))?;
    }
    Ok(all)
}

fn passing_of(parameter: &Parameter) -> Passing
    ensures { seen_passing result ≡ passing_of (seen_parameter parameter.now) }
{
    if parameter.is_variable {
        Passing::ByVariable
    } else {
        Passing::ByValue
    }
}

// The arguments of a row of the interface.
fn row_passing(procedure: Procedure) -> &'static [Passing]
    ensures { map seen_passing result.now ≡ row_passing procedure }
{
    match procedure {
        Procedure::Read | Procedure::Accept => &[Passing::ByVariable],
        Procedure::Write
        | Procedure::WriteInt
        | Procedure::Display
        | Procedure::Close
        | Procedure::Length => &[Passing::ByValue],
        Procedure::Open => &[Passing::ByValue, Passing::ByArray, Passing::ByVariable],
        Procedure::Get | Procedure::Put | Procedure::WriteArg => {
            &[Passing::ByValue, Passing::ByValue, Passing::ByArray]
        }
        Procedure::Lookup | Procedure::Run => {
            &[Passing::ByArray, Passing::ByVariable, Passing::ByVariable]
        }
        Procedure::ReadArg => &[Passing::ByVariable, Passing::ByVariable, Passing::ByArray],
    }
}

/// The first of the values among some arguments, and 0 where there is none.
pub fn first_value(given: &[Given]) -> i16
    ensures { result ≡ first_value (values_in (all_given given.now)) }
{
    match given {
        [] => 0,
        [argument, others @ ..] => match argument {
            Given::Value(value) => *value,
            _ => first_value(others),
        },
    }
}

/// The last of the variables among some arguments.
pub fn last_variable(given: &[Given]) -> Option<&Place>
    ensures { seen_alias result ≡ last_alias (all_given given.now) }
{
    match given {
        [] => None,
        [argument, others @ ..] => {
            if let Some(last) = last_variable(others) {
                return Some(last);
            }
            match argument {
                Given::Alias(place) => Some(place),
                _ => None,
            }
        }
    }
}

/// The first of the arrays among some arguments.
pub fn first_array(given: &[Given]) -> Option<&ArrayPlace>
    ensures { seen_elements result ≡ first_elements (all_given given.now) }
{
    match given {
        [] => None,
        [argument, others @ ..] => match argument {
            Given::Elements(array) => Some(array),
            _ => first_array(others),
        },
    }
}

/// Which activation's array a name stands for, and its bounds.
#[derive(Clone, Copy)]
pub struct Extent {
    pub activation: usize,
    pub bounds: Bounds,
}

/// The array that a name stands for in an activation, and one without elements for any other name.
pub fn array_named(sense: Sense<'_>, number: usize) -> Extent
    ensures { (x : List ℕ) → seen_extent result x ≡ array_named (seen_sense sense.entry) number x }
{
    match sense {
        Sense::Plain(Plain::Array(owner, _, bounds)) => Extent {
            activation: owner_number(owner, number),
            bounds,
        },
        _ => no_array(number),
    }
}

fn no_array(number: usize) -> Extent
    ensures { result ≡ record { activation = number; bounds = record { low = pos 0; high = negsuc 0 } } }
{
    Extent {
        activation: number,
        bounds: Bounds { low: 0, high: -1 },
    }
}
