// The code of names: loads, stores, references and elements.

ghost use Rattle.std.specs.Prelude.{◌≡◌, ◌≤◌, ◌++◌, OnOk};
ghost use Rattle.pascal_mean.specs.Variables.{size_of};
ghost use Rattle.pascal_code.specs.Names.{name_code, store_code, reference_code, test_code, element_code, store_element_code};
ghost use Rattle.pascal_compile.specs.Seen.{seen_bounds, seen_sense, IsSmall};

use crate::drafts::Drafts;
use crate::instructions::{
    load_element, load_word, push, refer, store_element, store_word, test_index, with_a,
};
use crate::senses::{Bounds, Owner, Sense};
use solo_base::NoMemory;
use stack_code::Op;

/// A name as a factor.
pub fn load(code: &mut Drafts, sense: Sense<'_>) -> Result<(), NoMemory>
    ensures { OnOk result (code.new ≡ code.old ++ name_code (seen_sense sense.entry)) }
{
    match sense {
        Sense::Constant(number) => code.emit(push(number)),
        Sense::Variable(owner, place) => code.emit(load_word(owner, place)),
        Sense::Reference(place) => code.emit(with_a(Op::LoadR, place)),
        Sense::Routine(number, _) => code.emit(with_a(Op::Call, number)),
        Sense::Array(_, _, _) | Sense::Function(_) | Sense::Interface(_) | Sense::Nothing => Ok(()),
    }
}

/// A name that is set, where a function's result has this word.
pub fn store(code: &mut Drafts, answer: u16, sense: Sense<'_>) -> Result<(), NoMemory>
    ensures { OnOk result (code.new ≡ code.old ++ store_code answer (seen_sense sense.entry)) }
{
    match sense {
        Sense::Variable(owner, place) => code.emit(store_word(owner, place)),
        Sense::Reference(place) => code.emit(with_a(Op::StoreR, place)),
        Sense::Routine(_, _) => code.emit(store_word(Owner::OfRoutine, answer)),
        Sense::Constant(_)
        | Sense::Array(_, _, _)
        | Sense::Function(_)
        | Sense::Interface(_)
        | Sense::Nothing => Ok(()),
    }
}

/// A variable that is passed on to a VAR parameter.
pub fn reference(code: &mut Drafts, sense: Sense<'_>) -> Result<(), NoMemory>
    requires { IsSmall (seen_sense sense) }
    ensures { OnOk result (code.new ≡ code.old ++ reference_code (seen_sense sense.entry)) }
{
    match sense {
        Sense::Variable(owner, place) => code.emit(refer(owner, place)),
        Sense::Reference(place) => {
            code.emit(load_word(Owner::OfRoutine, place))?;
            code.emit(load_word(Owner::OfRoutine, place + 1))
        }
        Sense::Constant(_)
        | Sense::Array(_, _, _)
        | Sense::Routine(_, _)
        | Sense::Function(_)
        | Sense::Interface(_)
        | Sense::Nothing => Ok(()),
    }
}

/// The test of an array's index.
pub fn test(code: &mut Drafts, array: Sense<'_>) -> Result<(), NoMemory>
    ensures { OnOk result (code.new ≡ code.old ++ test_code (seen_sense array.entry)) }
{
    match array {
        Sense::Array(_, _, bounds) => code.emit(test_index(bounds)),
        Sense::Constant(_) => Ok(()),
        Sense::Variable(_, _) => Ok(()),
        Sense::Reference(_) => Ok(()),
        Sense::Routine(_, _) => Ok(()),
        Sense::Function(_) => Ok(()),
        Sense::Interface(_) => Ok(()),
        Sense::Nothing => Ok(()),
    }
}

/// An element of an array, whose index is tested.
pub fn load_item(code: &mut Drafts, array: Sense<'_>) -> Result<(), NoMemory>
    requires { IsSmall (seen_sense array) }
    ensures { OnOk result (code.new ≡ code.old ++ element_code (seen_sense array.entry)) }
{
    match array {
        Sense::Array(owner, place, bounds) => {
            code.emit(load_element(owner, place, elements(bounds)))
        }
        Sense::Constant(_) => Ok(()),
        Sense::Variable(_, _) => Ok(()),
        Sense::Reference(_) => Ok(()),
        Sense::Routine(_, _) => Ok(()),
        Sense::Function(_) => Ok(()),
        Sense::Interface(_) => Ok(()),
        Sense::Nothing => Ok(()),
    }
}

/// An element of an array that is set.
pub fn store_item(code: &mut Drafts, array: Sense<'_>) -> Result<(), NoMemory>
    requires { IsSmall (seen_sense array) }
    ensures { OnOk result (code.new ≡ code.old ++ store_element_code (seen_sense array.entry)) }
{
    match array {
        Sense::Array(owner, place, bounds) => {
            code.emit(store_element(owner, place, elements(bounds)))
        }
        Sense::Constant(_) => Ok(()),
        Sense::Variable(_, _) => Ok(()),
        Sense::Reference(_) => Ok(()),
        Sense::Routine(_, _) => Ok(()),
        Sense::Function(_) => Ok(()),
        Sense::Interface(_) => Ok(()),
        Sense::Nothing => Ok(()),
    }
}

/// How many elements an array with these bounds has.
pub fn elements(bounds: Bounds) -> u16
    requires { size_of (seen_bounds bounds) ≤ 4096 }
    ensures { result ≡ size_of (seen_bounds bounds) }
{
    ((i32::from(bounds.high) - i32::from(bounds.low)).unsigned_abs() + 1) as u16
}
