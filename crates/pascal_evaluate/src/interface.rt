// Calls of the interface, as the batch answers them.

ghost use Rattle.std.specs.Prelude.{◌≡◌, ◌≤◌, ◌∷◌, [], ℕ, List, OnOk, reverse, drop, pos, ◌+ℤ◌};
ghost use Rattle.solo_base.specs.Arithmetic.{byte_of, is_byte, are_bytes};
ghost use Rattle.solo_base.specs.declared.system_call.SysCall.TheVariants as calls;
ghost use Rattle.solo_base.specs.declared.interface.Procedure.TheVariants as row;
ghost use Rattle.pascal_mean.specs.Variables.{size_of, element_at, whole_array};
ghost use Rattle.pascal_mean.specs.Calls.{values_in, variables_in, arrays_in, first_value, array_read, set_variables};
ghost use Rattle.pascal_mean.specs.Batch.{next_character};
ghost use Rattle.pascal_evaluate.specs.SeenNames.{seen_bounds};
ghost use Rattle.pascal_evaluate.specs.SeenStore.{situation, seen_array, seen_made, all_given, is_read, reads};
ghost use Rattle.pascal_evaluate.specs.Rows.{RanRow};

use crate::activation::ArrayPlace;
use crate::calls::{Given, first_array, first_value, last_variable};
use crate::means::Bounds;
use crate::run::{Made, Run};
use crate::stop::Stop;
use solo_base::{NoMemory, Procedure, ProgResult};

/// The code that is read where the input has ended.
const END_OF_MEDIUM: u8 = 25;

/// A call of a row of the interface, which gives no value that counts.
pub fn interface(
    text: &[u8],
    run: &mut Run,
    procedure: Procedure,
    given: &[Given],
) -> Result<i16, Stop>
    ensures { RanRow text.now procedure (all_given given.now) (situation run.old)
        result (situation run.new) }
{
    match procedure {
        Procedure::Read => read(text, run, given),
        Procedure::Write => write(run, given),
        Procedure::WriteInt => write_number(run, given),
        Procedure::Display => display(run, given),
        Procedure::Put => put(run, given),
        Procedure::Accept
        | Procedure::Open
        | Procedure::Close
        | Procedure::Get
        | Procedure::Length
        | Procedure::Lookup
        | Procedure::ReadArg
        | Procedure::WriteArg
        | Procedure::Run => Err(Stop::Over(ProgResult::CallError)),
    }
}

// The next character of the input, which the variable gets.
fn read(text: &[u8], run: &mut Run, given: &[Given]) -> Result<i16, Stop>
    ensures { RanRow text.now row.Read (all_given given.now) (situation run.old)
        result (situation run.new) }
{
    let value = i16::from(character_at(text, reads(&run.made)));
    run.made.push(Made::Read)?;
    set_last(run, given, value)?;
    Ok(value)
}

// The last of the variables among the arguments gets a value.
fn set_last(run: &mut Run, given: &[Given], value: i16) -> Result<(), NoMemory>
    ensures { OnOk result (situation run.new
        ≡ set_variables (reverse (variables_in (all_given given.now))) (value ∷ [])
        (situation run.old)) }
{
    match last_variable(given) {
        Some(place) => run.store(place, value),
        None => Ok(()),
    }
}

// How many characters were read.
fn reads(made: &[Made]) -> usize
    ensures { result ≡ reads made.now }
{
    let mut count = 0;
    for place in 0..made.len() {
        if is_read(made[place]) {
            count += 1;
        }
    }
    count
}

fn is_read(call: Made) -> bool
    ensures { result ≡ is_read call }
{
    matches!(call, Made::Read)
}

fn character_at(text: &[u8], place: usize) -> u8
    ensures { result ≡ next_character (drop place text.now) }
{
    match text.get(place) {
        Some(code) => *code,
        None => END_OF_MEDIUM,
    }
}

// A character is written, where the number is one.
fn write(run: &mut Run, given: &[Given]) -> Result<i16, Stop>
    ensures { (text : List ℕ) → RanRow text row.Write (all_given given.now) (situation run.old)
        result (situation run.new) }
{
    match byte_in(given) {
        Some(code) => {
            run.made.push(Made::Write(code))?;
            Ok(0)
        }
        None => Err(Stop::Over(ProgResult::RangeError)),
    }
}

fn write_number(run: &mut Run, given: &[Given]) -> Result<i16, Stop>
    ensures { (text : List ℕ) → RanRow text row.WriteInt (all_given given.now) (situation run.old)
        result (situation run.new) }
{
    run.made.push(number_in(given))?;
    Ok(0)
}

fn number_in(given: &[Given]) -> Made
    ensures { seen_made result ≡ calls.WriteInt (first_value (values_in (all_given given.now))) }
{
    Made::WriteInt(first_value(given))
}

// The typewriter is refused, where the number is a character.
fn display(run: &Run, given: &[Given]) -> Result<i16, Stop>
    ensures { (text : List ℕ) → RanRow text row.Display (all_given given.now) (situation run.now)
        result (situation run.now) }
{
    match byte_in(given) {
        Some(_) => Err(Stop::Over(ProgResult::CallError)),
        None => Err(Stop::Over(ProgResult::RangeError)),
    }
}

// Files are refused, where the array has bytes.
fn put(run: &Run, given: &[Given]) -> Result<i16, Stop>
    ensures { (text : List ℕ) → RanRow text row.Put (all_given given.now) (situation run.now)
        result (situation run.now) }
{
    if gives_bytes(run, given) {
        Err(Stop::Over(ProgResult::CallError))
    } else {
        Err(Stop::Over(ProgResult::RangeError))
    }
}

// Whether each element of the array among the arguments is a byte.
fn gives_bytes(run: &Run, given: &[Given]) -> bool
    ensures { result
        ≡ are_bytes (array_read (arrays_in (all_given given.now)) (situation run.now)) }
{
    match first_array(given) {
        Some(array) => has_bytes(run, array),
        None => true,
    }
}

fn has_bytes(run: &Run, array: &ArrayPlace) -> bool
    ensures { result ≡ are_bytes (whole_array (seen_array array.now) (situation run.now)) }
{
    for place in 0..size_of(array.bounds) {
        if !is_byte_at(run, array, place) {
            return false;
        }
    }
    true
}

// Whether the element at a place behind the lower bound is a byte.
fn is_byte_at(run: &Run, array: &ArrayPlace, place: u32) -> bool
    requires { place ≤ 65536 }
    ensures { let a = seen_array array.now in
        result ≡ is_byte (element_at a ((a.bounds).low +ℤ pos place) (situation run.now)) }
{
    let index = index_at(array.bounds, place);
    is_byte(run.element(array.activation, array.letters.bytes(), index))
}

fn index_at(bounds: Bounds, place: u32) -> i32
    requires { place ≤ 65536 }
    ensures { result ≡ bounds.low +ℤ pos place }
{
    i32::from(bounds.low) + place as i32
}

// How many elements lie between the bounds of an array.
fn size_of(bounds: Bounds) -> u32
    ensures size { result ≡ size_of (seen_bounds bounds) }
    ensures most { result ≤ 65536 }
{
    let above = i32::from(bounds.high) - i32::from(bounds.low);
    above.unsigned_abs() + 1
}

fn is_byte(word: i16) -> bool
    ensures { result ≡ is_byte word }
{
    0 <= word && word <= 255
}

// The first value as a byte, if it is one.
fn byte_in(given: &[Given]) -> Option<u8>
    ensures { result ≡ byte_of (first_value (values_in (all_given given.now))) }
{
    u8::try_from(first_value(given)).ok()
}
