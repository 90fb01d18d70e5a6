// Single instructions, and the forms for the two frames.

ghost use Rattle.std.specs.Prelude.{◌≡◌};
ghost use Rattle.pascal_code.specs.Instructions.{bare, with_a, with_both, push, tick, test_index, load_word, store_word, load_element, store_element, refer, call_with_array};
ghost use Rattle.pascal_compile.specs.Seen.{seen_owner, seen_bounds};

use crate::senses::{Bounds, Owner};
use stack_code::{Instr, Op};

/// An instruction without operands.
pub fn bare(op: Op) -> Instr
    ensures { result ≡ bare op }
{
    with_both(op, 0, 0)
}

/// An instruction with the operand a.
pub fn with_a(op: Op, a: u16) -> Instr
    ensures { result ≡ with_a op a }
{
    with_both(op, a, 0)
}

/// An instruction with both operands.
pub fn with_both(op: Op, a: u16, b: u16) -> Instr
    ensures { result ≡ with_both op a b }
{
    Instr { op, a, b }
}

/// PUSH of a number.
pub fn push(number: i16) -> Instr
    ensures { result ≡ push number }
{
    with_a(Op::Push, number.cast_unsigned())
}

/// TICK on a line.
pub fn tick(line: u32) -> Instr
    ensures { result ≡ tick line }
{
    with_both(Op::Tick, (line / 65536) as u16, (line % 65536) as u16)
}

/// The test of an index.
pub fn test_index(bounds: Bounds) -> Instr
    ensures { result ≡ test_index (seen_bounds bounds) }
{
    with_both(
        Op::Index,
        bounds.low.cast_unsigned(),
        bounds.high.cast_unsigned(),
    )
}

/// The load of a word.
pub fn load_word(owner: Owner, place: u16) -> Instr
    ensures { result ≡ load_word (seen_owner owner) place }
{
    match owner {
        Owner::OfProgram => with_a(Op::LoadG, place),
        Owner::OfRoutine => with_a(Op::LoadL, place),
    }
}

/// The store into a word.
pub fn store_word(owner: Owner, place: u16) -> Instr
    ensures { result ≡ store_word (seen_owner owner) place }
{
    match owner {
        Owner::OfProgram => with_a(Op::StoreG, place),
        Owner::OfRoutine => with_a(Op::StoreL, place),
    }
}

/// The load of an element of an array with so many elements.
pub fn load_element(owner: Owner, place: u16, count: u16) -> Instr
    ensures { result ≡ load_element (seen_owner owner) place count }
{
    match owner {
        Owner::OfProgram => with_both(Op::LoadGX, place, count),
        Owner::OfRoutine => with_both(Op::LoadLX, place, count),
    }
}

/// The store into an element of an array with so many elements.
pub fn store_element(owner: Owner, place: u16, count: u16) -> Instr
    ensures { result ≡ store_element (seen_owner owner) place count }
{
    match owner {
        Owner::OfProgram => with_both(Op::StoreGX, place, count),
        Owner::OfRoutine => with_both(Op::StoreLX, place, count),
    }
}

/// A reference to a word.
pub fn refer(owner: Owner, place: u16) -> Instr
    ensures { result ≡ refer (seen_owner owner) place }
{
    match owner {
        Owner::OfProgram => with_a(Op::RefG, place),
        Owner::OfRoutine => with_a(Op::RefL, place),
    }
}

/// The call of a row of the interface, with the array from a word on.
pub fn call_with_array(owner: Owner, row: u16, place: u16) -> Instr
    ensures { result ≡ call_with_array (seen_owner owner) row place }
{
    match owner {
        Owner::OfProgram => with_both(Op::SysG, row, place),
        Owner::OfRoutine => with_both(Op::SysL, row, place),
    }
}
