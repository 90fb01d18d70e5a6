ghost use Rattle.std.specs.Prelude.{◌≡◌, ◌<◌, ◌≤◌, ◌+◌, ◌*◌, ◌^◌, ℕ, length, slice_index, slice_index_or, None, Some, Err, IsSome, IfOk, MatchResult};
ghost use Rattle.stack_code.specs.declared.fault.CodeFault.TheVariants.{NoMemory, BadCode};
ghost use Rattle.stack_code.specs.CodeLists.{CodeLists, IsCode, FitsItsFields, no_routine, no_instr};
ghost use Rattle.stack_code.specs.Table.{op_at};
ghost use Rattle.solo_base.specs.PageBytes.{number_at};
ghost use Rattle.stack_code.specs.CodeFile.{code_bytes, wrong_byte, routines_end, uses_a, IsRoutineAt, IsInstrAt};

use crate::file::{byte_at, count_at, routines_end, wrong_byte};
use crate::{Code, CodeFault, Instr, Op, RoutineInfo};
use std::alloc::{AllocError, Global};

/// The code of a code file, or the least byte at which the file is wrong.
pub fn decode(alloc: Global, bytes: &[u8]) -> Result<Code, CodeFault>
    // What is read is written so.
    ensures read { IfOk result (λ code. bytes.now ≡ code_bytes code) }
    // What is written so is read, unless memory runs out.
    ensures only { (c : CodeLists) → IsCode c → FitsItsFields c → bytes.now ≡ code_bytes c
        → MatchResult result (λ code. code ≡ c) (λ fault. fault ≡ NoMemory) }
    // A fault is at the least wrong byte, and there is none where code is read. Want of memory hides none.
    ensures right { IfOk result (λ _. wrong_byte bytes.now ≡ None) }
    ensures wrong { (at : ℕ) → result ≡ Err (BadCode at) → wrong_byte bytes.now ≡ Some at }
    ensures told { (at : ℕ) → wrong_byte bytes.now ≡ Some at → result ≡ Err (BadCode at) }
{
    if let Some(at) = wrong_byte(bytes) {
        return Err(CodeFault::BadCode { at });
    }
    let routines = routines_of(alloc, bytes)?;
    let instrs = instrs_of(alloc, bytes)?;
    Ok(Code::of(routines, instrs))
}

fn routines_of(alloc: Global, bytes: &[u8]) -> Result<Vec<RoutineInfo>, AllocError>
    ensures count { IfOk result (λ v. length v.items ≡ number_at bytes.now 8) }
    ensures each { IfOk result (λ v. (k : ℕ) → k < length v.items
        → IsRoutineAt bytes.now (12 + 8 * k) (slice_index_or v.items k no_routine)) }
{
    let mut routines = Vec::new(alloc);
    for k in 0..count_at(bytes, 8) {
        routines.push(routine_at(bytes, 12 + 8 * k))?;
    }
    Ok(routines)
}

fn routine_at(bytes: &[u8], place: usize) -> RoutineInfo
    requires { place < 2 ^ 20 }
    ensures { IsRoutineAt bytes.now place result }
{
    RoutineInfo {
        start: count_at(bytes, place) as u16,
        params: byte_at(bytes, place + 2),
        function: byte_at(bytes, place + 3) == 1,
        words: count_at(bytes, place + 4) as u16,
        height: count_at(bytes, place + 6) as u16,
    }
}

fn instrs_of(alloc: Global, bytes: &[u8]) -> Result<Vec<Instr>, AllocError>
    requires { (i : ℕ) → i < number_at bytes.now 10
        → IsSome (op_at (slice_index bytes.now (routines_end bytes.now + 5 * i))) }
    ensures count { IfOk result (λ v. length v.items ≡ number_at bytes.now 10) }
    ensures each { IfOk result (λ v. (i : ℕ) → i < length v.items
        → IsInstrAt bytes.now (routines_end bytes.now + 5 * i) (slice_index_or v.items i no_instr)) }
{
    let start = routines_end(bytes);
    let mut instrs = Vec::new(alloc);
    for i in 0..count_at(bytes, 10) {
        instrs.push(instr_at(bytes, start + 5 * i))?;
    }
    Ok(instrs)
}

fn instr_at(bytes: &[u8], place: usize) -> Instr
    requires place { place < 2 ^ 20 }
    requires number { IsSome (op_at (slice_index bytes.now place)) }
    ensures { IsInstrAt bytes.now place result }
{
    match Op::at(byte_at(bytes, place)) {
        Some(op) => Instr {
            op,
            a: count_at(bytes, place + 1) as u16,
            b: count_at(bytes, place + 3) as u16,
        },
        None => unreachable!(),
    }
}
