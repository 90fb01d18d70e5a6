// Code by hand.

use solo_base::NoMemory;
use stack_code::{Op, Verified, decode, verify};
use std::alloc::Global;

/// A routine: start, parameters, function's mark, words, height.
pub type Routine = [u16; 5];

/// An instruction by numbers: its operation's, a and b.
pub type Numbers = [u16; 3];

/// An instruction by its operation, a and b.
pub type Written = (Op, u16, u16);

pub const HALT: Written = (Op::Halt, 0, 0);

pub const TICK: Written = (Op::Tick, 0, 1);

pub const READ: Written = (Op::Sys, 0, 0);

pub const WRITE: Written = (Op::Sys, 1, 0);

pub const WRITEINT: Written = (Op::Sys, 2, 0);

pub const fn tick(line: u16) -> Written {
    (Op::Tick, 0, line)
}

pub const fn push(word: i16) -> Written {
    (Op::Push, word.cast_unsigned(), 0)
}

pub const fn sys(row: u16) -> Written {
    (Op::Sys, row, 0)
}

/// Loads a word of the program.
pub const fn load(word: u16) -> Written {
    (Op::LoadG, word, 0)
}

/// Stores a word of the program.
pub const fn store(word: u16) -> Written {
    (Op::StoreG, word, 0)
}

fn put_number(bytes: &mut Vec<u8>, number: u16) -> Result<(), NoMemory> {
    Ok(bytes.extend_from_slice(&number.to_be_bytes())?)
}

fn put_routine(bytes: &mut Vec<u8>, routine: &Routine) -> Result<(), NoMemory> {
    let [start, params, function, words, height] = *routine;
    put_number(bytes, start)?;
    bytes.push((params % 256) as u8)?;
    bytes.push((function % 256) as u8)?;
    put_number(bytes, words)?;
    put_number(bytes, height)
}

fn put_instr(bytes: &mut Vec<u8>, instr: &Numbers) -> Result<(), NoMemory> {
    let [op, a, b] = *instr;
    bytes.push((op % 256) as u8)?;
    put_number(bytes, a)?;
    put_number(bytes, b)
}

fn fill_page(bytes: &mut Vec<u8>) -> Result<(), NoMemory> {
    for _ in 0..512 {
        if bytes.len() % 512 != 0 {
            bytes.push(0)?;
        }
    }
    Ok(())
}

/// Puts these routines and instructions behind others, each as in a code file.
fn put_all(bytes: &mut Vec<u8>, routines: &[Routine], instrs: &[Numbers]) -> Result<(), NoMemory> {
    bytes.extend_from_slice(b"SEQCODE1")?;
    put_number(bytes, (routines.len() % 65536) as u16)?;
    put_number(bytes, (instrs.len() % 65536) as u16)?;
    for routine in routines {
        put_routine(bytes, routine)?;
    }
    for instr in instrs {
        put_instr(bytes, instr)?;
    }
    fill_page(bytes)
}

/// The code file of these routines and instructions.
pub fn code_file(
    alloc: Global,
    routines: &[Routine],
    instrs: &[Numbers],
) -> Result<Vec<u8>, NoMemory> {
    let mut bytes = Vec::new(alloc);
    put_all(&mut bytes, routines, instrs)?;
    Ok(bytes)
}

fn by_numbers(alloc: Global, instrs: &[Written]) -> Result<Vec<Numbers>, NoMemory> {
    let mut numbers = Vec::new(alloc);
    for (op, a, b) in instrs {
        numbers.push([u16::from(op.row().number), *a, *b])?;
    }
    Ok(numbers)
}

/// The code of these routines and instructions, which may be run.
pub fn verified(alloc: Global, routines: &[Routine], instrs: &[Written]) -> Option<Verified> {
    let numbers = by_numbers(alloc, instrs).ok()?;
    let bytes = code_file(alloc, routines, &numbers).ok()?;
    let code = decode(alloc, &bytes).ok()?;
    verify(code).ok()
}
