//! Times the compiler on a large program, or on a small one so many times.
use crate::fault::Fault;
use crate::{cards, clock};
use pascal_compile::compile;
use solo_base::LineList;
use std::alloc::Global;
use std::time::CpuClock;

const SMALL: [&str; 20] = [
    "CONST N = 20;",
    "VAR I, S: INTEGER;",
    "A: ARRAY (.1..20.) OF INTEGER;",
    "FUNCTION SQUARE(X: INTEGER): INTEGER;",
    "BEGIN",
    "SQUARE := X * X",
    "END;",
    "PROCEDURE FILL(STEP: INTEGER);",
    "VAR J: INTEGER;",
    "BEGIN",
    "FOR J := 1 TO N DO",
    "A(.J.) := SQUARE(J) + STEP",
    "END;",
    "BEGIN",
    "FILL(3);",
    "S := 0;",
    "FOR I := 1 TO N DO",
    "S := (S + A(.I.)) MOD 1000;",
    "IF S > 500 THEN S := S - 500",
    "END.",
];

/// A statement of eighteen instructions, and how often it stands in the large program.
const STATEMENT: &str = "IF X < Y THEN X := X + Y * 3 ELSE Y := Y - 1;";

const STATEMENTS: u32 = 444;

/// Compiles a program so many times, or prints it where that is 0.
pub fn run(
    rt: &(impl AllocGlobal + CpuClock + Eprint + Print),
    kind: &str,
    times: u32,
) -> Result<(), Fault> {
    let mut program = LineList::new(rt.alloc());
    match kind {
        "large" => add_large(&mut program)?,
        "small" => cards::add_all(&mut program, &SMALL, 1)?,
        _ => return Err(Fault::Usage),
    }
    if times == 0 {
        return print(rt, &program);
    }
    time(rt, &program, times)
}

/// The large program: 7,993 instructions.
fn add_large(program: &mut LineList) -> Result<(), Fault> {
    cards::add_all(program, &["VAR X, Y: INTEGER;", "BEGIN"], 1)?;
    cards::add_all(program, &[STATEMENT], STATEMENTS)?;
    cards::add(program, "END.")
}

fn print(rt: &impl Print, program: &LineList) -> Result<(), Fault> {
    for place in 0..program.len() {
        let card = program.get(place);
        let Ok(text) = str::from_utf8(card.bytes()) else {
            return Err(Fault::Unexpected("no text"));
        };
        println!(rt; "{text}")?;
    }
    Ok(())
}

/// Prints the number of instructions, and the processor time of all.
fn time(
    rt: &(impl AllocGlobal + CpuClock + Eprint + Print),
    program: &LineList,
    times: u32,
) -> Result<(), Fault> {
    let mut instrs = 0;
    let began = clock::micros(rt)?;
    for _ in 0..times {
        instrs = count(rt.alloc(), program)?;
    }
    let time = clock::micros_since(rt, began)?;
    println!(rt; "{instrs} instructions")?;
    Ok(eprintln!(rt; "{time} microseconds")?)
}

/// The number of instructions of the program's code.
fn count(alloc: Global, program: &LineList) -> Result<usize, Fault> {
    match compile(alloc, program) {
        Ok(code) => Ok(code.code().instrs().len()),
        Err(_) => Err(Fault::Unexpected("no code")),
    }
}
