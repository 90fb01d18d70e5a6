//! Times the scanner on a text of so many routines of 400 bytes.
use crate::fault::Fault;
use crate::{cards, clock};
use pascal_read::scan;
use solo_base::LineList;
use std::time::CpuClock;

/// A routine of 400 characters and 65 words.
const ROUTINE: [&str; 14] = [
    "PROCEDURE SORT(COUNT: INTEGER);",
    "\"SORTS THE FIRST VALUES OF THE TABLE BY EXCHANGES, THE LEAST ONE FIRST.\"",
    "VAR I, J, LEAST: INTEGER;",
    "BEGIN",
    "  FOR I := 1 TO COUNT - 1 DO",
    "  BEGIN",
    "    LEAST := I;",
    "    FOR J := I + 1 TO COUNT DO",
    "      IF TABLE(.J.) < TABLE(.LEAST.) THEN LEAST := J;",
    "    \"THE LEAST OF THE REST GOES TO THE FRONT,\"",
    "    \"AND WHAT STOOD THERE GOES TO THE LEAST ONE'S PLACE.\"",
    "    EXCHANGE(I, LEAST)",
    "  END",
    "END;",
];

pub fn run(
    rt: &(impl AllocGlobal + CpuClock + Eprint + Print),
    routines: u32,
) -> Result<(), Fault> {
    let mut program = LineList::new(rt.alloc());
    cards::add_all(&mut program, &ROUTINE, routines)?;
    let began = clock::micros(rt)?;
    let Ok(tokens) = scan(rt.alloc(), &program) else {
        return Err(Fault::Unexpected("no tokens"));
    };
    let time = clock::micros_since(rt, began)?;
    let count = tokens.len();
    println!(rt; "{count} tokens")?;
    Ok(eprintln!(rt; "{time} microseconds")?)
}
