// A program, and the listing of its code.

use crate::cards::cards_of;
use pascal_compile::{CompileFault, compile};
use solo_base::NoMemory;
use stack_code::{Code, RoutineInfo, Verified, listing};
use std::alloc::Global;
use std::process::Abort;

/// A program, its routines and its instructions. Cards end with a line feed; instructions are parted
/// by semicolons, and an operand that isn't named is 0; routines are parted by semicolons, each with
/// its start, parameters, result, words and height.
pub type Row = (&'static str, &'static str, &'static str);

/// Each program has this code.
pub fn each_compiles(rt: &impl Abort, alloc: Global, rows: &[Row]) {
    for row in rows {
        compiles(rt, alloc, row);
    }
}

fn compiles(rt: &impl Abort, alloc: Global, row: &Row) {
    let (program, routines, instrs) = *row;
    let verified = code_of(rt, alloc, program);
    let code = verified.code();
    let found = written(alloc, code).expect(rt, "a listing");
    assert!(rt;
        found.as_str() == instrs,
        "instructions: {program}\n{found}"
    );
    let found = infos(alloc, code.routines())
        .ok()
        .expect(rt, "ample memory");
    assert!(rt; found.as_str() == routines, "routines: {program}\n{found}");
}

/// The code of a program.
pub fn code_of(rt: &impl Abort, alloc: Global, program: &str) -> Verified {
    let cards = cards_of(alloc, program).expect(rt, "cards");
    match compile(alloc, &cards) {
        Ok(verified) => verified,
        Err(fault) => panic!(rt; "{fault:?}: {program}"),
    }
}

/// A program that has no code, and why.
pub type FaultRow = (&'static str, CompileFault);

/// Each program is refused for its reason.
pub fn each_is_refused(rt: &impl Abort, alloc: Global, rows: &[FaultRow]) {
    for (program, fault) in rows {
        is_refused(rt, alloc, program, *fault);
    }
}

/// The program is refused for this reason.
pub fn is_refused(rt: &impl Abort, alloc: Global, program: &str, fault: CompileFault) {
    let cards = cards_of(alloc, program).expect(rt, "cards");
    let found = compile(alloc, &cards).err();
    assert!(rt; found == Some(fault), "{found:?}: {program}");
}

fn written(alloc: Global, code: &Code) -> Option<String> {
    let lines = listing(alloc, code).ok()?;
    let mut text = String::new(alloc);
    for place in 0..lines.len() {
        add_line(&mut text, place, lines.get(place).bytes())?;
    }
    Some(text)
}

fn add_line(text: &mut String, place: usize, line: &[u8]) -> Option<()> {
    if place > 0 {
        text.push_str(";").ok()?;
    }
    let line = str::from_utf8(line).ok()?;
    text.push_str(short(line)).ok()
}

fn short(line: &str) -> &str {
    match line.strip_suffix(" 0") {
        Some(front) => front.strip_suffix(" 0").unwrap_or(front),
        None => line,
    }
}

fn infos(alloc: Global, routines: &[RoutineInfo]) -> Result<String, NoMemory> {
    let mut text = String::new(alloc);
    for place in 0..routines.len() {
        if place > 0 {
            text.push_str(";")?;
        }
        let RoutineInfo {
            start,
            params,
            function,
            words,
            height,
        } = routines[place];
        let function = u8::from(function);
        text.push_str(&format!(in alloc; "{start} {params} {function} {words} {height}")?)?;
    }
    Ok(text)
}
