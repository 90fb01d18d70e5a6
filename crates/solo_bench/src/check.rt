//! Times the static rules on a program of so many constants and statements.
use crate::fault::Fault;
use crate::{cards, clock};
use pascal_check::check;
use pascal_read::{parse, scan};
use solo_base::LineList;
use std::alloc::Global;
use std::time::CpuClock;

/// Names have one length, so that ten times the names are ten times the text.
const FIRST_NUMBER: u32 = 1_000_000;

pub fn run(
    rt: &(impl AllocGlobal + CpuClock + Eprint + Print),
    constants: u32,
    statements: u32,
) -> Result<(), Fault> {
    let program = program(rt.alloc(), constants, statements)?;
    let Ok(tokens) = scan(rt.alloc(), &program) else {
        return Err(Fault::Unexpected("no tokens"));
    };
    let Ok(tree) = parse(rt.alloc(), tokens) else {
        return Err(Fault::Unexpected("no tree"));
    };
    let began = clock::micros(rt)?;
    let Ok(checked) = check(tree) else {
        return Err(Fault::Unexpected("a rule is broken"));
    };
    let time = clock::micros_since(rt, began)?;
    let later = checked.tree().program.body.statements.rest.len();
    println!(rt; "{later} later statements in the body")?;
    Ok(eprintln!(rt; "{time} microseconds")?)
}

/// A program of so many constants, and of so many statements that use them in turn.
fn program(alloc: Global, constants: u32, statements: u32) -> Result<LineList, Fault> {
    let mut program = LineList::new(alloc);
    cards::add(&mut program, "CONST FIRST = 1;")?;
    for number in FIRST_NUMBER..constants.saturating_add(FIRST_NUMBER) {
        let card = format!(in alloc; "C{number} = FIRST;")?;
        cards::add(&mut program, card.as_str())?;
    }
    cards::add(&mut program, "VAR X: INTEGER;")?;
    cards::add(&mut program, "BEGIN")?;
    for number in 0..statements {
        let used = number
            .checked_rem(constants)
            .unwrap_or(0)
            .saturating_add(FIRST_NUMBER);
        let card = format!(in alloc; "IF X < C{used} THEN X := X + C{used} * (X - FIRST);")?;
        cards::add(&mut program, card.as_str())?;
    }
    cards::add(&mut program, "END.")?;
    Ok(program)
}
