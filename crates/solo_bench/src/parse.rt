//! Times the parser on a body of so many times some statements, and measures the memory that the tree takes.
use crate::fault::Fault;
use crate::memory::pages_taken;
use crate::{cards, clock};
use pascal_read::{parse, scan};
use solo_base::LineList;
use std::alloc::Global;
use std::fs::Files;
use std::time::CpuClock;

/// Ten statements of 68 words.
const STATEMENTS: [&str; 8] = [
    "FOR I := 1 TO COUNT - 1 DO",
    "BEGIN",
    "  LEAST := I;",
    "  FOR J := I + 1 TO COUNT DO",
    "    IF TABLE(.J.) < TABLE(.LEAST.) THEN LEAST := J;",
    "  IF LEAST <> I THEN EXCHANGE(I, LEAST)",
    "END;",
    "WHILE COUNT > 0 DO COUNT := COUNT - (COUNT DIV 2 + 1);",
];

pub fn run(
    rt: &(impl AllocGlobal + CpuClock + Eprint + Files + Print),
    times: u32,
    card: Option<&String>,
) -> Result<(), Fault> {
    let program = match card {
        Some(card) => program(rt.alloc(), &[card.as_str()], times)?,
        None => program(rt.alloc(), &STATEMENTS, times)?,
    };
    let pages_of_text = pages_taken(rt)?;
    let Ok(tokens) = scan(rt.alloc(), &program) else {
        return Err(Fault::Unexpected("no tokens"));
    };
    let count = tokens.len();
    let began = clock::micros(rt)?;
    let Ok(tree) = parse(rt.alloc(), tokens) else {
        return Err(Fault::Unexpected("no tree"));
    };
    let time = clock::micros_since(rt, began)?;
    let pages_of_tree = pages_taken(rt)?.saturating_sub(pages_of_text);
    let later = tree.program.body.statements.rest.len();
    println!(rt; "{count} tokens, {later} later statements in the body")?;
    Ok(eprintln!(rt; "{time} microseconds, {pages_of_tree} pages of tree")?)
}

/// A program whose body has these cards so many times.
fn program(alloc: Global, cards: &[&str], times: u32) -> Result<LineList, Fault> {
    let mut program = LineList::new(alloc);
    cards::add(&mut program, "BEGIN")?;
    cards::add_all(&mut program, cards, times)?;
    cards::add(&mut program, "END.")?;
    Ok(program)
}
