// The cards of a program.

use solo_base::{Line, LineList};
use std::alloc::Global;
use std::process::Abort;

/// Adds a card so many times, unless it is no card or there is no memory.
pub fn add_times(program: &mut LineList, card: &str, times: usize) -> Option<()> {
    let card = Line::of(card.as_bytes())?;
    for _ in 0..times {
        program.push(&card).ok()?;
    }
    Some(())
}

/// Adds a card.
pub fn add_card(program: &mut LineList, card: &str) -> Option<()> {
    program.push(&Line::of(card.as_bytes())?).ok()
}

/// Adds the cards of a text, in which they are parted by `/`.
pub fn add_parted(program: &mut LineList, text: &str) -> Option<()> {
    for card in text.split('/') {
        add_card(program, card)?;
    }
    Some(())
}

/// The program of the cards of a text, in which they are parted by `/`.
pub fn parted(rt: &impl Abort, alloc: Global, text: &str) -> LineList {
    let mut program = LineList::new(alloc);
    add_parted(&mut program, text).expect(rt, "cards");
    program
}

/// The program of these cards.
pub fn program_of(rt: &impl Abort, alloc: Global, cards: &[&str]) -> LineList {
    let mut program = LineList::new(alloc);
    for card in cards {
        add_card(&mut program, card).expect(rt, "a card");
    }
    program
}
