use crate::fault::Fault;
use solo_base::{Line, LineList};

/// Puts a card behind a program.
pub fn add(program: &mut LineList, card: &str) -> Result<(), Fault> {
    let line = Line::of(card.as_bytes()).ok_or(Fault::Unexpected("the card is no line"))?;
    Ok(program.push(&line)?)
}

/// Puts these cards behind a program, so many times.
pub fn add_all(program: &mut LineList, cards: &[&str], times: u32) -> Result<(), Fault> {
    for _ in 0..times {
        for card in cards {
            add(program, card)?;
        }
    }
    Ok(())
}
