// Texts as lists of lines, and lists of lines as texts.

use solo_base::{Line, LineList, NoMemory};
use std::alloc::Global;

/// The cards of a text, each of which ends with a line feed or the text.
pub fn cards_of(alloc: Global, text: &str) -> Option<LineList> {
    let mut cards = LineList::new(alloc);
    for card in text.lines() {
        add_card(&mut cards, card)?;
    }
    Some(cards)
}

fn add_card(cards: &mut LineList, card: &str) -> Option<()> {
    let card = Line::of(card.as_bytes())?;
    cards.push(&card).ok()
}

/// These lines as a text, each with `/` behind it.
pub fn joined(alloc: Global, lines: &LineList) -> Result<Vec<u8>, NoMemory> {
    let mut text = Vec::new(alloc);
    for place in 0..lines.len() {
        text.extend_from_slice(lines.get(place).bytes())?;
        text.push(b'/')?;
    }
    Ok(text)
}
