use crate::Line;

/// How many columns a card has.
pub const CARD_LENGTH: usize = 80;

/// What one line of a text gives. A card is a line of at most 80 characters without blanks at its
/// end; a longer one, or one with a character that doesn't print, is spoiled.
#[derive(Debug, Drop)]
pub enum Item {
    Line(Line),
    Spoiled,
}

/// What a line buffer hands over: the items of a text, and then its end.
#[derive(Debug, Drop)]
pub enum Feed {
    Item(Item),
    End,
}
