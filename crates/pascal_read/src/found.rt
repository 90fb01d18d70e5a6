use pascal_tree::Word;

/// The code that stands for a card's end.
pub const CARD_END: u8 = 10;

/// A word that stands at a place of a card, and how many characters it has there.
#[derive(Drop)]
pub struct Found {
    pub word: Word,
    pub length: usize,
}
