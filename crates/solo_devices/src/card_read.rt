use solo_base::Line;

/// What a card unit answers.
#[derive(Debug, Drop)]
pub enum CardRead {
    /// The next card: a line of at most 80 characters without blanks at its end.
    Card(Line),
    /// The next line is no card.
    Spoiled,
    /// There are no more cards.
    End,
    /// The source failed.
    Failed,
    /// More than 16,777,216 bytes were taken.
    Limit,
}
