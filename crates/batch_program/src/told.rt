use solo_base::{Line, ProgResult};

/// What a program that is under way tells.
#[derive(Debug, Drop)]
pub enum Told {
    /// The next line that it printed.
    Line(Line),
    /// It can't go on before the next card, and all lines that it completed were given.
    WaitsForCard,
    /// It has ended, by this result in this line of its source, and all of its lines were given.
    Ended { how: ProgResult, line: u32 },
}
