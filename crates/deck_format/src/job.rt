use solo_base::{Ident, LineList};

/// What is wrong with a card of a group.
#[derive(Clone, Copy, Debug, PartialEq, Eq)]
pub enum CardFaultKind {
    /// It is longer than 80 columns, or has a character that doesn't print.
    Spoiled,
    /// It is a control card that has no place here.
    Control,
}

/// The first fault of a group. Its cards are numbered from 1 behind the opener.
#[derive(Clone, Copy, Debug, PartialEq, Eq)]
pub struct CardFault {
    pub kind: CardFaultKind,
    pub card: u32,
    /// Whether the card stands among the input of a program: behind `#DATA`, or in a `#RUN` group.
    pub in_input: bool,
}

/// A job of a deck.
#[derive(Debug, Drop)]
pub enum Job {
    /// The cards up to the first fault are listed.
    List {
        name: Ident,
        cards: LineList,
        fault: Option<CardFault>,
    },
    /// The cards before `#DATA` are the program, and those behind it its input. The program may take so
    /// many ticks.
    Pascal {
        name: Ident,
        limit: u32,
        program: LineList,
        input: LineList,
        fault: Option<CardFault>,
    },
    /// The program stands in a file, and the cards up to the first fault are its input.
    Run {
        name: Ident,
        file: Ident,
        input: LineList,
        fault: Option<CardFault>,
    },
    /// So many cards stand outside groups.
    Skipped {
        count: u32,
    },
}
