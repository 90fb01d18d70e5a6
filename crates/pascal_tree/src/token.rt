// The words of a program, and the lines on which they stand.

use crate::letters::Letters;
use std::marker::Model;

/// A reserved word of Sequential Pascal.
#[derive(Clone, Copy, Debug, PartialEq, Eq)]
pub enum Reserved {
    Array,
    Begin,
    Case,
    Const,
    Div,
    Do,
    Downto,
    Else,
    End,
    For,
    Function,
    If,
    Mod,
    Not,
    Of,
    Or,
    Procedure,
    Program,
    Repeat,
    Then,
    To,
    Until,
    Var,
    While,
}

/// A symbol of Sequential Pascal. `AND` is read as `&`, `[` as `(.` and `]` as `.)`.
#[derive(Clone, Copy, Debug, PartialEq, Eq)]
pub enum Symbol {
    /// `+`
    Plus,
    /// `-`
    Minus,
    /// `*`
    Times,
    /// `&`
    And,
    /// `=`
    Equal,
    /// `<>`
    NotEqual,
    /// `<`
    Less,
    /// `>`
    Greater,
    /// `<=`
    LessOrEqual,
    /// `>=`
    GreaterOrEqual,
    /// `:=`
    Becomes,
    /// `(`
    Open,
    /// `)`
    Close,
    /// `(.`
    OpenIndex,
    /// `.)`
    CloseIndex,
    /// `,`
    Comma,
    /// `;`
    Semicolon,
    /// `:`
    Colon,
    /// `.`
    Period,
    /// `..`
    UpTo,
}

/// A word of a program. The end of the program is a word too.
#[derive(Drop)]
pub enum Word {
    /// Its letters are capitals.
    Name(Letters),
    Reserved(Reserved),
    /// At most 32767.
    Number(u16),
    /// A character's code, at most 127.
    Character(u8),
    Symbol(Symbol),
    End,
}

/// A word, and the number from 1 of the card on which it begins.
///
/// Contracts see the word and the line. Every token keeps what is said at its word's variant.
#[derive(Drop)]
pub struct Token {
    pub word: Word,
    pub line: u32,
}

impl Model for Token {
    ghost use Rattle.pascal_tree.specs.Word.{Spot, IsWord};

    ghost Value = { Spot };

    ghost view = { λ t. record { word = t.word; line = t.line } };

    ghost inverse = { λ t. record { word = t.word; line = t.line } };

    ghost invariant = { λ t. IsWord t.word };
}
