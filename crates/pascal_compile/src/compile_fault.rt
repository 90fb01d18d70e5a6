// Why the cards of a program have no code.

/// Why the cards of a program have no code, in the order in which it is tested.
#[derive(Clone, Copy, Debug, PartialEq, Eq)]
pub enum CompileFault {
    /// The first bad word stands on this line.
    BadWord { line: u32 },
    /// The words spell no tree. On this line stands the first error.
    Syntax { line: u32 },
    /// The first broken rule, with the line of the word that is named.
    Semantic { line: u32, rule: u8 },
    /// The code would have more than 8,192 instructions.
    CodeLimit,
    /// Memory was refused.
    NoMemory,
}
