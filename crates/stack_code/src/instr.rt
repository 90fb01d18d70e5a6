use crate::Op;

/// An instruction: an operation and two operands of 16 bits. A word that an operand stands for is
/// its two's complement.
#[derive(Clone, Copy, Debug, PartialEq, Eq)]
pub struct Instr {
    pub op: Op,
    pub a: u16,
    pub b: u16,
}

/// What code says of a routine: the place of its first instruction, how many parameters it has,
/// whether it is a function, how many words its frame has (parameters first, then a function's
/// result), and how many operands it has at most.
#[derive(Clone, Copy, Debug, PartialEq, Eq)]
pub struct RoutineInfo {
    pub start: u16,
    pub params: u8,
    pub function: bool,
    pub words: u16,
    pub height: u16,
}
