use crate::{Frame, Operands};

/// What holds an activation of a routine: the routine's number, the place of its next instruction,
/// its line (0 until its first tick), the words of its frame and its operand stack.
#[derive(Debug, Drop)]
pub struct Slot {
    pub(crate) routine: u16,
    pub(crate) place: u16,
    pub(crate) line: u32,
    pub(crate) words: Frame,
    pub(crate) operands: Operands,
}
