use crate::own::Own;
use stack_machine::Machine;

/// A program on the stack: its machine, and what it has of its own.
#[derive(Drop)]
pub struct Frame {
    pub(crate) machine: Machine,
    pub(crate) own: Own,
}
