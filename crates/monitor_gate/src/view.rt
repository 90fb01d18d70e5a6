//! What a pass knows of its gate. No value of these types is made: contracts alone see them.

use solo_base::ProcNo;
use std::collections::LinkedList;
use std::snapshot::Snapshot;

/// The entries that a process has completed, oldest first.
pub struct Line<E> {
    pub number: ProcNo,
    pub entries: LinkedList<E>,
}

/// Where a process stands to its gate.
pub enum Stage<S> {
    /// Its pass was joined into another.
    Spent,
    /// It made the gate, and so many passes.
    Making(u64),
    Outside,
    /// It has the state, which it took as this.
    Inside(S),
    /// It waits in a queue variable of the state.
    Delayed,
}

/// What a pass knows: its number, the state that its gate was made with, the entries that it has completed, and the lists of the passes that it joined.
pub struct View<S, E> {
    pub number: ProcNo,
    pub opening: Option<S>,
    pub stage: Stage<S>,
    pub entries: LinkedList<E>,
    pub joined: LinkedList<Line<E>>,
}

/// What a gate was made with.
pub(crate) struct Opening<S> {
    pub state: Snapshot<S>,
    pub passes: u8,
}

impl<S> Drop for Opening<S> {
    fn drop(self) {
        let Self {
            state: _,
            passes: _,
        } = self;
    }
}
