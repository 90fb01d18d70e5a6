// The turn of a monitor.

/// Whose turn it is to enter a monitor, which has one queue variable for each value of `Queue`.
#[derive(Clone, Copy, Debug, PartialEq, Eq)]
pub enum Turn<Queue> {
    /// No process is preferred.
    Free,
    /// The process in this queue goes next. It stays in the queue until it resumes.
    Handed(Queue),
}
