// Why not all came.

/// Why not all came.
#[derive(Clone, Copy, Debug, PartialEq, Eq)]
pub enum Cause {
    NoMemory,
    NoThread,
    /// The source failed. How, it knows itself.
    Source,
    /// The sink failed. How, it knows itself.
    Sink,
}

/// A source or a sink failed. How, it knows itself.
#[derive(Clone, Copy, Debug, PartialEq, Eq)]
pub struct Failed;
