// What a spool answers.

/// The answer to a process that awaits room or an item.
#[derive(Clone, Copy, Debug, PartialEq, Eq)]
pub enum Await {
    /// There is room, or an item.
    Ready,
    /// There is none: the process waits, and makes the same call again once the turn is handed to it.
    Delayed,
    /// The other side stopped first, and nothing more comes of it.
    Stopped,
}

/// The answer to a take.
#[derive(Clone, Copy, Debug, PartialEq, Eq)]
pub enum Fetched {
    /// The page was read. `last` is the mark of the page that was put, whatever the disk reads.
    Done { last: bool },
    Failed,
}

/// The answer of a running spool to an await: the other side stopped first, and nothing more comes of it.
#[derive(Clone, Copy, Debug, PartialEq, Eq)]
pub struct Ended;
