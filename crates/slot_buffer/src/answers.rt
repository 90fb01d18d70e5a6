// What a buffer answers.

/// The answer to a put. An item that wasn't put is handed back.
#[derive(Debug, Drop, PartialEq, Eq)]
pub enum Put<T> {
    Done,
    /// The buffer is full: the sender waits, and makes the same call again once the turn is handed to it.
    Delayed(T),
    /// The receiver stopped first.
    Stopped(T),
}

/// The answer to a take.
#[derive(Debug, Drop, PartialEq, Eq)]
pub enum Take<T> {
    Item(T),
    /// The buffer is empty: the receiver waits, and makes the same call again once the turn is handed to it.
    Delayed,
    /// The sender stopped first, and nothing is left inside.
    Stopped,
}

/// The answer to a put at a running buffer whose receiver stopped first: the item comes back.
#[derive(Debug, Drop, PartialEq, Eq)]
pub struct Stopped<T>(pub T);

/// The answer to a take at a running buffer whose sender stopped first and in which nothing is left.
#[derive(Clone, Copy, Debug, PartialEq, Eq)]
pub struct Ended;
