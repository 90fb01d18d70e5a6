/// How a step went.
#[derive(Clone, Copy, Debug, PartialEq, Eq)]
pub enum Stepped {
    /// Its action has its reply.
    Acted,
    /// It waits, and makes the same call again once it is handed the turn.
    Delayed,
    /// It was handed the turn, made its call again, and has its reply.
    Resumed,
    /// It has ended.
    Ended,
}
