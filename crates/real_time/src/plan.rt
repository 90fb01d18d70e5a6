/// When a task starts, in seconds of the clock.
#[derive(Clone, Copy, Debug)]
pub enum Plan {
    /// At no time.
    Never,
    /// First at a second, and then each so many seconds; with a period of 0 never again.
    First { start: u32, period: u32 },
}

/// What TASK answers.
#[derive(Clone, Copy, Debug)]
pub enum Named {
    /// A task has the name already.
    TaskExists,
    /// There are eight tasks.
    TableFull,
    /// There is one task more.
    Done,
}

/// What START or STOP answers.
#[derive(Clone, Copy, Debug)]
pub enum Planned {
    /// No task has the name.
    NoTask,
    /// The time of a START has passed.
    TimeIsPast,
    /// The task has its plan, or none.
    Done,
}
