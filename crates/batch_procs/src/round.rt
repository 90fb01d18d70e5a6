ghost use Rattle.std.specs.Prelude.{◌≡◌};
ghost use Rattle.batch_procs.specs.Machine.{step_of, held_at};

use crate::Action;

/// Where a process stands in its round.
#[derive(Clone, Copy)]
pub enum Step {
    /// It begins what it aims at.
    Free,
    /// It awaited room or a page, and asks for the disk.
    Awaited,
    /// It holds the disk, and moves a page or loads a file.
    Granted,
    /// It did so, and gives the disk back.
    Moved,
    /// It has ended.
    Ended,
}

impl Step {
    /// The step behind an action.
    #[inline(always)]
    pub fn after(action: &Action<'_>) -> Step
        ensures { result ≡ step_of action.now }
    {
        match action {
            Action::AwaitRoom | Action::AwaitItem => Step::Awaited,
            Action::Request => Step::Granted,
            Action::PutPage(_) | Action::TakePage | Action::Load(_) => Step::Moved,
            Action::Ended(_) => Step::Ended,
            _ => Step::Free,
        }
    }

    /// Whether the process holds the disk.
    pub fn holds_disk(self) -> bool
        ensures { result ≡ held_at self }
    {
        matches!(self, Step::Granted | Step::Moved)
    }
}
