// The queue variable of a monitor.
ghost use Rattle.std.specs.Prelude.{◌≡◌, ◌↔◌, ℕ, Option, IsTrue, IsSome};

use solo_base::ProcNo;
use std::marker::Model;

/// A queue variable of Concurrent Pascal: it holds at most one process, which waits in it until it resumes.
#[derive(Debug, Drop)]
pub struct QueueVar {
    process: Option<ProcNo>,
}

impl Model for QueueVar {
    ghost Value = { Option ℕ };

    ghost view = { λ q. q.process };
}

impl QueueVar {
    /// A queue variable without a process.
    pub const fn new() -> Self
        ensures { result ≡ None }
    {
        QueueVar { process: None }
    }

    pub fn empty(&self) -> bool
        ensures { IsTrue result ↔ (self.now ≡ None) }
    {
        self.process.is_none()
    }

    /// Puts a process into it. It never takes a second one: the caller shows that it is empty.
    pub fn delay(&mut self, p: ProcNo)
        requires { self.old ≡ None }
        ensures { self.new ≡ Some p }
    {
        self.process = Some(p);
    }

    /// The process in it, to which a monitor hands its turn. It stays here until it resumes.
    pub fn cont(&self) -> Option<ProcNo>
        ensures { result ≡ self.now }
    {
        self.process
    }

    /// Takes the process out of it, which resumes.
    pub fn resume(&mut self) -> ProcNo
        requires { IsSome self.old }
        ensures process { self.old ≡ Some result }
        ensures emptied { self.new ≡ None }
    {
        let process = self.process.unwrap();
        self.process = None;
        process
    }
}
