//! Where processes meet before any of them begins.
ghost use Rattle.std.specs.Prelude.{◌≡◌, ◌<◌, ◌↔◌, false, IfErr, IfOk, IfSome, IsSome};

use std::marker::Model;
use std::sync::atomic::{AtomicU64, Ordering};
use std::sync::{OnceLock, OnceToken, Wait};

/// The start of some processes. One that has no thread would run once the others have ended, which would
/// wait for it: so none begins before all have come, or it is known that one has no thread. Contracts see
/// which start it is, and of how many.
#[derive(Drop)]
pub struct Start {
    come: AtomicU64,
    processes: u64,
    all: OnceLock<bool>,
}

impl Model for Start {
    ghost use Rattle.side_by_side.specs.Came.{Meeting};

    ghost Value = { Meeting };

    ghost view = { λ start. record { lock = start.all.id; processes = start.processes } };
}

/// What those that come are told: whether each of them has a thread.
pub type Told<'a> = OnceToken<'a, bool>;

impl Start {
    /// The start of so many processes.
    pub fn new(processes: u64) -> Start
        requires some { 0 < processes }
        ensures of { result.processes ≡ processes }
    {
        Start {
            come: AtomicU64::new(0),
            processes,
            all: OnceLock::new(),
        }
    }

    /// Comes, and waits until it is told. The last to come tells the others that all have. It waits without a
    /// limit, since each of the others has a thread, or it was told that one hasn't.
    pub fn come<R: Wait>(&self, rt: &R) -> Told<'_>
        ensures { result.of ≡ self.now.lock }
    {
        let come = self.come.fetch_add(1, Ordering::SeqCst).saturating_add(1);
        match self.tell_of(rt, come) {
            Some(told) => told,
            None => self.hear(rt),
        }
    }

    /// Tells all that one has no thread. It is called before that one comes, so nothing else was told but the
    /// same of another. Answers what was told: `Err` where it was told before.
    pub fn refuse<R: Wait>(&self, rt: &R) -> Result<Told<'_>, Told<'_>>
        ensures now { IfOk result (λ told. (told.of ≡ self.now.lock) × (told.value ≡ false)) }
        ensures before { IfErr result (λ told. told.of ≡ self.now.lock) }
    {
        self.tell(rt, false)
    }

    /// Whether all have come, as it was told.
    pub fn is_whole<'a>(&'a self, told: &Told<'a>) -> bool
        requires { told.now.of ≡ self.now.lock }
        ensures { result ≡ told.now.value }
    {
        *self.all.value(told)
    }

    /// Where so many are all, tells that all have come; then something is told. Else it tells nothing.
    fn tell_of<R: Wait>(&self, rt: &R, come: u64) -> Option<Told<'_>>
        ensures told { IfSome result (λ told. told.of ≡ self.now.lock) }
        ensures last { (come ≡ self.now.processes) ↔ IsSome result }
    {
        if come != self.processes {
            return None;
        }
        match self.tell(rt, true) {
            Ok(told) => Some(told),
            Err(told) => Some(told),
        }
    }

    /// Tells whether all have come, if nothing was told before.
    fn tell<R: Wait>(&self, rt: &R, whole: bool) -> Result<Told<'_>, Told<'_>>
        ensures now { IfOk result (λ told. (told.of ≡ self.now.lock) × (told.value ≡ whole)) }
        ensures before { IfErr result (λ told. told.of ≡ self.now.lock) }
    {
        match self.all.try_insert(rt, whole) {
            Ok(told) => Ok(told),
            Err((told, _)) => Err(told),
        }
    }

    /// Waits until it is told.
    fn hear<R: Wait>(&self, rt: &R) -> Told<'_>
        ensures { result.of ≡ self.now.lock }
    {
        for _ in rt.forever() {
            let _ = self.all.wait(rt);
            if let Some(told) = self.all.witness() {
                return told;
            }
        }
        unreachable!()
    }
}
