//! What is asked of a drive, page by page: that it keeps a record of its calls, whatever they answer.
ghost use Rattle.std.specs.Prelude.{◌≡◌, ◌<◌, ◌^◌, List, [], ◌∷◌};
ghost use Rattle.solo_edge.specs.Events.{DriveEvent, was_read, was_written};

use crate::record::Record;
use solo_base::{PAGE_LENGTH, Page};
use solo_devices::Moved;
use std::os::unix::fs::FileExt;

pub trait Calls {
    /// Each call so far with its answer, the newest first.
    ghost history: { Self → List DriveEvent };

    /// Reads the page at this address. A read that failed may leave any bytes in `page`.
    fn read_page(&mut self, at: u64, page: &mut Page) -> Moved
        requires { at < 2 ^ 17 }
        ensures { history self.new ≡ was_read at result page.new.0 ∷ history self.old };

    fn write_page(&mut self, at: u64, page: &Page) -> Moved
        requires { at < 2 ^ 17 }
        ensures { history self.new ≡ was_written at result page.now.0 ∷ history self.old };
}

const READ: u64 = 0;

const WRITTEN: u64 = 1;

/// A drive, or none, with the record of its calls.
#[derive(Drop)]
pub struct Recorded<D> {
    drive: Option<D>,
    log: Record,
}

impl<D: FileExt> Recorded<D> {
    /// A drive on which no call was made.
    pub fn new(drive: Option<D>) -> Recorded<D>
        ensures { ⟦<Recorded<D> as Calls>⟧.history result ≡ [] }
    {
        Recorded {
            drive,
            log: Record::new(),
        }
    }
}

impl<D: FileExt> Calls for Recorded<D> {
    ghost history = { λ d. d.log.events };

    fn read_page(&mut self, at: u64, page: &mut Page) -> Moved {
        let is_done = match &self.drive {
            Some(drive) => drive
                .read_exact_at(&mut page.0, at * PAGE_LENGTH as u64)
                .is_ok(),
            None => false,
        };
        if is_done {
            self.log.note(&[READ, at, 1], &page.0);
            Moved::Done
        } else {
            self.log.note(&[READ, at, 0], &page.0);
            Moved::Failed
        }
    }

    fn write_page(&mut self, at: u64, page: &Page) -> Moved {
        let is_done = match &self.drive {
            Some(drive) => drive.write_all_at(&page.0, at * PAGE_LENGTH as u64).is_ok(),
            None => false,
        };
        if is_done {
            self.log.note(&[WRITTEN, at, 1], &page.0);
            Moved::Done
        } else {
            self.log.note(&[WRITTEN, at, 0], &page.0);
            Moved::Failed
        }
    }
}
