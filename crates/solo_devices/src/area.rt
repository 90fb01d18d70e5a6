ghost use Rattle.std.specs.Prelude.{◌≡◌, ◌<◌, ℕ, List, Option};
ghost use Rattle.solo_devices.specs.Area.{ReadsFrom, Writes, CountsFaults, HasSize, HasWholePages};

use solo_base::Page;

/// Whether a page was read or written.
#[derive(Clone, Copy, Debug, PartialEq, Eq)]
pub enum Moved {
    Done,
    Failed,
}

/// A range of pages of a disk, numbered from 0.
pub trait Area {
    /// The pages, where the area tells them.
    ghost pages: { Self → Option (List (List ℕ)) };

    /// How many pages it has.
    ghost size: { Self → ℕ };

    /// How often a call failed so far.
    ghost faults: { Self → ℕ };

    /// How many pages it has.
    fn size(&self) -> u16
        ensures size { result ≡ size self.now }
        ensures told { HasSize (pages self.now) (size self.now) }
        ensures whole { HasWholePages (pages self.now) };

    /// Reads page `n`. A read that failed may leave any bytes in `page`.
    fn read(&mut self, n: u16, page: &mut Page) -> Moved
        requires { n < size self.old }
        ensures page { ReadsFrom (pages self.old) (pages self.new) n result page.new.0 }
        ensures size { size self.new ≡ size self.old }
        ensures whole { HasWholePages (pages self.new) }
        ensures cause { CountsFaults (faults self.old) (faults self.new) result };

    /// Writes page `n`. A write that failed may leave any bytes in page `n`, and leaves all others.
    fn write(&mut self, n: u16, page: &Page) -> Moved
        requires { n < size self.old }
        ensures page { Writes (pages self.old) (pages self.new) n result page.now.0 }
        ensures size { size self.new ≡ size self.old }
        ensures whole { HasWholePages (pages self.new) }
        ensures cause { CountsFaults (faults self.old) (faults self.new) result };
}
