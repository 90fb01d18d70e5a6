ghost use Rattle.std.specs.Prelude.{◌≡◌, ◌<◌, ◌≤◌, ◌*◌, ◌+◌, ◌↔◌, ℕ, [], None, Some};
ghost use Rattle.solo_devices.specs.Area.{ReadsFrom, Writes, CountsFaults, HasWholePages};
ghost use Rattle.solo_edge.specs.Events.{InRange, range_of};
ghost use Rattle.solo_edge.specs.Honest.{ReadsIfHonest, WritesIfHonest};

use crate::{Calls, Recorded, Start};
use solo_base::{PAGE_LENGTH, Page};
use solo_devices::{Area, Moved};
use std::io::{Seek, SeekFrom};
use std::marker::PhantomData;
use std::os::unix::fs::FileExt;

/// A range of pages of a drive: each of its calls lies in it. A read of a page that the drive doesn't have
/// whole fails, and a write of one that it didn't have whole when the area was made isn't made: nothing is
/// written behind the end that it had then. What failed is counted.
#[derive(Drop)]
pub struct DriveArea<C: Calls, S: Start> {
    drive: C,
    first: u16,
    pages: u16,
    /// How many pages the drive had whole when the area was made.
    whole: u64,
    faults: u64,
    start: PhantomData<S>,
    ghost within: { InRange first pages (C.Calls.history drive) },
}

impl<C: Calls, S: Start> DriveArea<C, S> {
    ghost use Rattle.solo_edge.specs.DriveArea.{told_pages, calls_of, range_of_area};

    /// The area of so many pages of the drive, from page `first` on. The drive has a length of so many bytes.
    pub fn new(drive: C, length: u64, first: u16, pages: u16) -> DriveArea<C, S>
        requires { C.Calls.history drive ≡ [] }
        ensures untold { ⟦<DriveArea<C, S> as Area>⟧.pages result ≡ None }
        ensures size { ⟦<DriveArea<C, S> as Area>⟧.size result ≡ pages }
        ensures faults { ⟦<DriveArea<C, S> as Area>⟧.faults result ≡ 0 }
        ensures drive { calls_of result ≡ drive }
        ensures range { range_of_area result ≡ (first, pages) }
        ensures told { told_pages S.Start.pages S.Start.torn result
            ≡ Some (range_of first pages S.Start.pages) }
    {
        DriveArea {
            drive,
            first,
            pages,
            whole: whole_pages(length),
            faults: 0,
            start: PhantomData,
        }
    }

    /// How often a call failed so far.
    pub fn faults(&self) -> u64
        ensures { result ≡ ⟦<DriveArea<C, S> as Area>⟧.faults self.now }
    {
        self.faults
    }
}

impl<D: FileExt + Seek, S: Start> DriveArea<Recorded<D>, S> {
    ghost use Rattle.solo_edge.specs.DriveArea.{told_pages, range_of_area};

    /// The area of so many pages of this drive, from page `first` on, with a record of its calls. A drive
    /// that couldn't be opened is none, and one whose length can't be told has no page to be written.
    pub fn over(mut drive: Option<D>, first: u16, pages: u16) -> DriveArea<Recorded<D>, S>
        ensures untold { ⟦<DriveArea<Recorded<D>, S> as Area>⟧.pages result ≡ None }
        ensures size { ⟦<DriveArea<Recorded<D>, S> as Area>⟧.size result ≡ pages }
        ensures faults { ⟦<DriveArea<Recorded<D>, S> as Area>⟧.faults result ≡ 0 }
        ensures range { range_of_area result ≡ (first, pages) }
        ensures told { told_pages S.Start.pages S.Start.torn result
            ≡ Some (range_of first pages S.Start.pages) }
    {
        let length = match &mut drive {
            Some(drive) => drive.seek(SeekFrom::End(0)).unwrap_or(0),
            None => 0,
        };
        DriveArea::new(Recorded::new(drive), length, first, pages)
    }
}

impl<C: Calls, S: Start> Area for DriveArea<C, S> {
    ghost use Rattle.solo_edge.specs.DriveArea.{told_pages, calls_of, range_of_area};

    ghost pages = { λ _. None };

    ghost size = { λ area. area.pages };

    ghost faults = { λ area. area.faults };

    fn size(&self) -> u16 {
        self.pages
    }

    fn read(&mut self, n: u16, page: &mut Page) -> Moved
        requires { n < ⟦<DriveArea<C, S> as Area>⟧.size self.old }
        // A read that is done counts no fault.
        ensures done { result ≡ Moved.Done
            → ⟦<DriveArea<C, S> as Area>⟧.faults self.new ≡ ⟦<DriveArea<C, S> as Area>⟧.faults self.old }
        // Each call lies in the range, which stays.
        ensures within { InRange (range_of_area self.new).0 (range_of_area self.new).1
            (C.Calls.history (calls_of self.new)) }
        ensures range { range_of_area self.new ≡ range_of_area self.old }
        // Where the answers agree with the start of the drive, the page is the one that is told.
        ensures honest { ReadsIfHonest (told_pages S.Start.pages S.Start.torn self.old)
            (told_pages S.Start.pages S.Start.torn self.new) n result page.new.0 }
        // As the trait says.
        ensures page { ReadsFrom (⟦<DriveArea<C, S> as Area>⟧.pages self.old)
            (⟦<DriveArea<C, S> as Area>⟧.pages self.new) n result page.new.0 }
        ensures size { ⟦<DriveArea<C, S> as Area>⟧.size self.new ≡ ⟦<DriveArea<C, S> as Area>⟧.size self.old }
        ensures whole { HasWholePages (⟦<DriveArea<C, S> as Area>⟧.pages self.new) }
        ensures cause { CountsFaults (⟦<DriveArea<C, S> as Area>⟧.faults self.old)
            (⟦<DriveArea<C, S> as Area>⟧.faults self.new) result }
    {
        let address = u64::from(self.first) + u64::from(n);
        let moved = self.drive.read_page(address, page);
        counted(&mut self.faults, moved);
        moved
    }

    fn write(&mut self, n: u16, page: &Page) -> Moved
        requires { n < ⟦<DriveArea<C, S> as Area>⟧.size self.old }
        // A write that is done counts no fault.
        ensures done { result ≡ Moved.Done
            → ⟦<DriveArea<C, S> as Area>⟧.faults self.new ≡ ⟦<DriveArea<C, S> as Area>⟧.faults self.old }
        // Each call lies in the range, which stays.
        ensures within { InRange (range_of_area self.new).0 (range_of_area self.new).1
            (C.Calls.history (calls_of self.new)) }
        ensures range { range_of_area self.new ≡ range_of_area self.old }
        // Where the answers agree with the start of the drive, the page is told as it was written.
        ensures honest { WritesIfHonest (told_pages S.Start.pages S.Start.torn self.old)
            (told_pages S.Start.pages S.Start.torn self.new) n result page.now.0 }
        // As the trait says.
        ensures page { Writes (⟦<DriveArea<C, S> as Area>⟧.pages self.old)
            (⟦<DriveArea<C, S> as Area>⟧.pages self.new) n result page.now.0 }
        ensures size { ⟦<DriveArea<C, S> as Area>⟧.size self.new ≡ ⟦<DriveArea<C, S> as Area>⟧.size self.old }
        ensures whole { HasWholePages (⟦<DriveArea<C, S> as Area>⟧.pages self.new) }
        ensures cause { CountsFaults (⟦<DriveArea<C, S> as Area>⟧.faults self.old)
            (⟦<DriveArea<C, S> as Area>⟧.faults self.new) result }
    {
        let address = u64::from(self.first) + u64::from(n);
        let moved = if address < self.whole {
            self.drive.write_page(address, page)
        } else {
            Moved::Failed
        };
        counted(&mut self.faults, moved);
        moved
    }
}

/// Counts a call that failed.
fn counted(faults: &mut u64, moved: Moved)
    ensures cause { CountsFaults faults.old faults.new moved }
    ensures done { moved ≡ Moved.Done → faults.new ≡ faults.old }
{
    if matches!(moved, Moved::Failed) {
        *faults = faults.saturating_add(1);
    }
}

/// How many whole pages a drive of so many bytes has: each page that ends within them.
fn whole_pages(length: u64) -> u64
    ensures { (page : ℕ) → (page < result) ↔ ((page + 1) * 512 ≤ length) }
{
    length / PAGE_LENGTH as u64
}
