ghost use Rattle.std.specs.Prelude.{◌≡◌, ◌↔◌, ◌<◌, Some, replicate, IfOk};
ghost use Rattle.solo_base.specs.PageBytes.{zero_page};
ghost use Rattle.solo_devices.specs.Area.{ReadsFrom, Writes, CountsFaults, HasWholePages};
ghost use Rattle.solo_devices.specs.FailingCalls.{FailsNext, fresh_calls, one_more};
ghost use Rattle.solo_devices.specs.InMemory.{reads, writes};

use crate::failing_calls::FailingCalls;
use crate::{Area, Moved, SureArea};
use solo_base::{NoMemory, Page};
use std::alloc::Global;

/// An area in memory whose reads and writes with the listed numbers, each counted from 1, fail.
/// A write that fails spoils its page, and a read that fails spoils what it was to fill.
#[derive(Debug, Drop)]
pub struct MemArea {
    area: SureArea,
    reads: FailingCalls,
    writes: FailingCalls,
    faults: u64,
}

impl MemArea {
    /// An area of so many zero pages.
    pub fn new(
        alloc: Global,
        pages: u16,
        failing_reads: Vec<u64>,
        failing_writes: Vec<u64>,
    ) -> Result<MemArea, NoMemory>
        ensures pages { IfOk result (λ area. ⟦<MemArea as Area>⟧.pages area ≡ Some (replicate pages zero_page)) }
        ensures size { IfOk result (λ area. ⟦<MemArea as Area>⟧.size area ≡ pages) }
        ensures faults { IfOk result (λ area. ⟦<MemArea as Area>⟧.faults area ≡ 0) }
        ensures reads { IfOk result (λ area. reads area ≡ fresh_calls failing_reads.items) }
        ensures writes { IfOk result (λ area. writes area ≡ fresh_calls failing_writes.items) }
    {
        Ok(MemArea {
            area: SureArea::new(alloc, pages)?,
            reads: FailingCalls::new(failing_reads),
            writes: FailingCalls::new(failing_writes),
            faults: 0,
        })
    }

    /// How often a call failed.
    pub fn faults(&self) -> u64
        ensures { result ≡ ⟦<MemArea as Area>⟧.faults self.now }
    {
        self.faults
    }
}

impl Area for MemArea {
    ghost pages = { λ area. ⟦<SureArea as Area>⟧.pages area.area };

    ghost size = { λ area. ⟦<SureArea as Area>⟧.size area.area };

    ghost faults = { λ area. area.faults };

    fn size(&self) -> u16 {
        self.area.size()
    }

    fn read(&mut self, n: u16, page: &mut Page) -> Moved
        requires { n < ⟦<MemArea as Area>⟧.size self.old }
        // A read whose number is listed fails, and no other.
        ensures fails { (result ≡ Moved.Failed) ↔ FailsNext (reads self.old) }
        ensures counted { reads self.new ≡ one_more (reads self.old) }
        ensures apart { writes self.new ≡ writes self.old }
        // A call that is done counts no fault.
        ensures done { result ≡ Moved.Done
            → ⟦<MemArea as Area>⟧.faults self.new ≡ ⟦<MemArea as Area>⟧.faults self.old }
        // As the trait says.
        ensures page { ReadsFrom (⟦<MemArea as Area>⟧.pages self.old) (⟦<MemArea as Area>⟧.pages self.new) n result page.new.0 }
        ensures size { ⟦<MemArea as Area>⟧.size self.new ≡ ⟦<MemArea as Area>⟧.size self.old }
        ensures whole { HasWholePages (⟦<MemArea as Area>⟧.pages self.new) }
        ensures cause { CountsFaults (⟦<MemArea as Area>⟧.faults self.old) (⟦<MemArea as Area>⟧.faults self.new) result }
    {
        if self.reads.fails() {
            self.faults = self.faults.saturating_add(1);
            *page = Page::zeros();
            return Moved::Failed;
        }
        self.area.read(n, page)
    }

    fn write(&mut self, n: u16, page: &Page) -> Moved
        requires { n < ⟦<MemArea as Area>⟧.size self.old }
        // A write whose number is listed fails, and no other.
        ensures fails { (result ≡ Moved.Failed) ↔ FailsNext (writes self.old) }
        ensures counted { writes self.new ≡ one_more (writes self.old) }
        ensures apart { reads self.new ≡ reads self.old }
        // A call that is done counts no fault.
        ensures done { result ≡ Moved.Done
            → ⟦<MemArea as Area>⟧.faults self.new ≡ ⟦<MemArea as Area>⟧.faults self.old }
        // As the trait says.
        ensures page { Writes (⟦<MemArea as Area>⟧.pages self.old) (⟦<MemArea as Area>⟧.pages self.new) n result page.now.0 }
        ensures size { ⟦<MemArea as Area>⟧.size self.new ≡ ⟦<MemArea as Area>⟧.size self.old }
        ensures whole { HasWholePages (⟦<MemArea as Area>⟧.pages self.new) }
        ensures cause { CountsFaults (⟦<MemArea as Area>⟧.faults self.old) (⟦<MemArea as Area>⟧.faults self.new) result }
    {
        if self.writes.fails() {
            self.faults = self.faults.saturating_add(1);
            let _ = self.area.write(n, &Page::zeros());
            return Moved::Failed;
        }
        self.area.write(n, page)
    }
}
