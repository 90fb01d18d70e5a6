ghost use Rattle.std.specs.Prelude.{◌≡◌, ◌^◌, ◌<◌, Some, ℕ, List, map, replicate, length, IfOk};
ghost use Rattle.solo_base.specs.PageBytes.{zero_page};
ghost use Rattle.solo_devices.specs.Area.{page_bytes, AreWhole};

use crate::{Area, Moved};
use solo_base::{NoMemory, Page};
use std::alloc::Global;

/// An area in memory that never fails.
#[derive(Debug, Drop)]
pub struct SureArea {
    pages: Vec<Page>,
    ghost few: { length pages.items < 2 ^ 16 },
    ghost whole: { AreWhole (map page_bytes pages.items) },
}

impl SureArea {
    /// An area of so many zero pages.
    pub fn new(alloc: Global, pages: u16) -> Result<SureArea, NoMemory>
        ensures pages { IfOk result (λ area. ⟦<SureArea as Area>⟧.pages area ≡ Some (replicate pages zero_page)) }
        ensures size { IfOk result (λ area. ⟦<SureArea as Area>⟧.size area ≡ pages) }
        ensures faults { IfOk result (λ area. ⟦<SureArea as Area>⟧.faults area ≡ 0) }
    {
        let mut zeros = Vec::with_capacity(alloc, pages as usize)?;
        for _ in 0..pages {
            zeros.push(Page::zeros())?;
        }
        Ok(SureArea { pages: zeros })
    }

    /// How often a call failed: never.
    pub fn faults(&self) -> u64
        ensures { result ≡ 0 }
    {
        0
    }
}

impl Area for SureArea {
    ghost pages = { λ area. Some (map page_bytes area.pages.items) };

    ghost size = { λ area. length area.pages.items };

    ghost faults = { λ _. 0 };

    fn size(&self) -> u16 {
        self.pages.as_slice().len() as u16
    }

    fn read(&mut self, n: u16, page: &mut Page) -> Moved {
        *page = self.pages[n as usize];
        Moved::Done
    }

    fn write(&mut self, n: u16, page: &Page) -> Moved {
        self.pages[n as usize] = Page(*page.bytes());
        Moved::Done
    }
}
