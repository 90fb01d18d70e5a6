ghost use Rattle.std.specs.Prelude.{◌≡◌};

use solo_base::Page;
use solo_devices::{Area, Moved, SureArea};

/// An area in memory that counts the pages that are read and written.
#[derive(Drop)]
pub struct CountedArea {
    area: SureArea,
    pub reads: u64,
    pub writes: u64,
}

impl CountedArea {
    /// The area with nothing counted yet.
    pub fn new(area: SureArea) -> CountedArea
        ensures { ⟦<CountedArea as Area>⟧.size result ≡ ⟦<SureArea as Area>⟧.size area }
    {
        CountedArea {
            area,
            reads: 0,
            writes: 0,
        }
    }
}

impl Area for CountedArea {
    ghost pages = { λ counted. ⟦<SureArea as Area>⟧.pages counted.area };

    ghost size = { λ counted. ⟦<SureArea as Area>⟧.size counted.area };

    ghost faults = { λ counted. ⟦<SureArea as Area>⟧.faults counted.area };

    fn size(&self) -> u16 {
        self.area.size()
    }

    fn read(&mut self, n: u16, page: &mut Page) -> Moved {
        self.reads = self.reads.saturating_add(1);
        self.area.read(n, page)
    }

    fn write(&mut self, n: u16, page: &Page) -> Moved {
        self.writes = self.writes.saturating_add(1);
        self.area.write(n, page)
    }
}
