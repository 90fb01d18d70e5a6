ghost use Rattle.std.specs.Prelude.{◌≡◌, ◌<◌, None};
ghost use Rattle.solo_devices.specs.Area.{Writes};
ghost use Rattle.solo_devices.specs.Count.{raised};
ghost use Rattle.solo_devices.specs.HurtArea.{GivesHarmed};

use crate::{Area, Moved, SureArea};
use solo_base::Page;
use std::marker::Model;

/// An area in memory of which one read gives a page with a wrong byte. It tells nothing of its pages, and
/// never fails: so a reader has to see the damage in the page alone.
#[derive(Debug, Drop)]
pub struct HurtArea {
    area: SureArea,
    reads: u64,
    read: u64,
    at: u16,
    byte: u8,
}

impl Model for HurtArea {
    ghost use Rattle.std.specs.Prelude.{◌<◌};
    ghost use Rattle.solo_devices.specs.HurtArea.{Hurt};

    ghost Value = { Hurt };

    ghost view = { λ area. record {
      area = area.area;
      reads = area.reads;
      harm = record { read = area.read; at = area.at; byte = area.byte };
    } };

    ghost invariant = { λ area. area.at < 512 };
}

impl HurtArea {
    /// The area, but its read of this number, counted from 1, gives the page with this byte at `at`.
    pub fn new(area: SureArea, read: u64, at: u16, byte: u8) -> HurtArea
        requires { at < 512 }
        ensures untold { ⟦<HurtArea as Area>⟧.pages result ≡ None }
        ensures size { ⟦<HurtArea as Area>⟧.size result ≡ ⟦<SureArea as Area>⟧.size area }
        ensures faults { ⟦<HurtArea as Area>⟧.faults result ≡ 0 }
        ensures whole { result
            ≡ record { area = area; reads = 0; harm = record { read = read; at = at; byte = byte } } }
    {
        HurtArea {
            area,
            reads: 0,
            read,
            at,
            byte,
        }
    }
}

impl Area for HurtArea {
    ghost pages = { λ _. None };

    ghost size = { λ area. ⟦<SureArea as Area>⟧.size area.area };

    ghost faults = { λ _. 0 };

    fn size(&self) -> u16 {
        self.area.size()
    }

    fn read(&mut self, n: u16, page: &mut Page) -> Moved
        requires { n < ⟦<SureArea as Area>⟧.size self.old.area }
        ensures done { result ≡ Moved.Done }
        ensures size { ⟦<HurtArea as Area>⟧.size self.new ≡ ⟦<HurtArea as Area>⟧.size self.old }
        ensures harmed { GivesHarmed self.old.harm self.new.reads (⟦<SureArea as Area>⟧.pages self.old.area)
            n page.new.0 }
        ensures counted { self.new.reads ≡ raised self.old.reads 1 }
        ensures same { self.new.harm ≡ self.old.harm }
        ensures left { ⟦<SureArea as Area>⟧.pages self.new.area ≡ ⟦<SureArea as Area>⟧.pages self.old.area }
    {
        self.area.read(n, page);
        self.reads = self.reads.saturating_add(1);
        if self.reads == self.read {
            page.0[self.at as usize] = self.byte;
        }
        Moved::Done
    }

    fn write(&mut self, n: u16, page: &Page) -> Moved
        requires { n < ⟦<SureArea as Area>⟧.size self.old.area }
        ensures done { result ≡ Moved.Done }
        ensures size { ⟦<HurtArea as Area>⟧.size self.new ≡ ⟦<HurtArea as Area>⟧.size self.old }
        ensures counted { self.new.reads ≡ self.old.reads }
        ensures same { self.new.harm ≡ self.old.harm }
        ensures written { Writes (⟦<SureArea as Area>⟧.pages self.old.area)
            (⟦<SureArea as Area>⟧.pages self.new.area) n result page.now.0 }
    {
        self.area.write(n, page)
    }
}
