ghost use Rattle.std.specs.Prelude.{◌≡◌, ℕ, ◌<◌, ◌≤◌, List, Some, length, slice_index_or, IfErr, OnOk};
ghost use Rattle.disk_layout.specs.Layout.{blank_entry};
ghost use Rattle.disk_layout.specs.Writing.{EntryWritten};
ghost use Rattle.disk_files.specs.declared.fault.FileFault.TheVariants.{DiskFault};
ghost use Rattle.disk_files.specs.Answers.{Stays, FaultsOnly};

use crate::FileFault;
use crate::transfer::{read, write};
use disk_layout::Entry;
use disk_pages::AREA_PAGES;
use solo_base::Page;
use solo_devices::Area;

/// Writes the entry at a place of the catalogue. Its spare bytes stay.
#[tactic(auto, using(crate::proofs::Kept::stays_then, crate::proofs::Kept::faults_then))]
pub fn write_entry<A: Area>(area: &mut A, place: u16, entry: &Entry) -> Result<(), FileFault>
    requires size { A.size area.old ≡ AREA_PAGES }
    requires place { place < 240 }
    ensures wrote { (pages : List (List ℕ)) → A.pages area.old ≡ Some pages → length pages ≡ AREA_PAGES
        → OnOk result ((after : List (List ℕ)) × (A.pages area.new ≡ Some after)
        × EntryWritten pages after place entry.now) }
    ensures size { A.size area.new ≡ A.size area.old }
    ensures stays { Stays (A.pages area.old) (A.size area.old) (A.pages area.new) (A.size area.new) }
    ensures fault { IfErr result (λ fault. fault ≡ DiskFault) }
    ensures cause { FaultsOnly (A.faults area.old) (A.faults area.new) result }
{
    let n = 1 + place / 16;
    let mut page = Page::zeros();
    read(area, n, &mut page)?;
    entry.write(&mut page, 32 * (place % 16));
    write(area, n, &page)
}

/// Writes the entry that is kept of a place of the catalogue.
pub fn save_entry<A: Area>(area: &mut A, entries: &[Entry], place: u16) -> Result<(), FileFault>
    requires size { A.size area.old ≡ AREA_PAGES }
    requires places { length entries.now ≡ 240 }
    requires place { place < 240 }
    ensures wrote { (pages : List (List ℕ)) → A.pages area.old ≡ Some pages → length pages ≡ AREA_PAGES
        → OnOk result ((after : List (List ℕ)) × (A.pages area.new ≡ Some after)
        × EntryWritten pages after place (slice_index_or entries.now place blank_entry)) }
    ensures size { A.size area.new ≡ A.size area.old }
    ensures stays { Stays (A.pages area.old) (A.size area.old) (A.pages area.new) (A.size area.new) }
    ensures fault { IfErr result (λ fault. fault ≡ DiskFault) }
    ensures cause { FaultsOnly (A.faults area.old) (A.faults area.new) result }
{
    write_entry(area, place, &entries[place as usize])
}
