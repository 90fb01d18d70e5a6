ghost use Rattle.std.specs.Prelude.{◌≡◌, ◌≢◌, ℕ, ◌+◌, ◌<◌, ◌≤◌, List, Some, length, slice_index, slice_index_or, IfErr, IfOk, OnOk};
ghost use Rattle.disk_layout.specs.Disk.{entry_of};
ghost use Rattle.disk_layout.specs.Format.{IsAddress, part_count};
ghost use Rattle.disk_layout.specs.Layout.{blank_entry};
ghost use Rattle.disk_files.specs.declared.fault.FileFault.TheVariants.{DiskFault};
ghost use Rattle.disk_files.specs.Answers.{FaultsOnly};
ghost use Rattle.disk_system.specs.Migrating.{LengthsRead, mapped_by, parts_for};

use disk_files::FileFault;
use disk_files::bare_area::read;
use disk_layout::Entry;
use disk_pages::{AREA_PAGES, number};
use solo_base::Page;
use solo_devices::Area;

/// Reads how many pages the file of each entry has, at most 255. An entry of no file has 0.
pub fn read_lengths<A: Area>(
    area: &mut A,
    entries: &[Entry],
    lengths: &mut [u16],
) -> Result<(), FileFault>
    requires size { A.size area.old ≡ AREA_PAGES }
    requires places { length entries.now ≡ 240 }
    requires room { length lengths.old ≡ 240 }
    requires addresses { (p : ℕ) → p < 240 → (slice_index_or entries.now p blank_entry).kind ≢ 0
        → IsAddress (slice_index_or entries.now p blank_entry).address }
    ensures lengths { (pages : List (List ℕ)) → A.pages area.old ≡ Some pages
        → ((p : ℕ) → p < 240 → slice_index_or entries.now p blank_entry ≡ entry_of pages p)
        → ((p : ℕ) → p < 240 → mapped_by pages (entry_of pages p) ≤ 255)
        → OnOk result (LengthsRead pages 240 lengths.new) }
    ensures short { OnOk result ((p : ℕ) → slice_index lengths.new p ≤ 255) }
    ensures left { A.pages area.new ≡ A.pages area.old }
    ensures size { A.size area.new ≡ A.size area.old }
    ensures fault { IfErr result (λ fault. fault ≡ DiskFault) }
    ensures cause { FaultsOnly (A.faults area.old) (A.faults area.new) result }
{
    for place in 0..240 {
        lengths[place] = length_of(area, &entries[place])?;
    }
    Ok(())
}

// How many pages the file of an entry has, and 0 of an entry of no file.
fn length_of<A: Area>(area: &mut A, entry: &Entry) -> Result<u16, FileFault>
    requires size { A.size area.old ≡ AREA_PAGES }
    requires address { entry.now.kind ≢ 0 → IsAddress entry.now.address }
    ensures length { (pages : List (List ℕ)) → A.pages area.old ≡ Some pages → mapped_by pages entry.now ≤ 255
        → IfOk result (λ length. length ≡ mapped_by pages entry.now) }
    ensures short { IfOk result (λ length. length ≤ 255) }
    ensures left { A.pages area.new ≡ A.pages area.old }
    ensures size { A.size area.new ≡ A.size area.old }
    ensures fault { IfErr result (λ fault. fault ≡ DiskFault) }
    ensures cause { FaultsOnly (A.faults area.old) (A.faults area.new) result }
{
    if entry.kind == 0 {
        return Ok(0);
    }
    let mut page = Page::zeros();
    read(area, entry.address, &mut page)?;
    Ok(number(&page, 0).min(255))
}

/// How many parts files of these lengths need.
pub fn parts_for(lengths: &[u16]) -> u16
    requires places { length lengths.now ≡ 240 }
    requires short { (p : ℕ) → slice_index lengths.now p ≤ 255 }
    ensures parts { result ≡ parts_for lengths.now 240 }
{
    let mut parts = 0;
    for place in 0..240 {
        parts += part_count(lengths[place]);
    }
    parts
}

/// How many parts a file of so many pages needs in format 2.
pub fn part_count(length: u16) -> u16
    requires { length ≤ 4000 }
    ensures { result ≡ part_count length }
{
    (length + 249) / 250
}
