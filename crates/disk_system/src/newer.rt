ghost use Rattle.std.specs.Prelude.{◌≡◌, ◌≢◌, ℕ, ◌+◌, ◌<◌, ◌≤◌, List, Some, length, slice_index, slice_index_or, IfErr, OnOk};
ghost use Rattle.std.specs.FinSet as set;
ghost use Rattle.disk_layout.specs.Disk.{entry_of};
ghost use Rattle.disk_layout.specs.Format.{IsAddress, part_count};
ghost use Rattle.disk_layout.specs.Format1.{IsSoloDisk1};
ghost use Rattle.disk_layout.specs.Layout.{blank_entry};
ghost use Rattle.disk_files.specs.declared.fault.FileFault.TheVariants.{DiskFault};
ghost use Rattle.disk_files.specs.Answers.{FaultsOnly, IsOlderRead, Stays, Told};
ghost use Rattle.disk_system.specs.Migrating.{LengthsRead, Migrates, Moving, mapped_by, parts_for};

use crate::parts::add_parts;
use disk_files::FileFault;
use disk_files::bare_area::{save_map, write};
use disk_layout::{Entry, label};
use disk_pages::{AREA_PAGES, PageMap};
use solo_devices::Area;

/// Gives the files of an area of format 1 their parts, and writes the label and the bit map of format 2.
#[tactic(auto, using(disk_files::proofs::Kept::stays_then, disk_files::proofs::Kept::faults_then))]
pub fn write_newer<A: Area>(
    area: &mut A,
    map: &mut PageMap,
    entries: &[Entry],
    lengths: &[u16],
) -> Result<(), FileFault>
    requires size { A.size area.old ≡ AREA_PAGES }
    requires places { length entries.now ≡ 240 }
    requires addresses { (p : ℕ) → p < 240 → (slice_index_or entries.now p blank_entry).kind ≢ 0
        → IsAddress (slice_index_or entries.now p blank_entry).address }
    requires lengths { length lengths.now ≡ 240 }
    requires short { (p : ℕ) → slice_index lengths.now p ≤ 255 }
    requires room { set.len map.old + parts_for lengths.now 240 ≤ AREA_PAGES }
    ensures newer { (pages : List (List ℕ)) → A.pages area.old ≡ Some pages
        → IsOlderRead entries.now map.old pages → LengthsRead pages 240 lengths.now
        → OnOk result (Told (A.pages area.new) (Migrates pages)) }
    ensures size { A.size area.new ≡ A.size area.old }
    ensures stays { Stays (A.pages area.old) (A.size area.old) (A.pages area.new) (A.size area.new) }
    ensures fault { IfErr result (λ fault. fault ≡ DiskFault) }
    ensures cause { FaultsOnly (A.faults area.old) (A.faults area.new) result }
{
    add_files(area, map, entries, lengths)?;
    write(area, 0, &label())?;
    save_map(area, map)
}

// Gives each file its parts, in the order of their places.
#[tactic(auto, using(disk_files::proofs::Kept::stays_then, disk_files::proofs::Kept::faults_then))]
fn add_files<A: Area>(
    area: &mut A,
    map: &mut PageMap,
    entries: &[Entry],
    lengths: &[u16],
) -> Result<(), FileFault>
    requires size { A.size area.old ≡ AREA_PAGES }
    requires places { length entries.now ≡ 240 }
    requires addresses { (p : ℕ) → p < 240 → (slice_index_or entries.now p blank_entry).kind ≢ 0
        → IsAddress (slice_index_or entries.now p blank_entry).address }
    requires lengths { length lengths.now ≡ 240 }
    requires short { (p : ℕ) → slice_index lengths.now p ≤ 255 }
    requires room { set.len map.old + parts_for lengths.now 240 ≤ AREA_PAGES }
    ensures moved { (pages : List (List ℕ)) → A.pages area.old ≡ Some pages
        → IsOlderRead entries.now map.old pages → LengthsRead pages 240 lengths.now
        → OnOk result (Told (A.pages area.new) (λ now. Moving pages now map.new 240)) }
    ensures size { A.size area.new ≡ A.size area.old }
    ensures stays { Stays (A.pages area.old) (A.size area.old) (A.pages area.new) (A.size area.new) }
    ensures fault { IfErr result (λ fault. fault ≡ DiskFault) }
    ensures cause { FaultsOnly (A.faults area.old) (A.faults area.new) result }
{
    for place in 0..240 {
        add_file(area, map, &entries[place], lengths[place])?;
    }
    Ok(())
}

// Gives the file of an entry its parts, where there is one.
#[tactic(auto, using(disk_files::proofs::Kept::stays_then, disk_files::proofs::Kept::faults_then))]
fn add_file<A: Area>(
    area: &mut A,
    map: &mut PageMap,
    entry: &Entry,
    count: u16,
) -> Result<(), FileFault>
    requires size { A.size area.old ≡ AREA_PAGES }
    requires address { entry.now.kind ≢ 0 → IsAddress entry.now.address }
    requires short { count ≤ 255 }
    requires room { set.len map.old + part_count count ≤ AREA_PAGES }
    ensures moved { (pages now : List (List ℕ)) (n : ℕ) → A.pages area.old ≡ Some now → IsSoloDisk1 pages
        → length pages ≡ AREA_PAGES → n < 240 → entry.now ≡ entry_of pages n
        → count ≡ mapped_by pages entry.now
        → Moving pages now map.old n
        → OnOk result (Told (A.pages area.new) (λ after. Moving pages after map.new (n + 1))) }
    ensures many { OnOk result (set.len map.new ≤ set.len map.old + part_count count) }
    ensures size { A.size area.new ≡ A.size area.old }
    ensures stays { Stays (A.pages area.old) (A.size area.old) (A.pages area.new) (A.size area.new) }
    ensures fault { IfErr result (λ fault. fault ≡ DiskFault) }
    ensures cause { FaultsOnly (A.faults area.old) (A.faults area.new) result }
{
    if entry.kind == 0 {
        return Ok(());
    }
    add_parts(area, map, entry.address, count)
}
