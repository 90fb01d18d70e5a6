ghost use Rattle.std.specs.Prelude.{◌≡◌, ◌≢◌, ℕ, ◌+◌, ◌-◌, ◌*◌, ◌<◌, ◌≤◌, List, Some, length, slice_index_or, IfErr, OnOk};
ghost use Rattle.std.specs.FinSet as set;
ghost use Rattle.std.specs.FinMap as fin;
ghost use Rattle.solo_base.specs.PageBytes.{number_at};
ghost use Rattle.disk_layout.specs.Disk.{disk_of, number_of};
ghost use Rattle.disk_layout.specs.Format.{IsAddress};
ghost use Rattle.disk_layout.specs.Files.{HasPages, files};
ghost use Rattle.disk_layout.specs.Layout.{IsLaidOut, blank_entry};
ghost use Rattle.disk_layout.specs.Judging.{IsKeptEntry};
ghost use Rattle.disk_layout.specs.Deleting.{given_back, without_part, without_file, pages_held};
ghost use Rattle.disk_layout.specs.Writing.{ClearsName};
ghost use Rattle.disk_files.specs.declared.fault.FileFault.TheVariants.{DiskFault};
ghost use Rattle.disk_files.specs.Answers.{FaultsOnly, LaidNow, Stays};

use crate::FileFault;
use crate::append::save_map;
use crate::transfer::{file_page, read};
use crate::write_entry::save_entry;
use disk_layout::{Entry, clear_name};
use disk_pages::{AREA_PAGES, PageMap, number};
use solo_base::Page;
use solo_devices::Area;

/// Takes the file at a place of the catalogue away, and gives back its pages.
#[tactic(auto, using(crate::proofs::Kept::stays_then, crate::proofs::Kept::faults_then))]
pub fn delete_file<A: Area>(
    area: &mut A,
    map: &mut PageMap,
    entries: &mut [Entry],
    place: u16,
) -> Result<(), FileFault>
    requires size { A.size area.old ≡ AREA_PAGES }
    requires places { length entries.old ≡ 240 }
    requires place { place < 240 }
    requires kept { IsKeptEntry (slice_index_or entries.old place blank_entry) }
    requires used { (slice_index_or entries.old place blank_entry).kind ≢ 0 }
    ensures wrote { (pages : List (List ℕ)) → A.pages area.old ≡ Some pages
        → IsLaidOut entries.old map.old pages
        → let entry = slice_index_or entries.old place blank_entry in
        OnOk result (LaidNow (A.pages area.new) entries.new map.new (fin.remove (files pages) entry.name)
        × (set.len map.new + pages_held (number_of pages entry.address 0) ≡ set.len map.old)) }
    ensures cleared { (pages : List (List ℕ)) → A.pages area.old ≡ Some pages
        → IsLaidOut entries.old map.old pages → OnOk result (ClearsName entries.old entries.new place) }
    ensures places { length entries.new ≡ 240 }
    ensures kept { ((p : ℕ) → p < 240 → IsKeptEntry (slice_index_or entries.old p blank_entry))
        → (p : ℕ) → p < 240 → IsKeptEntry (slice_index_or entries.new p blank_entry) }
    ensures size { A.size area.new ≡ A.size area.old }
    ensures stays { Stays (A.pages area.old) (A.size area.old) (A.pages area.new) (A.size area.new) }
    ensures fault { IfErr result (λ fault. fault ≡ DiskFault) }
    ensures cause { FaultsOnly (A.faults area.old) (A.faults area.new) result }
{
    let entry = entries[place as usize];
    free_file(area, map, entry.address)?;
    clear_name(entries, place as usize);
    save_entry(area, entries, place)?;
    save_entry(area, entries, entry.key - 1)?;
    save_map(area, map)
}

// Gives back all pages of the file with this index page.
#[tactic(auto, using(crate::proofs::Kept::faults_then, crate::proofs::Kept::no_faults))]
fn free_file<A: Area>(area: &mut A, map: &mut PageMap, index: u16) -> Result<(), FileFault>
    requires size { A.size area.old ≡ AREA_PAGES }
    requires address { IsAddress index }
    ensures freed { (pages : List (List ℕ)) → A.pages area.old ≡ Some pages → HasPages pages index
        → OnOk result (map.new ≡ without_file map.old (disk_of pages) index) }
    ensures left { A.pages area.new ≡ A.pages area.old }
    ensures size { A.size area.new ≡ A.size area.old }
    ensures fault { IfErr result (λ fault. fault ≡ DiskFault) }
    ensures cause { FaultsOnly (A.faults area.old) (A.faults area.new) result }
{
    let mut page = Page::zeros();
    read(area, index, &mut page)?;
    let length = number(&page, 0).min(4000);
    for part in 0..(length + 249) / 250 {
        let part_page = file_page(number(&page, 2 * (part + 1)));
        free_part(area, map, part_page, (length - 250 * part).min(250))?;
    }
    free_page(map, index);
    Ok(())
}

// Gives back a part page of a file, and so many of the pages that it names.
#[tactic(auto, using(crate::proofs::Kept::faults_then, crate::proofs::Kept::no_faults))]
fn free_part<A: Area>(
    area: &mut A,
    map: &mut PageMap,
    part: u16,
    count: u16,
) -> Result<(), FileFault>
    requires size { A.size area.old ≡ AREA_PAGES }
    requires address { IsAddress part }
    requires few { count ≤ 250 }
    ensures freed { (pages : List (List ℕ)) → A.pages area.old ≡ Some pages
        → ((j : ℕ) → j < count → IsAddress (number_of pages part j))
        → OnOk result (map.new ≡ without_part map.old (disk_of pages) part count) }
    ensures left { A.pages area.new ≡ A.pages area.old }
    ensures size { A.size area.new ≡ A.size area.old }
    ensures fault { IfErr result (λ fault. fault ≡ DiskFault) }
    ensures cause { FaultsOnly (A.faults area.old) (A.faults area.new) result }
{
    let mut page = Page::zeros();
    read(area, part, &mut page)?;
    free_numbers(map, &page, count);
    free_page(map, part);
    Ok(())
}

// Gives back the pages that the first so many numbers of a part page name.
fn free_numbers(map: &mut PageMap, part: &Page, count: u16)
    requires { count ≤ 250 }
    ensures { ((j : ℕ) → j < count → IsAddress (number_at part.now.0 (2 * j)))
        → map.new ≡ given_back map.old (λ j. number_at part.now.0 (2 * j)) count }
{
    for j in 0..count {
        free_page(map, file_page(number(part, 2 * j)));
    }
}

// Makes a page free. Of an area that tells nothing it may be free before.
fn free_page(map: &mut PageMap, n: u16)
    requires { IsAddress n }
    ensures { map.new ≡ set.remove map.old n }
{
    if map.is_taken(n) {
        map.give_back(n);
    }
}
