ghost use Rattle.std.specs.Prelude.{◌≡◌, ◌≢◌, ◌⊎◌, ℕ, ◌+◌, ◌*◌, ◌<◌, ◌≤◌, Some, None, List, length, slice_index, slice_index_or, MatchResult, IfErr, OnOk, IfOk};
ghost use Rattle.solo_devices.specs.Area.{HasSize};
ghost use Rattle.disk_pages.specs.Pages.{IsReadFrom};
ghost use Rattle.disk_layout.specs.Disk.{disk_of, page_at};
ghost use Rattle.disk_layout.specs.Format.{EntryIsRight, label};
ghost use Rattle.disk_layout.specs.Layout.{IsLaidOut, blank_entry};
ghost use Rattle.disk_layout.specs.Judging.{EntriesRead, EntryStands, FileRoles, IndexKeeps, PartKeeps, IsKeptEntry, JudgedBelow, KeptBelow};
ghost use Rattle.disk_files.specs.declared.fault.FileFault.TheVariants.{DiskFault, NoMemory};
ghost use Rattle.disk_files.specs.Answers.{FaultsOnly, RefusesMount, MayRefuseMount};

use crate::FileFault;
use crate::judge_area::judge_files;
use crate::transfer::read;
use disk_layout::{
    Entry, earlier, ends_in_zeros, is_label, judge_bits, judge_entries, judge_searches, least_page,
    note_indexes,
};
use disk_pages::{AREA_PAGES, PageMap};
use solo_base::Page;
use solo_devices::Area;
use std::alloc::Global;

/// Judges all pages of an area, and reads its catalogue and its taken pages.
#[tactic(auto, using(crate::proofs::Kept::faults_then, crate::proofs::Kept::no_faults, crate::proofs::Kept::same_size))]
pub fn judge<A: Area>(
    alloc: Global,
    area: &mut A,
    entries: &mut [Entry],
) -> Result<PageMap, FileFault>
    requires size { A.size area.old ≡ AREA_PAGES }
    requires places { length entries.old ≡ 240 }
    ensures places { length entries.new ≡ 240 }
    ensures judged { (pages : List (List ℕ)) → A.pages area.old ≡ Some pages
        → MatchResult result (λ map. IsLaidOut entries.new map pages) (RefusesMount pages) }
    ensures kept { IfOk result (λ _. (p : ℕ) → p < 240
        → IsKeptEntry (slice_index_or entries.new p blank_entry)) }
    ensures whole { IfOk result (λ _. HasSize (A.pages area.new) (A.size area.new)) }
    ensures left { A.pages area.new ≡ A.pages area.old }
    ensures size { A.size area.new ≡ A.size area.old }
    ensures refusals { IfErr result MayRefuseMount }
    ensures cause { FaultsOnly (A.faults area.old) (A.faults area.new) result }
{
    let mut roles = no_roles(alloc, area.size())?;
    judge_pages(area, entries, &mut roles)
}

/// What is noted of the pages before they are judged: nothing.
pub fn no_roles(alloc: Global, pages: u16) -> Result<Vec<u8>, FileFault>
    ensures blank { IfOk result (λ roles. (length roles.items ≡ pages)
        × ((n : ℕ) → slice_index roles.items n ≡ 0)) }
    ensures memory { IfErr result (λ fault. fault ≡ NoMemory) }
{
    match vec![in alloc; 0; pages as usize] {
        Ok(roles) => Ok(roles),
        Err(_) => Err(FileFault::NoMemory),
    }
}

#[tactic(auto, using(crate::proofs::Kept::faults_then, crate::proofs::Kept::no_faults, crate::proofs::Kept::same_size))]
fn judge_pages<A: Area>(
    area: &mut A,
    entries: &mut [Entry],
    roles: &mut [u8],
) -> Result<PageMap, FileFault>
    requires size { A.size area.old ≡ AREA_PAGES }
    requires told { HasSize (A.pages area.old) (A.size area.old) }
    requires places { length entries.old ≡ 240 }
    requires room { length roles.old ≡ AREA_PAGES }
    requires blank { (n : ℕ) → slice_index roles.old n ≡ 0 }
    ensures judged { (pages : List (List ℕ)) → A.pages area.old ≡ Some pages
        → MatchResult result (λ map. IsLaidOut entries.new map pages) (RefusesMount pages) }
    ensures kept { IfOk result (λ _. (p : ℕ) → p < 240
        → IsKeptEntry (slice_index_or entries.new p blank_entry)) }
    ensures left { A.pages area.new ≡ A.pages area.old }
    ensures size { A.size area.new ≡ A.size area.old }
    ensures refusals { IfErr result MayRefuseMount }
    ensures cause { FaultsOnly (A.faults area.old) (A.faults area.new) result }
{
    judge_label(area)?;
    judge_rest(area, entries, roles)
}

// Judges all pages but the label.
#[tactic(auto, using(crate::proofs::Kept::faults_then, crate::proofs::Kept::no_faults, crate::proofs::Kept::same_size))]
fn judge_rest<A: Area>(
    area: &mut A,
    entries: &mut [Entry],
    roles: &mut [u8],
) -> Result<PageMap, FileFault>
    requires size { A.size area.old ≡ AREA_PAGES }
    requires told { HasSize (A.pages area.old) (A.size area.old) }
    requires places { length entries.old ≡ 240 }
    requires room { length roles.old ≡ AREA_PAGES }
    requires blank { (n : ℕ) → slice_index roles.old n ≡ 0 }
    ensures judged { (pages : List (List ℕ)) → A.pages area.old ≡ Some pages → page_at pages 0 ≡ label
        → MatchResult result (λ map. IsLaidOut entries.new map pages) (RefusesMount pages) }
    ensures kept { IfOk result (λ _. (p : ℕ) → p < 240
        → IsKeptEntry (slice_index_or entries.new p blank_entry)) }
    ensures left { A.pages area.new ≡ A.pages area.old }
    ensures size { A.size area.new ≡ A.size area.old }
    ensures refusals { IfErr result MayRefuseMount }
    ensures cause { FaultsOnly (A.faults area.old) (A.faults area.new) result }
{
    judge_catalogue(area, entries)?;
    note_indexes(entries, roles);
    let bad_page = judge_files(area, roles)?;
    judge_map(area, entries, roles, bad_page)
}

// Judges the label.
#[tactic(auto, using(crate::proofs::Kept::faults_then, crate::proofs::Kept::no_faults))]
fn judge_label<A: Area>(area: &mut A) -> Result<(), FileFault>
    requires size { A.size area.old ≡ AREA_PAGES }
    ensures judged { (pages : List (List ℕ)) → A.pages area.old ≡ Some pages
        → MatchResult result (λ _. page_at pages 0 ≡ label) (RefusesMount pages) }
    ensures left { A.pages area.new ≡ A.pages area.old }
    ensures size { A.size area.new ≡ A.size area.old }
    ensures refusals { IfErr result MayRefuseMount }
    ensures cause { FaultsOnly (A.faults area.old) (A.faults area.new) result }
{
    let mut page = Page::zeros();
    read(area, 0, &mut page)?;
    if !is_label(&page) {
        return Err(FileFault::NotSolo { page: 0 });
    }
    Ok(())
}

// Reads and judges the catalogue.
#[tactic(auto, using(crate::proofs::Kept::faults_then, crate::proofs::Kept::no_faults))]
fn judge_catalogue<A: Area>(area: &mut A, entries: &mut [Entry]) -> Result<(), FileFault>
    requires size { A.size area.old ≡ AREA_PAGES }
    requires places { length entries.old ≡ 240 }
    ensures judged { (pages : List (List ℕ)) → A.pages area.old ≡ Some pages → page_at pages 0 ≡ label
        → MatchResult result (λ _. EntriesRead (disk_of pages) 240 entries.new
        × ((p : ℕ) → p < 240 → EntryIsRight (disk_of pages) p)) (RefusesMount pages) }
    ensures kept { IfOk result (λ _. (p : ℕ) → p < 240
        → IsKeptEntry (slice_index_or entries.new p blank_entry)) }
    ensures left { A.pages area.new ≡ A.pages area.old }
    ensures size { A.size area.new ≡ A.size area.old }
    ensures refusals { IfErr result MayRefuseMount }
    ensures cause { FaultsOnly (A.faults area.old) (A.faults area.new) result }
{
    let mut bad = None;
    read_catalogue(area, entries, &mut bad)?;
    match earlier(bad, judge_searches(entries)) {
        Some(place) => Err(FileFault::NotSolo {
            page: 1 + place / 16,
        }),
        None => Ok(()),
    }
}

/// Reads the catalogue, and notes the first place that is wrong.
#[tactic(auto, using(crate::proofs::Kept::faults_then, crate::proofs::Kept::no_faults))]
pub fn read_catalogue<A: Area>(
    area: &mut A,
    entries: &mut [Entry],
    bad: &mut Option<u16>,
) -> Result<(), FileFault>
    requires size { A.size area.old ≡ AREA_PAGES }
    requires places { length entries.old ≡ 240 }
    requires none { bad.old ≡ None }
    ensures judged { (pages : List (List ℕ)) → A.pages area.old ≡ Some pages
        → OnOk result (EntriesRead (disk_of pages) 240 entries.new
        × JudgedBelow (EntryStands (disk_of pages)) 240 bad.new) }
    ensures kept { OnOk result (KeptBelow 240 entries.new bad.new) }
    ensures left { A.pages area.new ≡ A.pages area.old }
    ensures size { A.size area.new ≡ A.size area.old }
    ensures fault { IfErr result (λ fault. fault ≡ DiskFault) }
    ensures cause { FaultsOnly (A.faults area.old) (A.faults area.new) result }
{
    for n in 0..15 {
        read_entries(area, n, entries, bad)?;
    }
    Ok(())
}

// Reads page n of the catalogue, from 0.
#[tactic(auto, using(crate::proofs::Kept::faults_then, crate::proofs::Kept::no_faults))]
fn read_entries<A: Area>(
    area: &mut A,
    n: u16,
    entries: &mut [Entry],
    bad: &mut Option<u16>,
) -> Result<(), FileFault>
    requires size { A.size area.old ≡ AREA_PAGES }
    requires places { length entries.old ≡ 240 }
    requires page { n < 15 }
    ensures judged { (pages : List (List ℕ)) → A.pages area.old ≡ Some pages
        → EntriesRead (disk_of pages) (16 * n) entries.old
        → JudgedBelow (EntryStands (disk_of pages)) (16 * n) bad.old
        → OnOk result (EntriesRead (disk_of pages) (16 * n + 16) entries.new
        × JudgedBelow (EntryStands (disk_of pages)) (16 * n + 16) bad.new) }
    ensures kept { KeptBelow (16 * n) entries.old bad.old
        → OnOk result (KeptBelow (16 * n + 16) entries.new bad.new) }
    ensures left { A.pages area.new ≡ A.pages area.old }
    ensures size { A.size area.new ≡ A.size area.old }
    ensures fault { IfErr result (λ fault. fault ≡ DiskFault) }
    ensures cause { FaultsOnly (A.faults area.old) (A.faults area.new) result }
{
    let mut page = Page::zeros();
    read(area, 1 + n, &mut page)?;
    judge_entries(&page, n, entries, bad);
    Ok(())
}

// Reads and judges the bit map, and so the whole area.
#[tactic(auto, using(crate::proofs::Kept::faults_then, crate::proofs::Kept::no_faults))]
fn judge_map<A: Area>(
    area: &mut A,
    entries: &[Entry],
    roles: &[u8],
    bad_page: Option<u16>,
) -> Result<PageMap, FileFault>
    requires size { A.size area.old ≡ AREA_PAGES }
    requires told { HasSize (A.pages area.old) (A.size area.old) }
    requires places { length entries.now ≡ 240 }
    requires room { length roles.now ≡ AREA_PAGES }
    ensures judged { (pages : List (List ℕ)) → A.pages area.old ≡ Some pages → page_at pages 0 ≡ label
        → EntriesRead (disk_of pages) 240 entries.now → ((p : ℕ) → p < 240 → EntryIsRight (disk_of pages) p)
        → FileRoles (disk_of pages) AREA_PAGES 0 roles.now
        → JudgedBelow (λ n. IndexKeeps (disk_of pages) n
        × PartKeeps (disk_of pages) n) AREA_PAGES bad_page
        → MatchResult result (λ map. IsLaidOut entries.now map pages) (RefusesMount pages) }
    ensures left { A.pages area.new ≡ A.pages area.old }
    ensures size { A.size area.new ≡ A.size area.old }
    ensures refusals { IfErr result MayRefuseMount }
    ensures cause { FaultsOnly (A.faults area.old) (A.faults area.new) result }
{
    let mut low = Page::zeros();
    read(area, 16, &mut low)?;
    let mut high = Page::zeros();
    read(area, 17, &mut high)?;
    match least_page(
        judge_bits(&low, &high, roles),
        ends_in_zeros(&high),
        bad_page,
    ) {
        Some(page) => Err(FileFault::NotSolo { page }),
        None => Ok(PageMap::of_pages(&low, &high)),
    }
}
