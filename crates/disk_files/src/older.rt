ghost use Rattle.std.specs.Prelude.{◌≡◌, ℕ, ◌+◌, ◌<◌, ◌≤◌, Some, None, List, length, slice_index, slice_index_or, MatchResult, IfErr, OnOk, IfOk};
ghost use Rattle.solo_devices.specs.Area.{HasSize};
ghost use Rattle.disk_layout.specs.Disk.{disk_of, page_at};
ghost use Rattle.disk_layout.specs.Format.{EntryIsRight};
ghost use Rattle.disk_layout.specs.Format1.{label1};
ghost use Rattle.disk_layout.specs.Layout.{blank_entry};
ghost use Rattle.disk_layout.specs.Judging.{EntriesRead, IsKeptEntry, JudgedBelow, MapKeeps, MapRoles};
ghost use Rattle.disk_files.specs.declared.fault.FileFault.TheVariants.{DiskFault};
ghost use Rattle.disk_files.specs.Answers.{FaultsOnly, IsOlderRead, MayRefuseMount, RefusesOlder};

use crate::FileFault;
use crate::mount::{no_roles, read_catalogue};
use crate::transfer::read;
use disk_layout::{
    Entry, earlier, ends_in_zeros, is_label1, judge_bits, judge_map_page, judge_searches,
    least_page, note_bad, note_indexes,
};
use disk_pages::{AREA_PAGES, PageMap};
use solo_base::Page;
use solo_devices::Area;
use std::alloc::Global;

/// Judges all pages of an area by format 1, and reads its catalogue and its taken pages.
#[tactic(auto, using(crate::proofs::Kept::faults_then, crate::proofs::Kept::no_faults, crate::proofs::Kept::same_size))]
pub fn judge_older<A: Area>(
    alloc: Global,
    area: &mut A,
    entries: &mut [Entry],
) -> Result<PageMap, FileFault>
    requires size { A.size area.old ≡ AREA_PAGES }
    requires places { length entries.old ≡ 240 }
    ensures places { length entries.new ≡ 240 }
    ensures judged { (pages : List (List ℕ)) → A.pages area.old ≡ Some pages
        → MatchResult result (λ map. IsOlderRead entries.new map pages) (RefusesOlder pages) }
    ensures kept { IfOk result (λ _. (p : ℕ) → p < 240
        → IsKeptEntry (slice_index_or entries.new p blank_entry)) }
    ensures whole { IfOk result (λ _. HasSize (A.pages area.new) (A.size area.new)) }
    ensures left { A.pages area.new ≡ A.pages area.old }
    ensures size { A.size area.new ≡ A.size area.old }
    ensures refusals { IfErr result MayRefuseMount }
    ensures cause { FaultsOnly (A.faults area.old) (A.faults area.new) result }
{
    let mut roles = no_roles(alloc, area.size())?;
    judge_pages(area, entries, &mut roles)
}

#[tactic(auto, using(crate::proofs::Kept::faults_then, crate::proofs::Kept::no_faults, crate::proofs::Kept::same_size))]
fn judge_pages<A: Area>(
    area: &mut A,
    entries: &mut [Entry],
    roles: &mut [u8],
) -> Result<PageMap, FileFault>
    requires size { A.size area.old ≡ AREA_PAGES }
    requires told { HasSize (A.pages area.old) (A.size area.old) }
    requires places { length entries.old ≡ 240 }
    requires room { length roles.old ≡ AREA_PAGES }
    requires blank { (n : ℕ) → slice_index roles.old n ≡ 0 }
    ensures judged { (pages : List (List ℕ)) → A.pages area.old ≡ Some pages
        → MatchResult result (λ map. IsOlderRead entries.new map pages) (RefusesOlder pages) }
    ensures kept { IfOk result (λ _. (p : ℕ) → p < 240
        → IsKeptEntry (slice_index_or entries.new p blank_entry)) }
    ensures left { A.pages area.new ≡ A.pages area.old }
    ensures size { A.size area.new ≡ A.size area.old }
    ensures refusals { IfErr result MayRefuseMount }
    ensures cause { FaultsOnly (A.faults area.old) (A.faults area.new) result }
{
    judge_label(area)?;
    judge_rest(area, entries, roles)
}

// Judges the label.
#[tactic(auto, using(crate::proofs::Kept::faults_then, crate::proofs::Kept::no_faults))]
fn judge_label<A: Area>(area: &mut A) -> Result<(), FileFault>
    requires size { A.size area.old ≡ AREA_PAGES }
    ensures judged { (pages : List (List ℕ)) → A.pages area.old ≡ Some pages
        → MatchResult result (λ _. page_at pages 0 ≡ label1) (RefusesOlder pages) }
    ensures left { A.pages area.new ≡ A.pages area.old }
    ensures size { A.size area.new ≡ A.size area.old }
    ensures refusals { IfErr result MayRefuseMount }
    ensures cause { FaultsOnly (A.faults area.old) (A.faults area.new) result }
{
    let mut page = Page::zeros();
    read(area, 0, &mut page)?;
    if !is_label1(&page) {
        return Err(FileFault::NotSolo { page: 0 });
    }
    Ok(())
}

// Judges all pages but the label.
#[tactic(auto, using(crate::proofs::Kept::faults_then, crate::proofs::Kept::no_faults, crate::proofs::Kept::same_size))]
fn judge_rest<A: Area>(
    area: &mut A,
    entries: &mut [Entry],
    roles: &mut [u8],
) -> Result<PageMap, FileFault>
    requires size { A.size area.old ≡ AREA_PAGES }
    requires told { HasSize (A.pages area.old) (A.size area.old) }
    requires places { length entries.old ≡ 240 }
    requires room { length roles.old ≡ AREA_PAGES }
    requires blank { (n : ℕ) → slice_index roles.old n ≡ 0 }
    ensures judged { (pages : List (List ℕ)) → A.pages area.old ≡ Some pages → page_at pages 0 ≡ label1
        → MatchResult result (λ map. IsOlderRead entries.new map pages) (RefusesOlder pages) }
    ensures kept { IfOk result (λ _. (p : ℕ) → p < 240
        → IsKeptEntry (slice_index_or entries.new p blank_entry)) }
    ensures left { A.pages area.new ≡ A.pages area.old }
    ensures size { A.size area.new ≡ A.size area.old }
    ensures refusals { IfErr result MayRefuseMount }
    ensures cause { FaultsOnly (A.faults area.old) (A.faults area.new) result }
{
    judge_catalogue(area, entries)?;
    note_indexes(entries, roles);
    let bad_page = judge_maps(area, roles)?;
    judge_map(area, entries, roles, bad_page)
}

// Reads and judges the catalogue.
#[tactic(auto, using(crate::proofs::Kept::faults_then, crate::proofs::Kept::no_faults))]
fn judge_catalogue<A: Area>(area: &mut A, entries: &mut [Entry]) -> Result<(), FileFault>
    requires size { A.size area.old ≡ AREA_PAGES }
    requires places { length entries.old ≡ 240 }
    ensures judged { (pages : List (List ℕ)) → A.pages area.old ≡ Some pages → page_at pages 0 ≡ label1
        → MatchResult result (λ _. EntriesRead (disk_of pages) 240 entries.new
        × ((p : ℕ) → p < 240 → EntryIsRight (disk_of pages) p)) (RefusesOlder pages) }
    ensures kept { IfOk result (λ _. (p : ℕ) → p < 240
        → IsKeptEntry (slice_index_or entries.new p blank_entry)) }
    ensures left { A.pages area.new ≡ A.pages area.old }
    ensures size { A.size area.new ≡ A.size area.old }
    ensures refusals { IfErr result MayRefuseMount }
    ensures cause { FaultsOnly (A.faults area.old) (A.faults area.new) result }
{
    let mut bad = None;
    read_catalogue(area, entries, &mut bad)?;
    match earlier(bad, judge_searches(entries)) {
        Some(place) => Err(FileFault::NotSolo {
            page: 1 + place / 16,
        }),
        None => Ok(()),
    }
}

// Judges all map pages, notes their pages, and answers the first page that is wrong.
#[tactic(auto, using(crate::proofs::Kept::faults_then, crate::proofs::Kept::no_faults))]
fn judge_maps<A: Area>(area: &mut A, roles: &mut [u8]) -> Result<Option<u16>, FileFault>
    requires size { A.size area.old ≡ AREA_PAGES }
    requires room { length roles.old ≡ AREA_PAGES }
    ensures judged { (pages : List (List ℕ)) → A.pages area.old ≡ Some pages
        → MapRoles (disk_of pages) 0 0 roles.old
        → IfOk result (λ bad. MapRoles (disk_of pages) AREA_PAGES 0 roles.new
        × JudgedBelow (MapKeeps (disk_of pages)) AREA_PAGES bad) }
    ensures left { A.pages area.new ≡ A.pages area.old }
    ensures size { A.size area.new ≡ A.size area.old }
    ensures fault { IfErr result (λ fault. fault ≡ DiskFault) }
    ensures cause { FaultsOnly (A.faults area.old) (A.faults area.new) result }
{
    let mut bad = None;
    for n in 0..AREA_PAGES {
        judge_next_map(area, n, roles, &mut bad)?;
    }
    Ok(bad)
}

// Judges page n, where it is a map page.
#[tactic(auto, using(crate::proofs::Kept::faults_then, crate::proofs::Kept::no_faults))]
fn judge_next_map<A: Area>(
    area: &mut A,
    n: u16,
    roles: &mut [u8],
    bad: &mut Option<u16>,
) -> Result<(), FileFault>
    requires size { A.size area.old ≡ AREA_PAGES }
    requires room { length roles.old ≡ AREA_PAGES }
    requires within { n < AREA_PAGES }
    ensures judged { (pages : List (List ℕ)) → A.pages area.old ≡ Some pages
        → MapRoles (disk_of pages) n 0 roles.old → JudgedBelow (MapKeeps (disk_of pages)) n bad.old
        → OnOk result (MapRoles (disk_of pages) (n + 1) 0 roles.new
        × JudgedBelow (MapKeeps (disk_of pages)) (n + 1) bad.new) }
    ensures left { A.pages area.new ≡ A.pages area.old }
    ensures size { A.size area.new ≡ A.size area.old }
    ensures fault { IfErr result (λ fault. fault ≡ DiskFault) }
    ensures cause { FaultsOnly (A.faults area.old) (A.faults area.new) result }
{
    if roles[n as usize] != 255 {
        return Ok(());
    }
    let mut page = Page::zeros();
    read(area, n, &mut page)?;
    let right = judge_map_page(&page, roles);
    note_bad(bad, n, right);
    Ok(())
}

// Reads and judges the bit map, and so the whole area.
#[tactic(auto, using(crate::proofs::Kept::faults_then, crate::proofs::Kept::no_faults))]
fn judge_map<A: Area>(
    area: &mut A,
    entries: &[Entry],
    roles: &[u8],
    bad_page: Option<u16>,
) -> Result<PageMap, FileFault>
    requires size { A.size area.old ≡ AREA_PAGES }
    requires told { HasSize (A.pages area.old) (A.size area.old) }
    requires places { length entries.now ≡ 240 }
    requires room { length roles.now ≡ AREA_PAGES }
    ensures judged { (pages : List (List ℕ)) → A.pages area.old ≡ Some pages → page_at pages 0 ≡ label1
        → EntriesRead (disk_of pages) 240 entries.now → ((p : ℕ) → p < 240 → EntryIsRight (disk_of pages) p)
        → MapRoles (disk_of pages) AREA_PAGES 0 roles.now
        → JudgedBelow (MapKeeps (disk_of pages)) AREA_PAGES bad_page
        → MatchResult result (λ map. IsOlderRead entries.now map pages) (RefusesOlder pages) }
    ensures left { A.pages area.new ≡ A.pages area.old }
    ensures size { A.size area.new ≡ A.size area.old }
    ensures refusals { IfErr result MayRefuseMount }
    ensures cause { FaultsOnly (A.faults area.old) (A.faults area.new) result }
{
    let mut low = Page::zeros();
    read(area, 16, &mut low)?;
    let mut high = Page::zeros();
    read(area, 17, &mut high)?;
    match least_page(
        judge_bits(&low, &high, roles),
        ends_in_zeros(&high),
        bad_page,
    ) {
        Some(page) => Err(FileFault::NotSolo { page }),
        None => Ok(PageMap::of_pages(&low, &high)),
    }
}
