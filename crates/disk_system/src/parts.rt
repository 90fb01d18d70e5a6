ghost use Rattle.std.specs.Prelude.{◌≡◌, ℕ, ◌+◌, ◌*◌, ◌<◌, ◌≤◌, List, Some, length, IfErr, OnOk};
ghost use Rattle.std.specs.FinSet as set;
ghost use Rattle.solo_base.specs.PageBytes.{number_at};
ghost use Rattle.disk_pages.specs.Pages.{Pages};
ghost use Rattle.disk_layout.specs.Format.{IsAddress, count_in_part, part_count};
ghost use Rattle.disk_files.specs.declared.fault.FileFault.TheVariants.{DiskFault};
ghost use Rattle.disk_files.specs.Answers.{FaultsOnly, Stays, Told};
ghost use Rattle.disk_system.specs.Migrating.{AddsParts, WritesParts};

use crate::lengths::part_count;
use disk_files::FileFault;
use disk_files::bare_area::{read, take, write};
use disk_pages::{AREA_PAGES, PageMap, number, set_number};
use solo_base::Page;
use solo_devices::Area;

/// Makes the map page of a file of so many pages its index page.
#[tactic(auto, using(disk_files::proofs::Kept::stays_then, disk_files::proofs::Kept::faults_then))]
pub fn add_parts<A: Area>(
    area: &mut A,
    map: &mut PageMap,
    index: u16,
    count: u16,
) -> Result<(), FileFault>
    requires size { A.size area.old ≡ AREA_PAGES }
    requires address { IsAddress index }
    requires short { count ≤ 255 }
    requires room { set.len map.old + part_count count ≤ AREA_PAGES }
    ensures wrote { (pages : List (List ℕ)) → A.pages area.old ≡ Some pages → length pages ≡ AREA_PAGES
        → OnOk result (Told (A.pages area.new) (λ after. AddsParts pages after map.old map.new index count)) }
    ensures many { OnOk result (set.len map.new ≡ set.len map.old + part_count count) }
    ensures size { A.size area.new ≡ A.size area.old }
    ensures stays { Stays (A.pages area.old) (A.size area.old) (A.pages area.new) (A.size area.new) }
    ensures fault { IfErr result (λ fault. fault ≡ DiskFault) }
    ensures cause { FaultsOnly (A.faults area.old) (A.faults area.new) result }
{
    let mut old = Page::zeros();
    read(area, index, &mut old)?;
    let mut new = Page::zeros();
    set_number(&mut new, 0, count);
    for k in 0..part_count(count) {
        add_part(area, map, &old, &mut new, count, k)?;
    }
    write(area, index, &new)
}

// Writes part k of a file of so many pages, and notes it in what its index page is to be.
#[tactic(auto, using(disk_files::proofs::Kept::stays_then, disk_files::proofs::Kept::faults_then))]
fn add_part<A: Area>(
    area: &mut A,
    map: &mut PageMap,
    old: &Page,
    new: &mut Page,
    count: u16,
    k: u16,
) -> Result<(), FileFault>
    requires size { A.size area.old ≡ AREA_PAGES }
    requires short { count ≤ 255 }
    requires below { k < part_count count }
    requires room { set.len map.old < AREA_PAGES }
    ensures wrote { (first pages : List (List ℕ)) (taken : Pages) → A.pages area.old ≡ Some pages
        → length first ≡ AREA_PAGES → WritesParts first pages taken map.old old.now.0 new.old.0 count k
        → OnOk result (Told (A.pages area.new)
        (λ after. WritesParts first after taken map.new old.now.0 new.new.0 count (k + 1))) }
    ensures many { OnOk result (set.len map.new ≡ set.len map.old + 1) }
    ensures size { A.size area.new ≡ A.size area.old }
    ensures stays { Stays (A.pages area.old) (A.size area.old) (A.pages area.new) (A.size area.new) }
    ensures fault { IfErr result (λ fault. fault ≡ DiskFault) }
    ensures cause { FaultsOnly (A.faults area.old) (A.faults area.new) result }
{
    let part = take(map);
    set_number(new, 2 * (k + 1), part);
    write(area, part, &part_of(old, count, k))
}

// Part k of a file of so many pages, by its map page.
fn part_of(old: &Page, count: u16, k: u16) -> Page
    requires short { count ≤ 255 }
    requires below { k < part_count count }
    ensures numbers { (j : ℕ) → j < count_in_part count k
        → number_at result.0 (2 * j) ≡ number_at old.now.0 (2 * (250 * k + j + 1)) }
    ensures rest { (j : ℕ) → count_in_part count k ≤ j → j < 256 → number_at result.0 (2 * j) ≡ 0 }
{
    let mut part = Page::zeros();
    let inside = (count - 250 * k).min(250);
    for j in 0..inside {
        set_number(&mut part, 2 * j, number(old, 2 * (250 * k + j + 1)));
    }
    part
}
