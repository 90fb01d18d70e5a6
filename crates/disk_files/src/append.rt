ghost use Rattle.std.specs.Prelude.{◌≡◌, ◌≢◌, ℕ, ◌+◌, ◌-◌, ◌⊎◌, ◌*◌, ◌/◌, ◌%◌, ◌<◌, ◌≤◌, true, List, Some, Ok, Err, length, IfErr, OnOk};
ghost use Rattle.std.specs.FinSet as set;
ghost use Rattle.disk_pages.specs.Pages.{IsLeastFree};
ghost use Rattle.disk_layout.specs.Disk.{number_of, page_at};
ghost use Rattle.disk_layout.specs.Format.{IsAddress};
ghost use Rattle.disk_files.specs.Answers.{Answers, Stays, FaultsOnly, pages_needed, append_answer_of};
ghost use Rattle.disk_files.specs.declared.fault.FileFault.TheVariants.{DiskFull, FileFull, DiskFault};
ghost use Rattle.disk_layout.specs.Appending.{SavesMap, AppendWrites, Appends, MayGrow};

use crate::FileFault;
use crate::transfer::{file_page, read, write};
use disk_pages::{PageMap, number, set_number};
use solo_base::Page;
use solo_devices::Area;

/// Takes the least free page.
pub fn take(map: &mut PageMap) -> u16
    requires { set.len map.old < 4288 }
    ensures least { IsLeastFree map.old result }
    ensures free { IsAddress result }
    ensures taken { map.new ≡ set.insert map.old result }
{
    match map.allocate() {
        Some(n) => n,
        None => unreachable!(),
    }
}

/// Writes the bit map.
#[tactic(auto, using(crate::proofs::Kept::stays_then, crate::proofs::Kept::faults_then))]
pub fn save_map<A: Area>(area: &mut A, map: &PageMap) -> Result<(), FileFault>
    requires size { A.size area.old ≡ 4288 }
    ensures saved { (pages : List (List ℕ)) → A.pages area.old ≡ Some pages → length pages ≡ 4288
        → OnOk result ((after : List (List ℕ)) × (A.pages area.new ≡ Some after)
        × SavesMap pages after map.now) }
    ensures size { A.size area.new ≡ A.size area.old }
    ensures stays { Stays (A.pages area.old) (A.size area.old) (A.pages area.new) (A.size area.new) }
    ensures fault { IfErr result (λ fault. fault ≡ DiskFault) }
    ensures cause { FaultsOnly (A.faults area.old) (A.faults area.new) result }
{
    let (low, high) = map.to_pages();
    write(area, 16, &low)?;
    write(area, 17, &high)
}

/// Puts a page into the place `count` of a file, given its index page and the part page for it.
#[tactic(auto, using(crate::proofs::Kept::stays_then, crate::proofs::Kept::faults_then))]
pub fn put_page<A: Area>(
    area: &mut A,
    map: &mut PageMap,
    i: u16,
    index: &mut Page,
    count: u16,
    q: u16,
    part: &mut Page,
    page: &Page,
) -> Result<(), FileFault>
    requires size { A.size area.old ≡ 4288 }
    requires room { set.len map.old < 4288 }
    requires short { count < 4000 }
    requires index_page { IsAddress i }
    requires part_page { IsAddress q }
    ensures wrote { (pages : List (List ℕ)) → A.pages area.old ≡ Some pages → length pages ≡ 4288 → i ≢ q
        → set.contains map.old i ≡ true → set.contains map.old q ≡ true
        → OnOk result ((after : List (List ℕ)) × (f : ℕ) × (A.pages area.new ≡ Some after)
        × IsLeastFree map.old f × IsAddress f × (map.new ≡ set.insert map.old f)
        × AppendWrites pages after map.new i q f count index.old.0 part.old.0 page.now.0) }
    ensures size { A.size area.new ≡ A.size area.old }
    ensures stays { Stays (A.pages area.old) (A.size area.old) (A.pages area.new) (A.size area.new) }
    ensures fault { IfErr result (λ fault. fault ≡ DiskFault) }
    ensures cause { FaultsOnly (A.faults area.old) (A.faults area.new) result }
{
    let f = take(map);
    write(area, f, page)?;
    set_number(part, 2 * (count % 250), f);
    write(area, q, part)?;
    set_number(index, 0, count + 1);
    set_number(index, 2 * (count / 250 + 1), q);
    write(area, i, index)?;
    save_map(area, map)
}

/// How many pages an append to a file with so many takes.
fn pages_needed(count: u16) -> u16
    ensures { result ≡ pages_needed count }
{
    if count % 250 == 0 { 2 } else { 1 }
}

/// Puts a page behind the file with this index page.
#[tactic(auto, using(crate::proofs::Kept::stays_then, crate::proofs::Kept::faults_then))]
pub fn append_page<A: Area>(
    area: &mut A,
    map: &mut PageMap,
    i: u16,
    page: &Page,
) -> Result<(), FileFault>
    requires size { A.size area.old ≡ 4288 }
    requires index_page { IsAddress i }
    ensures answer { (pages : List (List ℕ)) → A.pages area.old ≡ Some pages → MayGrow pages map.old i
        → Answers result (append_answer_of (number_of pages i 0) (4288 - set.len map.old)) }
    ensures wrote { (pages : List (List ℕ)) → A.pages area.old ≡ Some pages → MayGrow pages map.old i
        → OnOk result ((number_of pages i 0 < 4000)
        × ((after : List (List ℕ)) × (A.pages area.new ≡ Some after)
        × Appends pages after map.old map.new i (number_of pages i 0) (page_at pages i) page.now.0)) }
    ensures refusals { IfErr result (λ fault. (fault ≡ FileFull) ⊎ (fault ≡ DiskFull) ⊎ (fault ≡ DiskFault)) }
    ensures refused { IfErr result (λ fault. (fault ≡ DiskFault)
        ⊎ ((A.pages area.new ≡ A.pages area.old) × (map.new ≡ map.old))) }
    ensures size { A.size area.new ≡ A.size area.old }
    ensures stays { Stays (A.pages area.old) (A.size area.old) (A.pages area.new) (A.size area.new) }
    ensures cause { FaultsOnly (A.faults area.old) (A.faults area.new) result }
{
    let mut index = Page::zeros();
    read(area, i, &mut index)?;
    let count = number(&index, 0);
    if count >= 4000 {
        return Err(FileFault::FileFull);
    }
    if map.free() < pages_needed(count) {
        return Err(FileFault::DiskFull);
    }
    if count % 250 == 0 {
        append_part(area, map, i, &mut index, count, page)
    } else {
        append_in(area, map, i, &mut index, count, page)
    }
}

// Puts a page behind a file, with a new part for it.
#[tactic(auto, using(crate::proofs::Kept::stays_then, crate::proofs::Kept::faults_then))]
fn append_part<A: Area>(
    area: &mut A,
    map: &mut PageMap,
    i: u16,
    index: &mut Page,
    count: u16,
    page: &Page,
) -> Result<(), FileFault>
    requires size { A.size area.old ≡ 4288 }
    requires room { set.len map.old + 2 ≤ 4288 }
    requires short { count < 4000 }
    requires index_page { IsAddress i }
    requires full { count % 250 ≡ 0 }
    ensures wrote { (pages : List (List ℕ)) → A.pages area.old ≡ Some pages → length pages ≡ 4288
        → set.contains map.old i ≡ true
        → OnOk result ((after : List (List ℕ)) × (A.pages area.new ≡ Some after)
        × Appends pages after map.old map.new i count index.old.0 page.now.0) }
    ensures size { A.size area.new ≡ A.size area.old }
    ensures stays { Stays (A.pages area.old) (A.size area.old) (A.pages area.new) (A.size area.new) }
    ensures fault { IfErr result (λ fault. fault ≡ DiskFault) }
    ensures cause { FaultsOnly (A.faults area.old) (A.faults area.new) result }
{
    let mut part = Page::zeros();
    let q = take(map);
    put_page(area, map, i, index, count, q, &mut part, page)
}

// Puts a page behind a file, into its last part.
#[tactic(auto, using(crate::proofs::Kept::stays_then, crate::proofs::Kept::faults_then))]
fn append_in<A: Area>(
    area: &mut A,
    map: &mut PageMap,
    i: u16,
    index: &mut Page,
    count: u16,
    page: &Page,
) -> Result<(), FileFault>
    requires size { A.size area.old ≡ 4288 }
    requires room { set.len map.old < 4288 }
    requires short { count < 4000 }
    requires index_page { IsAddress i }
    requires begun { count % 250 ≢ 0 }
    ensures wrote { (pages : List (List ℕ)) → A.pages area.old ≡ Some pages → MayGrow pages map.old i
        → index.old.0 ≡ page_at pages i → count ≡ number_of pages i 0
        → OnOk result ((after : List (List ℕ)) × (A.pages area.new ≡ Some after)
        × Appends pages after map.old map.new i count index.old.0 page.now.0) }
    ensures size { A.size area.new ≡ A.size area.old }
    ensures stays { Stays (A.pages area.old) (A.size area.old) (A.pages area.new) (A.size area.new) }
    ensures fault { IfErr result (λ fault. fault ≡ DiskFault) }
    ensures cause { FaultsOnly (A.faults area.old) (A.faults area.new) result }
{
    let mut part = Page::zeros();
    let q = file_page(number(index, 2 * (count / 250 + 1)));
    read(area, q, &mut part)?;
    put_page(area, map, i, index, count, q, &mut part, page)
}
