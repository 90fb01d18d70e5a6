ghost use Rattle.std.specs.Prelude.{◌≡◌, ℕ, ◌+◌, ◌<◌, ◌≤◌, Some, None, List, length, IfErr, OnOk, IfOk};
ghost use Rattle.disk_layout.specs.Disk.{disk_of};
ghost use Rattle.disk_layout.specs.Judging.{Roles, FileRoles, IndexKeeps, PartKeeps, JudgedBelow};
ghost use Rattle.disk_files.specs.declared.fault.FileFault.TheVariants.{DiskFault};
ghost use Rattle.disk_files.specs.Answers.{FaultsOnly};

use crate::FileFault;
use crate::transfer::read;
use disk_layout::{earlier, judge_index, judge_part, note_bad};
use disk_pages::AREA_PAGES;
use solo_base::Page;
use solo_devices::Area;

/// Judges all index pages and then all part pages, and answers the first of them that is wrong. In `roles`
/// the pages of files are noted.
#[tactic(auto, using(crate::proofs::Kept::faults_then, crate::proofs::Kept::no_faults))]
pub fn judge_files<A: Area>(area: &mut A, roles: &mut [u8]) -> Result<Option<u16>, FileFault>
    requires size { A.size area.old ≡ AREA_PAGES }
    requires room { length roles.old ≡ AREA_PAGES }
    ensures judged { (pages : List (List ℕ)) → A.pages area.old ≡ Some pages
        → Roles (disk_of pages) 0 0 roles.old
        → IfOk result (λ bad. FileRoles (disk_of pages) AREA_PAGES 0 roles.new
        × JudgedBelow (λ n. IndexKeeps (disk_of pages) n × PartKeeps (disk_of pages) n) AREA_PAGES bad) }
    ensures left { A.pages area.new ≡ A.pages area.old }
    ensures size { A.size area.new ≡ A.size area.old }
    ensures fault { IfErr result (λ fault. fault ≡ DiskFault) }
    ensures cause { FaultsOnly (A.faults area.old) (A.faults area.new) result }
{
    let bad_index = judge_indexes(area, roles)?;
    let bad_part = judge_parts(area, roles)?;
    Ok(earlier(bad_index, bad_part))
}

// Judges all index pages, notes their parts, and answers the first page that is wrong.
#[tactic(auto, using(crate::proofs::Kept::faults_then, crate::proofs::Kept::no_faults))]
fn judge_indexes<A: Area>(area: &mut A, roles: &mut [u8]) -> Result<Option<u16>, FileFault>
    requires size { A.size area.old ≡ AREA_PAGES }
    requires room { length roles.old ≡ AREA_PAGES }
    ensures judged { (pages : List (List ℕ)) → A.pages area.old ≡ Some pages
        → Roles (disk_of pages) 0 0 roles.old
        → IfOk result (λ bad. Roles (disk_of pages) AREA_PAGES 0 roles.new
        × JudgedBelow (IndexKeeps (disk_of pages)) AREA_PAGES bad) }
    ensures left { A.pages area.new ≡ A.pages area.old }
    ensures size { A.size area.new ≡ A.size area.old }
    ensures fault { IfErr result (λ fault. fault ≡ DiskFault) }
    ensures cause { FaultsOnly (A.faults area.old) (A.faults area.new) result }
{
    let mut bad = None;
    for n in 0..AREA_PAGES {
        judge_next_index(area, n, roles, &mut bad)?;
    }
    Ok(bad)
}

// Judges page n, where it is an index page.
#[tactic(auto, using(crate::proofs::Kept::faults_then, crate::proofs::Kept::no_faults))]
fn judge_next_index<A: Area>(
    area: &mut A,
    n: u16,
    roles: &mut [u8],
    bad: &mut Option<u16>,
) -> Result<(), FileFault>
    requires size { A.size area.old ≡ AREA_PAGES }
    requires room { length roles.old ≡ AREA_PAGES }
    requires within { n < AREA_PAGES }
    ensures judged { (pages : List (List ℕ)) → A.pages area.old ≡ Some pages
        → Roles (disk_of pages) n 0 roles.old → JudgedBelow (IndexKeeps (disk_of pages)) n bad.old
        → OnOk result (Roles (disk_of pages) (n + 1) 0 roles.new
        × JudgedBelow (IndexKeeps (disk_of pages)) (n + 1) bad.new) }
    ensures left { A.pages area.new ≡ A.pages area.old }
    ensures size { A.size area.new ≡ A.size area.old }
    ensures fault { IfErr result (λ fault. fault ≡ DiskFault) }
    ensures cause { FaultsOnly (A.faults area.old) (A.faults area.new) result }
{
    if roles[n as usize] != 255 {
        return Ok(());
    }
    let mut page = Page::zeros();
    read(area, n, &mut page)?;
    let right = judge_index(&page, roles);
    note_bad(bad, n, right);
    Ok(())
}

// Judges all part pages, notes their pages, and answers the first page that is wrong.
#[tactic(auto, using(crate::proofs::Kept::faults_then, crate::proofs::Kept::no_faults))]
fn judge_parts<A: Area>(area: &mut A, roles: &mut [u8]) -> Result<Option<u16>, FileFault>
    requires size { A.size area.old ≡ AREA_PAGES }
    requires room { length roles.old ≡ AREA_PAGES }
    ensures judged { (pages : List (List ℕ)) → A.pages area.old ≡ Some pages
        → Roles (disk_of pages) AREA_PAGES 0 roles.old
        → IfOk result (λ bad. FileRoles (disk_of pages) AREA_PAGES 0 roles.new
        × JudgedBelow (PartKeeps (disk_of pages)) AREA_PAGES bad) }
    ensures left { A.pages area.new ≡ A.pages area.old }
    ensures size { A.size area.new ≡ A.size area.old }
    ensures fault { IfErr result (λ fault. fault ≡ DiskFault) }
    ensures cause { FaultsOnly (A.faults area.old) (A.faults area.new) result }
{
    let mut bad = None;
    for n in 0..AREA_PAGES {
        judge_next_part(area, n, roles, &mut bad)?;
    }
    Ok(bad)
}

// Judges page n, where it is a part page.
#[tactic(auto, using(crate::proofs::Kept::faults_then, crate::proofs::Kept::no_faults))]
fn judge_next_part<A: Area>(
    area: &mut A,
    n: u16,
    roles: &mut [u8],
    bad: &mut Option<u16>,
) -> Result<(), FileFault>
    requires size { A.size area.old ≡ AREA_PAGES }
    requires room { length roles.old ≡ AREA_PAGES }
    requires within { n < AREA_PAGES }
    ensures judged { (pages : List (List ℕ)) → A.pages area.old ≡ Some pages
        → FileRoles (disk_of pages) n 0 roles.old → JudgedBelow (PartKeeps (disk_of pages)) n bad.old
        → OnOk result (FileRoles (disk_of pages) (n + 1) 0 roles.new
        × JudgedBelow (PartKeeps (disk_of pages)) (n + 1) bad.new) }
    ensures left { A.pages area.new ≡ A.pages area.old }
    ensures size { A.size area.new ≡ A.size area.old }
    ensures fault { IfErr result (λ fault. fault ≡ DiskFault) }
    ensures cause { FaultsOnly (A.faults area.old) (A.faults area.new) result }
{
    let count = roles[n as usize];
    if count == 0 || count > 250 {
        return Ok(());
    }
    let mut page = Page::zeros();
    read(area, n, &mut page)?;
    let right = judge_part(&page, count as u16, roles);
    note_bad(bad, n, right);
    Ok(())
}
