ghost use Rattle.std.specs.Prelude.{◌≡◌, ℕ, ◌-◌, ◌<◌, ◌≤◌, ◌⊎◌, List, Some, slice_set, IfErr, IfOk, OnOk};
ghost use Rattle.disk_layout.specs.Disk.{number_of, page_at, disk_of};
ghost use Rattle.disk_layout.specs.Format.{IsAddress};
ghost use Rattle.disk_layout.specs.Files.{HasPages, page_of};
ghost use Rattle.disk_files.specs.declared.fault.FileFault.TheVariants.{PageRange, DiskFault};
ghost use Rattle.disk_files.specs.Answers.{Answers, IsFound, FaultsOnly, Stays, read_answer_of};

use crate::FileFault;
use crate::transfer::{file_page, read, write};
use disk_pages::{AREA_PAGES, number};
use solo_base::Page;
use solo_devices::Area;

/// Reads page n of the file with this index page.
#[tactic(auto, using(crate::proofs::Kept::stays_then, crate::proofs::Kept::faults_then))]
pub fn read_file_page<A: Area>(
    area: &mut A,
    index: u16,
    n: u16,
    page: &mut Page,
) -> Result<(), FileFault>
    requires size { A.size area.old ≡ AREA_PAGES }
    requires address { IsAddress index }
    ensures answer { (pages : List (List ℕ)) → A.pages area.old ≡ Some pages → HasPages pages index
        → Answers result (read_answer_of (number_of pages index 0) n) }
    ensures page { (pages : List (List ℕ)) → A.pages area.old ≡ Some pages → HasPages pages index
        → OnOk result (page.new.0 ≡ page_at pages (page_of (disk_of pages) index (n - 1))) }
    ensures refused { IfErr result (λ fault. (fault ≡ DiskFault) ⊎ (page.new ≡ page.old)) }
    ensures left { A.pages area.new ≡ A.pages area.old }
    ensures size { A.size area.new ≡ A.size area.old }
    ensures fault { IfErr result (λ fault. (fault ≡ PageRange) ⊎ (fault ≡ DiskFault)) }
    ensures cause { FaultsOnly (A.faults area.old) (A.faults area.new) result }
{
    match find_page(area, index, n) {
        Ok(f) => read(area, f, page),
        Err(fault) => Err(fault),
    }
}

/// Writes page n of the file with this index page.
#[tactic(auto, using(crate::proofs::Kept::stays_then, crate::proofs::Kept::faults_then))]
pub fn replace_page<A: Area>(area: &mut A, index: u16, n: u16, page: &Page) -> Result<(), FileFault>
    requires size { A.size area.old ≡ AREA_PAGES }
    requires address { IsAddress index }
    ensures answer { (pages : List (List ℕ)) → A.pages area.old ≡ Some pages → HasPages pages index
        → Answers result (read_answer_of (number_of pages index 0) n) }
    ensures wrote { (pages : List (List ℕ)) → A.pages area.old ≡ Some pages → HasPages pages index
        → OnOk result ((n - 1 < number_of pages index 0)
        × (A.pages area.new
        ≡ Some (slice_set pages (page_of (disk_of pages) index (n - 1)) page.now.0))) }
    ensures refused { IfErr result (λ fault. (fault ≡ DiskFault) ⊎ (A.pages area.new ≡ A.pages area.old)) }
    ensures size { A.size area.new ≡ A.size area.old }
    ensures stays { Stays (A.pages area.old) (A.size area.old) (A.pages area.new) (A.size area.new) }
    ensures fault { IfErr result (λ fault. (fault ≡ PageRange) ⊎ (fault ≡ DiskFault)) }
    ensures cause { FaultsOnly (A.faults area.old) (A.faults area.new) result }
{
    match find_page(area, index, n) {
        Ok(f) => write(area, f, page),
        Err(fault) => Err(fault),
    }
}

// The page of the area that is page n of the file with this index page. Of an area that tells nothing any
// numbers may come.
#[tactic(auto, using(crate::proofs::Kept::stays_then, crate::proofs::Kept::faults_then))]
fn find_page<A: Area>(area: &mut A, index: u16, n: u16) -> Result<u16, FileFault>
    requires size { A.size area.old ≡ AREA_PAGES }
    requires address { IsAddress index }
    ensures answer { (pages : List (List ℕ)) → A.pages area.old ≡ Some pages → HasPages pages index
        → IsFound pages index n result }
    ensures address { IfOk result IsAddress }
    ensures left { A.pages area.new ≡ A.pages area.old }
    ensures size { A.size area.new ≡ A.size area.old }
    ensures fault { IfErr result (λ fault. (fault ≡ PageRange) ⊎ (fault ≡ DiskFault)) }
    ensures cause { FaultsOnly (A.faults area.old) (A.faults area.new) result }
{
    let mut found = Page::zeros();
    read(area, index, &mut found)?;
    let length = number(&found, 0).min(4000);
    if n == 0 || length < n {
        return Err(FileFault::PageRange);
    }
    let j = n - 1;
    let part = file_page(number(&found, 2 * (j / 250 + 1)));
    read(area, part, &mut found)?;
    Ok(file_page(number(&found, 2 * (j % 250))))
}
