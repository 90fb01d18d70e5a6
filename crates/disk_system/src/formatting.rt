ghost use Rattle.std.specs.Prelude.{◌≡◌, ℕ, ◌+◌, ◌<◌, ◌≤◌, List, Some, None, length, slice_set, OnOk};
ghost use Rattle.std.specs.FinMap as fin;
ghost use Rattle.solo_base.specs.PageBytes.{zero_page};
ghost use Rattle.disk_files.specs.Answers.{FaultsOnly, Holds, Told};
ghost use Rattle.disk_system.specs.Formatted.{IsCleared, IsFormatted, KeepsFilePages, failed};

use crate::DiskFault;
use disk_layout::label;
use disk_pages::{AREA_PAGES, FIRST_FILE_PAGE, PageMap};
use solo_base::Page;
use solo_devices::{Area, Moved};

/// Makes an area one without a file. It writes the first 18 pages, and leaves all others.
pub fn format<A: Area>(area: &mut A) -> Result<(), DiskFault>
    requires { A.size area.old ≡ AREA_PAGES }
    ensures formatted { (pages : List (List ℕ)) → A.pages area.old ≡ Some pages
        → OnOk result (Told (A.pages area.new) (IsFormatted pages)) }
    ensures empty { (pages : List (List ℕ)) → A.pages area.old ≡ Some pages
        → OnOk result (Holds (A.pages area.new) fin.empty 4270) }
    ensures kept { KeepsFilePages (A.pages area.old) (A.pages area.new) }
    ensures size { A.size area.new ≡ A.size area.old }
    ensures cause { FaultsOnly (A.faults area.old) (A.faults area.new) (failed result) }
{
    let pages = area.size();
    prove!(pages == AREA_PAGES);
    write_first_pages(area)
}

// Writes the label, an empty catalogue, and the bit map of an area without a file.
#[tactic(auto, using(crate::proofs::Failing::failed_then, crate::proofs::Failing::kept_then))]
fn write_first_pages<A: Area>(area: &mut A) -> Result<(), DiskFault>
    requires { A.size area.old ≡ AREA_PAGES }
    ensures formatted { (pages : List (List ℕ)) → A.pages area.old ≡ Some pages → length pages ≡ AREA_PAGES
        → OnOk result (Told (A.pages area.new) (IsFormatted pages)) }
    ensures kept { KeepsFilePages (A.pages area.old) (A.pages area.new) }
    ensures size { A.size area.new ≡ A.size area.old }
    ensures cause { FaultsOnly (A.faults area.old) (A.faults area.new) (failed result) }
{
    write(area, 0, &label())?;
    clear_catalogue(area)?;
    let (low, high) = PageMap::fresh().to_pages();
    write(area, 16, &low)?;
    write(area, 17, &high)
}

// Writes an empty catalogue.
#[tactic(auto, using(crate::proofs::Failing::failed_then, crate::proofs::Failing::kept_then))]
fn clear_catalogue<A: Area>(area: &mut A) -> Result<(), DiskFault>
    requires { A.size area.old ≡ AREA_PAGES }
    ensures cleared { (pages : List (List ℕ)) → A.pages area.old ≡ Some pages → length pages ≡ AREA_PAGES
        → OnOk result (Told (A.pages area.new) (IsCleared pages 15)) }
    ensures kept { KeepsFilePages (A.pages area.old) (A.pages area.new) }
    ensures size { A.size area.new ≡ A.size area.old }
    ensures cause { FaultsOnly (A.faults area.old) (A.faults area.new) (failed result) }
{
    for n in 0..15 {
        write(area, 1 + n, &Page::zeros())?;
    }
    Ok(())
}

// Writes page n, which is no file's.
fn write<A: Area>(area: &mut A, n: u16, page: &Page) -> Result<(), DiskFault>
    requires size { A.size area.old ≡ AREA_PAGES }
    requires apart { n < FIRST_FILE_PAGE }
    ensures page { (pages : List (List ℕ)) → A.pages area.old ≡ Some pages
        → OnOk result (A.pages area.new ≡ Some (slice_set pages n page.now.0)) }
    ensures kept { KeepsFilePages (A.pages area.old) (A.pages area.new) }
    ensures size { A.size area.new ≡ A.size area.old }
    ensures cause { FaultsOnly (A.faults area.old) (A.faults area.new) (failed result) }
{
    match area.write(n, page) {
        Moved::Done => Ok(()),
        Moved::Failed => Err(DiskFault),
    }
}
