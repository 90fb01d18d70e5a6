ghost use Rattle.std.specs.Prelude.{◌≡◌, ◌-◌, ℕ, ◌<◌, ◌≤◌, List, Some, Ok, Err, length, slice_index_or, slice_set, replicate, IfOk, IfErr, OnOk, OnErr};
ghost use Rattle.disk_layout.specs.Disk.{page_at};
ghost use Rattle.disk_layout.specs.Format.{IsAddress};
ghost use Rattle.disk_files.specs.Answers.{stays_sound, Stays, FaultsOnly};
ghost use Rattle.disk_files.specs.declared.fault.FileFault.TheVariants.{DiskFault};

use crate::FileFault;
use solo_base::Page;
use solo_devices::{Area, Moved};

/// Reads page n.
pub fn read<A: Area>(area: &mut A, n: u16, page: &mut Page) -> Result<(), FileFault>
    requires { n < A.size area.old }
    ensures page { (pages : List (List ℕ)) → A.pages area.old ≡ Some pages
        → OnOk result (page.new.0 ≡ page_at pages n) }
    ensures left { A.pages area.new ≡ A.pages area.old }
    ensures size { A.size area.new ≡ A.size area.old }
    ensures fault { IfErr result (λ fault. fault ≡ DiskFault) }
    ensures cause { FaultsOnly (A.faults area.old) (A.faults area.new) result }
{
    match area.read(n, page) {
        Moved::Done => Ok(()),
        Moved::Failed => Err(FileFault::DiskFault),
    }
}

/// Writes page n.
pub fn write<A: Area>(area: &mut A, n: u16, page: &Page) -> Result<(), FileFault>
    requires { n < A.size area.old }
    ensures page { (pages : List (List ℕ)) → A.pages area.old ≡ Some pages
        → OnOk result (A.pages area.new ≡ Some (slice_set pages n page.now.0)) }
    ensures size { A.size area.new ≡ A.size area.old }
    ensures stays { Stays (A.pages area.old) (A.size area.old) (A.pages area.new) (A.size area.new) }
    ensures fault { IfErr result (λ fault. fault ≡ DiskFault) }
    ensures cause { FaultsOnly (A.faults area.old) (A.faults area.new) result }
{
    match area.write(n, page) {
        Moved::Done => Ok(()),
        Moved::Failed => Err(FileFault::DiskFault),
    }
}

/// A page that may belong to a file: this one, where it may. A number that an untold area gives may be any.
pub fn file_page(n: u16) -> u16
    ensures same { IsAddress n → result ≡ n }
    ensures file { IsAddress result }
{
    n.max(18).min(4287)
}

/// Whether the area did not fail in the call that answers so.
pub fn stays_sound<T>(answer: &Result<T, FileFault>) -> bool
    ensures { result ≡ stays_sound answer.now }
{
    match answer {
        Err(FileFault::DiskFault) => false,
        _ => true,
    }
}
