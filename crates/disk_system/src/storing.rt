ghost use Rattle.std.specs.Prelude.{◌≡◌, ℕ, ◌+◌, ◌-◌, ◌*◌, ◌/◌, ◌%◌, ◌<◌, ◌≤◌, ◌⊎◌, List, [], Some, Ok, Err, false, IsTrue, length, take, drop, IfErr, OnOk};
ghost use Rattle.std.specs.FinMap as fin;
ghost use Rattle.disk_layout.specs.Files.{File, Files, files as file_map, free_count, name_count};
ghost use Rattle.disk_layout.specs.Deleting.{pages_held};
ghost use Rattle.disk_files.specs.declared.fault.FileFault.TheVariants.{DiskFault, NoFile};
ghost use Rattle.disk_files.specs.Answers.{Answers, FaultsOnly, Holds, StandsOpen, Told, after_reading, stays_sound, pages_needed};
ghost use Rattle.disk_layout.specs.Format.{part_count};
ghost use Rattle.disk_layout.specs.Taking.{TakesNext};
ghost use Rattle.disk_contents.specs.Contents.{cut, in_pages};
ghost use Rattle.disk_system.specs.Taken.{TakesFile, TakesPages};
ghost use Rattle.disk_system.specs.Calls.{store_answer, room_answer, MayRefuse};

use disk_files::{FileArea, FileFault};
use disk_layout::FileKind;
use solo_base::{Ident, PAGE_LENGTH, Page};
use solo_devices::Area;

/// Makes a file of the whole pages of these bytes, of any kind: what is behind the last whole page is not
/// stored. All refusals but a fault of the area come before anything is
/// written.
pub fn store<A: Area>(
    files: &mut FileArea<A>,
    name: &Ident,
    kind: FileKind,
    bytes: &[u8],
) -> Result<(), FileFault>
    requires sound { IsTrue files.old.sound }
    ensures answer { (pages : List (List ℕ)) → A.pages files.old.area ≡ Some pages
        → Answers result (store_answer (fin.get (file_map pages) name.now) (name_count pages)
        (free_count pages) (length bytes.now / 512)) }
    ensures stored { (pages : List (List ℕ)) → A.pages files.old.area ≡ Some pages
        → OnOk result (Holds (A.pages files.new.area)
        (fin.insert (file_map pages) name.now (record {
          kind =
              kind;
          protected = false;
          pages = in_pages bytes.now;
        }))
        (free_count pages - pages_held (length bytes.now / 512))) }
    ensures taken { (pages : List (List ℕ)) → A.pages files.old.area ≡ Some pages
        → OnOk result (Told (A.pages files.new.area)
        (λ after. TakesFile pages after name.now (length bytes.now / 512))) }
    ensures refused { (pages : List (List ℕ)) → A.pages files.old.area ≡ Some pages
        → IfErr result (λ fault. (fault ≡ DiskFault) ⊎ (A.pages files.new.area ≡ Some pages)) }
    ensures refusals { IfErr result MayRefuse }
    ensures sound { files.new.sound ≡ stays_sound result }
    ensures cause { FaultsOnly (A.faults files.old.area) (A.faults files.new.area) result }
{
    let count = bytes.len() / PAGE_LENGTH;
    match find_room(files, name, count) {
        Ok(()) => make(files, name, kind, bytes, count),
        Err(fault) => Err(fault),
    }
}

// Whether a file of this name and so many pages can be made.
fn find_room<A: Area>(files: &mut FileArea<A>, name: &Ident, count: usize) -> Result<(), FileFault>
    requires { IsTrue files.old.sound }
    ensures answer { (pages : List (List ℕ)) → A.pages files.old.area ≡ Some pages
        → Answers result (store_answer (fin.get (file_map pages) name.now) (name_count pages)
        (free_count pages) count) }
    ensures refusals { IfErr result MayRefuse }
    ensures left { A.pages files.new.area ≡ A.pages files.old.area }
    ensures after { files.new ≡ after_reading files.old files.new.area result }
    ensures cause { FaultsOnly (A.faults files.old.area) (A.faults files.new.area) result }
{
    match files.lookup(name) {
        Ok(_) => Err(FileFault::Exists),
        Err(FileFault::NoFile) => has_room(files, count),
        Err(fault) => Err(fault),
    }
}

// Whether a file of so many pages and a new name can be made.
fn has_room<A: Area>(files: &FileArea<A>, count: usize) -> Result<(), FileFault>
    requires { IsTrue files.now.sound }
    ensures answer { (pages : List (List ℕ)) → A.pages files.now.area ≡ Some pages
        → result ≡ room_answer (name_count pages) (free_count pages) count }
    ensures no_fault { result ≡ Err DiskFault → ⊥ }
    ensures refusals { IfErr result MayRefuse }
{
    if files.names() >= 240 {
        return Err(FileFault::CatalogFull);
    }
    if count > 4000 {
        return Err(FileFault::FileFull);
    }
    if (files.free_pages() as usize) < count + count.div_ceil(250) + 1 {
        return Err(FileFault::DiskFull);
    }
    Ok(())
}

// Makes a file of the first so many pages of these bytes, for which there is room.
fn make<A: Area>(
    files: &mut FileArea<A>,
    name: &Ident,
    kind: FileKind,
    bytes: &[u8],
    count: usize,
) -> Result<(), FileFault>
    requires sound { IsTrue files.old.sound }
    requires inside { 512 * count ≤ length bytes.now }
    ensures made { (pages : List (List ℕ)) → A.pages files.old.area ≡ Some pages
        → store_answer (fin.get (file_map pages) name.now) (name_count pages) (free_count pages) count ≡ Ok tt
        → OnOk result (Holds (A.pages files.new.area)
        (fin.insert (file_map pages) name.now (record {
          kind =
              kind;
          protected = false;
          pages = cut bytes.now count;
        }))
        (free_count pages - pages_held count)) }
    ensures taken { (pages : List (List ℕ)) → A.pages files.old.area ≡ Some pages
        → store_answer (fin.get (file_map pages) name.now) (name_count pages) (free_count pages) count ≡ Ok tt
        → OnOk result (Told (A.pages files.new.area) (λ after. TakesFile pages after name.now count)) }
    ensures fault { (pages : List (List ℕ)) → A.pages files.old.area ≡ Some pages
        → store_answer (fin.get (file_map pages) name.now) (name_count pages) (free_count pages) count ≡ Ok tt
        → IfErr result (λ fault. fault ≡ DiskFault) }
    ensures refusals { IfErr result MayRefuse }
    ensures sound { files.new.sound ≡ stays_sound result }
    ensures cause { FaultsOnly (A.faults files.old.area) (A.faults files.new.area) result }
{
    match files.create(name, kind) {
        Ok(()) => append_pages(files, name, bytes, count),
        Err(fault) => Err(fault),
    }
}

// Puts the first so many pages of these bytes behind a file that is empty.
fn append_pages<A: Area>(
    files: &mut FileArea<A>,
    name: &Ident,
    bytes: &[u8],
    count: usize,
) -> Result<(), FileFault>
    requires sound { IsTrue files.old.sound }
    requires stands { StandsOpen files.old.entries name.now }
    requires inside { 512 * count ≤ length bytes.now }
    ensures appended { (others : Files) (file : File) (unused : ℕ)
        → Holds (A.pages files.old.area) (fin.insert others name.now (record file { pages = [] })) unused
        → file.protected ≡ false → count ≤ 4000 → count + part_count count ≤ unused
        → OnOk result (Holds (A.pages files.new.area)
        (fin.insert others name.now (record file { pages = cut bytes.now count }))
        (unused - (count + part_count count))) }
    ensures taken { (others : Files) (file : File) (unused : ℕ)
        → (held : Holds (A.pages files.old.area)
        (fin.insert others name.now (record file { pages = [] })) unused)
        → file.protected ≡ false → count ≤ 4000 → count + part_count count ≤ unused
        → OnOk result (Told (A.pages files.new.area) (λ after. TakesPages held.pages after name.now count)) }
    ensures fault { (others : Files) (file : File) (unused : ℕ)
        → Holds (A.pages files.old.area) (fin.insert others name.now (record file { pages = [] })) unused
        → file.protected ≡ false → count ≤ 4000 → count + part_count count ≤ unused
        → IfErr result (λ fault. fault ≡ DiskFault) }
    ensures refusals { IfErr result MayRefuse }
    ensures sound { files.new.sound ≡ stays_sound result }
    ensures cause { FaultsOnly (A.faults files.old.area) (A.faults files.new.area) result }
{
    for k in 0..count {
        append_page(files, name, bytes, k)?;
    }
    Ok(())
}

// Puts page k of these bytes behind a file that has the pages before it.
fn append_page<A: Area>(
    files: &mut FileArea<A>,
    name: &Ident,
    bytes: &[u8],
    k: usize,
) -> Result<(), FileFault>
    requires sound { IsTrue files.old.sound }
    requires stands { StandsOpen files.old.entries name.now }
    requires inside { 512 * (k + 1) ≤ length bytes.now }
    ensures appended { (others : Files) (file : File) (unused : ℕ)
        → Holds (A.pages files.old.area) (fin.insert others name.now (record file {
          pages =
              cut bytes.now k;
        })) unused
        → file.protected ≡ false → k < 4000 → pages_needed k ≤ unused
        → OnOk result (Holds (A.pages files.new.area)
        (fin.insert others name.now (record file { pages = cut bytes.now (k + 1) }))
        (unused - pages_needed k)) }
    ensures taken { (others : Files) (file : File) (unused : ℕ)
        → (held : Holds (A.pages files.old.area) (fin.insert others name.now (record file {
          pages =
              cut bytes.now k;
        })) unused)
        → OnOk result (Told (A.pages files.new.area) (λ after. TakesNext held.pages after name.now k)) }
    ensures fault { (others : Files) (file : File) (unused : ℕ)
        → Holds (A.pages files.old.area) (fin.insert others name.now (record file {
          pages =
              cut bytes.now k;
        })) unused
        → file.protected ≡ false → k < 4000 → pages_needed k ≤ unused
        → IfErr result (λ fault. fault ≡ DiskFault) }
    ensures stands { StandsOpen files.new.entries name.now }
    ensures refusals { IfErr result MayRefuse }
    ensures sound { files.new.sound ≡ stays_sound result }
    ensures cause { FaultsOnly (A.faults files.old.area) (A.faults files.new.area) result }
{
    files.append(name, &page_at(bytes, k))
}

// Page k of these bytes.
fn page_at(bytes: &[u8], k: usize) -> Page
    requires { 512 * (k + 1) ≤ length bytes.now }
    ensures { result.0 ≡ take 512 (drop (512 * k) bytes.now) }
{
    let from = PAGE_LENGTH * k;
    let mut page = Page::zeros();
    page.0.copy_from_slice(&bytes[from..from + PAGE_LENGTH]);
    page
}
