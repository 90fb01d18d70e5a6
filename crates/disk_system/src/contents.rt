ghost use Rattle.std.specs.Prelude.{◌≡◌, ℕ, ◌-◌, ◌≤◌, ◌⊎◌, ◌++◌, List, [], Some, IsTrue, length, slice_index_or, IfErr, IfOk, OnOk};
ghost use Rattle.std.specs.FinMap as fin;
ghost use Rattle.disk_layout.specs.Files.{File, files as file_map};
ghost use Rattle.disk_files.specs.declared.fault.FileFault.TheVariants.{NoFile};
ghost use Rattle.disk_files.specs.Answers.{FaultsOnly, after_reading};
ghost use Rattle.disk_contents.specs.Contents.{file_bytes};
ghost use Rattle.disk_system.specs.Calls.{of_files, IsOutside};

use crate::SystemFault;
use disk_files::{FileArea, FileFault};
use solo_base::{Ident, Page};
use solo_devices::Area;
use std::alloc::Global;

/// The bytes of a file of any kind and so many pages, as a look-up tells them, one page after the other.
pub fn bytes_of<A: Area>(
    alloc: Global,
    files: &mut FileArea<A>,
    name: &Ident,
    pages: u16,
) -> Result<Vec<u8>, SystemFault>
    requires { IsTrue files.old.sound }
    ensures bytes { (told : List (List ℕ)) (file : File) → A.pages files.old.area ≡ Some told
        → fin.get (file_map told) name.now ≡ Some file → pages ≡ length file.pages
        → IfOk result (λ bytes. bytes.items ≡ file_bytes file) }
    ensures known { (told : List (List ℕ)) (file : File) → A.pages files.old.area ≡ Some told
        → fin.get (file_map told) name.now ≡ Some file → IfErr result IsOutside }
    ensures refusals { IfErr result (λ fault. IsOutside fault ⊎ (fault ≡ SystemFault.File NoFile)) }
    ensures left { A.pages files.new.area ≡ A.pages files.old.area }
    ensures after { files.new ≡ after_reading files.old files.new.area (of_files result) }
    ensures cause { FaultsOnly (A.faults files.old.area) (A.faults files.new.area) (of_files result) }
{
    let mut bytes = Vec::new(alloc);
    for n in 0..pages {
        add_page(files, name, n + 1, &mut bytes)?;
    }
    Ok(bytes)
}

// Adds the bytes of page n of a file. In an area that tells nothing the file may be shorter than it was; then
// it has no such bytes.
fn add_page<A: Area>(
    files: &mut FileArea<A>,
    name: &Ident,
    n: u16,
    bytes: &mut Vec<u8>,
) -> Result<(), SystemFault>
    requires { IsTrue files.old.sound }
    ensures bytes { (told : List (List ℕ)) (file : File) → A.pages files.old.area ≡ Some told
        → fin.get (file_map told) name.now ≡ Some file → 1 ≤ n → n ≤ length file.pages
        → OnOk result (bytes.new.items ≡ bytes.old.items ++ slice_index_or file.pages (n - 1) []) }
    ensures known { (told : List (List ℕ)) (file : File) → A.pages files.old.area ≡ Some told
        → fin.get (file_map told) name.now ≡ Some file → IfErr result IsOutside }
    ensures refusals { IfErr result (λ fault. IsOutside fault ⊎ (fault ≡ SystemFault.File NoFile)) }
    ensures left { A.pages files.new.area ≡ A.pages files.old.area }
    ensures after { files.new ≡ after_reading files.old files.new.area (of_files result) }
    ensures cause { FaultsOnly (A.faults files.old.area) (A.faults files.new.area) (of_files result) }
{
    let mut page = Page::zeros();
    match files.read_page(name, n, &mut page) {
        Ok(()) => Ok(bytes.extend_from_slice(page.bytes())?),
        Err(FileFault::PageRange) => Ok(()),
        Err(fault) => Err(SystemFault::File(fault)),
    }
}
