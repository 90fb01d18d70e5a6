ghost use Rattle.std.specs.Prelude.{◌≡◌, ℕ, ◌-◌, ◌/◌, ◌<◌, ◌⊎◌, List, Some, None, Ok, Err, IsTrue, length, slice_index, IfErr, IfOk, OnOk};
ghost use Rattle.std.specs.FinMap as fin;
ghost use Rattle.disk_layout.specs.declared.kind.FileKind.TheVariants.{SeqCode};
ghost use Rattle.disk_layout.specs.Files.{File, files as file_map, free_count, name_count};
ghost use Rattle.disk_layout.specs.Deleting.{pages_held};
ghost use Rattle.disk_files.specs.declared.fault.FileFault.TheVariants.{NoFile, DiskFault};
ghost use Rattle.disk_files.specs.Answers.{FaultsOnly, Holds, Told, after_reading, stays_sound};
ghost use Rattle.disk_system.specs.Taken.{TakesFile};
ghost use Rattle.stack_code.specs.CodeLists.{CodeLists, IsCode, FitsItsFields};
ghost use Rattle.stack_code.specs.CodeFile.{code_bytes};
ghost use Rattle.stack_code.specs.Rules.{broken_record};
ghost use Rattle.disk_contents.specs.Contents.{file_bytes, code_file};
ghost use Rattle.disk_contents.specs.declared.loading.Loaded.{Loaded};
ghost use Rattle.disk_contents.specs.Loading.{loaded_by, loaded_file, program_of};
ghost use Rattle.disk_system.specs.Loading.{LoadsSo};
ghost use Rattle.disk_system.specs.Calls.{of_files, IsOutside, CodeAnswers, CodeBy, LoadsAs, LoadsCode, MayRefuseLoad, store_answer, StoreAnswers, MayRefuseStore};

use crate::SystemFault;
use crate::contents::bytes_of;
use crate::storing::store;
use disk_files::{FileArea, FileFault, FileInfo};
use disk_layout::FileKind;
use solo_base::Ident;
use solo_devices::Area;
use stack_code::{Verified, decode, encode, verify};
use std::alloc::Global;

/// The code of a file, verified. It is refused at its first byte that is wrong, or else at the first record
/// that breaks a rule.
pub fn load_code<A: Area>(
    alloc: Global,
    files: &mut FileArea<A>,
    name: &Ident,
) -> Result<Verified, SystemFault>
    requires { IsTrue files.old.sound }
    ensures answer { (pages : List (List ℕ)) → A.pages files.old.area ≡ Some pages
        → CodeAnswers (fin.get (file_map pages) name.now) result }
    ensures program { (pages : List (List ℕ)) → A.pages files.old.area ≡ Some pages
        → LoadsSo result (program_of (file_map pages) name.now) }
    // Code that was written is loaded, or refused at the first record that breaks a rule.
    ensures only { (pages : List (List ℕ)) (file : File) (c : CodeLists) → A.pages files.old.area ≡ Some pages
        → fin.get (file_map pages) name.now ≡ Some file → file.kind ≡ SeqCode → IsCode c → FitsItsFields c
        → file_bytes file ≡ code_bytes c → LoadsCode c result }
    ensures refusals { IfErr result MayRefuseLoad }
    ensures left { A.pages files.new.area ≡ A.pages files.old.area }
    ensures after { files.new ≡ after_reading files.old files.new.area (of_files result) }
    ensures cause { FaultsOnly (A.faults files.old.area) (A.faults files.new.area) (of_files result) }
{
    match files.lookup(name) {
        Ok(info) => code_by(alloc, files, name, info),
        Err(fault) => Err(SystemFault::File(fault)),
    }
}

// The code of a file of which this is known.
fn code_by<A: Area>(
    alloc: Global,
    files: &mut FileArea<A>,
    name: &Ident,
    info: FileInfo,
) -> Result<Verified, SystemFault>
    requires { IsTrue files.old.sound }
    ensures answer { (pages : List (List ℕ)) (file : File) → A.pages files.old.area ≡ Some pages
        → fin.get (file_map pages) name.now ≡ Some file → info.pages ≡ length file.pages
        → CodeBy info.kind (file_bytes file) result }
    ensures program { (pages : List (List ℕ)) (file : File) → A.pages files.old.area ≡ Some pages
        → fin.get (file_map pages) name.now ≡ Some file → info.pages ≡ length file.pages
        → LoadsSo result (loaded_by info.kind (file_bytes file)) }
    ensures only { (pages : List (List ℕ)) (file : File) (c : CodeLists) → A.pages files.old.area ≡ Some pages
        → fin.get (file_map pages) name.now ≡ Some file → info.pages ≡ length file.pages → info.kind ≡ SeqCode
        → IsCode c → FitsItsFields c → file_bytes file ≡ code_bytes c → LoadsCode c result }
    ensures refusals { IfErr result MayRefuseLoad }
    ensures left { A.pages files.new.area ≡ A.pages files.old.area }
    ensures after { files.new ≡ after_reading files.old files.new.area (of_files result) }
    ensures cause { FaultsOnly (A.faults files.old.area) (A.faults files.new.area) (of_files result) }
{
    match info.kind {
        FileKind::SeqCode => match bytes_of(alloc, files, name, info.pages) {
            Ok(bytes) => verified(alloc, &bytes),
            Err(fault) => Err(fault),
        },
        _ => Err(SystemFault::NotCode),
    }
}

// The code of these bytes, verified.
fn verified(alloc: Global, bytes: &[u8]) -> Result<Verified, SystemFault>
    ensures loads { LoadsAs bytes.now result }
    ensures only { (c : CodeLists) → IsCode c → FitsItsFields c → bytes.now ≡ code_bytes c
        → LoadsCode c result }
    ensures bytes { (k : ℕ) → slice_index bytes.now k < 256 }
    ensures no_fault { of_files result ≡ Err DiskFault → ⊥ }
    ensures refusals { IfErr result MayRefuseLoad }
{
    match decode(alloc, bytes) {
        Ok(code) => match verify(code) {
            Ok(verified) => Ok(verified),
            Err(fault) => Err(SystemFault::from(fault)),
        },
        Err(fault) => Err(SystemFault::from(fault)),
    }
}

/// Makes a file of code. All refusals but a fault of the area come before anything is written.
pub fn store_code<A: Area>(
    alloc: Global,
    files: &mut FileArea<A>,
    name: &Ident,
    code: &Verified,
) -> Result<(), SystemFault>
    requires { IsTrue files.old.sound }
    ensures answer { (pages : List (List ℕ)) → A.pages files.old.area ≡ Some pages
        → StoreAnswers result (store_answer (fin.get (file_map pages) name.now) (name_count pages)
        (free_count pages) (length (code_bytes code.now) / 512)) }
    ensures stored { (pages : List (List ℕ)) → A.pages files.old.area ≡ Some pages
        → OnOk result (Holds (A.pages files.new.area)
        (fin.insert (file_map pages) name.now (code_file code.now))
        (free_count pages - pages_held (length (code_bytes code.now) / 512))) }
    ensures taken { (pages : List (List ℕ)) → A.pages files.old.area ≡ Some pages
        → OnOk result (Told (A.pages files.new.area)
        (λ after. TakesFile pages after name.now (length (code_bytes code.now) / 512))) }
    // So `load_code` loads the same code again.
    ensures again { OnOk result (loaded_file (Some (code_file code.now)) ≡ Loaded.Code code.now) }
    ensures bytes { file_bytes (code_file code.now) ≡ code_bytes code.now }
    ensures code { OnOk result (IsCode code.now × FitsItsFields code.now) }
    ensures good { broken_record code.now ≡ None }
    ensures refused { (pages : List (List ℕ)) → A.pages files.old.area ≡ Some pages
        → IfErr result (λ fault. (fault ≡ SystemFault.File DiskFault)
        ⊎ (A.pages files.new.area ≡ Some pages)) }
    ensures refusals { IfErr result MayRefuseStore }
    ensures sound { files.new.sound ≡ stays_sound (of_files result) }
    ensures cause { FaultsOnly (A.faults files.old.area) (A.faults files.new.area) (of_files result) }
{
    match encode(alloc, code.code()) {
        Ok(bytes) => match store(files, name, FileKind::SeqCode, &bytes) {
            Ok(()) => Ok(()),
            Err(fault) => Err(SystemFault::File(fault)),
        },
        Err(_) => Err(SystemFault::File(FileFault::NoMemory)),
    }
}
