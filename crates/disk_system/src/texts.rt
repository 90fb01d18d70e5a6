ghost use Rattle.std.specs.Prelude.{◌≡◌, ℕ, ◌+◌, ◌-◌, ◌⊎◌, ◌==◌, List, Some, Ok, Err, IsTrue, true, false, length, IfErr, IfOk, OnOk, MatchResult};
ghost use Rattle.std.specs.FinMap as fin;
ghost use Rattle.std.specs.List.{position_or_len};
ghost use Rattle.disk_layout.specs.Files.{File, files as file_map, free_count, name_count};
ghost use Rattle.disk_layout.specs.Deleting.{pages_held};
ghost use Rattle.disk_files.specs.declared.fault.FileFault.TheVariants.{NoFile, DiskFault};
ghost use Rattle.disk_files.specs.Answers.{FaultsOnly, Holds, Told, after_reading, stays_sound};
ghost use Rattle.disk_contents.specs.Contents.{IsText, file_bytes, page_count, text_bytes, text_file, text_in};
ghost use Rattle.disk_system.specs.Taken.{TakesFile};
ghost use Rattle.disk_system.specs.Calls.{of_files, IsOutside, text_answer, text_by, store_answer, StoreAnswers, MayRefuseStore};

use crate::SystemFault;
use crate::contents::bytes_of;
use crate::storing::store;
use disk_files::{FileArea, FileFault, FileInfo};
use disk_layout::FileKind;
use solo_base::{Ident, PAGE_LENGTH, first_place};
use solo_devices::Area;
use std::alloc::{AllocError, Global};

/// The byte that ends a text in its file.
const TEXT_END: u8 = 25;

/// The text of a file: its bytes before the first byte 25, or all.
pub fn text_of<A: Area>(
    alloc: Global,
    files: &mut FileArea<A>,
    name: &Ident,
) -> Result<Vec<u8>, SystemFault>
    requires { IsTrue files.old.sound }
    ensures answer { (pages : List (List ℕ)) → A.pages files.old.area ≡ Some pages
        → let expected = text_answer (fin.get (file_map pages) name.now) in
        MatchResult result (λ text. expected ≡ Ok text.items) (λ fault. IsOutside fault
        ⊎ (expected ≡ Err fault)) }
    ensures refusals { IfErr result (λ fault. IsOutside fault ⊎ (fault ≡ SystemFault.File NoFile)
        ⊎ (fault ≡ SystemFault.NotText)) }
    ensures left { A.pages files.new.area ≡ A.pages files.old.area }
    ensures after { files.new ≡ after_reading files.old files.new.area (of_files result) }
    ensures cause { FaultsOnly (A.faults files.old.area) (A.faults files.new.area) (of_files result) }
{
    match files.lookup(name) {
        Ok(info) => text_by(alloc, files, name, info),
        Err(fault) => Err(SystemFault::File(fault)),
    }
}

// The text of a file of which this is known.
fn text_by<A: Area>(
    alloc: Global,
    files: &mut FileArea<A>,
    name: &Ident,
    info: FileInfo,
) -> Result<Vec<u8>, SystemFault>
    requires { IsTrue files.old.sound }
    ensures answer { (pages : List (List ℕ)) (file : File) → A.pages files.old.area ≡ Some pages
        → fin.get (file_map pages) name.now ≡ Some file → info.pages ≡ length file.pages
        → let expected = text_by info.kind (file_bytes file) in
        MatchResult result (λ text. expected ≡ Ok text.items) (λ fault. IsOutside fault
        ⊎ (expected ≡ Err fault)) }
    ensures refusals { IfErr result (λ fault. IsOutside fault ⊎ (fault ≡ SystemFault.File NoFile)
        ⊎ (fault ≡ SystemFault.NotText)) }
    ensures left { A.pages files.new.area ≡ A.pages files.old.area }
    ensures after { files.new ≡ after_reading files.old files.new.area (of_files result) }
    ensures cause { FaultsOnly (A.faults files.old.area) (A.faults files.new.area) (of_files result) }
{
    match info.kind {
        FileKind::Ascii => match bytes_of(alloc, files, name, info.pages) {
            Ok(bytes) => Ok(text_in(bytes)),
            Err(fault) => Err(fault),
        },
        _ => Err(SystemFault::NotText),
    }
}

// The bytes before the first byte 25, or all.
fn text_in(bytes: Vec<u8>) -> Vec<u8>
    ensures { result.items ≡ text_in bytes.items }
{
    let mut text = bytes;
    let end = text_length(&text);
    text.truncate(end);
    text
}

// How many bytes are before the first byte 25, or all.
fn text_length(bytes: &[u8]) -> usize
    ensures { result ≡ position_or_len (λ byte. byte == 25) bytes.now }
{
    first_place(bytes, TEXT_END)
}

/// Whether these bytes are a text: none of them is the byte 25.
pub fn is_text(text: &[u8]) -> bool
    ensures yes { result ≡ true → IsText text.now }
    ensures not { result ≡ false → IsText text.now → ⊥ }
{
    text_length(text) == text.len()
}

/// Makes a file of a text. All refusals but a fault of the area come before anything is written.
pub fn store_text<A: Area>(
    alloc: Global,
    files: &mut FileArea<A>,
    name: &Ident,
    text: &[u8],
) -> Result<(), SystemFault>
    requires sound { IsTrue files.old.sound }
    requires text { IsText text.now }
    ensures answer { (pages : List (List ℕ)) → A.pages files.old.area ≡ Some pages
        → StoreAnswers result (store_answer (fin.get (file_map pages) name.now) (name_count pages)
        (free_count pages) (page_count (length text.now + 1))) }
    ensures stored { (pages : List (List ℕ)) → A.pages files.old.area ≡ Some pages
        → OnOk result (Holds (A.pages files.new.area)
        (fin.insert (file_map pages) name.now (text_file text.now))
        (free_count pages - pages_held (page_count (length text.now + 1)))) }
    ensures taken { (pages : List (List ℕ)) → A.pages files.old.area ≡ Some pages
        → OnOk result (Told (A.pages files.new.area)
        (λ after. TakesFile pages after name.now (page_count (length text.now + 1)))) }
    ensures read_again { text_answer (Some (text_file text.now)) ≡ Ok text.now }
    ensures refused { (pages : List (List ℕ)) → A.pages files.old.area ≡ Some pages
        → IfErr result (λ fault. (fault ≡ SystemFault.File DiskFault)
        ⊎ (A.pages files.new.area ≡ Some pages)) }
    ensures refusals { IfErr result MayRefuseStore }
    ensures sound { files.new.sound ≡ stays_sound (of_files result) }
    ensures cause { FaultsOnly (A.faults files.old.area) (A.faults files.new.area) (of_files result) }
{
    match text_bytes(alloc, text) {
        Ok(bytes) => match store(files, name, FileKind::Ascii, &bytes) {
            Ok(()) => Ok(()),
            Err(fault) => Err(SystemFault::File(fault)),
        },
        Err(_) => Err(SystemFault::File(FileFault::NoMemory)),
    }
}

// The text, the byte that ends it, and zeros up to the end of the page.
fn text_bytes(alloc: Global, text: &[u8]) -> Result<Vec<u8>, AllocError>
    ensures { IfOk result (λ bytes. bytes.items ≡ text_bytes text.now) }
{
    let mut bytes = Vec::new(alloc);
    bytes.extend_from_slice(text)?;
    bytes.push(TEXT_END)?;
    bytes.resize(bytes.len().next_multiple_of(PAGE_LENGTH), 0)?;
    Ok(bytes)
}
