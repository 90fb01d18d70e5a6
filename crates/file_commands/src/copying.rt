// The copies: files to new files, texts to the printer, cards to new files.
ghost use Rattle.std.specs.Prelude.{◌≡◌, ◌≤◌, ◌-◌, ◌++◌, ℕ, List, [], Some, None, Option, IsTrue, IfOk, IfErr, OnOk, length, slice_index_or, false};
ghost use Rattle.std.specs.Option.{option_map};
ghost use Rattle.std.specs.FinMap as fin;
ghost use Rattle.disk_layout.specs.Files.{File, files as file_map};
ghost use Rattle.disk_layout.specs.Format.{IsSoloDisk};
ghost use Rattle.disk_files.specs.Answers.{FaultsOnly, stays_sound, info_of};
ghost use Rattle.disk_contents.specs.Contents.{IsText, file_bytes, text_file, text_in};
ghost use Rattle.pascal_mean.specs.Batch.{nothing_printed, with_characters, lines_in};
ghost use Rattle.solo_commands.specs.Commands.{is_printer};
ghost use Rattle.solo_task.specs.Answers.{stores};
ghost use Rattle.solo_task.specs.Copying.{copier, copies_file, stores_file};
ghost use Rattle.file_commands.specs.Faults.{of_command};
ghost use Rattle.file_commands.specs.Settling.{IsAnsweredSo};
ghost use Rattle.file_commands.specs.Stores.{ToPrint, IsPagesOf};
ghost use Rattle.file_commands.specs.Texts.{ReadsOn};

use crate::answers::{answer_line, answered};
use crate::fault::{CommandFault, as_command};
use crate::texts::{Reading, with_end};
use disk_files::{FileArea, FileFault, FileInfo};
use disk_layout::FileKind;
use disk_system::store;
use solo_base::{Ident, Line, LineList, Page};
use solo_devices::Area;
use std::alloc::Global;

/// What the catalogue says of a file, if there is one of this name.
pub fn find<A: Area>(
    files: &mut FileArea<A>,
    name: &Ident,
) -> Result<Option<FileInfo>, CommandFault>
    requires { IsTrue files.old.sound }
    ensures found { (pages : List (List ℕ)) → A.pages files.old.area ≡ Some pages
        → IfOk result (λ found. found ≡ option_map info_of (fin.get (file_map pages) name.now)) }
    ensures solo { (pages : List (List ℕ)) → A.pages files.old.area ≡ Some pages → IsSoloDisk pages }
    ensures left { A.pages files.new.area ≡ A.pages files.old.area }
    ensures sound { files.new.sound ≡ stays_sound (of_command result) }
    ensures cause { FaultsOnly (A.faults files.old.area) (A.faults files.new.area) (of_command result) }
{
    match files.lookup(name) {
        Ok(info) => Ok(Some(info)),
        Err(FileFault::NoFile) => Ok(None),
        Err(fault) => Err(as_command(fault)),
    }
}

/// `copy(from, to)` of a file to a new file.
pub fn copy_file<A: Area>(
    alloc: Global,
    files: &mut FileArea<A>,
    from: &Ident,
    to: &Ident,
) -> Result<Line, CommandFault>
    requires sound { IsTrue files.old.sound }
    requires file { is_printer to.now ≡ false }
    ensures told { (pages : List (List ℕ)) → A.pages files.old.area ≡ Some pages
        → IsAnsweredSo (copies_file (fin.get (file_map pages) from.now) (file_map pages) to.now) pages result
        (A.pages files.new.area) }
    ensures sound { files.new.sound ≡ stays_sound (of_command result) }
    ensures cause { FaultsOnly (A.faults files.old.area) (A.faults files.new.area) (of_command result) }
{
    match find(files, from) {
        Ok(Some(info)) => copy_found(alloc, files, from, info, to),
        Ok(None) => Ok(answer_line(b"COPY", b"NO FILE")),
        Err(fault) => Err(fault),
    }
}

// The same of a file of which this is known.
fn copy_found<A: Area>(
    alloc: Global,
    files: &mut FileArea<A>,
    from: &Ident,
    info: FileInfo,
    to: &Ident,
) -> Result<Line, CommandFault>
    requires { IsTrue files.old.sound }
    ensures told { (pages : List (List ℕ)) (file : File) → A.pages files.old.area ≡ Some pages
        → fin.get (file_map pages) from.now ≡ Some file → info ≡ info_of file
        → IsAnsweredSo (stores_file file (file_map pages) to.now (fin.get (file_map pages) to.now)) pages
        result (A.pages files.new.area) }
    ensures sound { files.new.sound ≡ stays_sound (of_command result) }
    ensures cause { FaultsOnly (A.faults files.old.area) (A.faults files.new.area) (of_command result) }
{
    match find(files, to) {
        Ok(Some(_)) => Ok(answer_line(b"COPY", b"FILE EXISTS")),
        Ok(None) => store_copy(alloc, files, from, info, to),
        Err(fault) => Err(fault),
    }
}

// The same to a name that is new.
fn store_copy<A: Area>(
    alloc: Global,
    files: &mut FileArea<A>,
    from: &Ident,
    info: FileInfo,
    to: &Ident,
) -> Result<Line, CommandFault>
    requires { IsTrue files.old.sound }
    ensures told { (pages : List (List ℕ)) (file : File) → A.pages files.old.area ≡ Some pages
        → IsSoloDisk pages → fin.get (file_map pages) from.now ≡ Some file → info ≡ info_of file
        → fin.get (file_map pages) to.now ≡ None
        → IsAnsweredSo (stores_file file (file_map pages) to.now None) pages result (A.pages files.new.area) }
    ensures sound { files.new.sound ≡ stays_sound (of_command result) }
    ensures cause { FaultsOnly (A.faults files.old.area) (A.faults files.new.area) (of_command result) }
{
    let _free = files.free_pages();
    match whole_pages(alloc, files, from, info.pages) {
        Ok(bytes) => answered(b"COPY", store(files, to, info.kind, &bytes)),
        Err(fault) => Err(fault),
    }
}

// The bytes of a file of so many pages, each of which is whole.
fn whole_pages<A: Area>(
    alloc: Global,
    files: &mut FileArea<A>,
    name: &Ident,
    pages: u16,
) -> Result<Vec<u8>, CommandFault>
    requires { IsTrue files.old.sound }
    ensures bytes { (told : List (List ℕ)) (file : File) → A.pages files.old.area ≡ Some told
        → fin.get (file_map told) name.now ≡ Some file → pages ≡ length file.pages
        → IfOk result (λ bytes. IsPagesOf bytes.items file.pages) }
    ensures left { A.pages files.new.area ≡ A.pages files.old.area }
    ensures sound { files.new.sound ≡ stays_sound (of_command result) }
    ensures cause { FaultsOnly (A.faults files.old.area) (A.faults files.new.area) (of_command result) }
{
    let mut bytes = Vec::new(alloc);
    for n in 0..pages {
        add_page(files, name, n + 1, &mut bytes)?;
    }
    Ok(bytes)
}

// Adds the bytes of page n of a file. In an area that tells nothing the file may be shorter than it was; then
// it has no such bytes.
fn add_page<A: Area>(
    files: &mut FileArea<A>,
    name: &Ident,
    n: u16,
    bytes: &mut Vec<u8>,
) -> Result<(), CommandFault>
    requires { IsTrue files.old.sound }
    ensures bytes { (told : List (List ℕ)) (file : File) → A.pages files.old.area ≡ Some told
        → fin.get (file_map told) name.now ≡ Some file → 1 ≤ n → n ≤ length file.pages
        → OnOk result ((bytes.new.items ≡ bytes.old.items ++ slice_index_or file.pages (n - 1) [])
        × (length (slice_index_or file.pages (n - 1) []) ≡ 512)) }
    ensures left { A.pages files.new.area ≡ A.pages files.old.area }
    ensures sound { files.new.sound ≡ stays_sound (of_command result) }
    ensures cause { FaultsOnly (A.faults files.old.area) (A.faults files.new.area) (of_command result) }
{
    let mut page = Page::zeros();
    match files.read_page(name, n, &mut page) {
        Ok(()) => add_bytes(bytes, page.bytes()),
        Err(FileFault::PageRange) => Ok(()),
        Err(fault) => Err(as_command(fault)),
    }
}

fn add_bytes(bytes: &mut Vec<u8>, more: &[u8]) -> Result<(), CommandFault>
    ensures added { OnOk result (bytes.new.items ≡ bytes.old.items ++ more.now) }
    ensures lacks { IfErr result (λ fault. fault ≡ CommandFault.NoMemory) }
{
    match bytes.extend_from_slice(more) {
        Ok(()) => Ok(()),
        Err(_) => Err(CommandFault::NoMemory),
    }
}

/// What a copy to the printer has: the lines of a file, or the line that says why there are none.
#[derive(Debug, Drop)]
pub enum Copied {
    Lines(LineList),
    Answer(Line),
}

/// The lines of a file's text, for the printer.
pub fn lines_to_print<A: Area>(
    alloc: Global,
    files: &mut FileArea<A>,
    from: &Ident,
) -> Result<Copied, CommandFault>
    requires { IsTrue files.old.sound }
    ensures told { (pages : List (List ℕ)) → A.pages files.old.area ≡ Some pages
        → IfOk result (ToPrint (fin.get (file_map pages) from.now)) }
    ensures left { A.pages files.new.area ≡ A.pages files.old.area }
    ensures sound { files.new.sound ≡ stays_sound (of_command result) }
    ensures cause { FaultsOnly (A.faults files.old.area) (A.faults files.new.area) (of_command result) }
{
    match find(files, from) {
        Ok(Some(info)) => lines_of_found(alloc, files, from, info),
        Ok(None) => Ok(Copied::Answer(answer_line(b"COPY", b"NO FILE"))),
        Err(fault) => Err(fault),
    }
}

// The same of a file of which this is known.
fn lines_of_found<A: Area>(
    alloc: Global,
    files: &mut FileArea<A>,
    from: &Ident,
    info: FileInfo,
) -> Result<Copied, CommandFault>
    requires { IsTrue files.old.sound }
    ensures told { (pages : List (List ℕ)) (file : File) → A.pages files.old.area ≡ Some pages
        → fin.get (file_map pages) from.now ≡ Some file → info ≡ info_of file
        → IfOk result (ToPrint (Some file)) }
    ensures left { A.pages files.new.area ≡ A.pages files.old.area }
    ensures sound { files.new.sound ≡ stays_sound (of_command result) }
    ensures cause { FaultsOnly (A.faults files.old.area) (A.faults files.new.area) (of_command result) }
{
    match info.kind {
        FileKind::Ascii => match lines_of_file(alloc, files, from, info.pages) {
            Ok(lines) => Ok(Copied::Lines(lines)),
            Err(fault) => Err(fault),
        },
        _ => Ok(Copied::Answer(answer_line(b"COPY", b"NOT TEXT"))),
    }
}

// The lines of the text in a file of so many pages.
fn lines_of_file<A: Area>(
    alloc: Global,
    files: &mut FileArea<A>,
    name: &Ident,
    pages: u16,
) -> Result<LineList, CommandFault>
    requires { IsTrue files.old.sound }
    ensures lines { (told : List (List ℕ)) (file : File) → A.pages files.old.area ≡ Some told
        → fin.get (file_map told) name.now ≡ Some file → pages ≡ length file.pages
        → IfOk result (λ lines. lines
        ≡ lines_in (with_characters nothing_printed (text_in (file_bytes file)))) }
    ensures left { A.pages files.new.area ≡ A.pages files.old.area }
    ensures sound { files.new.sound ≡ stays_sound (of_command result) }
    ensures cause { FaultsOnly (A.faults files.old.area) (A.faults files.new.area) (of_command result) }
{
    let mut text = Reading::new(alloc);
    for place in 0..pages {
        read_page(files, name, place + 1, &mut text)?;
    }
    match text.finish() {
        Ok(lines) => Ok(lines),
        Err(_) => Err(CommandFault::NoMemory),
    }
}

// Reads page n of a file as a piece of its text. In an area that tells nothing the file may be shorter than
// it was.
fn read_page<A: Area>(
    files: &mut FileArea<A>,
    name: &Ident,
    n: u16,
    text: &mut Reading,
) -> Result<(), CommandFault>
    requires { IsTrue files.old.sound }
    ensures read { (told : List (List ℕ)) (file : File) → A.pages files.old.area ≡ Some told
        → fin.get (file_map told) name.now ≡ Some file → 1 ≤ n → n ≤ length file.pages
        → OnOk result (ReadsOn text.old (slice_index_or file.pages (n - 1) []) text.new) }
    ensures left { A.pages files.new.area ≡ A.pages files.old.area }
    ensures sound { files.new.sound ≡ stays_sound (of_command result) }
    ensures cause { FaultsOnly (A.faults files.old.area) (A.faults files.new.area) (of_command result) }
{
    let mut page = Page::zeros();
    match files.read_page(name, n, &mut page) {
        Ok(()) => read_bytes(text, page.bytes()),
        Err(FileFault::PageRange) => Ok(()),
        Err(fault) => Err(as_command(fault)),
    }
}

fn read_bytes(text: &mut Reading, bytes: &[u8]) -> Result<(), CommandFault>
    ensures read { OnOk result (ReadsOn text.old bytes.now text.new) }
    ensures lacks { IfErr result (λ fault. fault ≡ CommandFault.NoMemory) }
{
    match text.read(bytes) {
        Ok(()) => Ok(()),
        Err(_) => Err(CommandFault::NoMemory),
    }
}

/// Stores the text of a card file as a new file.
pub fn store_cards<A: Area>(
    files: &mut FileArea<A>,
    to: &Ident,
    text: Vec<u8>,
) -> Result<Line, CommandFault>
    requires sound { IsTrue files.old.sound }
    requires text { IsText text.items }
    ensures told { (pages : List (List ℕ)) → A.pages files.old.area ≡ Some pages
        → fin.get (file_map pages) to.now ≡ None
        → IsAnsweredSo (stores copier (file_map pages) to.now (text_file text.items)) pages result
        (A.pages files.new.area) }
    ensures sound { files.new.sound ≡ stays_sound (of_command result) }
    ensures cause { FaultsOnly (A.faults files.old.area) (A.faults files.new.area) (of_command result) }
{
    match find(files, to) {
        Ok(Some(_)) => Ok(answer_line(b"COPY", b"FILE EXISTS")),
        Ok(None) => store_new_text(files, to, text),
        Err(fault) => Err(fault),
    }
}

// The same to a name that is new.
fn store_new_text<A: Area>(
    files: &mut FileArea<A>,
    to: &Ident,
    text: Vec<u8>,
) -> Result<Line, CommandFault>
    requires { IsTrue files.old.sound }
    ensures told { (pages : List (List ℕ)) → A.pages files.old.area ≡ Some pages → IsSoloDisk pages
        → fin.get (file_map pages) to.now ≡ None
        → IsAnsweredSo (stores copier (file_map pages) to.now (text_file text.items)) pages result
        (A.pages files.new.area) }
    ensures sound { files.new.sound ≡ stays_sound (of_command result) }
    ensures cause { FaultsOnly (A.faults files.old.area) (A.faults files.new.area) (of_command result) }
{
    let _free = files.free_pages();
    match with_end(text) {
        Ok(bytes) => answered(b"COPY", store(files, to, FileKind::Ascii, &bytes)),
        Err(_) => Err(CommandFault::NoMemory),
    }
}
