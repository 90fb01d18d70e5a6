ghost use Rattle.std.specs.Prelude.{◌≡◌, ℕ, ◌++◌, ◌∷◌, [], ◌⊎◌, ◌≤◌, List, Some, Ok, Err, IsTrue, length, codes, IfErr, IfOk, OnOk};
ghost use Rattle.std.specs.FinMap as fin;
ghost use Rattle.std.specs.List.{list_all};
ghost use Rattle.solo_base.specs.Line.{is_printable};
ghost use Rattle.solo_base.specs.Blanks.{trimmed};
ghost use Rattle.disk_layout.specs.Files.{File, files as file_map};
ghost use Rattle.disk_layout.specs.Names.{IsNameAfter};
ghost use Rattle.disk_files.specs.declared.fault.FileFault.TheVariants.{DiskFault};
ghost use Rattle.disk_files.specs.Answers.{FaultsOnly, after_reading, info_of};
ghost use Rattle.disk_system.specs.Calls.{of_files, IsOutside};
ghost use Rattle.disk_system.specs.Listing.{file_line, file_lines, info_line, kind_word, NextLine};

use crate::SystemFault;
use disk_files::{FileArea, FileFault};
use disk_layout::FileKind;
use solo_base::{Ident, Line, LineList, NoMemory};
use solo_devices::Area;
use std::alloc::Global;

/// A line for each file, in the order of their names.
pub fn list<A: Area>(alloc: Global, files: &mut FileArea<A>) -> Result<LineList, SystemFault>
    requires { IsTrue files.old.sound }
    ensures lines { (pages : List (List ℕ)) → A.pages files.old.area ≡ Some pages
        → IfOk result (λ lines. lines ≡ file_lines (file_map pages)) }
    ensures refusals { IfErr result IsOutside }
    ensures left { A.pages files.new.area ≡ A.pages files.old.area }
    ensures after { files.new ≡ after_reading files.old files.new.area (of_files result) }
    ensures cause { FaultsOnly (A.faults files.old.area) (A.faults files.new.area) (of_files result) }
{
    let mut lines = LineList::new(alloc);
    let mut last = None;
    for n in 0..files.names() {
        list_next(files, &mut last, &mut lines)?;
    }
    Ok(lines)
}

// Adds the line of the file that comes next behind the last one, if there is one.
fn list_next<A: Area>(
    files: &mut FileArea<A>,
    last: &mut Option<Ident>,
    lines: &mut LineList,
) -> Result<(), SystemFault>
    requires { IsTrue files.old.sound }
    ensures line { (pages : List (List ℕ)) → A.pages files.old.area ≡ Some pages
        → OnOk result (NextLine (file_map pages) last.old lines.old last.new lines.new) }
    ensures refusals { IfErr result IsOutside }
    ensures left { A.pages files.new.area ≡ A.pages files.old.area }
    ensures after { files.new ≡ after_reading files.old files.new.area (of_files result) }
    ensures cause { FaultsOnly (A.faults files.old.area) (A.faults files.new.area) (of_files result) }
{
    match next_name(files, last) {
        Some(name) => {
            *last = Some(name);
            list_file(files, &name, lines)
        }
        None => Ok(()),
    }
}

// The name of the file that comes next behind the last one.
fn next_name<A: Area>(files: &mut FileArea<A>, last: &Option<Ident>) -> Option<Ident>
    requires { IsTrue files.old.sound }
    ensures next { (pages : List (List ℕ)) → A.pages files.old.area ≡ Some pages
        → IsNameAfter (file_map pages) last.now result }
    ensures left { files.new ≡ files.old }
{
    match files.name_after(last.as_ref()) {
        Ok(next) => next,
        Err(_) => unreachable!(),
    }
}

// Adds the line of a file. In an area that tells nothing it may not be found again; then it has no line.
fn list_file<A: Area>(
    files: &mut FileArea<A>,
    name: &Ident,
    lines: &mut LineList,
) -> Result<(), SystemFault>
    requires { IsTrue files.old.sound }
    ensures line { (pages : List (List ℕ)) (file : File) → A.pages files.old.area ≡ Some pages
        → fin.get (file_map pages) name.now ≡ Some file
        → OnOk result (lines.new ≡ lines.old ++ file_line name.now file ∷ []) }
    ensures refusals { IfErr result IsOutside }
    ensures left { A.pages files.new.area ≡ A.pages files.old.area }
    ensures after { files.new ≡ after_reading files.old files.new.area (of_files result) }
    ensures cause { FaultsOnly (A.faults files.old.area) (A.faults files.new.area) (of_files result) }
{
    match files.lookup(name) {
        Ok(info) => match lines.push(&line_of(name, info.kind, info.pages, info.protected)) {
            Ok(()) => Ok(()),
            Err(NoMemory) => Err(SystemFault::File(FileFault::NoMemory)),
        },
        Err(FileFault::NoFile) => Ok(()),
        Err(fault) => Err(SystemFault::File(fault)),
    }
}

// The line of a file: its name, its kind, how many pages it has, and whether it is protected.
fn line_of(name: &Ident, kind: FileKind, pages: u16, protected: bool) -> Line
    ensures { result ≡ info_line name.now (record { kind = kind; protected = protected; pages = pages }) }
{
    let mut line = line_front(name, kind);
    line.append_number(pages as u32);
    line.append(b" PAGES");
    if protected {
        line.append(b" PROTECTED");
    }
    line
}

// What stands before the number of pages.
fn line_front(name: &Ident, kind: FileKind) -> Line
    ensures front { result ≡ trimmed name.now ++ codes " " ++ kind_word kind ++ codes " " }
    ensures short { length result ≤ 21 }
{
    let mut line = Line::new();
    line.append(name.name());
    line.append(b" ");
    line.append(kind_word(kind));
    line.append(b" ");
    line
}

fn kind_word(kind: FileKind) -> &'static [u8]
    ensures word { result.now ≡ kind_word kind }
    ensures short { length result.now ≤ 7 }
    ensures printable { IsTrue (list_all is_printable result.now) }
{
    match kind {
        FileKind::Scratch => b"SCRATCH",
        FileKind::Ascii => b"ASCII",
        FileKind::SeqCode => b"SEQCODE",
        FileKind::ConCode => b"CONCODE",
    }
}
