// `compile`: the text of a file to a new file of code.
ghost use Rattle.std.specs.Prelude.{◌≡◌, ◌≤◌, ◌∷◌, [], length, List, ℕ, Some, None, Ok, Err, IsTrue, IfOk, IfErr};
ghost use Rattle.std.specs.List.{list_all};
ghost use Rattle.solo_base.specs.Line.{is_printable};
ghost use Rattle.std.specs.FinMap as fin;
ghost use Rattle.disk_layout.specs.Files.{File, Files, files as file_map};
ghost use Rattle.disk_layout.specs.Format.{IsSoloDisk};
ghost use Rattle.disk_files.specs.Answers.{FaultsOnly, stays_sound};
ghost use Rattle.disk_contents.specs.Contents.{file_bytes, code_file};
ghost use Rattle.program_task.specs.Task.{Gives};
ghost use Rattle.code_law.specs.Compiling.{Compiling};
ghost use Rattle.pascal_compile.specs.Faults.{Explains};
ghost use Rattle.solo_task.specs.Answers.{stores, answer_line};
ghost use Rattle.solo_task.specs.Compiles.{compiler, compiles, compiles_to, compiles_file, compiling_text, stores_program};
ghost use Rattle.file_commands.specs.Faults.{as_command, as_system_command, of_command};
ghost use Rattle.file_commands.specs.Settling.{change_line, IsAnsweredSo};
ghost use Rattle.session_work.specs.Cards.{compiler_name};
ghost use Rattle.session_work.specs.StoreLines.{store_line};

use crate::cards::code_of_text;
use disk_files::{FileArea, FileFault};
use disk_system::{SystemFault, store_code, text_of};
use file_commands::{CommandFault, answer_line, find};
use pascal_compile::CompileFault;
use program_lines::compile_line;
use solo_base::{Ident, Line};
use solo_devices::Area;
use stack_code::Verified;
use std::alloc::Global;

/// `compile(from, to)`: the text of a file becomes a new file of code.
pub fn compile_file<A: Area>(
    alloc: Global,
    files: &mut FileArea<A>,
    from: &Ident,
    to: &Ident,
) -> Result<Line, CommandFault>
    requires { IsTrue files.old.sound }
    ensures told { (pages : List (List ℕ)) → A.pages files.old.area ≡ Some pages
        → IsAnsweredSo (compiles (file_map pages) from.now to.now) pages result (A.pages files.new.area) }
    ensures sound { files.new.sound ≡ stays_sound (of_command result) }
    ensures cause { FaultsOnly (A.faults files.old.area) (A.faults files.new.area) (of_command result) }
{
    match find(files, from) {
        Ok(Some(_)) => compile_found(alloc, files, from, to),
        Ok(None) => Ok(answer_line(b"COMPILE", b"NO FILE")),
        Err(fault) => Err(fault),
    }
}

// The same of a file that is there.
fn compile_found<A: Area>(
    alloc: Global,
    files: &mut FileArea<A>,
    from: &Ident,
    to: &Ident,
) -> Result<Line, CommandFault>
    requires { IsTrue files.old.sound }
    ensures told { (pages : List (List ℕ)) (file : File) → A.pages files.old.area ≡ Some pages
        → fin.get (file_map pages) from.now ≡ Some file
        → IsAnsweredSo (compiles_to file (file_map pages) to.now (fin.get (file_map pages) to.now)) pages
        result (A.pages files.new.area) }
    ensures sound { files.new.sound ≡ stays_sound (of_command result) }
    ensures cause { FaultsOnly (A.faults files.old.area) (A.faults files.new.area) (of_command result) }
{
    match find(files, to) {
        Ok(Some(_)) => Ok(answer_line(b"COMPILE", b"FILE EXISTS")),
        Ok(None) => compile_new(alloc, files, from, to),
        Err(fault) => Err(fault),
    }
}

// The same to a name that is new.
fn compile_new<A: Area>(
    alloc: Global,
    files: &mut FileArea<A>,
    from: &Ident,
    to: &Ident,
) -> Result<Line, CommandFault>
    requires { IsTrue files.old.sound }
    ensures told { (pages : List (List ℕ)) (file : File) → A.pages files.old.area ≡ Some pages
        → IsSoloDisk pages → fin.get (file_map pages) from.now ≡ Some file
        → fin.get (file_map pages) to.now ≡ None
        → IsAnsweredSo (compiles_file file.kind (file_bytes file) (file_map pages) to.now) pages result
        (A.pages files.new.area) }
    ensures sound { files.new.sound ≡ stays_sound (of_command result) }
    ensures cause { FaultsOnly (A.faults files.old.area) (A.faults files.new.area) (of_command result) }
{
    match text_of(alloc, files, from) {
        Ok(text) => compile_text(alloc, files, &text, to),
        Err(SystemFault::File(FileFault::NoFile)) => Ok(answer_line(b"COMPILE", b"NO FILE")),
        Err(SystemFault::NotText) => Ok(answer_line(b"COMPILE", b"NOT TEXT")),
        Err(fault) => Err(system_fault(fault)),
    }
}

// A text to a name that is new.
fn compile_text<A: Area>(
    alloc: Global,
    files: &mut FileArea<A>,
    text: &[u8],
    to: &Ident,
) -> Result<Line, CommandFault>
    requires { IsTrue files.old.sound }
    ensures told { (pages : List (List ℕ)) → A.pages files.old.area ≡ Some pages → IsSoloDisk pages
        → fin.get (file_map pages) to.now ≡ None
        → IsAnsweredSo (stores_program (file_map pages) to.now (compiling_text text.now)) pages result
        (A.pages files.new.area) }
    ensures sound { files.new.sound ≡ stays_sound (of_command result) }
    ensures cause { FaultsOnly (A.faults files.old.area) (A.faults files.new.area) (of_command result) }
{
    match code_of_text(alloc, text) {
        Ok(code) => store_program(alloc, files, to, &code),
        Err(fault) => refused(fault),
    }
}

// Code to a name that is new.
fn store_program<A: Area>(
    alloc: Global,
    files: &mut FileArea<A>,
    to: &Ident,
    code: &Verified,
) -> Result<Line, CommandFault>
    requires { IsTrue files.old.sound }
    ensures told { (pages : List (List ℕ)) → A.pages files.old.area ≡ Some pages → IsSoloDisk pages
        → fin.get (file_map pages) to.now ≡ None
        → IsAnsweredSo (stores compiler (file_map pages) to.now (code_file code.now)) pages result
        (A.pages files.new.area) }
    ensures sound { files.new.sound ≡ stays_sound (of_command result) }
    ensures cause { FaultsOnly (A.faults files.old.area) (A.faults files.new.area) (of_command result) }
{
    let _free = files.free_pages();
    stored(store_code(alloc, files, to, code))
}

// What answers a store of code that came to this.
fn stored(store: Result<(), SystemFault>) -> Result<Line, CommandFault>
    ensures { result ≡ store_line compiler store }
{
    match store {
        Ok(()) => says(b"OK"),
        Err(SystemFault::File(fault)) => store_refused(fault),
        Err(_) => Err(CommandFault::NoMemory),
    }
}

fn says(how: &[u8]) -> Result<Line, CommandFault>
    requires short { length how.now ≤ 20 }
    requires printable { IsTrue (list_all is_printable how.now) }
    ensures { result ≡ Ok (answer_line compiler how.now) }
{
    Ok(answer_line(b"COMPILE", how))
}

fn store_refused(fault: FileFault) -> Result<Line, CommandFault>
    ensures { result ≡ change_line compiler (Err fault) }
{
    match fault {
        FileFault::DiskFault => Err(CommandFault::DiskFault),
        FileFault::NoMemory => Err(CommandFault::NoMemory),
        FileFault::NoFile => says(b"NO FILE"),
        FileFault::Exists => says(b"FILE EXISTS"),
        FileFault::Protected => says(b"PROTECTED"),
        FileFault::CatalogFull => says(b"CATALOG FULL"),
        FileFault::FileFull => says(b"FILE FULL"),
        FileFault::DiskFull => says(b"DISK FULL"),
        _ => says(b""),
    }
}

// A fault of the area, or that memory was refused.
fn system_fault(fault: SystemFault) -> CommandFault
    ensures { result ≡ as_system_command fault }
{
    match fault {
        SystemFault::File(fault) => file_fault(fault),
        _ => CommandFault::NoMemory,
    }
}

fn file_fault(fault: FileFault) -> CommandFault
    ensures { result ≡ as_command fault }
{
    match fault {
        FileFault::DiskFault => CommandFault::DiskFault,
        _ => CommandFault::NoMemory,
    }
}

// Why a text has no code.
fn refused(fault: CompileFault) -> Result<Line, CommandFault>
    ensures says { (all : Files) (to : List ℕ) (c : Compiling) → Explains fault c
        → IfOk result (λ line. stores_program all to c ≡ Gives (line ∷ [])) }
    ensures lacks { IfErr result (λ fault. fault ≡ CommandFault.NoMemory) }
{
    match compile_line(&compiler(), fault) {
        Ok(line) => Ok(line),
        Err(_) => Err(CommandFault::NoMemory),
    }
}

// The name of the command, as that of a program.
fn compiler() -> Ident
    ensures { result ≡ compiler_name }
{
    match Ident::of(b"COMPILE") {
        Some(name) => name,
        None => unreachable!(),
    }
}
