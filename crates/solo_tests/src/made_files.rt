//! The files that programs of the tests find.

use crate::made_programs::{Step, program};
use disk_files::{FileArea, FileKind};
use disk_pages::AREA_PAGES;
use disk_system::{format, store_code};
use solo_base::{Ident, Page};
use solo_devices::{Area, MemArea, SureArea};
use stack_code::Verified;
use std::alloc::Global;
use std::process::Abort;

// Makes an area one without a file. `None` where one of its writes failed.
fn formatted<A: Area>(area: &mut A) -> Option<()> {
    if area.size() != AREA_PAGES {
        return None;
    }
    format(area).ok()
}

// The files of an area. `None` where one of its reads failed.
fn mounted<A: Area + Drop>(alloc: Global, area: A) -> Option<FileArea<A>> {
    if area.size() != AREA_PAGES {
        return None;
    }
    FileArea::mount(alloc, area).ok()
}

// No files, over this area.
fn blank<A: Area + Drop>(alloc: Global, mut area: A) -> Option<FileArea<A>> {
    formatted(&mut area)?;
    mounted(alloc, area)
}

/// No files, over an area that doesn't fail.
pub fn blank_files(rt: &impl Abort, alloc: Global) -> FileArea<SureArea> {
    let area = SureArea::new(alloc, AREA_PAGES)
        .ok()
        .expect(rt, "ample memory");
    blank(alloc, area).expect(rt, "files")
}

/// No files, over an area whose reads and writes with these numbers fail, counted from 1. `None` where one
/// of them was met.
pub fn failing_files(
    rt: &impl Abort,
    alloc: Global,
    read: u64,
    write: u64,
) -> Option<FileArea<MemArea>> {
    let reads = vec![in alloc; read].ok().expect(rt, "ample memory");
    let writes = vec![in alloc; write].ok().expect(rt, "ample memory");
    let area = MemArea::new(alloc, AREA_PAGES, reads, writes);
    blank(alloc, area.ok().expect(rt, "ample memory"))
}

/// The name of a file.
pub fn name(rt: &impl Abort, letters: &str) -> Ident {
    Ident::of(letters.as_bytes()).expect(rt, "a name")
}

/// Makes a file without a page.
fn create<A: Area>(files: &mut FileArea<A>, name: &Ident, kind: FileKind) -> Option<()> {
    if !files.sound() {
        return None;
    }
    files.create(name, kind).ok()
}

/// Puts a page of this byte behind a file.
pub fn append<A: Area>(files: &mut FileArea<A>, name: &Ident, byte: u8) -> Option<()> {
    if !files.sound() {
        return None;
    }
    files.append(name, &Page([byte; 512])).ok()
}

/// Lets nobody change a file.
fn protect<A: Area>(files: &mut FileArea<A>, name: &Ident) -> Option<()> {
    if !files.sound() {
        return None;
    }
    files.protect(name, true).ok()
}

/// Makes a file of pages that are filled with these bytes.
pub fn add_file<A: Area>(
    files: &mut FileArea<A>,
    name: &Ident,
    kind: FileKind,
    pages: &[u8],
) -> Option<()> {
    create(files, name, kind)?;
    for byte in pages {
        append(files, name, *byte)?;
    }
    Some(())
}

fn add_code<A: Area>(
    alloc: Global,
    files: &mut FileArea<A>,
    name: &Ident,
    code: &Verified,
) -> Option<()> {
    if !files.sound() {
        return None;
    }
    store_code(alloc, files, name, code).ok()
}

/// A program in a file: the file's name, and what the program does.
pub type Stored = (&'static str, &'static [Step]);

/// Makes a file of each program.
pub fn add_programs<A: Area>(
    rt: &impl Abort,
    alloc: Global,
    files: &mut FileArea<A>,
    programs: &[Stored],
) -> Option<()> {
    for (letters, steps) in programs {
        let code = program(rt, alloc, steps);
        add_code(alloc, files, &name(rt, letters), &code)?;
    }
    Some(())
}

/// Makes the files that most tests begin with: TEXT with a page of `A` and one of `B`, EMPTY without a page,
/// LOCKED with one, which is protected, CON of the code of another machine, and BAD, whose code is none.
pub fn add_files<A: Area>(rt: &impl Abort, files: &mut FileArea<A>) -> Option<()> {
    add_file(files, &name(rt, "TEXT"), FileKind::Ascii, b"AB")?;
    add_file(files, &name(rt, "EMPTY"), FileKind::Scratch, b"")?;
    add_file(files, &name(rt, "LOCKED"), FileKind::Ascii, b"L")?;
    protect(files, &name(rt, "LOCKED"))?;
    add_file(files, &name(rt, "CON"), FileKind::ConCode, b"")?;
    add_file(files, &name(rt, "BAD"), FileKind::SeqCode, b"X")
}
