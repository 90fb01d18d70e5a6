// Files that runs begin with.
ghost use Rattle.std.specs.Prelude.{◌≡◌, true, IfSome};

use crate::runs::Files;
use disk_files::FileArea;
use disk_pages::AREA_PAGES;
use disk_system::{format, store_code};
use pascal_compile::compile;
use solo_base::{Ident, Line, LineList};
use solo_devices::{Area, MemArea};
use std::alloc::Global;
use std::process::Abort;

// Makes an area one without a file. `None` where one of its reads failed.
fn formatted<A: Area>(area: &mut A) -> Option<()> {
    if area.size() != AREA_PAGES {
        return None;
    }
    format(area).ok()
}

// The files of an area. `None` where one of its reads failed.
fn mounted<A: Area + Drop>(alloc: Global, area: A) -> Option<FileArea<A>> {
    if area.size() != AREA_PAGES {
        return None;
    }
    FileArea::mount(alloc, area).ok()
}

// No files, over an area whose read of this number fails.
fn empty_files(rt: &impl Abort, alloc: Global, read: u64) -> Option<Files> {
    let reads = [read].to_vec(alloc).ok().expect(rt, "ample memory");
    let area = MemArea::new(alloc, AREA_PAGES, reads, Vec::new(alloc));
    let mut area = area.ok().expect(rt, "ample memory");
    formatted(&mut area)?;
    mounted(alloc, area)
}

/// The files of an area without a file.
pub fn no_files(rt: &impl Abort, alloc: Global) -> Files
    ensures { result.sound ≡ true }
{
    let files = empty_files(rt, alloc, 0).expect(rt, "a Solo disk");
    assert!(rt; files.sound());
    files
}

// The cards of a program that copies its input.
const COPY: [&str; 4] = [
    "VAR C: CHAR;",
    "BEGIN READ(C);",
    "WHILE C <> EM DO BEGIN WRITE(C); READ(C) END",
    "END.",
];

fn copy_cards(rt: &impl Abort, alloc: Global) -> LineList {
    let mut cards = LineList::new(alloc);
    for card in COPY {
        let line = Line::of(card.as_bytes()).expect(rt, "a card");
        cards.push(&line).ok().expect(rt, "ample memory");
    }
    cards
}

// Stores the program of these cards under this name. `None` where a call of the area failed.
fn stored(
    rt: &impl Abort,
    alloc: Global,
    files: &mut Files,
    name: &[u8],
    cards: &LineList,
) -> Option<()>
    requires { files.old.sound ≡ true }
{
    let name = Ident::of(name).expect(rt, "a name");
    let code = compile(alloc, cards).ok().expect(rt, "a program");
    store_code(alloc, files, &name, &code).ok()
}

/// Files of which one, PROG, has a program that copies its input, over an area whose read of this number
/// fails. `None` where it failed before all was stored.
pub fn with_copy(rt: &impl Abort, alloc: Global, read: u64) -> Option<Files>
    ensures { IfSome result (λ files. files.sound ≡ true) }
{
    let mut files = empty_files(rt, alloc, read)?;
    assert!(rt; files.sound());
    stored(
        rt,
        alloc,
        &mut files,
        b"PROG".as_slice(),
        &copy_cards(rt, alloc),
    )?;
    assert!(rt; files.sound());
    Some(files)
}
