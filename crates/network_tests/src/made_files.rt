// Files that tests begin with.
ghost use Rattle.std.specs.Prelude.{◌≡◌, true, IfOk, IfSome};

use disk_files::FileArea;
use disk_pages::AREA_PAGES;
use disk_system::{format, store_code};
use pascal_compile::compile;
use solo_base::{Ident, Line, LineList};
use solo_devices::{Area, HurtArea, MemArea, SureArea};
use std::alloc::Global;
use std::process::Abort;
use std::test::Fail;

/// The files of an area without a file.
pub fn no_files(rt: &impl Abort, alloc: Global) -> FileArea<SureArea>
    ensures { result.sound ≡ true }
{
    let mut area = SureArea::new(alloc, AREA_PAGES)
        .ok()
        .expect(rt, "ample memory");
    assert!(rt; format(&mut area).is_ok());
    match FileArea::mount(alloc, area) {
        Ok(files) => files,
        Err(_) => panic!(rt; "no Solo disk"),
    }
}

/// Files of which one, PROG, has a program that copies its input.
pub fn with_copy(rt: &impl Abort, alloc: Global) -> Result<FileArea<SureArea>, Fail>
    ensures { IfOk result (λ files. files.sound ≡ true) }
{
    let mut files = no_files(rt, alloc);
    assert!(rt; store_copy(rt, alloc, &mut files)?);
    Ok(files)
}

/// The same over an area whose read of this number fails. None: it failed before all was stored.
pub fn failing_files(
    rt: &impl Abort,
    alloc: Global,
    read: u64,
) -> Result<Option<FileArea<MemArea>>, Fail>
    ensures { IfOk result (λ files. IfSome files (λ all. all.sound ≡ true)) }
{
    let reads = vec![in alloc; read]?;
    let mut area = MemArea::new(alloc, AREA_PAGES, reads, Vec::new(alloc))
        .ok()
        .expect(rt, "ample memory");
    if format(&mut area).is_err() {
        return Ok(None);
    }
    match FileArea::mount(alloc, area) {
        Ok(mut files) => {
            if store_copy(rt, alloc, &mut files)? {
                Ok(Some(files))
            } else {
                Ok(None)
            }
        }
        Err(_) => Ok(None),
    }
}

/// The same over an area that tells no page. Its read of this number gives a wrong byte.
pub fn hurt_files(
    rt: &impl Abort,
    alloc: Global,
    read: u64,
) -> Result<Option<FileArea<HurtArea>>, Fail>
    ensures { IfOk result (λ files. IfSome files (λ all. all.sound ≡ true)) }
{
    let area = HurtArea::new(with_copy(rt, alloc)?.into_inner(), read, 7, b'2');
    Ok(FileArea::mount(alloc, area).ok())
}

/// The cards of a program that copies its input.
fn copy_cards(alloc: Global) -> Result<LineList, Fail> {
    let mut cards = LineList::new(alloc);
    for card in [
        b"VAR C: CHAR;".as_slice(),
        b"BEGIN READ(C);",
        b"WHILE C <> EM DO BEGIN WRITE(C); READ(C) END",
        b"END.",
    ] {
        cards.push(&Line::of(card).ok_or("a card")?)?;
    }
    Ok(cards)
}

/// Stores this program in the file PROG. Answers whether the files are sound then.
fn store_copy<F: Area>(
    rt: &impl Abort,
    alloc: Global,
    files: &mut FileArea<F>,
) -> Result<bool, Fail>
    requires { files.old.sound ≡ true }
    ensures { IfOk result (λ sound. sound ≡ files.new.sound) }
{
    let cards = copy_cards(alloc)?;
    let name = Ident::of(b"PROG").ok_or("a name")?;
    let stored = store_program(rt, alloc, files, &name, &cards);
    assert_eq!(rt; files.sound(), stored);
    Ok(files.sound())
}

/// Stores the program of these cards in the file of this name. Answers whether that was done.
fn store_program<F: Area>(
    rt: &impl Abort,
    alloc: Global,
    files: &mut FileArea<F>,
    name: &Ident,
    cards: &LineList,
) -> bool
    requires { files.old.sound ≡ true }
{
    let code = compile(alloc, cards).ok().expect(rt, "a program");
    store_code(alloc, files, name, &code).is_ok()
}
