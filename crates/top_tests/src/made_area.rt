//! Areas of files that tests begin with, and the code of a file.
ghost use Rattle.std.specs.Prelude.{◌≡◌, IfOk, true};

use disk_files::FileArea;
use disk_layout::FileKind;
use disk_pages::AREA_PAGES;
use disk_system::format;
use solo_base::{Ident, Page};
use solo_devices::{Area, MemArea, SureArea};
use std::alloc::Global;
use std::test::Fail;

/// An area of zeros.
pub fn zeros(alloc: Global) -> Result<SureArea, Fail>
    ensures { IfOk result (λ area. ⟦<SureArea as Area>⟧.size area ≡ AREA_PAGES) }
{
    match SureArea::new(alloc, AREA_PAGES) {
        Ok(area) => Ok(area),
        Err(_) => Err("no memory".into()),
    }
}

/// An area without a file.
pub fn formatted(alloc: Global) -> Result<SureArea, Fail>
    ensures { IfOk result (λ area. ⟦<SureArea as Area>⟧.size area ≡ AREA_PAGES) }
{
    let mut area = zeros(alloc)?;
    match format(&mut area) {
        Ok(()) => Ok(area),
        Err(_) => Err("a fault".into()),
    }
}

/// The code file of `BEGIN WRITE('A') END.`, without the zeros behind it: TICK 0 1, PUSH 65 0, SYS 1 0, HALT
/// 0 0.
const CODE: [u8; 40] = [
    b'S', b'E', b'Q', b'C', b'O', b'D', b'E', b'1', 0, 1, 0, 4, 0, 0, 0, 0, 0, 0, 0, 1, 0x1D, 0, 0,
    0, 1, 0, 0, 65, 0, 0, 0x20, 0, 1, 0, 0, 0x23, 0, 0, 0, 0,
];

/// The page of the code, with these bytes in place of those that stand there.
pub fn code(changes: &[(usize, u8)]) -> Page {
    let mut page = Page::zeros();
    for (place, byte) in page.0.iter_mut().zip(CODE) {
        *place = byte;
    }
    for (at, byte) in changes {
        if let Some(place) = page.0.get_mut(*at) {
            *place = *byte;
        }
    }
    page
}

/// An area with one file: PROG, of one page. Its index, its part and its page are 18, 19 and 20.
pub fn with_file(alloc: Global, kind: FileKind, page: &Page) -> Result<SureArea, Fail>
    ensures { IfOk result (λ area. ⟦<SureArea as Area>⟧.size area ≡ AREA_PAGES) }
{
    match FileArea::mount(alloc, formatted(alloc)?) {
        Ok(files) => created(files, kind, page),
        Err(_) => Err("no Solo disk".into()),
    }
}

fn created(files: FileArea<SureArea>, kind: FileKind, page: &Page) -> Result<SureArea, Fail>
    requires { files.sound ≡ true }
    ensures { IfOk result (λ area. ⟦<SureArea as Area>⟧.size area ≡ AREA_PAGES) }
{
    let mut files = files;
    let Some(name) = Ident::of(b"PROG") else {
        return Err("no name".into());
    };
    match files.create(&name, kind) {
        Ok(()) => appended(files, &name, page),
        Err(_) => Err("not made".into()),
    }
}

fn appended(files: FileArea<SureArea>, name: &Ident, page: &Page) -> Result<SureArea, Fail>
    requires { files.sound ≡ true }
    ensures { IfOk result (λ area. ⟦<SureArea as Area>⟧.size area ≡ AREA_PAGES) }
{
    let mut files = files;
    match files.append(name, page) {
        Ok(()) => Ok(files.into_inner()),
        Err(_) => Err("no page".into()),
    }
}

/// An area that begins with the pages 0 to 20 of this one, and whose read of this number fails.
pub fn readable(alloc: Global, mut whole: SureArea, read: u64) -> Result<MemArea, Fail>
    ensures { IfOk result (λ area. ⟦<MemArea as Area>⟧.size area ≡ AREA_PAGES) }
{
    let reads = [read].to_vec(alloc)?;
    match MemArea::new(alloc, AREA_PAGES, reads, Vec::new(alloc)) {
        Ok(mut area) => {
            copy_pages(&mut whole, &mut area, 21)?;
            if area.size() == AREA_PAGES {
                return Ok(area);
            }
            Err("not of that size".into())
        }
        Err(_) => Err("no memory".into()),
    }
}

/// Makes the first pages of one area those of another.
fn copy_pages(from: &mut SureArea, to: &mut MemArea, pages: u16) -> Result<(), Fail> {
    for n in 0..pages {
        let page = page_of(from, n)?;
        write_page(to, n, &page)?;
    }
    Ok(())
}

/// Page n of an area.
pub fn page_of<A: Area>(area: &mut A, n: u16) -> Result<Page, Fail>
    ensures { A.size area.new ≡ A.size area.old }
{
    let mut page = Page::zeros();
    if n < area.size() {
        area.read(n, &mut page);
        return Ok(page);
    }
    Err("no such page".into())
}

/// Makes page n of an area so.
pub fn write_page<A: Area>(area: &mut A, n: u16, page: &Page) -> Result<(), Fail>
    ensures { A.size area.new ≡ A.size area.old }
{
    if n < area.size() {
        area.write(n, page);
        return Ok(());
    }
    Err("no such page".into())
}
