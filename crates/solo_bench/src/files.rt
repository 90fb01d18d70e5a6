//! Times the calls of a file area with 240 files: appends until it is full, look-ups, and a mount.
ghost use Rattle.std.specs.Prelude.{◌≡◌, IfOk};

mod counting;

use crate::fault::Fault;
use counting::CountedArea;
use disk_files::FileArea;
use disk_layout::{FileKind, label};
use disk_pages::{AREA_PAGES, PageMap};
use solo_base::{Ident, Page};
use solo_devices::{Area, SureArea};
use std::alloc::Global;
use std::time::{Clock, Instant};

/// How many files there are.
const NAMES: u16 = 240;

/// How many pages the files take until the area is full: each has an index page and a part page.
const APPENDS: u16 = 3790;

/// How often each file is looked up.
const LOOKUPS: u16 = 100;

/// What is done to the files of an area.
#[derive(Clone, Copy)]
enum Work {
    Nothing,
    /// All files are created.
    Create,
    /// The pages with these numbers go behind the files, one behind each in turn.
    Append { from: u16, to: u16 },
    /// Each file is looked up so often.
    LookUp,
}

/// An area that some work left, and how many pages the work read and wrote.
#[derive(Drop)]
struct Counted {
    area: CountedArea,
    reads: u64,
    writes: u64,
}

pub fn run(rt: &(impl AllocGlobal + Clock + Eprint + Print)) -> Result<(), Fault> {
    print_counts(rt)?;
    print_times(rt)
}

fn print_counts(rt: &(impl AllocGlobal + Print)) -> Result<(), Fault> {
    let alloc = rt.alloc();
    let made = worked(alloc, blank_area(alloc)?, Work::Create)?;
    let begun = beside_mount(alloc, made.area, Work::Append { from: 0, to: 1000 })?;
    print(rt, "the first 1000 appends", &begun)?;
    let from = APPENDS - 1000;
    let more = worked(
        alloc,
        begun.area,
        Work::Append {
            from: 1000,
            to: from,
        },
    )?;
    let last = beside_mount(alloc, more.area, Work::Append { from, to: APPENDS })?;
    print(rt, "the last 1000 appends", &last)?;
    let full = worked(alloc, last.area, Work::Nothing)?;
    print(rt, "a mount", &full)?;
    let looked = beside_mount(alloc, full.area, Work::LookUp)?;
    print(rt, "24000 look-ups", &looked)
}

fn print(rt: &impl Print, work: &str, done: &Counted) -> Result<(), Fault> {
    Ok(println!(rt;
        "{work}: {} pages read, {} written",
        done.reads, done.writes
    )?)
}

fn print_times(rt: &(impl AllocGlobal + Clock + Eprint + Print)) -> Result<(), Fault> {
    let alloc = rt.alloc();
    let made = worked(alloc, blank_area(alloc)?, Work::Create)?;
    let mut files = mounted(alloc, made.area)?;
    let began = Instant::now(rt)?;
    append(&mut files, 0, APPENDS)?;
    let time = began.elapsed(rt)?.as_micros();
    eprintln!(rt; "{time} microseconds for 3790 appends")?;
    let area = files.into_inner();
    let began = Instant::now(rt)?;
    let mut files = mounted(alloc, area)?;
    let time = began.elapsed(rt)?.as_micros();
    eprintln!(rt; "{time} microseconds for a mount")?;
    let began = Instant::now(rt)?;
    look_up(&mut files)?;
    let time = began.elapsed(rt)?.as_micros();
    Ok(eprintln!(rt; "{time} microseconds for 24000 look-ups")?)
}

/// The area after some work on its files, and what the work and the mount before it read and wrote.
fn worked(alloc: Global, area: CountedArea, work: Work) -> Result<Counted, Fault> {
    let (reads, writes) = (area.reads, area.writes);
    let mut files = mounted(alloc, area)?;
    match work {
        Work::Nothing => {}
        Work::Create => create(&mut files)?,
        Work::Append { from, to } => append(&mut files, from, to)?,
        Work::LookUp => look_up(&mut files)?,
    }
    let area = files.into_inner();
    Ok(Counted {
        reads: area.reads.saturating_sub(reads),
        writes: area.writes.saturating_sub(writes),
        area,
    })
}

/// The area after some work on its files, and what the work alone read and wrote.
fn beside_mount(alloc: Global, area: CountedArea, work: Work) -> Result<Counted, Fault> {
    let mount = worked(alloc, area, Work::Nothing)?;
    let both = worked(alloc, mount.area, work)?;
    Ok(Counted {
        area: both.area,
        reads: both.reads.saturating_sub(mount.reads),
        writes: both.writes.saturating_sub(mount.writes),
    })
}

/// An area without a file.
fn blank_area(alloc: Global) -> Result<CountedArea, Fault>
    ensures { IfOk result (λ area. ⟦<CountedArea as Area>⟧.size area ≡ AREA_PAGES) }
{
    let mut area = CountedArea::new(SureArea::new(alloc, AREA_PAGES)?);
    area.write(0, &label());
    let (low, high) = PageMap::fresh().to_pages();
    area.write(16, &low);
    area.write(17, &high);
    Ok(area)
}

/// The files of an area.
fn mounted(alloc: Global, area: CountedArea) -> Result<FileArea<CountedArea>, Fault> {
    if area.size() != AREA_PAGES {
        return Err(Fault::Unexpected("no file area"));
    }
    match FileArea::mount(alloc, area) {
        Ok(files) => Ok(files),
        Err(_) => Err(Fault::Unexpected("no Solo disk")),
    }
}

/// Creates all files, without a page.
fn create(files: &mut FileArea<CountedArea>) -> Result<(), Fault> {
    for number in 0..NAMES {
        let Some(name) = name(number) else {
            return Err(Fault::Unexpected("no name"));
        };
        if !files.sound() || files.create(&name, FileKind::Scratch).is_err() {
            return Err(Fault::Unexpected("no file is made"));
        }
    }
    Ok(())
}

/// Puts the pages with these numbers behind the files, one behind each in turn.
fn append(files: &mut FileArea<CountedArea>, from: u16, to: u16) -> Result<(), Fault> {
    for number in from..to {
        let Some(name) = name(number % NAMES) else {
            return Err(Fault::Unexpected("no name"));
        };
        let page = Page([(number % 251) as u8; 512]);
        if !files.sound() || files.append(&name, &page).is_err() {
            return Err(Fault::Unexpected("no room"));
        }
    }
    Ok(())
}

/// Looks up each file so often.
fn look_up(files: &mut FileArea<CountedArea>) -> Result<(), Fault> {
    for _ in 0..LOOKUPS {
        for number in 0..NAMES {
            let Some(name) = name(number) else {
                return Err(Fault::Unexpected("no name"));
            };
            if !files.sound() || files.lookup(&name).is_err() {
                return Err(Fault::Unexpected("no file"));
            }
        }
    }
    Ok(())
}

/// The name of F and three digits.
fn name(number: u16) -> Option<Ident> {
    let digits = [
        b'F',
        b'0' + (number / 100 % 10) as u8,
        b'0' + (number / 10 % 10) as u8,
        b'0' + (number % 10) as u8,
    ];
    Ident::of(&digits)
}
