//! The trace of a run of the five processes over a deck: a line for each event, with what the buffers and the
//! disk hold then; or a picture of the run.
#![tactic(auto)]

ghost use Rattle.std.specs.Prelude.{◌≡◌, true, IfSome};

mod board;
mod deed;
mod event;
mod fault;
mod frame;
mod picture;
mod row;
mod said;
mod svg;
mod trace;
mod words;

use batch_ends::Units;
use deck_work::{DeckFiles, DeckWork};
use disk_files::FileArea;
use disk_pages::AREA_PAGES;
use disk_system::format;
use fault::Fault;
use net_core::Net;
use solo_devices::{Area, CardUnit, PrinterUnit, SureArea, SureSink};
use solo_edge::{ReaderSource, Untold};
use std::alloc::Global;
use std::env;
use std::process::ExitCode;
use std::rt::Env;
use words::{Asked, asked_by};

/// The pages of each spool.
const SPOOL_PAGES: u16 = 256;

fn main(rt: HostRuntime) -> ExitCode {
    match run(&rt) {
        Ok(()) => ExitCode::from(0),
        Err(fault) => {
            let _ = rt.eprintln(fault);
            ExitCode::from(1)
        }
    }
}

/// Shows the run that the words ask for, of the deck on standard input.
fn run<R: AllocGlobal + Env + Input + Print>(rt: &R) -> Result<(), Fault>
where
    R::Reader: Drop,
{
    let asked = read_words(rt)?;
    let Some(
        Areas {
            input,
            output,
            files,
        },
    ) = make_areas(rt.alloc())
    else {
        return Err(Fault::NoMemory);
    };
    let units = Units {
        deck: CardUnit::new(ReaderSource::<_, Untold>::new(rt.reader())),
        paper: PrinterUnit::new(SureSink::new(rt.alloc())),
        files: DeckFiles { files },
        input,
        output,
    };
    let mut net: Net<DeckWork, _, _, _, _, _> = Net::make(rt.alloc(), units);
    trace::trace(rt, &mut net, asked)
}

/// What the words of the command line ask for.
fn read_words(rt: &(impl AllocGlobal + Env)) -> Result<Asked, Fault> {
    let mut words = Vec::new(rt.alloc());
    for word in env::args(rt)?.skip(1) {
        words.push(word)?;
    }
    asked_by(words.as_slice()).ok_or(Fault::Usage)
}

/// The areas in memory that a run uses: those of the two spools, and that of the files.
struct Areas {
    input: SureArea,
    output: SureArea,
    files: FileArea<SureArea>,
}

/// New areas, without a file. None: memory was refused.
fn make_areas(alloc: Global) -> Option<Areas>
    ensures input { IfSome result (λ areas. ⟦<SureArea as Area>⟧.size areas.input ≡ SPOOL_PAGES) }
    ensures output { IfSome result (λ areas. ⟦<SureArea as Area>⟧.size areas.output ≡ SPOOL_PAGES) }
    ensures files { IfSome result (λ areas. areas.files.sound ≡ true) }
{
    let files = no_files(alloc)?;
    let input = SureArea::new(alloc, SPOOL_PAGES).ok()?;
    let output = SureArea::new(alloc, SPOOL_PAGES).ok()?;
    Some(Areas {
        input,
        output,
        files,
    })
}

/// The files of an area in memory, of which there are none. None: memory was refused.
fn no_files(alloc: Global) -> Option<FileArea<SureArea>>
    ensures { IfSome result (λ files. files.sound ≡ true) }
{
    let mut area = SureArea::new(alloc, AREA_PAGES).ok()?;
    format(&mut area).ok()?;
    FileArea::mount(alloc, area).ok()
}
