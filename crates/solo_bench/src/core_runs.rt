//! Times so many runs of the core on a deck of lists, under a numbered schedule.
ghost use Rattle.std.specs.Prelude.{◌≡◌, true, IfSome};

use crate::clock;
use crate::fault::Fault;
use batch_ends::Units;
use deck_work::{DeckFiles, DeckWork};
use disk_files::FileArea;
use disk_pages::AREA_PAGES;
use disk_system::format;
use net_core::Net;
use network_run::{Counts, Falling, Rule};
use solo_base::NoMemory;
use solo_devices::{CardUnit, PrinterUnit, SureArea, SureSink, SureSource};
use std::alloc::Global;
use std::time::CpuClock;

/// A list of ten lines, with the two cards around it.
const LIST: &str = "#LIST A\n\
    HERE IS A LINE OF A LIST 0\n\
    HERE IS A LINE OF A LIST 1\n\
    HERE IS A LINE OF A LIST 2\n\
    HERE IS A LINE OF A LIST 3\n\
    HERE IS A LINE OF A LIST 4\n\
    HERE IS A LINE OF A LIST 5\n\
    HERE IS A LINE OF A LIST 6\n\
    HERE IS A LINE OF A LIST 7\n\
    HERE IS A LINE OF A LIST 8\n\
    HERE IS A LINE OF A LIST 9\n\
    #END\n";

/// The pages of each spool.
const SPOOL_PAGES: u16 = 256;

/// The number of the schedule.
const SCHEDULE: u32 = 7;

pub fn run(
    rt: &(impl AllocGlobal + CpuClock + Eprint + Print),
    lists: u32,
    runs: u32,
) -> Result<(), Fault> {
    let mut time = 0;
    for _ in 0..runs {
        let counts = run_once(rt, lists, &mut time)?;
        println!(rt;
            "{} events, {} delays, {} grants",
            counts.events, counts.delays, counts.grants
        )?;
    }
    Ok(eprintln!(rt; "{time} microseconds")?)
}

/// Runs a deck of so many lists, and adds the processor time of the run to the time.
fn run_once(
    rt: &(impl AllocGlobal + CpuClock),
    lists: u32,
    time: &mut u128,
) -> Result<Counts, Fault> {
    let source = SureSource::new(deck(rt.alloc(), lists)?, 512);
    let input = SureArea::new(rt.alloc(), SPOOL_PAGES)?;
    let output = SureArea::new(rt.alloc(), SPOOL_PAGES)?;
    let paper = SureSink::new(rt.alloc());
    let files = no_files(rt.alloc()).ok_or(NoMemory)?;
    let units = Units {
        deck: CardUnit::new(source),
        paper: PrinterUnit::new(paper),
        files: DeckFiles { files },
        input,
        output,
    };
    let mut net: Net<DeckWork, _, _, _, _, _> = Net::make(rt.alloc(), units);
    let began = clock::micros(rt)?;
    let counts = net.run_by(Rule::Numbered { number: SCHEDULE });
    *time = time.saturating_add(clock::micros_since(rt, began)?);
    Ok(counts)
}

/// A deck of so many lists.
fn deck(alloc: Global, lists: u32) -> Result<Vec<u8>, Fault> {
    let mut deck = Vec::new(alloc);
    for _ in 0..lists {
        deck.extend_from_slice(LIST.as_bytes())?;
    }
    Ok(deck)
}

/// The files of an area in memory, of which there are none. None: memory was refused.
fn no_files(alloc: Global) -> Option<FileArea<SureArea>>
    ensures { IfSome result (λ files. files.sound ≡ true) }
{
    let mut area = SureArea::new(alloc, AREA_PAGES).ok()?;
    format(&mut area).ok()?;
    FileArea::mount(alloc, area).ok()
}
