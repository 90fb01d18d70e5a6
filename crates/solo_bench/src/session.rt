//! Runs a session by Solo's three processes on one thread, under a numbered schedule: over the files and the
//! streams of `solo solo`.
ghost use Rattle.std.specs.Prelude.{◌≡◌, false, true, IfOk};
ghost use Rattle.network_run.specs.Law.{Placed, MayStep, AllEnded};

use crate::fault::Fault;
use disk_files::FileArea;
use disk_pages::AREA_PAGES;
use network_run::{Network, Rule, next_by};
use session_work::SessionCommands;
use solo_base::{Outcome, ProcNo};
use solo_devices::{CardUnit, PrinterUnit, Sink, Source, Typewriter};
use solo_edge::{DriveArea, ReaderSource, Recorded, Unknown, Untold, WriterSink, open_drive};
use solo_ends::{SoloRan, SoloUnits};
use solo_net::SoloNet;
use solo_procs::Commands;
use std::fs::{File, Files};
use std::io;
use std::sync::Wait;

/// The cards, the paper and the drive, which stand where the program runs.
const CARDS: &str = "cards.txt";

const PAPER: &str = "printer.txt";

const DRIVE: &str = "solo.disk";

pub fn run<R: AllocGlobal + Files<File = File> + Input + Print + Wait>(
    rt: &R,
    number: u32,
) -> Result<(), Fault>
where
    R::Reader: Drop,
{
    let cards = File::open(rt, CARDS)?;
    let paper = File::create(rt, PAPER)?;
    let files = files(rt)?;
    let units = SoloUnits {
        cards: CardUnit::new(ReaderSource::<_, Untold>::new(cards)),
        typewriter: Typewriter::new(
            ReaderSource::<_, Untold>::new(rt.reader()),
            WriterSink::<_, Untold>::new(io::writer(rt)),
        ),
        paper: PrinterUnit::new(WriterSink::<_, Untold>::new(paper)),
        files,
    };
    run_over::<SessionCommands<DriveArea<Recorded<File>, Unknown>>, _, _, _, _>(rt, units, number)
}

/// The files of the drive.
fn files<R: AllocGlobal + Files<File = File>>(
    rt: &R,
) -> Result<FileArea<DriveArea<Recorded<File>, Unknown>>, Fault>
    ensures { IfOk result (λ files. files.sound ≡ true) }
{
    let area = DriveArea::<_, Unknown>::over(open_drive(rt, DRIVE), 0, AREA_PAGES);
    match FileArea::mount(rt.alloc(), area) {
        Ok(files) => Ok(files),
        Err(_) => Err(Fault::Unexpected("no Solo disk")),
    }
}

/// Runs over these devices to the end.
fn run_over<C: Commands + Drop, S: Source + Drop, Y: Source + Drop, K: Sink + Drop, T: Sink + Drop>(
    rt: &(impl AllocGlobal + Wait),
    units: SoloUnits<S, Y, K, T, C::Files>,
    number: u32,
) -> Result<(), Fault>
where
    C::Files: Drop,
    requires cards { units.cards.live ≡ true }
    requires keys { units.typewriter.keys.live ≡ true }
    requires console { units.typewriter.console.live ≡ true }
    requires paper { units.paper.live ≡ true }
    requires files { C.sound units.files }
{
    let mut net: SoloNet<C, S, Y, K, T> = SoloNet::make(rt.alloc(), units);
    run_on(rt, &mut net, Rule::Numbered { number });
    let SoloRan {
        outcomes,
        stopped_by: _,
        units: _,
    } = net.finish();
    match outcomes {
        [Outcome::Done, Outcome::Done, Outcome::Done] => Ok(()),
        _ => Err(Fault::Unexpected("a process isn't done")),
    }
}

/// Lets the process that a rule picks take its turn, over and over, until all have ended.
fn run_on<N: Network>(rt: &impl Wait, net: &mut N, rule: Rule)
    requires before { Placed N.law (N.Stands net.old) }
    ensures after { Placed N.law (N.Stands net.new) }
    ensures ended { (at : Placed N.law (N.Stands net.new)) → AllEnded N.law at.state }
{
    let mut now = rule;
    for _ in rt.forever() {
        if !turn(net, &mut now) {
            return;
        }
    }
    unreachable!()
}

/// Lets the process that a rule picks take its turn. Whether there was one.
fn turn<N: Network>(net: &mut N, rule: &mut Rule) -> bool
    requires { Placed N.law (N.Stands net.old) }
    ensures after { Placed N.law (N.Stands net.new) }
    ensures ended { result ≡ false → (at : Placed N.law (N.Stands net.new)) → AllEnded N.law at.state }
{
    match next_by(net, rule) {
        Some(p) => {
            step(net, p);
            true
        }
        None => false,
    }
}

fn step<N: Network>(net: &mut N, p: ProcNo)
    requires { MayStep N.law (N.Stands net.old) p }
    ensures { Placed N.law (N.Stands net.new) }
{
    let _ = net.step(p);
}
