//! The program `twin`: the deck of standard input on six processes, of which two work on jobs beside each
//! other, under the schedule of a number. Its drive is that of `solo`, which it never makes.
#![tactic(auto)]

mod fault;

ghost use Rattle.std.specs.Prelude.{◌≡◌};

use fault::Fault;
use solo_base::NoMemory;
use solo_devices::Area;
use solo_edge::{
    DriveArea, ReaderSource, Recorded, Unknown, Untold, WriterSink, deck_over, hold_streams,
    open_drive, paper_over, reads_file,
};
use std::env;
use std::fs::{File, Files, OpenOptions};
use std::io::{self, ErrorKind, IsTerminal};
use std::process::ExitCode;
use std::rt::Env;
use twin_top::{TwinFinished, twin_top};

/// The file that is the drive. It stands where the program runs.
const DRIVE: &str = "solo.disk";

/// A drive of zeros, which is no Solo disk.
const ZEROS: &str = "/dev/zero";

/// The drive's pages of files, and behind them those of the input spool and those of the output spool, of
/// each of which every job process has a half.
const FILE_PAGES: u16 = 4288;

const HALF_PAGES: u16 = 128;

fn main(rt: HostRuntime) -> ExitCode {
    let ended = run(&rt, rt.stdout().is_terminal()).unwrap_or(Ended::without_memory());
    if let Some(fault) = ended.fault {
        let _ = rt.eprintln(fault);
    }
    ExitCode::from(ended.status)
}

/// How the program ends.
#[derive(Drop)]
struct Ended {
    status: u8,
    fault: Option<Fault>,
}

impl Ended {
    fn with(status: u8, fault: Fault) -> Ended {
        Ended {
            status,
            fault: Some(fault),
        }
    }

    fn without_memory() -> Ended {
        Ended::with(9, Fault::NoMemory)
    }
}

/// Runs the deck of standard input to standard output, with the drive for itself.
fn run<R: Env + Input + Print + Files<File = File> + AllocGlobal>(
    rt: &R,
    on_terminal: bool,
) -> Result<Ended, NoMemory>
where
    R::Reader: Drop,
{
    // The places of closed streams are held, and the drive is locked, until all is done.
    let streams = hold_streams(rt);
    let own = match &streams {
        Some(_) => take_drive(rt),
        None => Drive::Away,
    };
    let Some(words) = words(rt)? else {
        return Ok(Ended::with(1, Fault::Usage));
    };
    run_words(rt, &words, own.path(), on_terminal || !reads_file(rt))
}

/// The drive of a run.
#[derive(Drop)]
enum Drive {
    /// This run has it for itself, as long as the file is open.
    Own(File),
    /// There is none.
    Missing,
    /// Another run has it, or it can't be opened.
    Away,
}

impl Drive {
    /// The path at which it is opened for each area.
    fn path(&self) -> Option<&'static str> {
        match self {
            Drive::Own(_) => Some(DRIVE),
            Drive::Missing => Some(ZEROS),
            Drive::Away => None,
        }
    }
}

/// Takes the drive for this run alone. Nobody is waited for, and nothing is made.
fn take_drive<R: Files<File = File>>(rt: &R) -> Drive {
    match OpenOptions::new().read(true).write(true).open(rt, DRIVE) {
        Ok(file) => match file.try_lock() {
            Ok(()) => Drive::Own(file),
            Err(_) => Drive::Away,
        },
        Err(error) if error.kind() == ErrorKind::NotFound => Drive::Missing,
        Err(_) => Drive::Away,
    }
}

/// Runs the deck as the words ask, over the drive at this path.
fn run_words<R: Input + Print + Files<File = File> + AllocGlobal>(
    rt: &R,
    words: &[String],
    path: Option<&str>,
    by_line: bool,
) -> Result<Ended, NoMemory>
where
    R::Reader: Drop,
{
    let TwinFinished {
        status,
        cause,
        deck: _,
        mut paper,
        files: _,
        input_a: _,
        input_b: _,
        output_a: _,
        output_b: _,
    } = twin_top(
        rt.alloc(),
        words,
        ReaderSource::<_, Untold>::new(deck_over(rt.alloc(), rt.reader())?),
        WriterSink::<_, Untold>::new(paper_over(rt.alloc(), io::writer(rt), by_line)?),
        area(rt, path, 0, FILE_PAGES),
        area(rt, path, FILE_PAGES, HALF_PAGES),
        area(rt, path, FILE_PAGES + HALF_PAGES, HALF_PAGES),
        area(rt, path, FILE_PAGES + 2 * HALF_PAGES, HALF_PAGES),
        area(rt, path, FILE_PAGES + 3 * HALF_PAGES, HALF_PAGES),
    );
    // What was printed so far goes out whatever the status, and the lowest status decides.
    if paper.flush().is_err() && (status == 0 || status > 4) {
        return Ok(Ended::with(4, Fault::Print));
    }
    let fault = cause.map(Fault::of);
    Ok(Ended { status, fault })
}

/// The area of so many pages of the drive at this path, from page `first` on. Each area opens the file for
/// itself, since a file has one position. Without a path each call on the area fails.
fn area<R: Files<File = File>>(
    rt: &R,
    path: Option<&str>,
    first: u16,
    pages: u16,
) -> DriveArea<Recorded<File>, Unknown>
    ensures { ⟦<DriveArea<Recorded<File>, Unknown> as Area>⟧.size result ≡ pages }
{
    let drive = match path {
        Some(path) => open_drive(rt, path),
        None => None,
    };
    DriveArea::<_, Unknown>::over(drive, first, pages)
}

/// The words of the command line behind the program's name, or `None` where they can't be read.
fn words(rt: &(impl Env + AllocGlobal)) -> Result<Option<Vec<String>>, NoMemory> {
    let args = match env::args(rt) {
        Ok(args) => args,
        Err(error) if error.kind() == ErrorKind::OutOfMemory => return Err(NoMemory),
        Err(_) => return Ok(None),
    };
    let mut words = Vec::new(rt.alloc());
    for word in args.skip(1) {
        words.push(word)?;
    }
    Ok(Some(words))
}
