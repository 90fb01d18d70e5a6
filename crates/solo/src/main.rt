//! The program `solo`: its words are a command, which runs over the standard streams. A session of Solo has
//! its cards and its paper in files.
#![tactic(auto)]

mod fault;

ghost use Rattle.std.specs.Prelude.{◌≡◌};

use fault::Fault;
use solo_base::NoMemory;
use solo_cli::{Command, Finished, command_of, top};
use solo_devices::{Area, Sink, Source, SureSink, SureSource};
use solo_edge::{
    DriveArea, OwnDrive, ReaderSource, Recorded, Unknown, Untold, WriterSink, deck_over,
    hold_streams, open_drive, paper_over, reads_file, take_drive,
};
use std::env;
use std::fs::{self, File, Files};
use std::io::{self, ErrorKind, IsTerminal};
use std::process::ExitCode;
use std::rt::Env;
use std::sync::Wait;
use std::thread::Threads;

/// The file that is the drive, and its name while it is made. It stands where the program runs.
const DRIVE: &str = "solo.disk";

const NEW_DRIVE: &str = "solo.disk.new";

/// The cards of a session, and its paper. They stand beside the drive.
const CARDS: &str = "cards.txt";

const PRINTER: &str = "printer.txt";

/// What has no bytes, and what can be neither read nor written. Both are there on each system.
const NOTHING: &str = "/dev/null";

const ROOT: &str = "/";

/// The drive's pages of files, and behind them those of the input spool and those of the output spool.
const FILE_PAGES: u16 = 4288;

const SPOOL_PAGES: u16 = 256;

const DRIVE_PAGES: u16 = FILE_PAGES + 2 * SPOOL_PAGES;

fn main(rt: HostRuntime) -> ExitCode {
    let ended = run(&rt, rt.stdout().is_terminal()).unwrap_or(Ended::without_memory());
    if let Some(fault) = ended.fault {
        let _ = rt.eprintln(fault);
    }
    ExitCode::from(ended.status)
}

/// How the program ends.
#[derive(Drop)]
struct Ended {
    status: u8,
    fault: Option<Fault>,
}

impl Ended {
    fn with(status: u8, fault: Fault) -> Ended {
        Ended {
            status,
            fault: Some(fault),
        }
    }

    fn without_memory() -> Ended {
        Ended::with(9, Fault::NoMemory)
    }
}

/// Runs the command of the words over standard input and standard output, with the drive for itself.
fn run<R: Env + Input + Print + Files<File = File> + AllocGlobal + Threads + Wait + Sync>(
    rt: &R,
    on_terminal: bool,
) -> Result<Ended, NoMemory>
where
    R::Reader: Send + Drop,
{
    // The places of closed streams are held, and the drive is locked, until all is done.
    let streams = hold_streams(rt);
    let own = match &streams {
        Some(_) => take_drive(rt, DRIVE, NEW_DRIVE, DRIVE_PAGES),
        None => None,
    };
    if let Some(drive) = &own {
        if drive.is_new() {
            let made = finish_drive(rt)?;
            if made.status != 0 {
                return Ok(made);
            }
        }
    }
    let Some(words) = words(rt)? else {
        return Ok(Ended::with(1, Fault::Usage));
    };
    run_words(rt, &words, own.as_ref(), on_terminal)
}

/// Formats the new drive under its other name, and gives it its own.
fn finish_drive<R: Files<File = File> + AllocGlobal + Threads + Wait + Sync>(
    rt: &R,
) -> Result<Ended, NoMemory> {
    let mut words = Vec::new(rt.alloc());
    words.push(String::from_str(rt.alloc(), "format")?)?;
    let ended = without_streams(rt, Some(NEW_DRIVE), &words);
    if ended.status == 0 && fs::rename(rt, NEW_DRIVE, DRIVE).is_err() {
        return Ok(Ended::with(3, Fault::Disk));
    }
    Ok(ended)
}

/// Runs the command over the standard streams and the drive, where this run has it.
fn run_words<R: Input + Print + Files<File = File> + AllocGlobal + Threads + Wait + Sync>(
    rt: &R,
    words: &[String],
    own: Option<&OwnDrive>,
    on_terminal: bool,
) -> Result<Ended, NoMemory>
where
    R::Reader: Send + Drop,
{
    let path = match own {
        Some(drive) => {
            if command_of(words) == Some(Command::Format) {
                // Where this fails, the writes of `format` fail too.
                let _ = drive.lengthen(DRIVE_PAGES);
            }
            Some(DRIVE)
        }
        None => None,
    };
    let by_line = on_terminal || !reads_file(rt);
    if command_of(words) == Some(Command::Solo) {
        return run_session(rt, path, words, by_line);
    }
    let output = WriterSink::<_, Untold>::new(paper_over(rt.alloc(), io::writer(rt), by_line)?);
    let memory = SureSink::new(rt.alloc());
    // What was printed so far goes out whatever the status, and the lowest status decides.
    if words.iter().any(|word| word.as_str() == "times") {
        let (deck, keys) = (no_bytes(rt), ReaderSource::<_, Untold>::new(rt.reader()));
        let (_, mut console, ended) = over_drive(rt, path, words, deck, keys, memory, output);
        if console.flush().is_err() && (ended.status == 0 || ended.status > 5) {
            return Ok(Ended::with(5, Fault::Console));
        }
        return Ok(ended);
    }
    let deck = ReaderSource::<_, Untold>::new(deck_over(rt.alloc(), rt.reader())?);
    let (mut paper, _, ended) = over_drive(rt, path, words, deck, no_bytes(rt), output, memory);
    if paper.flush().is_err() && (ended.status == 0 || ended.status > 4) {
        return Ok(Ended::with(4, Fault::Print));
    }
    Ok(ended)
}

/// Runs a session: the keys are standard input and the console is standard output, whose lines go out at
/// once. The cards and the paper are files.
fn run_session<R: Input + Print + Files<File = File> + AllocGlobal + Threads + Wait + Sync>(
    rt: &R,
    path: Option<&str>,
    words: &[String],
    by_line: bool,
) -> Result<Ended, NoMemory>
where
    R::Reader: Send + Drop,
{
    // The paper of an earlier session stays where the files can't be mounted: a session of no keys says so.
    let mounted = without_streams(rt, path, words);
    if mounted.status != 0 {
        return Ok(mounted);
    }
    let Ok(cards) = open_cards(rt) else {
        return Ok(Ended::with(2, Fault::Read));
    };
    let Ok(printer) = make_printer(rt) else {
        return Ok(Ended::with(4, Fault::Print));
    };
    let deck = ReaderSource::<_, Untold>::new(deck_over(rt.alloc(), cards)?);
    let keys = ReaderSource::<_, Untold>::new(rt.reader());
    let paper = WriterSink::<_, Untold>::new(paper_over(rt.alloc(), printer, by_line)?);
    let console = WriterSink::<_, Untold>::new(paper_over(rt.alloc(), io::writer(rt), true)?);
    let (mut paper, mut console, ended) = over_drive(rt, path, words, deck, keys, paper, console);
    if paper.flush().is_err() && (ended.status == 0 || ended.status > 4) {
        return Ok(Ended::with(4, Fault::Print));
    }
    if console.flush().is_err() && (ended.status == 0 || ended.status > 5) {
        return Ok(Ended::with(5, Fault::Console));
    }
    Ok(ended)
}

/// The cards of a session: none where their file isn't there. Where it can't be opened, each read of what is
/// given fails.
fn open_cards<R: Files<File = File>>(rt: &R) -> io::Result<File> {
    match File::open(rt, CARDS) {
        Ok(cards) => Ok(cards),
        Err(error) if error.kind() == ErrorKind::NotFound => File::open(rt, NOTHING),
        Err(_) => File::open(rt, ROOT),
    }
}

/// The paper of a session, made anew. Where it can't be made, each write to what is given fails.
fn make_printer<R: Files<File = File>>(rt: &R) -> io::Result<File> {
    match File::create(rt, PRINTER) {
        Ok(printer) => Ok(printer),
        Err(_) => File::open(rt, ROOT),
    }
}

/// Runs the command of the words over the drive at this path, with no cards and no keys. What it prints and
/// displays is dropped.
fn without_streams<R: Files<File = File> + AllocGlobal + Threads + Wait + Sync>(
    rt: &R,
    path: Option<&str>,
    words: &[String],
) -> Ended {
    let (deck, keys) = (no_bytes(rt), no_bytes(rt));
    let (paper, console) = (SureSink::new(rt.alloc()), SureSink::new(rt.alloc()));
    let (_, _, ended) = over_drive(rt, path, words, deck, keys, paper, console);
    ended
}

/// A deck of no cards, or keys on which nothing is typed.
fn no_bytes(rt: &impl AllocGlobal) -> SureSource
    ensures { ⟦<SureSource as Source>⟧.taken result ≡ 0 }
{
    SureSource::new(Vec::new(rt.alloc()), 1)
}

/// Runs the command of the words over these devices and the drive at this path. The paper and the console
/// come back.
fn over_drive<
    R: Files<File = File> + AllocGlobal + Threads + Wait + Sync,
    S: Source + Send + Drop,
    Y: Source + Send + Drop,
    K: Sink + Send + Drop,
    T: Sink + Send + Drop,
>(
    rt: &R,
    path: Option<&str>,
    words: &[String],
    deck: S,
    keys: Y,
    paper: K,
    console: T,
) -> (K, T, Ended)
    requires deck { S.taken deck ≡ 0 }
    requires keys { Y.taken keys ≡ 0 }
{
    let Finished {
        status,
        cause,
        deck: _,
        keys: _,
        paper,
        console,
        files: _,
        input: _,
        output: _,
    } = top(
        rt,
        rt.alloc(),
        words,
        deck,
        keys,
        paper,
        console,
        area(rt, path, 0, FILE_PAGES),
        area(rt, path, FILE_PAGES, SPOOL_PAGES),
        area(rt, path, FILE_PAGES + SPOOL_PAGES, SPOOL_PAGES),
    );
    let fault = cause.map(Fault::of);
    (paper, console, Ended { status, fault })
}

/// The area of so many pages of the drive at this path, from page `first` on. Each area opens the file for
/// itself, since a file has one position. Without a path each call on the area fails.
fn area<R: Files<File = File>>(
    rt: &R,
    path: Option<&str>,
    first: u16,
    pages: u16,
) -> DriveArea<Recorded<File>, Unknown>
    ensures { ⟦<DriveArea<Recorded<File>, Unknown> as Area>⟧.size result ≡ pages }
{
    let drive = match path {
        Some(path) => open_drive(rt, path),
        None => None,
    };
    DriveArea::<_, Unknown>::over(drive, first, pages)
}

/// The words of the command line behind the program's name, or `None` where they can't be read.
fn words(rt: &(impl Env + AllocGlobal)) -> Result<Option<Vec<String>>, NoMemory> {
    let args = match env::args(rt) {
        Ok(args) => args,
        Err(error) if error.kind() == ErrorKind::OutOfMemory => return Err(NoMemory),
        Err(_) => return Ok(None),
    };
    let mut words = Vec::new(rt.alloc());
    for word in args.skip(1) {
        words.push(word)?;
    }
    Ok(Some(words))
}
