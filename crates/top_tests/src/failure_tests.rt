// Runs in which one call of a device fails.

use crate::device_tests::{COMMANDS, eight_lines};
use crate::made_area::{code, readable, with_file};
use crate::running::{Came, Failing, Failures, NONE_FAILS, Setting, run_over_files};
use disk_layout::FileKind;
use std::alloc::Global;
use std::process::Abort;
use std::sync::Wait;
use std::test::Fail;
use std::thread::Threads;

/// A kind of call of a device.
#[derive(Clone, Copy, Debug)]
enum Call {
    DeckRead,
    InputWrite,
    InputRead,
    OutputWrite,
    OutputRead,
    PaperWrite,
    FilesRead,
}

const CALLS: [Call; 7] = [
    Call::DeckRead,
    Call::InputWrite,
    Call::InputRead,
    Call::OutputWrite,
    Call::OutputRead,
    Call::PaperWrite,
    Call::FilesRead,
];

impl Call {
    /// These calls fail, and of this kind the one of this number.
    fn fails_at(self, number: u64, others: Failing) -> Failing {
        let mut failing = others;
        match self {
            Call::DeckRead => failing.deck_read = number,
            Call::InputWrite => failing.input_write = number,
            Call::InputRead => failing.input_read = number,
            Call::OutputWrite => failing.output_write = number,
            Call::OutputRead => failing.output_read = number,
            Call::PaperWrite => failing.paper_write = number,
            Call::FilesRead => failing.files_read = number,
        }
        failing
    }

    /// The status that tells of a failure of such a call.
    fn status(self) -> u8 {
        match self {
            Call::DeckRead => 2,
            Call::InputWrite | Call::InputRead => 3,
            Call::OutputWrite | Call::OutputRead => 3,
            Call::PaperWrite => 4,
            Call::FilesRead => 3,
        }
    }

    /// How often the device of such a call failed.
    fn failures(self, failures: Failures) -> u64 {
        match self {
            Call::DeckRead => failures.deck,
            Call::InputWrite | Call::InputRead => failures.input,
            Call::OutputWrite | Call::OutputRead => failures.output,
            Call::PaperWrite => failures.paper,
            Call::FilesRead => failures.files,
        }
    }

    /// How many such calls print this paper of a deck: one for each line; one for each piece of the deck and
    /// one at its end; one for each page of a spool; those of the mount and of each load.
    fn count(self, deck: Deck, paper: &[u8]) -> u64 {
        match self {
            Call::DeckRead => (deck.bytes.len().div_ceil(PIECE) as u64).saturating_add(1),
            Call::InputWrite | Call::InputRead | Call::OutputWrite | Call::OutputRead => deck.pages,
            Call::PaperWrite => paper.iter().filter(|byte| **byte == b'\n').count() as u64,
            Call::FilesRead => MOUNT_READS.saturating_add(deck.loads.saturating_mul(LOAD_READS)),
        }
    }

    /// What may be printed of this paper of a deck where such a call fails. Lines that fit a page go to the
    /// printer once the deck has ended.
    fn printed<'a>(self, deck: Deck, paper: &'a [u8]) -> &'a [u8] {
        match self {
            Call::PaperWrite => paper,
            _ if deck.pages > 1 => paper,
            _ => &[],
        }
    }
}

/// A deck and what it comes to.
#[derive(Clone, Copy)]
struct Deck<'a> {
    bytes: &'a [u8],
    /// How many pages of a spool its items take, and its lines as many.
    pages: u64,
    /// How many of its jobs load the file.
    loads: u64,
    paper: &'a [u8],
}

/// How many bytes of a deck come at once.
const PIECE: usize = 128;

/// The pages of a spool's area.
const PAGES: u16 = 2;

/// How many pages a mount of one file reads.
const MOUNT_READS: u64 = 20;

/// A load reads the index of the file for its length, and the index, the part and the page of the code.
const LOAD_READS: u64 = 4;

/// Runs these words over a deck and a file of code, where these calls fail.
fn tried(
    rt: &(impl Threads + Wait + Sync + AllocGlobal + Abort),
    words: &[&str],
    deck: &[u8],
    failing: Failing,
) -> Result<Came, Fail> {
    let alloc = rt.alloc();
    let setting = Setting {
        deck,
        piece: PIECE,
        pages: PAGES,
        failing,
    };
    let files = with_file(alloc, FileKind::SeqCode, &code(&[]))?;
    let files = readable(alloc, files, failing.files_read)?;
    run_over_files(rt, words, setting, files)
}

/// Each call of this kind fails in turn, of so many: each run ends with the status of its device, and the
/// paper has a part of what may be printed.
fn each_fails(
    rt: &(impl Threads + Wait + Sync + AllocGlobal + Abort),
    words: &[&str],
    deck: &[u8],
    kind: Call,
    count: u64,
    printed: &[u8],
) -> Result<(), Fail> {
    for made in 0..count {
        let came = tried(rt, words, deck, kind.fails_at(made + 1, NONE_FAILS))?;
        assert_eq!(rt; came.status, kind.status(), "{kind:?} {made}");
        assert_eq!(rt; kind.failures(came.failures), 1, "{kind:?} {made}");
        assert!(rt;
            printed.starts_with(came.paper.as_slice()),
            "{kind:?} {made}"
        );
    }
    Ok(())
}

/// Each call of each device fails in turn as these words print the paper of a deck. A failure of the call
/// behind the last one of each kind isn't met.
fn each_call_fails(
    rt: &(impl Threads + Wait + Sync + AllocGlobal + Abort),
    words: &[&str],
    deck: Deck,
) -> Result<(), Fail> {
    let undisturbed = tried(rt, words, deck.bytes, NONE_FAILS)?;
    let whole = undisturbed.paper.as_slice();
    assert!(rt; whole.starts_with(deck.paper));
    let mut behind = NONE_FAILS;
    for kind in CALLS {
        let count = kind.count(deck, whole);
        each_fails(
            rt,
            words,
            deck.bytes,
            kind,
            count,
            kind.printed(deck, whole),
        )?;
        behind = kind.fails_at(count.saturating_add(1), behind);
    }
    let came = tried(rt, words, deck.bytes, behind)?;
    assert!(rt; came.has(whole, b""));
    Ok(())
}

#[test]
fn each_call_for_one_card_fails_in_turn(rt: HostRuntime) -> Result<(), Fail> {
    let deck = Deck {
        bytes: b"#LIST A\nHELLO\n#END\n",
        pages: 1,
        loads: 0,
        paper: b"JOB A\nHELLO\nA: LISTED 1 CARDS\n",
    };
    for words in COMMANDS {
        each_call_fails(&rt, words, deck)?;
    }
    Ok(())
}

/// The paper of the list of eight lines.
pub fn eight_printed(alloc: Global) -> Result<Vec<u8>, Fail> {
    let mut paper = b"JOB A\n".to_vec(alloc)?;
    for _ in 0..8 {
        paper.extend_from_slice([b'A'; 80].as_slice())?;
        paper.push(b'\n')?;
    }
    paper.extend_from_slice(b"A: LISTED 8 CARDS\n")?;
    Ok(paper)
}

#[test]
fn each_call_for_two_pages_fails_in_turn(rt: HostRuntime) -> Result<(), Fail> {
    let alloc = rt.alloc();
    let (bytes, paper) = (eight_lines(alloc)?, eight_printed(alloc)?);
    let deck = Deck {
        bytes: &bytes,
        pages: 2,
        loads: 0,
        paper: &paper,
    };
    for words in COMMANDS {
        each_call_fails(&rt, words, deck)?;
    }
    Ok(())
}

/// Two programs of the file, and between them a list.
const FILE_JOBS: Deck = Deck {
    bytes: b"#RUN A PROG\n#LIST B\nHELLO\n#END\n#RUN C PROG\n",
    pages: 1,
    loads: 2,
    paper: b"JOB A\nA\nA: TERMINATED\n\
        JOB B\nHELLO\nB: LISTED 1 CARDS\n\
        JOB C\nA\nC: TERMINATED\n",
};

#[test]
fn each_call_for_programs_of_a_file_fails_in_turn(rt: HostRuntime) -> Result<(), Fail> {
    for words in COMMANDS {
        each_call_fails(&rt, words, FILE_JOBS)?;
    }
    Ok(())
}

/// A list with a spoiled card of 81 columns, a sum, an overflow, a list, and programs with input and without.
const JOBS: Deck = Deck {
    bytes: b"#LIST A\n\
        BBBBBBBBBBBBBBBBBBBBBBBBBBBBBBBBBBBBBBBBBBBBBBBBBBBBBBBBBBBBBBBBBBBBBBBBBBBBBBBB\n\
        BBBBBBBBBBBBBBBBBBBBBBBBBBBBBBBBBBBBBBBBBBBBBBBBBBBBBBBBBBBBBBBBBBBBBBBBBBBBBBBBB\n\
        C\n#END\n\
        #JOB SUM\nVAR I, S: INTEGER;\nBEGIN\nS := 0;\nFOR I := 1 TO 4 DO S := S + I;\n\
        WRITEINT(S); WRITE(NL)\nEND.\n#END\n\
        #JOB BIG\nVAR X: INTEGER;\nBEGIN\nX := 32767 + 1\nEND.\n\
        #LIST B\nY\n\
        #JOB R\nVAR C: CHAR;\nBEGIN READ(C); WRITEINT(ORD(C));\n\
        READ(C); WRITE(' '); WRITEINT(ORD(C));\nREAD(C); WRITE(' '); WRITEINT(ORD(C)) END.\n\
        #DATA\nZ\n\
        #JOB T\nBEGIN END.\n",
    pages: 1,
    loads: 0,
    paper: b"JOB A\n\
        BBBBBBBBBBBBBBBBBBBBBBBBBBBBBBBBBBBBBBBBBBBBBBBBBBBBBBBBBBBBBBBBBBBBBBBBBBBBBBBB\n\
        A: SPOILED CARD 2\n\
        JOB SUM\n10\nSUM: TERMINATED\n\
        JOB BIG\nBIG: OVERFLOW IN LINE 3\n\
        JOB B\nY\nB: LISTED 1 CARDS\n\
        JOB R\n90 10 25\nR: TERMINATED\n\
        JOB T\nT: TERMINATED\n",
};

#[test]
fn each_call_for_programs_fails_in_turn_on_threads(rt: HostRuntime) -> Result<(), Fail> {
    each_call_fails(&rt, COMMANDS[0], JOBS)
}

#[test]
fn each_call_for_programs_fails_in_turn_under_a_schedule(rt: HostRuntime) -> Result<(), Fail> {
    each_call_fails(&rt, COMMANDS[1], JOBS)
}

#[test]
fn each_call_for_programs_fails_in_turn_under_another(rt: HostRuntime) -> Result<(), Fail> {
    each_call_fails(&rt, COMMANDS[2], JOBS)
}
