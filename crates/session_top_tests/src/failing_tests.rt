// Sessions in which each call of each device fails in turn.

use crate::running::{Came, Failing, Failures, NONE_FAILS, Session, run};
use crate::session_tests::FIRST;
use std::alloc::Global;
use std::process::Abort;
use std::sync::Wait;
use std::test::Fail;
use std::thread::Threads;

/// A kind of call of a device.
#[derive(Clone, Copy, Debug)]
enum Call {
    Cards,
    Keys,
    Paper,
    Console,
    FilesRead,
    FilesWrite,
}

const CALLS: [Call; 6] = [
    Call::Cards,
    Call::Keys,
    Call::Paper,
    Call::Console,
    Call::FilesRead,
    Call::FilesWrite,
];

impl Call {
    /// The call of this kind with this number fails.
    fn fails_at(self, number: u64) -> Failing {
        let mut failing = NONE_FAILS;
        match self {
            Call::Cards => failing.cards = number,
            Call::Keys => failing.keys = number,
            Call::Paper => failing.paper = number,
            Call::Console => failing.console = number,
            Call::FilesRead => failing.files_read = number,
            Call::FilesWrite => failing.files_write = number,
        }
        failing
    }

    /// The status that tells of a failure of such a call.
    fn status(self) -> u8 {
        match self {
            Call::Cards | Call::Keys => 2,
            Call::FilesRead | Call::FilesWrite => 3,
            Call::Paper => 4,
            Call::Console => 5,
        }
    }

    /// How often the device of such a call failed.
    fn failures(self, failures: Failures) -> u64 {
        match self {
            Call::Cards => failures.cards,
            Call::Keys => failures.keys,
            Call::Paper => failures.paper,
            Call::Console => failures.console,
            Call::FilesRead | Call::FilesWrite => failures.files,
        }
    }
}

/// How many calls of a kind a session may make here.
const MOST_CALLS: u64 = 2000;

/// How a session came out of which a call of this kind fails: nothing failed, and it was told whole; or its
/// device failed, its status says so, and a part of it was told.
fn is_right(session: Session, kind: Call, came: &Came) -> bool {
    if came.failures.count() == 0 {
        return came.is_told(session);
    }
    kind.failures(came.failures) == 1
        && came.failures.count() == 1
        && came.status == kind.status()
        && came.is_part(session)
}

/// Each call of this kind fails in turn, until no call is met. How many there were.
fn each_fails(
    rt: &(impl Threads + Wait + Sync + AllocGlobal + Abort),
    session: Session,
    kind: Call,
) -> Result<u64, Fail> {
    for made in 0..MOST_CALLS {
        let came = run(rt, session, 64, kind.fails_at(made + 1))?;
        assert!(rt; is_right(session, kind, &came), "{kind:?} {made}");
        if came.failures.count() == 0 {
            return Ok(made);
        }
    }
    Err("a call is always met".into())
}

/// How many calls of each kind the first session makes in pieces of 64 bytes: one read for each piece, and
/// one at the end of the keys; of 39 bytes of cards one, since none is read behind `#END`; and a write for
/// each line.
const FIRST_CALLS: [(Call, u64); 4] = [
    (Call::Cards, 1),
    (Call::Keys, 3),
    (Call::Paper, 2),
    (Call::Console, 8),
];

#[test]
fn each_read_and_each_line_of_a_session_fails_in_turn(rt: HostRuntime) -> Result<(), Fail> {
    for (kind, calls) in FIRST_CALLS {
        assert_eq!(rt; each_fails(&rt, FIRST, kind)?, calls, "{kind:?}");
    }
    Ok(())
}

#[test]
fn each_call_of_the_files_of_a_session_fails_in_turn(rt: HostRuntime) -> Result<(), Fail> {
    for kind in [Call::FilesRead, Call::FilesWrite] {
        assert!(rt; each_fails(&rt, FIRST, kind)? > 0, "{kind:?}");
    }
    Ok(())
}

/// A session of fifty lines: card files are copied, printed and deleted, and then there is nothing to delete.
#[derive(Drop)]
struct Fifty {
    keys: Vec<u8>,
    cards: Vec<u8>,
    console: Vec<u8>,
    paper: Vec<u8>,
}

fn fifty_lines(alloc: Global) -> Result<Fifty, Fail> {
    let (mut keys, mut cards) = (Vec::new(alloc), Vec::new(alloc));
    let (mut console, mut paper) = (Vec::new(alloc), Vec::new(alloc));
    for _ in 0..5 {
        keys.extend_from_slice(b"copy(cards, text)\ncopy(text, printer)\ndelete(text)\n")?;
        cards.extend_from_slice(b"A CARD\n#END\n")?;
        console.extend_from_slice(b"COPY: OK\nCOPY: OK\nDELETE: OK\n")?;
        paper.extend_from_slice(b"A CARD\n")?;
    }
    for _ in 0..33 {
        keys.extend_from_slice(b"delete(text)\n")?;
        console.extend_from_slice(b"DELETE: NO FILE\n")?;
    }
    keys.extend_from_slice(b"list\nprog(1, true)\n")?;
    console.extend_from_slice(b"LIST: 0 FILES\nPROG: NO FILE\n")?;
    Ok(Fifty {
        keys,
        cards,
        console,
        paper,
    })
}

/// Each call of these kinds fails in turn in the session of fifty lines.
fn each_of_fifty_fails(
    rt: &(impl Threads + Wait + Sync + AllocGlobal + Abort),
    kinds: &[Call],
) -> Result<(), Fail> {
    let fifty = fifty_lines(rt.alloc())?;
    let session = Session {
        keys: &fifty.keys,
        cards: &fifty.cards,
        console: &fifty.console,
        paper: &fifty.paper,
    };
    for kind in kinds {
        assert!(rt; each_fails(rt, session, *kind)? > 0, "{kind:?}");
    }
    Ok(())
}

#[test]
fn each_read_and_each_line_of_fifty_commands_fails_in_turn(rt: HostRuntime) -> Result<(), Fail> {
    each_of_fifty_fails(&rt, &CALLS[..4])
}

#[test]
fn each_read_of_the_files_of_fifty_commands_fails_in_turn(rt: HostRuntime) -> Result<(), Fail> {
    each_of_fifty_fails(&rt, &CALLS[4..5])
}

#[test]
fn each_write_of_the_files_of_fifty_commands_fails_in_turn(rt: HostRuntime) -> Result<(), Fail> {
    each_of_fifty_fails(&rt, &CALLS[5..])
}
