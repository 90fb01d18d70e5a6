// How sessions end that can't be whole: the status, its cause, and what was told by then.

use crate::running::{Came, Failing, NONE_FAILS, Session, run, run_over, sink, source};
use crate::session_tests::FIRST;
use disk_pages::AREA_PAGES;
use solo_base::Cause;
use solo_cli::Refusal;
use solo_devices::{MemArea, Took};
use std::alloc::Global;
use std::process::Abort;
use std::sync::Wait;
use std::test::Fail;
use std::thread::Threads;

/// Whether the first session ends with this status and cause where these calls fail, and tells a part.
fn ends_so(
    rt: &(impl Threads + Wait + Sync + AllocGlobal + Abort),
    failing: Failing,
    status: u8,
    cause: Cause,
) -> Result<bool, Fail> {
    let came = run(rt, FIRST, 512, failing)?;
    Ok(
        came.status == status
            && came.cause == Some(Refusal::Fault(cause))
            && came.failures.count() == 1
            && came.is_part(FIRST),
    )
}

#[test]
fn each_device_has_its_status(rt: HostRuntime) -> Result<(), Fail> {
    let failing = Failing {
        cards: 1,
        ..NONE_FAILS
    };
    assert!(rt; ends_so(&rt, failing, 2, Cause::ReadFault)?);
    let failing = Failing {
        keys: 1,
        ..NONE_FAILS
    };
    assert!(rt; ends_so(&rt, failing, 2, Cause::ReadFault)?);
    let failing = Failing {
        files_read: 30,
        ..NONE_FAILS
    };
    assert!(rt; ends_so(&rt, failing, 3, Cause::DiskFault)?);
    let failing = Failing {
        files_write: 2,
        ..NONE_FAILS
    };
    assert!(rt; ends_so(&rt, failing, 3, Cause::DiskFault)?);
    let failing = Failing {
        paper: 1,
        ..NONE_FAILS
    };
    assert!(rt; ends_so(&rt, failing, 4, Cause::PrintFault)?);
    let failing = Failing {
        console: 1,
        ..NONE_FAILS
    };
    assert!(rt; ends_so(&rt, failing, 5, Cause::ConsoleFault)?);
    Ok(())
}

/// A session over an area of zeros.
fn over_zeros(rt: &(impl Threads + Wait + Sync + AllocGlobal + Abort)) -> Result<Came, Fail> {
    let alloc = rt.alloc();
    let none = Vec::new(alloc);
    match MemArea::new(alloc, AREA_PAGES, none, Vec::new(alloc)) {
        Ok(zeros) => run_over(
            rt,
            source(rt, alloc, FIRST.cards, 512, 1)?,
            source(rt, alloc, FIRST.keys, 512, 0)?,
            sink(alloc, 1)?,
            sink(alloc, 1)?,
            zeros,
        ),
        Err(_) => Err("no memory".into()),
    }
}

#[test]
fn an_area_of_zeros_is_refused_before_anything_is_typed(rt: HostRuntime) -> Result<(), Fail> {
    let came = over_zeros(&rt)?;
    assert!(rt; came.is_refused(7, Cause::NotSolo { page: 0 }));
    assert_eq!(rt; came.failures.count(), 0);
    assert_eq!(rt; came.next, Took::Bytes(FIRST.keys.len()));
    Ok(())
}

/// How many bytes cards or keys have at most.
const MOST: usize = 16_777_216;

/// So many bytes without an end of a line.
fn long(alloc: Global, bytes: usize) -> Result<Vec<u8>, Fail> {
    let mut text = Vec::new(alloc);
    text.resize(bytes, b'X')?;
    Ok(text)
}

#[test]
fn keys_beyond_the_limit_end_a_session(rt: HostRuntime) -> Result<(), Fail> {
    let keys = long(rt.alloc(), MOST + 1)?;
    let session = Session {
        keys: keys.as_slice(),
        ..FIRST
    };
    let came = run(&rt, session, 512, NONE_FAILS)?;
    assert!(rt; came.is_refused(6, Cause::DeckLimit));
    Ok(())
}

#[test]
fn keys_up_to_the_limit_are_one_bad_command(rt: HostRuntime) -> Result<(), Fail> {
    let keys = long(rt.alloc(), MOST)?;
    let session = Session {
        keys: keys.as_slice(),
        cards: b"",
        console: b"BAD COMMAND\n",
        paper: b"",
    };
    let came = run(&rt, session, 512, NONE_FAILS)?;
    assert!(rt; came.is_whole(session));
    Ok(())
}

#[test]
fn cards_beyond_the_limit_end_a_session(rt: HostRuntime) -> Result<(), Fail> {
    let cards = long(rt.alloc(), MOST + 1)?;
    let session = Session {
        cards: cards.as_slice(),
        ..FIRST
    };
    let came = run(&rt, session, 512, NONE_FAILS)?;
    assert!(rt; came.is_refused(6, Cause::DeckLimit));
    Ok(())
}

#[test]
fn the_lowest_of_two_causes_decides(rt: HostRuntime) -> Result<(), Fail> {
    // The paper's first write fails behind the answers of `copy` and `compile`; then the third line of the
    // console does, or not any more.
    let failing = Failing {
        paper: 1,
        console: 3,
        ..NONE_FAILS
    };
    let came = run(&rt, FIRST, 512, failing)?;
    assert_eq!(rt; came.status, 4);
    assert!(rt; came.is_part(FIRST));
    Ok(())
}
