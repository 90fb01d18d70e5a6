// Runs over areas that read something else, and over devices of which two fail.

use crate::made_area::{formatted, readable, zeros};
use crate::running::{
    Failing, NONE_FAILS, Setting, run, run_over, run_over_files, sink, source, spool, undisturbed,
};
use solo_base::Cause;
use solo_devices::{BlankArea, Took};
use std::alloc::Global;
use std::test::Fail;

/// The words of both commands that run a deck.
pub const COMMANDS: [&[&str]; 3] = [
    &["batch"],
    &["core", "--schedule", "0"],
    &["core", "--schedule", "7"],
];

const LISTING: &[u8] = b"#LIST A\nHELLO\n#END\n";

#[test]
fn an_input_area_of_zeros_has_a_damaged_page(rt: HostRuntime) -> Result<(), Fail> {
    let alloc = rt.alloc();
    let damaged = Cause::Damaged {
        expected: 0,
        found: 0,
        at: 2,
    };
    for words in COMMANDS {
        let came = run_over(
            &rt,
            words,
            source(&rt, alloc, LISTING, 512, 0)?,
            sink(alloc, 0)?,
            readable(alloc, formatted(alloc)?, 0)?,
            BlankArea::new(256),
            spool(&rt, alloc, 256, 0, 0)?,
        )?;
        assert!(rt; came.is_refused(8, damaged));
    }
    Ok(())
}

#[test]
fn an_area_of_files_of_zeros_is_refused(rt: HostRuntime) -> Result<(), Fail> {
    for words in COMMANDS {
        let files = readable(rt.alloc(), zeros(rt.alloc())?, 0)?;
        let came = run_over_files(&rt, words, undisturbed(LISTING), files)?;
        assert!(rt; came.is_refused(7, Cause::NotSolo { page: 0 }));
        assert_eq!(rt; came.next, Took::Bytes(LISTING.len()));
    }
    Ok(())
}

/// A list of eight lines of 80 columns. In pieces of 324 bytes the third call asks for the ninth card, and
/// the eighth one fills the first page.
pub fn eight_lines(alloc: Global) -> Result<Vec<u8>, Fail> {
    let mut deck = b"#LIST A\n".to_vec(alloc)?;
    for _ in 0..8 {
        deck.extend_from_slice([b'A'; 80].as_slice())?;
        deck.push(b'\n')?;
    }
    Ok(deck)
}

#[test]
fn the_lowest_of_two_causes_decides(rt: HostRuntime) -> Result<(), Fail> {
    let deck = eight_lines(rt.alloc())?;
    let failing = Failing {
        deck_read: 3,
        input_write: 1,
        ..NONE_FAILS
    };
    let setting = Setting {
        piece: 324,
        failing,
        ..undisturbed(deck.as_slice())
    };
    for words in COMMANDS {
        let came = run(&rt, words, setting)?;
        assert!(rt; came.is_refused(2, Cause::ReadFault));
        assert_eq!(rt; came.failures.deck, 1);
        assert_eq!(rt; came.failures.input, 1);
    }
    Ok(())
}
