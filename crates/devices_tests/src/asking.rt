use solo_base::Page;
use solo_devices::{Area, Moved};
use std::process::Abort;

/// What is asked of an area, and how it goes.
#[derive(Clone, Copy, Debug)]
pub enum Ask {
    /// The page is written with this byte throughout.
    Writes(u16, u8),
    /// A write of the page fails.
    WriteFails(u16),
    /// The page is read, and has this byte throughout.
    Reads(u16, u8),
    /// The page is read, and has this byte throughout but for that one at its end.
    ReadsHurt(u16, u8, u8),
    /// A read of the page fails.
    ReadFails(u16),
}

/// Asks all this in turn, and each call goes as it says.
pub fn ask_all<A: Area>(rt: &impl Abort, area: &mut A, asks: &[Ask]) {
    for ask in asks {
        assert!(rt; goes(rt, area, *ask), "{ask:?}");
    }
}

fn goes<A: Area>(rt: &impl Abort, area: &mut A, ask: Ask) -> bool {
    match ask {
        Ask::Writes(n, byte) => write(rt, area, n, byte) == Moved::Done,
        Ask::WriteFails(n) => write(rt, area, n, 7) == Moved::Failed,
        Ask::Reads(n, byte) => read(rt, area, n, byte, byte) == Some(true),
        Ask::ReadsHurt(n, byte, last) => read(rt, area, n, byte, last) == Some(true),
        Ask::ReadFails(n) => read(rt, area, n, 7, 7).is_none(),
    }
}

fn write<A: Area>(rt: &impl Abort, area: &mut A, n: u16, byte: u8) -> Moved {
    assert!(rt; n < area.size());
    area.write(n, &Page([byte; 512]))
}

// Whether a page has this byte throughout and that one last, where it is read.
fn read<A: Area>(rt: &impl Abort, area: &mut A, n: u16, byte: u8, last: u8) -> Option<bool> {
    assert!(rt; n < area.size());
    let mut page = Page([byte.wrapping_add(1); 512]);
    match area.read(n, &mut page) {
        Moved::Done => Some(has_bytes(&page, byte, last)),
        Moved::Failed => None,
    }
}

fn has_bytes(page: &Page, byte: u8, last: u8) -> bool {
    page.0[..511].iter().all(|found| *found == byte) && page.0[511] == last
}
