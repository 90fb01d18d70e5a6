//! The calls of a file area, as tests make them: of files that are sound.

use crate::made_area::filled;
use disk_files::{FileArea, FileFault, FileInfo};
use disk_layout::FileKind;
use solo_base::{Ident, Page};
use solo_devices::Area;
use std::process::Abort;

/// A call of a file area. A page is given by the byte that fills it.
#[derive(Clone, Copy, Debug)]
pub enum Call {
    Create(Ident, FileKind),
    Append(Ident, u8),
    Replace(Ident, u16, u8),
    Rename(Ident, Ident),
    Delete(Ident),
    Protect(Ident, bool),
    Lookup(Ident),
    Read(Ident, u16),
}

/// How a call is refused, if it is.
pub fn refusal<A: Area>(rt: &impl Abort, files: &mut FileArea<A>, call: Call) -> Option<FileFault> {
    match call {
        Call::Lookup(name) => info(rt, files, &name).err(),
        Call::Read(name, n) => byte_in(rt, files, &name, n).err(),
        call => change(rt, files, call).err(),
    }
}

// A call that may change files.
fn change<A: Area>(rt: &impl Abort, files: &mut FileArea<A>, call: Call) -> Result<(), FileFault> {
    assert!(rt; files.sound());
    match call {
        Call::Create(name, kind) => files.create(&name, kind),
        Call::Append(name, byte) => files.append(&name, &filled(byte)),
        Call::Replace(name, n, byte) => files.replace(&name, n, &filled(byte)),
        Call::Rename(old, new) => files.rename(&old, &new),
        Call::Delete(name) => files.delete(&name),
        Call::Protect(name, on) => files.protect(&name, on),
        Call::Lookup(_) | Call::Read(_, _) => Ok(()),
    }
}

/// The first refusal of these calls.
pub fn first_refusal<A: Area>(
    rt: &impl Abort,
    files: &mut FileArea<A>,
    calls: &[Call],
) -> Option<FileFault> {
    for call in calls {
        let answer = refusal(rt, files, *call);
        if answer.is_some() {
            return answer;
        }
    }
    None
}

/// Each of these calls is refused so, if it is.
pub fn answers<A: Area>(
    rt: &impl Abort,
    files: &mut FileArea<A>,
    calls: &[(Call, Option<FileFault>)],
) {
    for (call, wanted) in calls {
        answer_is(rt, files, *call, *wanted);
    }
}

/// What is told of a file.
pub fn info<A: Area>(
    rt: &impl Abort,
    files: &mut FileArea<A>,
    name: &Ident,
) -> Result<FileInfo, FileFault> {
    assert!(rt; files.sound());
    files.lookup(name)
}

/// The byte that fills page n of a file.
pub fn byte_in<A: Area>(
    rt: &impl Abort,
    files: &mut FileArea<A>,
    name: &Ident,
    n: u16,
) -> Result<u8, FileFault> {
    let mut page = Page::zeros();
    assert!(rt; files.sound());
    files.read_page(name, n, &mut page)?;
    assert!(rt; page.0 == [page.0[0]; 512], "page {n}");
    Ok(page.0[0])
}

/// A file has this kind, this protection and so many pages.
pub fn is_file<A: Area>(
    rt: &impl Abort,
    files: &mut FileArea<A>,
    name: &Ident,
    (kind, protected, pages): (FileKind, bool, u16),
) {
    let wanted = FileInfo {
        kind,
        protected,
        pages,
    };
    let found = info(rt, files, name).ok();
    assert!(rt; found == Some(wanted), "{found:?}");
}

/// Page n of a file is filled with this byte.
pub fn is_filled<A: Area>(
    rt: &impl Abort,
    files: &mut FileArea<A>,
    name: &Ident,
    n: u16,
    byte: u8,
) {
    let found = byte_in(rt, files, name, n).ok();
    assert!(rt; found == Some(byte), "page {n}");
}

/// A call is refused so, if it is.
pub fn answer_is<A: Area>(
    rt: &impl Abort,
    files: &mut FileArea<A>,
    call: Call,
    wanted: Option<FileFault>,
) {
    assert!(rt; refusal(rt, files, call) == wanted, "{call:?}");
}

/// How many pages are free.
pub fn free_pages<A: Area>(rt: &impl Abort, files: &FileArea<A>) -> u16 {
    assert!(rt; files.sound());
    files.free_pages()
}

/// How many names there are.
pub fn names<A: Area>(rt: &impl Abort, files: &FileArea<A>) -> u16 {
    assert!(rt; files.sound());
    files.names()
}
