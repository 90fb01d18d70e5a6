//! The calls on texts and code in files, as tests make them: of files that are sound, and of texts.

use crate::made_area::name;
use disk_files::{FileArea, FileFault, FileKind};
use disk_system::{
    SystemFault, bytes_of, is_text, list, load_code, store, store_code, store_text, text_of,
};
use solo_base::LineList;
use solo_devices::Area;
use stack_code::Verified;
use std::alloc::Global;
use std::process::Abort;

/// So many bytes of this value.
pub fn bytes(rt: &impl Abort, alloc: Global, count: usize, byte: u8) -> Vec<u8> {
    vec![in alloc; byte; count].ok().expect(rt, "ample memory")
}

/// Makes a file of a text.
pub fn stored<A: Area>(
    rt: &impl Abort,
    alloc: Global,
    files: &mut FileArea<A>,
    letters: &[u8],
    text: &[u8],
) -> Result<(), SystemFault> {
    assert!(rt; is_text(text));
    assert!(rt; files.sound());
    store_text(alloc, files, &name(rt, letters), text)
}

/// The text of a file.
pub fn read<A: Area>(
    rt: &impl Abort,
    alloc: Global,
    files: &mut FileArea<A>,
    letters: &[u8],
) -> Result<Vec<u8>, SystemFault> {
    assert!(rt; files.sound());
    text_of(alloc, files, &name(rt, letters))
}

/// Makes a file of code.
pub fn code_stored<A: Area>(
    rt: &impl Abort,
    alloc: Global,
    files: &mut FileArea<A>,
    letters: &[u8],
    code: &Verified,
) -> Result<(), SystemFault> {
    assert!(rt; files.sound());
    store_code(alloc, files, &name(rt, letters), code)
}

/// The code of a file.
pub fn code_read<A: Area>(
    rt: &impl Abort,
    alloc: Global,
    files: &mut FileArea<A>,
    letters: &[u8],
) -> Result<Verified, SystemFault> {
    assert!(rt; files.sound());
    load_code(alloc, files, &name(rt, letters))
}

/// A file is made of a text, or is not, for this reason.
pub fn store_is<A: Area>(
    rt: &impl Abort,
    alloc: Global,
    files: &mut FileArea<A>,
    (letters, text): (&[u8], &[u8]),
    wanted: Result<(), SystemFault>,
) {
    let answer = stored(rt, alloc, files, letters, text);
    assert!(rt; answer == wanted, "{answer:?}: {} bytes", text.len());
}

/// A file has this text.
pub fn is_text_of<A: Area>(
    rt: &impl Abort,
    alloc: Global,
    files: &mut FileArea<A>,
    letters: &[u8],
    text: &[u8],
) {
    let found = read(rt, alloc, files, letters).ok().expect(rt, "a text");
    assert!(rt; found.as_slice() == text, "of {} bytes", text.len());
}

/// A file has no text, for this reason.
pub fn no_text_is<A: Area>(
    rt: &impl Abort,
    alloc: Global,
    files: &mut FileArea<A>,
    letters: &[u8],
    wanted: SystemFault,
) {
    let fault = read(rt, alloc, files, letters).err();
    assert!(rt; fault == Some(wanted), "{fault:?}");
}

/// A file is made of code, or is not, for this reason.
pub fn code_store_is<A: Area>(
    rt: &impl Abort,
    alloc: Global,
    files: &mut FileArea<A>,
    code: &Verified,
    wanted: Result<(), SystemFault>,
) {
    let answer = code_stored(rt, alloc, files, b"prog", code);
    assert!(rt; answer == wanted, "{answer:?}");
}

/// Why a file has no code, if it has none.
pub fn code_fault<A: Area>(
    rt: &impl Abort,
    alloc: Global,
    files: &mut FileArea<A>,
    letters: &[u8],
) -> Option<SystemFault> {
    code_read(rt, alloc, files, letters).err()
}

/// The lines of the catalogue.
pub fn listed<A: Area>(
    rt: &impl Abort,
    alloc: Global,
    files: &mut FileArea<A>,
) -> Result<LineList, SystemFault> {
    assert!(rt; files.sound());
    list(alloc, files)
}

/// Makes a file of whole pages of bytes, of any kind.
pub fn pages_stored<A: Area>(
    rt: &impl Abort,
    files: &mut FileArea<A>,
    letters: &[u8],
    kind: FileKind,
    bytes: &[u8],
) -> Result<(), FileFault> {
    assert!(rt; files.sound());
    store(files, &name(rt, letters), kind, bytes)
}

/// The bytes of a file of so many pages.
pub fn pages_read<A: Area>(
    rt: &impl Abort,
    alloc: Global,
    files: &mut FileArea<A>,
    letters: &[u8],
    pages: u16,
) -> Result<Vec<u8>, SystemFault> {
    assert!(rt; files.sound());
    bytes_of(alloc, files, &name(rt, letters), pages)
}
