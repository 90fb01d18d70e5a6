ghost use Rattle.std.specs.Prelude.{◌<◌};

use crate::file_calls::{Call, is_file, is_filled, names, refusal};
use crate::made_area::{blank_files, mounted, name, numbered};
use disk_files::{FileArea, FileFault};
use disk_layout::FileKind;
use solo_base::Ident;
use solo_devices::SureArea;
use std::alloc::Global;
use std::process::Abort;

// A file as a plain table has it: its pages by the byte that fills each.
#[derive(Drop)]
struct PlainFile {
    name: [u8; 12],
    protected: bool,
    pages: Vec<u8>,
}

// Numbers that look random.
#[derive(Drop)]
struct Dice {
    state: u32,
}

impl Dice {
    // A number below this one.
    fn below(&mut self, bound: u32) -> u32
        requires { 0 < bound }
        ensures { result < bound }
    {
        self.state = self
            .state
            .wrapping_mul(1_664_525)
            .wrapping_add(1_013_904_223);
        (self.state >> 8) % bound
    }
}

// The place of a name in the table.
fn place_of(table: &Vec<PlainFile>, name: &Ident) -> Option<usize> {
    let bytes = name.bytes();
    for place in 0..table.len() {
        if table[place].name == bytes {
            return Some(place);
        }
    }
    None
}

// What the table answers to a call that adds a page.
fn plain_append(table: &mut Vec<PlainFile>, name: &Ident, byte: u8) -> Option<FileFault> {
    let place = match place_of(table, name) {
        Some(place) => place,
        None => return Some(FileFault::NoFile),
    };
    if place < table.len() {
        let file = &mut table[place];
        if file.protected {
            return Some(FileFault::Protected);
        }
        let _room = file.pages.push(byte);
    }
    None
}

// What the table answers to a call that makes page n another.
fn plain_replace(table: &mut Vec<PlainFile>, name: &Ident, n: u16, byte: u8) -> Option<FileFault> {
    let place = match place_of(table, name) {
        Some(place) => place,
        None => return Some(FileFault::NoFile),
    };
    if place < table.len() {
        let file = &mut table[place];
        if file.protected {
            return Some(FileFault::Protected);
        }
        if n == 0 || file.pages.len() < n as usize {
            return Some(FileFault::PageRange);
        }
        file.pages[n as usize - 1] = byte;
    }
    None
}

// What the table answers to a new file.
fn plain_create(alloc: Global, table: &mut Vec<PlainFile>, name: &Ident) -> Option<FileFault> {
    if place_of(table, name).is_some() {
        return Some(FileFault::Exists);
    }
    let _room = table.push(PlainFile {
        name: name.bytes(),
        protected: false,
        pages: Vec::new(alloc),
    });
    None
}

// What the table answers where a file goes.
fn plain_delete(table: &mut Vec<PlainFile>, name: &Ident) -> Option<FileFault> {
    let place = match place_of(table, name) {
        Some(place) => place,
        None => return Some(FileFault::NoFile),
    };
    if place < table.len() {
        if table[place].protected {
            return Some(FileFault::Protected);
        }
        let _gone = table.swap_remove(place);
    }
    None
}

// What the table answers to another name.
fn plain_rename(table: &mut Vec<PlainFile>, old: &Ident, new: &Ident) -> Option<FileFault> {
    let place = match place_of(table, old) {
        Some(place) => place,
        None => return Some(FileFault::NoFile),
    };
    if place_of(table, new).is_some() {
        return Some(FileFault::Exists);
    }
    if place < table.len() {
        let file = &mut table[place];
        if file.protected {
            return Some(FileFault::Protected);
        }
        file.name = new.bytes();
    }
    None
}

// What the table answers to a protection.
fn plain_protect(table: &mut Vec<PlainFile>, name: &Ident, on: bool) -> Option<FileFault> {
    let place = match place_of(table, name) {
        Some(place) => place,
        None => return Some(FileFault::NoFile),
    };
    if place < table.len() {
        table[place].protected = on;
    }
    None
}

// What the table answers to a call.
fn plain(alloc: Global, table: &mut Vec<PlainFile>, call: Call) -> Option<FileFault> {
    match call {
        Call::Create(name, _) => plain_create(alloc, table, &name),
        Call::Append(name, byte) => plain_append(table, &name, byte),
        Call::Replace(name, n, byte) => plain_replace(table, &name, n, byte),
        Call::Rename(old, new) => plain_rename(table, &old, &new),
        Call::Delete(name) => plain_delete(table, &name),
        Call::Protect(name, on) => plain_protect(table, &name, on),
        Call::Lookup(_) | Call::Read(_, _) => None,
    }
}

// A call that the dice choose.
fn call_of(rt: &impl Abort, dice: &mut Dice) -> Call {
    let name = numbered(rt, dice.below(24) as u16);
    let other = numbered(rt, dice.below(24) as u16);
    let byte = dice.below(256) as u8;
    let n = dice.below(5) as u16;
    match dice.below(12) {
        0 | 1 => Call::Create(name, FileKind::Ascii),
        2 => Call::Delete(name),
        3 => Call::Rename(name, other),
        4 => Call::Protect(name, byte < 64),
        5 | 6 => Call::Replace(name, n, byte),
        _ => Call::Append(name, byte),
    }
}

// One file is as the table has it.
fn has(rt: &impl Abort, files: &mut FileArea<SureArea>, file: &PlainFile) {
    let name = name(rt, &file.name[..5]);
    let pages = file.pages.len().min(4000) as u16;
    is_file(rt, files, &name, (FileKind::Ascii, file.protected, pages));
    let mut n = 0u16;
    for byte in &file.pages {
        n = n.saturating_add(1);
        is_filled(rt, files, &name, n, *byte);
    }
}

// The name that comes next behind this one, or the first of all.
fn next_name(
    rt: &impl Abort,
    files: &mut FileArea<SureArea>,
    last: Option<&Ident>,
) -> Option<Ident> {
    assert!(rt; files.sound());
    files.name_after(last).ok().expect(rt, "no fault")
}

// The names of both, in their order.
fn same_names(rt: &impl Abort, files: &mut FileArea<SureArea>, table: &Vec<PlainFile>) {
    let mut last = None;
    for _ in 0..table.len() {
        let name = next_name(rt, files, last.as_ref()).expect(rt, "a name more");
        assert!(rt; place_of(table, &name).is_some());
        if let Some(before) = last {
            assert!(rt; before.bytes() < name.bytes());
        }
        last = Some(name);
    }
    assert!(rt; next_name(rt, files, last.as_ref()).is_none());
}

// A thousand calls from this state of the dice on, and then a new mount.
fn thousand_calls(rt: &impl Abort, alloc: Global, seed: u32) {
    let mut files = blank_files(rt, alloc);
    let mut table = Vec::new(alloc);
    let mut dice = Dice { state: seed };
    for _ in 0..1000u16 {
        let call = call_of(rt, &mut dice);
        let answer = refusal(rt, &mut files, call);
        assert!(rt; answer == plain(alloc, &mut table, call), "{call:?}");
    }
    let again = mounted(rt, alloc, files.into_inner());
    are_the_files(rt, again, &table);
}

// The files of an area are those of the table.
fn are_the_files(rt: &impl Abort, files: FileArea<SureArea>, table: &Vec<PlainFile>) {
    let mut again = files;
    assert!(rt; (names(rt, &again) as usize) == table.len());
    for file in table {
        has(rt, &mut again, file);
    }
    same_names(rt, &mut again, table);
}

#[test]
fn ten_thousand_random_calls_answer_as_a_plain_table(rt: HostRuntime) {
    for seed in 1..11u32 {
        thousand_calls(&rt, rt.alloc(), seed);
    }
}
