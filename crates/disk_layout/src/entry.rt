ghost use Rattle.std.specs.Prelude.{◌≡◌, ◌≤◌, ◌<◌, ◌+◌, ◌↔◌, ◌⊎◌, ◌-◌, IsTrue, take, drop, replicate, length};
ghost use Rattle.solo_base.specs.Ident.{IsIdent};
ghost use Rattle.disk_layout.specs.Disk.{entry_in};
ghost use Rattle.disk_layout.specs.Writing.{WritesEntry};
ghost use Rattle.disk_layout.specs.Format.{IsEmptyEntry, IsFullEntry, IsAddress, key_from, key_of};

use disk_pages::{name_bytes, number, set_name_bytes, set_number};
use solo_base::{IDENT_LENGTH, Ident, Page, trim_end};

/// An entry of the catalogue, its fields as they are read.
#[derive(Clone, Copy, Debug)]
pub struct Entry {
    pub name: [u8; IDENT_LENGTH],
    pub kind: u16,
    pub address: u16,
    pub protection: u16,
    pub key: u16,
    pub searches: u16,
}

impl Entry {
    /// The entry in the 32 bytes of a page from `at` on.
    pub fn read(page: &Page, at: u16) -> Entry
        requires { at ≤ 480 }
        ensures { result ≡ entry_in page.now.0 at }
    {
        Entry {
            name: name_bytes(page, at),
            kind: number(page, at + 12),
            address: number(page, at + 14),
            protection: number(page, at + 16),
            key: number(page, at + 28),
            searches: number(page, at + 30),
        }
    }

    /// Writes the entry into the 32 bytes of a page from `at` on. Its spare bytes stay.
    pub fn write(&self, page: &mut Page, at: u16)
        requires { at ≤ 480 }
        ensures { WritesEntry at self.now page.old.0 page.new.0 }
    {
        set_name_bytes(page, at, self.name);
        set_number(page, at + 12, self.kind);
        set_number(page, at + 14, self.address);
        set_number(page, at + 16, self.protection);
        set_number(page, at + 28, self.key);
        set_number(page, at + 30, self.searches);
    }
}

/// Whether an entry is empty or full, with its spare bytes in the bytes of a page from `at` + 18 on.
pub fn is_whole(entry: &Entry, page: &Page, at: u16) -> bool
    requires { at ≤ 480 }
    ensures { IsTrue result ↔ (IsEmptyEntry entry.now (take 10 (drop (at + 18) page.now.0))
        ⊎ IsFullEntry entry.now (take 10 (drop (at + 18) page.now.0))) }
{
    has_no_spare(page, at) && (is_empty(entry) || is_full(entry))
}

// Whether the spare bytes of an entry are zeros.
fn has_no_spare(page: &Page, at: u16) -> bool
    requires { at ≤ 480 }
    ensures { IsTrue result ↔ (take 10 (drop (at + 18) page.now.0) ≡ replicate 10 0) }
{
    let from = at as usize + 18;
    page.0[from..from + 10] == [0; 10]
}

// Whether all fields of an entry but the search length are zero.
fn is_empty(entry: &Entry) -> bool
    ensures { IsTrue result ↔ IsEmptyEntry entry.now (replicate 10 0) }
{
    entry.name == [0; IDENT_LENGTH]
        && entry.kind == 0
        && entry.address == 0
        && entry.protection == 0
        && entry.key == 0
}

// Whether an entry is that of a file.
fn is_full(entry: &Entry) -> bool
    ensures { IsTrue result ↔ IsFullEntry entry.now (replicate 10 0) }
{
    is_ident(&entry.name)
        && 1 <= entry.kind
        && entry.kind <= 4
        && is_address(entry.address)
        && entry.protection <= 1
        && entry.key == key_of(&entry.name)
}

// Whether these bytes are an identifier with blanks behind it.
fn is_ident(name: &[u8; IDENT_LENGTH]) -> bool
    ensures { IsTrue result ↔ IsIdent name.now }
{
    match Ident::of(trim_end(name)) {
        Some(ident) => ident.bytes() == *name,
        None => false,
    }
}

/// Whether a file may have this page.
pub fn is_address(n: u16) -> bool
    ensures { IsTrue result ↔ IsAddress n }
{
    18 <= n && n < 4288
}

/// The key of a name, from 1 to 240.
pub fn key_of(name: &[u8; IDENT_LENGTH]) -> u16
    ensures key { result ≡ key_of name.now }
    ensures some { 1 ≤ result }
    ensures last { result ≤ 240 }
{
    key_from(1, name)
}

#[tactic(auto, unfolding(crate::specs::Format::key_from))]
fn key_from(key: u16, name: &[u8]) -> u16
    requires some { 1 ≤ key }
    requires last { key ≤ 240 }
    ensures key { result ≡ key_from key name.now }
    ensures some { 1 ≤ result }
    ensures last { result ≤ 240 }
{
    match name {
        [] => key,
        [code, rest @ ..] => {
            let next = if *code == b' ' {
                key
            } else {
                key * *code as u16 % 240 + 1
            };
            key_from(next, rest)
        }
    }
}
