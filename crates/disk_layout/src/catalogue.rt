ghost use Rattle.std.specs.Prelude.{◌==◌, not, ◌≡◌, ◌≢◌, ◌+◌, ◌-◌, ◌⊎◌, ℕ, ◌<◌, ◌≤◌, true, false, length, min, slice_index_or, slice_set, IfSome, IfNone};
ghost use Rattle.disk_layout.specs.Format.{count_below};
ghost use Rattle.disk_layout.specs.Layout.{blank_entry};
ghost use Rattle.disk_layout.specs.Judging.{IsKeptEntry};
ghost use Rattle.disk_layout.specs.Writing.{ClearsName, IsFirstEmpty, PutsEntry, PutsName, unnamed};

use crate::Entry;

/// The place of a name, or `None` where no file has it.
pub fn place_of(entries: &[Entry], name: [u8; 12]) -> Option<usize>
    ensures inside { IfSome result (λ p. p < length entries.now) }
    ensures used { IfSome result (λ p. (slice_index_or entries.now p blank_entry).kind ≢ 0) }
    ensures name { IfSome result (λ p. (slice_index_or entries.now p blank_entry).name ≡ name) }
    ensures none { IfNone result ((p : ℕ) → p < length entries.now
        → (slice_index_or entries.now p blank_entry).kind ≢ 0
        → (slice_index_or entries.now p blank_entry).name ≢ name) }
{
    for p in 0..entries.len() {
        if has_name(&entries[p], name) {
            return Some(p);
        }
    }
    None
}

/// Whether a file has this name.
pub fn is_named(entries: &[Entry], name: [u8; 12]) -> bool
    ensures yes { result ≡ true → (p : ℕ) × (p < length entries.now)
        × ((slice_index_or entries.now p blank_entry).kind ≢ 0)
        × ((slice_index_or entries.now p blank_entry).name ≡ name) }
    ensures not { result ≡ false → (p : ℕ) → p < length entries.now
        → (slice_index_or entries.now p blank_entry).kind ≢ 0
        → (slice_index_or entries.now p blank_entry).name ≢ name }
{
    match place_of(entries, name) {
        Some(_place) => true,
        None => false,
    }
}

// Whether an entry is that of a file with this name.
fn has_name(entry: &Entry, name: [u8; 12]) -> bool
    ensures yes { result ≡ true → (entry.now.kind ≢ 0) × (entry.now.name ≡ name) }
    ensures not { result ≡ false → entry.now.kind ≢ 0 → entry.now.name ≢ name }
{
    entry.kind != 0 && entry.name == name
}

/// How many entries are those of files.
pub fn count_names(entries: &[Entry]) -> u16
    requires { length entries.now ≤ 240 }
    ensures count { result ≡ count_below (λ k. not ((slice_index_or entries.now k blank_entry).kind == 0)) (length entries.now) }
    ensures few { result ≤ length entries.now }
{
    let mut count = 0;
    for entry in entries {
        if is_used(entry) {
            count += 1;
        }
    }
    count
}

// Whether the entry is that of a file.
fn is_used(entry: &Entry) -> bool
    ensures { result ≡ not (entry.now.kind == 0) }
{
    entry.kind != 0
}

/// Sets the protection in the entry at a place, and answers the entry.
pub fn set_protection(entries: &mut [Entry], place: usize, protection: u16) -> Entry
    requires { place < length entries.old }
    ensures entry { result ≡ record (slice_index_or entries.old place blank_entry) {
      protection =
          protection;
    } }
    ensures set { entries.new ≡ slice_set entries.old place result }
{
    let mut entry = entries[place];
    entry.protection = protection;
    entries[place] = entry;
    entry
}

/// The first place without a file from this one on, and then from the first place on.
pub fn empty_place(entries: &[Entry], from: usize) -> Option<usize>
    requires { from < length entries.now }
    ensures inside { IfSome result (λ p. p < length entries.now) }
    ensures first { IfSome result (IsFirstEmpty entries.now from) }
    ensures none { IfNone result ((k : ℕ) → k < length entries.now → (slice_index_or entries.now k blank_entry).kind ≢ 0) }
{
    match first_empty(entries, from, entries.len()) {
        Some(place) => Some(place),
        None => first_empty(entries, 0, from),
    }
}

// The first place without a file from one place up to another.
fn first_empty(entries: &[Entry], from: usize, end: usize) -> Option<usize>
    requires { end ≤ length entries.now }
    ensures inside { IfSome result (λ p. (from ≤ p) × (p < end)) }
    ensures empty { IfSome result (λ p. (slice_index_or entries.now p blank_entry).kind ≡ 0) }
    ensures first { IfSome result (λ p. (k : ℕ) → from ≤ k → k < p
        → (slice_index_or entries.now k blank_entry).kind ≢ 0) }
    ensures none { IfNone result ((k : ℕ) → from ≤ k → k < end
        → (slice_index_or entries.now k blank_entry).kind ≢ 0) }
{
    for place in from..end {
        if entries[place].kind == 0 {
            return Some(place);
        }
    }
    None
}

/// Puts a name into an empty place, and raises the search length at the place of its key.
pub fn put_name(entries: &mut [Entry], place: usize, entry: &Entry)
    requires places { length entries.old ≡ 240 }
    requires place { place < 240 }
    requires some { 1 ≤ entry.now.key }
    requires last { entry.now.key ≤ 240 }
    ensures puts { ((k : ℕ) → k < 240 → (slice_index_or entries.old k blank_entry).searches < 65535)
        → PutsName entries.old entries.new place entry.now }
    ensures stands { PutsEntry entries.old entries.new place entry.now }
    ensures named { (slice_index_or entries.new place blank_entry).name ≡ entry.now.name }
    ensures kept { ((k : ℕ) → k < 240 → IsKeptEntry (slice_index_or entries.old k blank_entry))
        → IsKeptEntry entry.now
        → (k : ℕ) → k < 240 → IsKeptEntry (slice_index_or entries.new k blank_entry) }
{
    let mut new = *entry;
    new.searches = entries[place].searches;
    entries[place] = new;
    raise_searches(entries, entry.key as usize - 1);
}

// Makes the search length at a place one more. A catalogue's is at most 240.
fn raise_searches(entries: &mut [Entry], place: usize)
    requires { place < length entries.old }
    ensures { let entry = slice_index_or entries.old place blank_entry in
        entries.new ≡ slice_set entries.old place (record entry {
          searches =
              min (entry.searches + 1) 65535;
        }) }
{
    let mut entry = entries[place];
    entry.searches = entry.searches.saturating_add(1);
    entries[place] = entry;
}

/// Takes the name at a place away, and lowers the search length at the place of its key.
pub fn clear_name(entries: &mut [Entry], place: usize)
    requires places { length entries.old ≡ 240 }
    requires place { place < 240 }
    requires some { 1 ≤ (slice_index_or entries.old place blank_entry).key }
    requires last { (slice_index_or entries.old place blank_entry).key ≤ 240 }
    ensures clears { let key = (slice_index_or entries.old place blank_entry).key in
        1 ≤ (slice_index_or entries.old (key - 1) blank_entry).searches
        → ClearsName entries.old entries.new place }
    ensures empty { (slice_index_or entries.new place blank_entry).kind ≡ 0 }
    ensures kept { ((k : ℕ) → k < 240 → IsKeptEntry (slice_index_or entries.old k blank_entry))
        → (k : ℕ) → k < 240 → IsKeptEntry (slice_index_or entries.new k blank_entry) }
{
    let entry = entries[place];
    entries[place] = unnamed(entry.searches);
    lower_searches(entries, entry.key as usize - 1);
}

// The entry of no file at a place with this search length.
fn unnamed(searches: u16) -> Entry
    ensures { result ≡ unnamed searches }
{
    Entry {
        name: [0; 12],
        kind: 0,
        address: 0,
        protection: 0,
        key: 0,
        searches,
    }
}

// Makes the search length at a place one less. A catalogue's is at least 1 where a name has its key from it.
fn lower_searches(entries: &mut [Entry], place: usize)
    requires { place < length entries.old }
    ensures { let entry = slice_index_or entries.old place blank_entry in
        entries.new ≡ slice_set entries.old place (record entry { searches = entry.searches - 1 }) }
{
    let mut entry = entries[place];
    entry.searches = entry.searches.saturating_sub(1);
    entries[place] = entry;
}
