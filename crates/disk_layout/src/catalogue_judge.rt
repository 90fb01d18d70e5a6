ghost use Rattle.std.specs.Prelude.{◌≡◌, ◌≢◌, ℕ, ◌+◌, ◌*◌, ◌<◌, ◌≤◌, ◌↔◌, IsTrue, true, false, None, length, slice_index_or, slice_index, replicate};
ghost use Rattle.disk_layout.specs.Disk.{Disk};
ghost use Rattle.disk_layout.specs.Format.{IsAddress, count_below};
ghost use Rattle.disk_layout.specs.Layout.{blank_entry};
ghost use Rattle.disk_layout.specs.Judging.{EntriesRead, EntryStands, HasEntry, IsAlone, IsKeptEntry, JudgedBelow, KeptBelow, Roles, SearchesAreRight, uses_key};

use crate::least::note_bad;
use crate::{Entry, is_whole};
use solo_base::Page;

/// Reads the 16 entries of page n of the catalogue, from 0, and notes the first place that is wrong.
pub fn judge_entries(page: &Page, n: u16, entries: &mut [Entry], bad: &mut Option<u16>)
    requires page { n < 15 }
    requires places { length entries.old ≡ 240 }
    ensures judged { (d : Disk) → ((k : ℕ) → k < 16 → HasEntry d (16 * n + k) page.now.0 (32 * k))
        → EntriesRead d (16 * n) entries.old → JudgedBelow (EntryStands d) (16 * n) bad.old
        → EntriesRead d (16 * n + 16) entries.new × JudgedBelow (EntryStands d) (16 * n + 16) bad.new }
    ensures kept { KeptBelow (16 * n) entries.old bad.old → KeptBelow (16 * n + 16) entries.new bad.new }
{
    for k in 0..16 {
        judge_entry(page, k, 16 * n + k, entries, bad);
    }
}

// Reads entry k of a page, which belongs to this place, and judges it.
fn judge_entry(page: &Page, k: u16, place: u16, entries: &mut [Entry], bad: &mut Option<u16>)
    requires inside { k < 16 }
    requires place { place < 240 }
    requires places { length entries.old ≡ 240 }
    ensures judged { (d : Disk) → HasEntry d place page.now.0 (32 * k) → EntriesRead d place entries.old
        → JudgedBelow (EntryStands d) place bad.old
        → EntriesRead d (place + 1) entries.new × JudgedBelow (EntryStands d) (place + 1) bad.new }
    ensures kept { KeptBelow place entries.old bad.old → KeptBelow (place + 1) entries.new bad.new }
{
    let entry = Entry::read(page, 32 * k);
    let right = stands(entries, place, &entry, page, 32 * k);
    entries[place as usize] = entry;
    note_bad(bad, place, right);
}

// Whether an entry stands by itself and beside those at earlier places.
fn stands(entries: &[Entry], place: u16, entry: &Entry, page: &Page, at: u16) -> bool
    requires inside { at ≤ 480 }
    requires place { place < length entries.now }
    ensures judged { (d : Disk) → d.entry place ≡ entry.now → HasEntry d place page.now.0 at
        → EntriesRead d place entries.now → ((k : ℕ) → k < place → EntryStands d k)
        → (IsTrue result ↔ EntryStands d place) }
    ensures kept { IsTrue result → IsKeptEntry entry.now }
{
    is_whole(entry, page, at) && is_alone(entries, place as usize, entry)
}

// Whether no entry in use at a place below this one has the name or the address of this entry.
fn is_alone(entries: &[Entry], place: usize, entry: &Entry) -> bool
    requires { place ≤ length entries.now }
    ensures alone { result ≡ true → IsAlone entries.now place entry.now }
    ensures not { result ≡ false → IsAlone entries.now place entry.now → ⊥ }
{
    for k in 0..place {
        if is_used_like(&entries[k], entry) {
            return false;
        }
    }
    true
}

// Whether the other entry is in use and has the name or the address of this one.
fn is_used_like(other: &Entry, entry: &Entry) -> bool
    ensures yes { result ≡ true
        → (other.now.kind ≢ 0 → (other.now.name ≢ entry.now.name) × (other.now.address ≢ entry.now.address))
        → ⊥ }
    ensures not { result ≡ false → other.now.kind ≢ 0
        → (other.now.name ≢ entry.now.name) × (other.now.address ≢ entry.now.address) }
{
    other.kind != 0 && (other.name == entry.name || other.address == entry.address)
}

/// The first place whose search length isn't the number of names with its key.
pub fn judge_searches(entries: &[Entry]) -> Option<u16>
    requires { length entries.now ≡ 240 }
    ensures { (d : Disk) → EntriesRead d 240 entries.now → JudgedBelow (SearchesAreRight d) 240 result }
{
    let mut bad = None;
    for place in 0..240 {
        let right = entries[place as usize].searches == count_key(entries, place + 1);
        note_bad(&mut bad, place, right);
    }
    bad
}

// How many entries in use have this key.
fn count_key(entries: &[Entry], key: u16) -> u16
    requires { length entries.now ≤ 240 }
    ensures { result
        ≡ count_below (λ k. uses_key key (slice_index_or entries.now k blank_entry)) (length entries.now) }
{
    let mut count = 0;
    for entry in entries {
        if uses_key(entry, key) {
            count += 1;
        }
    }
    count
}

// Whether this entry in use has the key.
fn uses_key(entry: &Entry, key: u16) -> bool
    ensures { result ≡ uses_key key entry.now }
{
    entry.kind != 0 && entry.key == key
}

/// Notes the index pages of the entries in use.
pub fn note_indexes(entries: &[Entry], roles: &mut [u8])
    requires places { length entries.now ≡ 240 }
    requires kept { (p : ℕ) → p < 240 → IsKeptEntry (slice_index_or entries.now p blank_entry) }
    requires room { length roles.old ≡ 4288 }
    requires blank { (n : ℕ) → slice_index roles.old n ≡ 0 }
    ensures { (d : Disk) → EntriesRead d 240 entries.now → Roles d 0 0 roles.new }
{
    for entry in entries {
        if entry.kind != 0 {
            roles[entry.address as usize] = 255;
        }
    }
}
