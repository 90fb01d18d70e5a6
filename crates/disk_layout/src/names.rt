ghost use Rattle.std.specs.Prelude.{◌≡◌, ℕ, ◌+◌, ◌<◌, IfSome, length};
ghost use Rattle.std.specs.Ordering.{nat_cmp};
ghost use Rattle.std.specs.Cmp.Lexicographic.{slice_cmp};
ghost use Rattle.disk_layout.specs.Names.{IsNextBelow, comes_before, is_past, name_at, IsUsed};

use crate::Entry;

/// The place of the least name behind this one, or of the least of all where it is `None`. `None` where no
/// name comes behind.
pub fn place_after(entries: &[Entry], after: Option<[u8; 12]>) -> Option<usize>
    ensures { IsNextBelow entries.now after (length entries.now) result }
{
    let mut next = None;
    for place in 0..entries.len() {
        next = nearer(entries, after, place, next);
    }
    next
}

// The place of the least name behind, by that of the entries before this place.
fn nearer(
    entries: &[Entry],
    after: Option<[u8; 12]>,
    place: usize,
    next: Option<usize>,
) -> Option<usize>
    requires inside { place < length entries.now }
    requires next { IsNextBelow entries.now after place next }
    ensures { IsNextBelow entries.now after (place + 1) result }
{
    let entry = &entries[place];
    if entry.kind == 0 || !is_past(after, &entry.name) {
        return next;
    }
    match next {
        Some(found) => {
            if comes_before(&entry.name, &entries[found].name) {
                Some(place)
            } else {
                next
            }
        }
        None => Some(place),
    }
}

// Whether a name comes behind this one. Any does where there is none.
fn is_past(after: Option<[u8; 12]>, name: &[u8; 12]) -> bool
    ensures { result ≡ is_past after name.now }
{
    match after {
        Some(after) => comes_before(&after, name),
        None => true,
    }
}

// Whether a name comes before another, in the order of their characters.
fn comes_before(name: &[u8; 12], other: &[u8; 12]) -> bool
    ensures { result ≡ comes_before name.now other.now }
{
    name.cmp(other).is_lt()
}
