// Values by name and index.

ghost use Rattle.std.specs.Prelude.{◌≡◌, ◌<◌, ◌&&◌, ℕ, List, ℤ, length, bytes_eq, if◌then◌else◌, IfSome, OnOk};
ghost use Rattle.std.specs.Ordering.{int_eq};
ghost use Rattle.pascal_evaluate.specs.SeenStore.{value_in, entry_place, with_value};

use pascal_tree::Letters;
use solo_base::NoMemory;
use std::alloc::Global;

/// The value of a variable, whose index is 0, or of an array's element.
pub struct Entry {
    pub letters: Letters,
    pub index: i32,
    pub value: i16,
}

impl Drop for Entry {
    fn drop(self) {
        let Self {
            letters: _,
            index: _,
            value: _,
        } = self;
    }
}

/// The value of a name at an index, and 0 where it has none.
pub fn value_in(entries: &[Entry], letters: &[u8], index: i32) -> i16
    ensures { result ≡ value_in entries.now letters.now index }
{
    match entries {
        [] => 0,
        [entry, others @ ..] => {
            if entry.letters.bytes() == letters && entry.index == index {
                return entry.value;
            }
            value_in(others, letters, index)
        }
    }
}

/// A name has this value at an index from now on.
pub fn put_in(
    entries: &mut Vec<Entry>,
    alloc: Global,
    letters: &[u8],
    index: i32,
    value: i16,
) -> Result<(), NoMemory>
    ensures { OnOk result ((x : List ℕ) (i : ℤ) → value_in entries.new.items x i
        ≡ (if bytes_eq letters.now x && int_eq index i then value
        else value_in entries.old.items x i)) }
{
    match place_in(entries, letters, index) {
        Some(place) => {
            replace(entries, place, value);
            Ok(())
        }
        None => {
            let letters = Letters::of(alloc, letters)?;
            entries.insert(
                0,
                Entry {
                    letters,
                    index,
                    value,
                },
            )?;
            Ok(())
        }
    }
}

fn replace(entries: &mut [Entry], place: usize, value: i16)
    requires { place < length entries.old }
    ensures { entries.new ≡ with_value entries.old place value }
{
    entries[place].value = value;
}

// Where the value of a name at an index stands.
fn place_in(entries: &[Entry], letters: &[u8], index: i32) -> Option<usize>
    ensures place { result ≡ entry_place entries.now letters.now index }
    ensures inside { IfSome result (λ place. place < length entries.now) }
{
    match entries {
        [] => None,
        [entry, others @ ..] => {
            if entry.letters.bytes() == letters && entry.index == index {
                return Some(0);
            }
            let place = place_in(others, letters, index)?;
            Some(place + 1)
        }
    }
}
