ghost use Rattle.std.specs.Prelude.{◌≡◌, ◌≢◌, ◌<◌, ◌≤◌, ◌↔◌, ℕ, IsTrue, true, false, length, slice_index, nat_lt, not, ◌||◌, ◌==◌};
ghost use Rattle.disk_pages.specs.Bits.{is_marked, EndsInZeros};
ghost use Rattle.disk_layout.specs.Disk.{Disk};
ghost use Rattle.disk_layout.specs.Format.{MarkIsRight};
ghost use Rattle.disk_layout.specs.Format1.{Mark1IsRight};
ghost use Rattle.disk_layout.specs.Judging.{FileRoles, MapRoles, JudgedBelow, least_page};

use crate::least::note_bad;
use disk_pages::{AREA_PAGES, FIRST_FILE_PAGE, is_marked};
use solo_base::Page;

/// The first page whose bit is wrong, by what was noted of all pages.
pub fn judge_bits(low: &Page, high: &Page, roles: &[u8]) -> Option<u16>
    requires { length roles.now ≡ AREA_PAGES }
    ensures newer { (d : Disk) → ((n : ℕ) → n < AREA_PAGES → d.marked n ≡ is_marked low.now high.now n)
        → FileRoles d AREA_PAGES 0 roles.now
        → JudgedBelow (MarkIsRight d) AREA_PAGES result }
    // The same in format 1.
    ensures older { (d : Disk) → ((n : ℕ) → n < AREA_PAGES → d.marked n ≡ is_marked low.now high.now n)
        → MapRoles d AREA_PAGES 0 roles.now
        → JudgedBelow (Mark1IsRight d) AREA_PAGES result }
{
    let mut bad = None;
    for n in 0..AREA_PAGES {
        let right = agree(is_marked(low, high, n), is_in_use(roles, n));
        note_bad(&mut bad, n, right);
    }
    bad
}

// Whether a page is none of a file's, or was noted as one of a file's.
fn is_in_use(roles: &[u8], n: u16) -> bool
    requires { n < length roles.now }
    ensures { result ≡ (nat_lt n 18 || not (slice_index roles.now n == 0)) }
{
    n < FIRST_FILE_PAGE || roles[n as usize] != 0
}

fn agree(marked: bool, taken: bool) -> bool
    ensures yes { result ≡ true → marked ≡ taken }
    ensures not { result ≡ false → marked ≡ taken → ⊥ }
{
    marked == taken
}

/// Whether the bytes behind the bits of the last pages are zeros.
pub fn ends_in_zeros(high: &Page) -> bool
    ensures zeros { result ≡ true → EndsInZeros high.now }
    ensures not { result ≡ false → EndsInZeros high.now → ⊥ }
{
    for k in 24..512 {
        if high.0[k] != 0 {
            return false;
        }
    }
    true
}

/// The least page that breaks the format, where the label and the catalogue keep it.
pub fn least_page(bad_bit: Option<u16>, zeros: bool, bad_page: Option<u16>) -> Option<u16>
    ensures { result ≡ least_page bad_bit zeros bad_page }
{
    match bad_bit {
        Some(bit) => Some(if bit < 4096 { 16 } else { 17 }),
        None if zeros => bad_page,
        None => Some(17),
    }
}
