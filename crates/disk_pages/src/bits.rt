// The bit map of the file area, as it stands in two of its pages.
ghost use Rattle.std.specs.Prelude.{◌≡◌, ◌==◌, ◌||◌, ◌&&◌, ◌<◌, ◌*◌, ℕ, not, drop, length, nat_lt, Bool, ◌≢◌};
ghost use Rattle.std.specs.Int.{bit_at};
ghost use Rattle.disk_pages.specs.Bits.{has_bit, is_marked, SetsBit, Marks};

use solo_base::Page;

/// How many pages a file area has.
pub const AREA_PAGES: u16 = 4288;

/// How many pages the first page of the bit map has bits for.
const LOW_PAGES: u16 = 4096;

/// Whether the bit of page n is 1.
pub fn is_marked(low: &Page, high: &Page, n: u16) -> bool
    requires { n < AREA_PAGES }
    ensures { result ≡ is_marked low.now high.now n }
{
    if n < LOW_PAGES {
        bit(&low.0, n)
    } else {
        bit(&high.0, n - LOW_PAGES)
    }
}

/// Makes the bit of page n 1 where the page is taken, and 0 where it isn't.
pub fn mark(low: &mut Page, high: &mut Page, n: u16, taken: bool)
    requires { n < AREA_PAGES }
    ensures { Marks n taken low.old high.old low.new high.new }
{
    if n < LOW_PAGES {
        set_bit(&mut low.0, n, taken);
    } else {
        set_bit(&mut high.0, n - LOW_PAGES, taken);
    }
}

// Whether bit n mod 8 of byte n / 8 is 1.
fn bit(bytes: &[u8], n: u16) -> bool
    requires { n < 8 * length bytes.now }
    ensures { result ≡ has_bit bytes.now n }
{
    bytes[n as usize / 8] >> (n % 8) & 1 == 1
}

// Makes bit n mod 8 of byte n / 8 this one.
#[tactic(auto, using(crate::proofs::OneBit::sets_bit))]
fn set_bit(bytes: &mut [u8], n: u16, on: bool)
    requires { n < 8 * length bytes.old }
    ensures { SetsBit n on bytes.old bytes.new }
{
    let at = n as usize / 8;
    bytes[at] = with_bit(bytes[at], n % 8, on);
}

// The byte with this bit in the place i.
fn with_bit(byte: u8, i: u16, on: bool) -> u8
    requires { i < 8 }
    ensures bit { bit_at result i == 1 ≡ on }
    ensures others { (j : ℕ) → j < 8 → j ≢ i → bit_at result j ≡ bit_at byte j }
{
    if on {
        byte | (1 << i)
    } else {
        byte & !(1 << i)
    }
}
