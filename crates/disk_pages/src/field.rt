ghost use Rattle.std.specs.Prelude.{◌≡◌, ◌+◌, ◌≤◌, take, drop};
ghost use Rattle.solo_base.specs.PageBytes.{number_at};
ghost use Rattle.disk_pages.specs.Field.{ChangesOnly};

use solo_base::{IDENT_LENGTH, Page, number_at};

/// How many bytes a number in a page takes, high byte first.
pub const NUMBER_LENGTH: usize = 2;

/// The number in the bytes `at` and `at + 1`, high byte first.
pub fn number(page: &Page, at: u16) -> u16
    requires { at ≤ 510 }
    ensures { result ≡ number_at page.now.0 at }
{
    number_at(&page.0, at as usize)
}

/// Makes the number in the bytes `at` and `at + 1` this one.
pub fn set_number(page: &mut Page, at: u16, value: u16)
    requires { at ≤ 510 }
    ensures number { number_at page.new.0 at ≡ value }
    ensures others { ChangesOnly at NUMBER_LENGTH page.old.0 page.new.0 }
{
    let at = at as usize;
    page.0[at] = (value / 256) as u8;
    page.0[at + 1] = (value % 256) as u8;
}

/// The 12 bytes from `at` on: an identifier, as a catalogue entry keeps it.
pub fn name_bytes(page: &Page, at: u16) -> [u8; IDENT_LENGTH]
    requires { at ≤ 500 }
    ensures { result ≡ take IDENT_LENGTH (drop at page.now.0) }
{
    let at = at as usize;
    let mut name = [0; IDENT_LENGTH];
    name.copy_from_slice(&page.0[at..at + IDENT_LENGTH]);
    name
}

/// Makes the 12 bytes from `at` on these.
pub fn set_name_bytes(page: &mut Page, at: u16, name: [u8; IDENT_LENGTH])
    requires { at ≤ 500 }
    ensures name { take IDENT_LENGTH (drop at page.new.0) ≡ name }
    ensures others { ChangesOnly at IDENT_LENGTH page.old.0 page.new.0 }
{
    let at = at as usize;
    for (i, byte) in name.iter().enumerate() {
        page.0[at + i] = *byte;
    }
}
