ghost use Rattle.std.specs.Prelude.{◌≡◌, ◌+◌, ◌*◌, ◌^◌, ◌≤◌, length, IsTrue};
ghost use Rattle.std.specs.List.{list_all};
ghost use Rattle.solo_base.specs.Ident.{is_digit};
ghost use Rattle.deck_format.specs.Numeral.{number_within, value_after};

/// The number that one to so many decimal digits write, where it lies from `least` to `most`. Zeros may
/// lead it.
pub fn number_within(word: &[u8], digits: usize, least: u32, most: u32) -> Option<u32>
    requires { digits ≤ 10 }
    ensures { result ≡ number_within digits least most word.now }
{
    if word.is_empty() || word.len() > digits || !all_digits(word) {
        return None;
    }
    let value = value_after(0, word);
    if value < least as u64 || value > most as u64 {
        None
    } else {
        Some(value as u32)
    }
}

fn all_digits(word: &[u8]) -> bool
    ensures { result ≡ list_all is_digit word.now }
{
    word.iter().all(|byte| 48 <= *byte && *byte <= 57)
}

/// The value of the digits behind a number that was read.
fn value_after(number: u64, digits: &[u8]) -> u64
    requires digits { IsTrue (list_all is_digit digits.now) }
    requires small { (number + 1) * 10 ^ length digits.now ≤ 10 ^ 10 }
    ensures { result ≡ value_after number digits.now }
{
    match digits {
        [first, rest @ ..] => value_after(10 * number + (*first - b'0') as u64, rest),
        [] => number,
    }
}
