ghost use Rattle.std.specs.Prelude.{◌≡◌};
ghost use Rattle.twin_top.specs.Words.{schedule_asked, schedule_behind};

use deck_format::number_within;

/// How many digits the number of a schedule has at most.
const DIGITS: usize = 10;

/// The number of the schedule that the words ask for, or `None` where they aren't of the one form.
pub fn schedule_asked(words: &[String]) -> Option<u32>
    ensures { result ≡ schedule_asked words.now }
{
    match words {
        [word, number] => schedule_behind(word.as_str(), number.as_str()),
        _ => None,
    }
}

/// The number behind the word `schedule`.
fn schedule_behind(word: &str, number: &str) -> Option<u32>
    ensures { result ≡ schedule_behind word.now number.now }
{
    if word == "schedule" {
        number_within(number.as_bytes(), DIGITS, 0, 2_147_483_647)
    } else {
        None
    }
}
