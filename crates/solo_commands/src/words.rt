ghost use Rattle.std.specs.Prelude.{◌≡◌, ◌<◌, ℕ, List, length, Some, None, IfSome, IfNone};
ghost use Rattle.solo_commands.specs.Words.{cut_at, is_blank, without_blanks};

use solo_base::{first_place, trim_end};

/// Whether the text has only blanks.
pub fn is_blank(text: &[u8]) -> bool
    ensures { result ≡ is_blank text.now }
{
    text.iter().all(|byte| *byte == b' ')
}

/// The text without the blanks at either end.
pub fn trim(text: &[u8]) -> &[u8]
    ensures { result.now ≡ without_blanks text.now }
{
    match text {
        [first, rest @ ..] if *first == b' ' => trim(rest),
        _ => trim_end(text),
    }
}

/// What stands before and behind the first of this byte.
pub fn cut(text: &[u8], stop: u8) -> Option<(&[u8], &[u8])>
    ensures parts { IfSome result (λ found. cut_at stop text.now ≡ Some (found.0.now, found.1.now)) }
    ensures shorter { IfSome result (λ found. length found.1.now < length text.now) }
    ensures none { IfNone result (cut_at stop text.now ≡ None) }
{
    let place = first_place(text, stop);
    if place >= text.len() {
        return None;
    }
    Some((&text[..place], &text[place + 1..]))
}
