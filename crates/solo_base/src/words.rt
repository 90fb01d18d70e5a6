ghost use Rattle.std.specs.Prelude.{◌≡◌, ◌<◌, ◌≤◌, [], ◌∷◌, length, IfSome, IfNone};
ghost use Rattle.solo_base.specs.Words.{words, word_length, spells};

use crate::capital;

/// The first word of a text, and what stands behind it.
pub fn split_word(text: &[u8]) -> Option<(&[u8], &[u8])>
    ensures word { IfSome result (λ found. words text.now ≡ found.0.now ∷ words found.1.now) }
    ensures shorter { IfSome result (λ found. length found.1.now < length text.now) }
    ensures none { IfNone result (words text.now ≡ []) }
{
    let text = skip_blanks(text);
    if text.is_empty() {
        return None;
    }
    Some(text.split_at(word_length(text)))
}

/// The text without the blanks in front of it.
fn skip_blanks(text: &[u8]) -> &[u8]
    ensures same { words result.now ≡ words text.now }
    ensures word { 0 < length result.now → 0 < word_length result.now }
    ensures short { length result.now ≤ length text.now }
{
    match text {
        [first, rest @ ..] if *first == b' ' => skip_blanks(rest),
        _ => text,
    }
}

/// How long the word is with which the text begins.
fn word_length(text: &[u8]) -> usize
    ensures length { result ≡ word_length text.now }
    ensures within { result ≤ length text.now }
{
    match text {
        [first, rest @ ..] if *first != b' ' => word_length(rest) + 1,
        _ => 0,
    }
}

/// Whether the word has these letters, which are capitals, in either case.
pub fn spells(word: &[u8], letters: &[u8]) -> bool
    ensures { result ≡ spells word.now letters.now }
{
    let [first, rest @ ..] = word else {
        return letters.is_empty();
    };
    match letters {
        [letter, others @ ..] => capital(*first) == *letter && spells(rest, others),
        [] => false,
    }
}
