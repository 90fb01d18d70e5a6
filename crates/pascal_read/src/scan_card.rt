ghost use Rattle.std.specs.Prelude.{◌≡◌, ℕ, List, option_copied, IfOk, IfErr};
ghost use Rattle.solo_base.specs.Line.{IsLine};
ghost use Rattle.pascal_read.specs.Scan.{Explains};
ghost use Rattle.pascal_read.specs.Card.{behind_quote, words_of_card, ReadsCard};

use crate::ScanFault;
use crate::scan_word::word_at;
use pascal_tree::Token;

/// Reads the words of a card behind those of the cards before it. `comment` is the line on which an
/// open comment began; the answer is that line for the next card.
pub fn read_card(
    tokens: &mut Vec<Token>,
    comment: Option<u32>,
    card: &[u8],
    line: u32,
) -> Result<Option<u32>, ScanFault>
    requires { IsLine card.now }
    ensures read { IfOk result (ReadsCard tokens.old.items tokens.new.items comment line card.now) }
    ensures bad { IfErr result (λ fault. (later : List ℕ) → Explains fault (words_of_card comment line card.now later)) }
{
    match comment {
        None => read_words(tokens, card, line),
        Some(_) => match behind_quote(card) {
            Some(rest) => read_words(tokens, rest, line),
            None => Ok(comment),
        },
    }
}

/// Reads the words of what is left of a card, outside a comment.
fn read_words(tokens: &mut Vec<Token>, card: &[u8], line: u32) -> Result<Option<u32>, ScanFault>
    requires { IsLine card.now }
    ensures read { IfOk result (ReadsCard tokens.old.items tokens.new.items None line card.now) }
    ensures bad { IfErr result (λ fault. (later : List ℕ) → Explains fault (words_of_card None line card.now later)) }
{
    let mut rest = card;
    loop {
        match rest {
            [] => return Ok(None),
            [b' ', behind @ ..] => rest = behind,
            [b'"', behind @ ..] => match behind_quote(behind) {
                Some(behind) => rest = behind,
                None => return Ok(Some(line)),
            },
            _ => {
                let alloc = *tokens.allocator();
                let Some(found) = word_at(alloc, rest)? else {
                    return Err(ScanFault::BadWord { line });
                };
                rest = &rest[found.length..];
                tokens.push(Token {
                    word: found.word,
                    line,
                })?;
            }
        }
    }
}

/// What stands behind the first `"`.
fn behind_quote(bytes: &[u8]) -> Option<&[u8]>
    ensures { option_copied result ≡ behind_quote bytes.now }
{
    match bytes {
        [] => None,
        [b'"', behind @ ..] => Some(behind),
        [_, behind @ ..] => behind_quote(behind),
    }
}
