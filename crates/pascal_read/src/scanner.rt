ghost use Rattle.std.specs.Prelude.{◌≡◌, IfOk, IfErr};
ghost use Rattle.pascal_read.specs.Scan.{Explains, words, IsEnded};

use crate::ScanFault;
use crate::scan_card::read_card;
use pascal_tree::{Token, Word};
use solo_base::LineList;
use std::alloc::Global;

/// Reads the words of a program's cards, each with the number from 1 of the card on which it begins.
/// The last token is the end, on the line behind the last card.
pub fn scan(alloc: Global, program: &LineList) -> Result<Vec<Token>, ScanFault>
    ensures words { IfOk result (λ tokens. words program.now ≡ Ok tokens.items) }
    ensures ended { IfOk result (λ tokens. IsEnded program.now tokens.items) }
    ensures bad_word { IfErr result (λ fault. Explains fault (words program.now)) }
{
    let mut tokens = Vec::new(alloc);
    let mut line = 1u32;
    let mut comment = None;
    for place in 0..program.len() {
        comment = read_card(&mut tokens, comment, program.get(place).bytes(), line)?;
        line = line.saturating_add(1);
    }
    if let Some(line) = comment {
        return Err(ScanFault::BadWord { line });
    }
    tokens.push(Token {
        word: Word::End,
        line,
    })?;
    Ok(tokens)
}
