// What every token keeps.

ghost use Rattle.pascal_tree.specs.Word.{AreWords};

use pascal_tree::Token;

/// Tokens are words: names are names, numbers at most 32767, characters codes of ASCII.
pub fn each_is_a_word(tokens: &[Token])
    ensures { AreWords tokens.now }
{
    for token in tokens {
        // the token's own invariant is known where it is read
        let _ = &token.word;
    }
}
