// The words of a program and its tree, and words as a text.

use pascal_read::{parse, scan};
use pascal_tree::{Token, Tree, Word};
use solo_base::LineList;
use std::alloc::Global;
use std::process::Abort;

/// The tree of a program.
pub fn tree_of(rt: &impl Abort, alloc: Global, program: &LineList) -> Tree {
    let tokens = scan(alloc, program).ok().expect(rt, "words");
    parse(alloc, tokens).ok().expect(rt, "a tree")
}

/// A word as a text: a name by its letters, a number by its digits, a character by its code behind
/// a quote, and any other word by the variant that it is.
fn add_word(text: &mut String, word: &Word) -> Option<()> {
    match word {
        Word::Name(name) => add_letters(text, name.bytes()),
        Word::Reserved(found) => write!(text, "{found:?}").ok(),
        Word::Number(number) => write!(text, "{number}").ok(),
        Word::Character(code) => write!(text, "'{code}").ok(),
        Word::Symbol(found) => write!(text, "{found:?}").ok(),
        Word::End => text.push('.').ok(),
    }
}

fn add_letters(text: &mut String, letters: &[u8]) -> Option<()> {
    for letter in letters {
        text.push(char::from(*letter)).ok()?;
    }
    Some(())
}

/// Words, each behind its line: `1 X, 2 .` is the name X on line 1, and the end.
pub fn text_of(rt: &impl Abort, alloc: Global, tokens: &[Token]) -> String {
    let mut text = String::new(alloc);
    add_words(&mut text, tokens).expect(rt, "memory");
    text
}

fn add_words(text: &mut String, tokens: &[Token]) -> Option<()> {
    for token in tokens {
        if !text.is_empty() {
            text.push_str(", ").ok()?;
        }
        let line = token.line;
        write!(text, "{line} ").ok()?;
        add_word(text, &token.word)?;
    }
    Some(())
}
