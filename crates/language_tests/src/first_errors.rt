// Where a program has its first error.

use crate::cards::add_card;
use pascal_read::{ParseFault, parse, scan};
use solo_base::LineList;
use std::alloc::Global;
use std::process::Abort;

/// A text that stands so many times behind itself.
pub type Times = (&'static str, usize);

/// What stands so many times before what is inside, what stands as often behind it, how many times,
/// and the word at which the first error stands.
pub type Levels = (&'static str, &'static str, usize, Option<u32>);

/// The line of the first error of a program, or nothing where the program is read.
pub fn error_line(rt: &impl Abort, alloc: Global, program: &LineList) -> Option<u32> {
    let tokens = scan(alloc, program).ok().expect(rt, "words");
    match parse(alloc, tokens) {
        Ok(_) => None,
        Err(ParseFault::Syntax { line }) => Some(line),
        Err(ParseFault::NoMemory) => panic!(rt; "no memory"),
    }
}

/// Adds each word of a text, so many times, on a card of its own.
fn add_words(program: &mut LineList, text: &str, times: usize) -> Option<()> {
    for _ in 0..times {
        for word in text.split_whitespace() {
            add_card(program, word)?;
        }
    }
    Some(())
}

/// The number from 1 of the word at which a program has its first error, or nothing where it is
/// read.
pub fn error_word(rt: &impl Abort, alloc: Global, texts: &[Times]) -> Option<u32> {
    let mut program = LineList::new(alloc);
    for (text, times) in texts {
        add_words(&mut program, text, *times).expect(rt, "cards");
    }
    error_line(rt, alloc, &program)
}

/// Each of these programs is read.
pub fn each_is_read(rt: &impl Abort, alloc: Global, programs: &[&'static str]) {
    for text in programs {
        assert!(rt; error_word(rt, alloc, &[(*text, 1)]) == None, "{text}");
    }
}

/// Each row of a table: the program, and the word at which its first error stands.
pub fn each_has_its_error(rt: &impl Abort, alloc: Global, table: &[(&'static str, u32)]) {
    for (text, word) in table {
        let found = error_word(rt, alloc, &[(*text, 1)]);
        assert!(rt; found == Some(*word), "{found:?}: {text}");
    }
}

/// Each row of a table, with what stands before it and inside it.
pub fn each_has_its_levels(
    rt: &impl Abort,
    alloc: Global,
    (before, inside): (&'static str, &'static str),
    table: &[Levels],
) {
    for (opening, closing, times, word) in table {
        let texts = [
            (before, 1),
            (*opening, *times),
            (inside, 1),
            (*closing, *times),
            ("END .", 1),
        ];
        let found = error_word(rt, alloc, &texts);
        assert!(rt; found == *word, "{found:?}: {opening} {times}");
    }
}
