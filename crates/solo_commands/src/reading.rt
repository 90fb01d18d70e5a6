ghost use Rattle.std.specs.Prelude.{◌≡◌, ◌∷◌, []};
ghost use Rattle.solo_commands.specs.Words.{comma_words, without_blanks};
ghost use Rattle.solo_commands.specs.Commands.{word_alone, as_said, command_of, with_one_word, with_two, command_with, program_with, switch, line_says};

use crate::arguments::arguments;
use crate::file_names::{file_name, program_name, source, target};
use crate::words::{cut, is_blank, trim};
use crate::{BadCommand, Command};
use solo_base::{ArgList, Line, spells};

/// The command that a line is: `None` of a blank line, and `BadCommand` exactly where the line is no command.
pub fn read_command(line: &Line) -> Result<Option<Command>, BadCommand>
    ensures { as_said result ≡ line_says line.now }
{
    if is_blank(line.bytes()) {
        return Ok(None);
    }
    match command_of(line.bytes()) {
        Some(command) => Ok(Some(command)),
        None => Err(BadCommand),
    }
}

// A word, or a word and words in parentheses.
fn command_of(line: &[u8]) -> Option<Command>
    ensures { result ≡ command_of line.now }
{
    let Some((word, behind)) = cut(line, b'(') else {
        return alone(trim(line));
    };
    let (inside, rest) = cut(behind, b')')?;
    if !is_blank(rest) {
        return None;
    }
    of_words(trim(word), inside)
}

fn alone(word: &[u8]) -> Option<Command>
    ensures { result ≡ word_alone word.now }
{
    if spells(word, b"LIST") {
        return Some(Command::List);
    }
    Some(Command::Program {
        name: program_name(word)?,
        args: ArgList::new(),
    })
}

// A word, and the words between the commas of a text.
fn of_words(word: &[u8], text: &[u8]) -> Option<Command>
    ensures { result ≡ command_with word.now (comma_words text.now) }
{
    let Some((first, rest)) = cut(text, b',') else {
        return of_one(word, trim(text), text);
    };
    match cut(rest, b',') {
        Some(_) => program(word, text),
        None => of_two(word, trim(first), trim(rest), text),
    }
}

// Of a word and another, which are the whole text.
fn of_one(word: &[u8], first: &[u8], text: &[u8]) -> Option<Command>
    requires { comma_words text.now ≡ first.now ∷ [] }
    ensures { result ≡ with_one_word word.now first.now }
{
    if spells(word, b"DELETE") {
        return Some(Command::Delete(file_name(first)?));
    }
    program(word, text)
}

// Of a word and two others, which are the whole text.
fn of_two(word: &[u8], first: &[u8], second: &[u8], text: &[u8]) -> Option<Command>
    requires { comma_words text.now ≡ first.now ∷ second.now ∷ [] }
    ensures { result ≡ with_two word.now first.now second.now }
{
    if spells(word, b"COPY") {
        return Some(Command::Copy {
            from: source(first)?,
            to: target(second)?,
        });
    }
    if spells(word, b"COMPILE") {
        return Some(Command::Compile {
            from: file_name(first)?,
            to: file_name(second)?,
        });
    }
    if spells(word, b"RENAME") {
        return Some(Command::Rename {
            old: file_name(first)?,
            new: file_name(second)?,
        });
    }
    if spells(word, b"PROTECT") {
        return Some(Command::Protect {
            name: file_name(first)?,
            on: switch(second)?,
        });
    }
    program(word, text)
}

// The program of this name, with the words between the commas as its arguments.
fn program(word: &[u8], text: &[u8]) -> Option<Command>
    ensures { result ≡ program_with word.now (comma_words text.now) }
{
    Some(Command::Program {
        name: program_name(word)?,
        args: arguments(text)?,
    })
}

fn switch(word: &[u8]) -> Option<bool>
    ensures { result ≡ switch word.now }
{
    if spells(word, b"ON") {
        return Some(true);
    }
    if spells(word, b"OFF") {
        return Some(false);
    }
    None
}
