ghost use Rattle.std.specs.Prelude.{◌≡◌};
ghost use Rattle.solo_base.specs.Ident.{identifier};
ghost use Rattle.solo_base.specs.Words.{words};
ghost use Rattle.deck_format.specs.Control.{control_of, behind_mark, form, lone, named, with_last, with_limit, with_file, limit_of};

use crate::numeral::number_within;
use solo_base::{Ident, spells, split_word};

/// A card that opens a group of cards.
#[derive(Clone, Copy, Debug)]
pub enum Opener {
    /// The cards of the group are listed.
    List(Ident),
    /// The cards are a program, which may take so many ticks, and its input.
    Job { name: Ident, limit: u32 },
    /// The cards are the input of the program in this file.
    Run { name: Ident, file: Ident },
}

/// A card with `#` in column 1.
#[derive(Clone, Copy, Debug)]
pub enum Control {
    Opens(Opener),
    /// The cards behind it are input.
    Data,
    /// It ends its group.
    End,
    /// It is of no known form.
    Bad,
}

/// How many ticks a job may take that names no limit.
pub const DEFAULT_LIMIT: u32 = 10_000;

/// The control card that this card is, or `None` where it is a plain card.
pub fn control_of(card: &[u8]) -> Option<Control>
    ensures { result ≡ control_of card.now }
{
    match card {
        [mark, behind @ ..] if *mark == b'#' => Some(behind_mark(behind)),
        _ => None,
    }
}

/// What stands behind `#`.
fn behind_mark(behind: &[u8]) -> Control
    ensures { result ≡ behind_mark behind.now }
{
    match behind {
        [first, ..] if *first != b' ' => form(behind),
        _ => Control::Bad,
    }
}

fn form(behind: &[u8]) -> Control
    ensures { result ≡ form (words behind.now) }
{
    let Some((word, rest)) = split_word(behind) else {
        return Control::Bad;
    };
    let Some((name, rest)) = split_word(rest) else {
        return lone(word);
    };
    let Some((last, rest)) = split_word(rest) else {
        return named(word, name);
    };
    match split_word(rest) {
        Some(_) => Control::Bad,
        None => with_last(word, name, last),
    }
}

/// A control card of one word.
fn lone(word: &[u8]) -> Control
    ensures { result ≡ lone word.now }
{
    if spells(word, b"DATA") {
        Control::Data
    } else if spells(word, b"END") {
        Control::End
    } else {
        Control::Bad
    }
}

/// A control card of a word and a name.
fn named(word: &[u8], name: &[u8]) -> Control
    ensures { result ≡ named word.now name.now }
{
    let is_list = spells(word, b"LIST");
    if !is_list && !spells(word, b"JOB") {
        return Control::Bad;
    }
    match Ident::of(name) {
        None => Control::Bad,
        Some(name) if is_list => Control::Opens(Opener::List(name)),
        Some(name) => Control::Opens(Opener::Job {
            name,
            limit: DEFAULT_LIMIT,
        }),
    }
}

/// A control card of a word, a name, and a limit or a file.
fn with_last(word: &[u8], name: &[u8], last: &[u8]) -> Control
    ensures { result ≡ with_last word.now name.now last.now }
{
    let is_job = spells(word, b"JOB");
    if !is_job && !spells(word, b"RUN") {
        return Control::Bad;
    }
    let Some(name) = Ident::of(name) else {
        return Control::Bad;
    };
    if is_job {
        with_limit(name, last)
    } else {
        with_file(name, last)
    }
}

fn with_limit(name: Ident, last: &[u8]) -> Control
    ensures { result ≡ with_limit name (limit_of last.now) }
{
    match number_within(last, 7, 1, 1_000_000) {
        Some(limit) => Control::Opens(Opener::Job { name, limit }),
        None => Control::Bad,
    }
}

fn with_file(name: Ident, last: &[u8]) -> Control
    ensures { result ≡ with_file name (identifier last.now) }
{
    match Ident::of(last) {
        Some(file) => Control::Opens(Opener::Run { name, file }),
        None => Control::Bad,
    }
}
