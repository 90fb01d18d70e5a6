ghost use Rattle.std.specs.Prelude.{◌≡◌};
ghost use Rattle.solo_base.specs.Ident.{identifier};
ghost use Rattle.deck_format.specs.Numeral.{number_within};
ghost use Rattle.real_time.specs.Typed.{naming, of_four, of_two, passing, stopping, typed};

use deck_format::number_within;
use solo_base::{Ident, Item, spells, split_word};

/// What a typed line says to the operator. A time is a number of seconds, and so is a period, where 0 is
/// none.
#[derive(Clone, Copy, Debug)]
pub enum Typed {
    /// Nothing: it is blank.
    Blank,
    /// There is a task of this name.
    Names(Ident),
    /// The task of this name starts first at a time, and then once in each period.
    Plans(Ident, u32, u32),
    /// The task of this name doesn't start any more.
    Stops(Ident),
    /// So many seconds pass.
    Passes(u32),
    /// It is spoiled, or of no known form.
    Bad,
}

/// What this line says.
pub fn line_says(item: &Item) -> Typed
    ensures { result ≡ typed item.now }
{
    let Item::Line(line) = item else {
        return Typed::Bad;
    };
    let Some((word, rest)) = split_word(line.bytes()) else {
        return Typed::Blank;
    };
    let Some((first, rest)) = split_word(rest) else {
        return Typed::Bad;
    };
    let Some((second, rest)) = split_word(rest) else {
        return of_two(word, first);
    };
    let Some((third, rest)) = split_word(rest) else {
        return Typed::Bad;
    };
    if split_word(rest).is_some() {
        return Typed::Bad;
    }
    of_four(word, first, second, third)
}

// What a word says with another one behind it.
fn of_two(word: &[u8], other: &[u8]) -> Typed
    ensures { result ≡ of_two word.now other.now }
{
    if spells(word, b"TASK") {
        naming(other)
    } else if spells(word, b"STOP") {
        stopping(other)
    } else if spells(word, b"TICK") {
        passing(other)
    } else {
        Typed::Bad
    }
}

fn naming(word: &[u8]) -> Typed
    ensures { result ≡ naming (identifier word.now) }
{
    match Ident::of(word) {
        Some(name) => Typed::Names(name),
        None => Typed::Bad,
    }
}

fn stopping(word: &[u8]) -> Typed
    ensures { result ≡ stopping (identifier word.now) }
{
    match Ident::of(word) {
        Some(name) => Typed::Stops(name),
        None => Typed::Bad,
    }
}

fn passing(word: &[u8]) -> Typed
    ensures { result ≡ passing (number_within 7 1 1000 word.now) }
{
    match number_within(word, 7, 1, 1000) {
        Some(seconds) => Typed::Passes(seconds),
        None => Typed::Bad,
    }
}

// What a word says with three others behind it.
fn of_four(word: &[u8], name: &[u8], time: &[u8], period: &[u8]) -> Typed
    ensures { result ≡ of_four word.now name.now time.now period.now }
{
    if !spells(word, b"START") {
        return Typed::Bad;
    }
    let Some(name) = Ident::of(name) else {
        return Typed::Bad;
    };
    let Some(time) = number_within(time, 7, 1, 1000000) else {
        return Typed::Bad;
    };
    let Some(period) = number_within(period, 7, 0, 1000000) else {
        return Typed::Bad;
    };
    Typed::Plans(name, time, period)
}
