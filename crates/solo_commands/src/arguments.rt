ghost use Rattle.std.specs.Prelude.{◌≡◌, ◌<◌, length};
ghost use Rattle.solo_commands.specs.Words.{comma_words};
ghost use Rattle.solo_commands.specs.Arguments.{argument_said, arguments, each_argument, number, with_one, with_others};

use crate::words::{cut, trim};
use deck_format::number_within;
use solo_base::{ARG_LIMIT, Arg, ArgList, Ident, spells};

/// The arguments that the words between the commas are, or `None` where one of them is none or there are
/// more than ten.
pub fn arguments(text: &[u8]) -> Option<ArgList>
    ensures { result ≡ arguments (comma_words text.now) }
{
    add_arguments(ArgList::new(), text)
}

// These arguments, and behind them those that the words between the commas are.
fn add_arguments(args: ArgList, text: &[u8]) -> Option<ArgList>
    ensures { result ≡ with_others args (each_argument (comma_words text.now)) }
{
    if args.len() >= ARG_LIMIT {
        return None;
    }
    match cut(text, b',') {
        Some((first, rest)) => add_arguments(add_argument(args, trim(first))?, rest),
        None => add_argument(args, trim(text)),
    }
}

// These arguments, and behind them the one that this word is.
fn add_argument(args: ArgList, word: &[u8]) -> Option<ArgList>
    requires { length args < ARG_LIMIT }
    ensures { result ≡ with_one args (argument_said word.now) }
{
    let mut args = args;
    args.push(argument(word)?);
    Some(args)
}

fn argument(word: &[u8]) -> Option<Arg>
    ensures { result ≡ argument_said word.now }
{
    if spells(word, b"NIL") {
        return Some(Arg::Nil);
    }
    if spells(word, b"TRUE") {
        return Some(Arg::Bool(true));
    }
    if spells(word, b"FALSE") {
        return Some(Arg::Bool(false));
    }
    if let Some(value) = number(word) {
        return Some(Arg::Int(value));
    }
    match Ident::of(word) {
        Some(name) => Some(Arg::Id(name)),
        None => None,
    }
}

// The number that one to five digits write, with `-` before a negative one.
fn number(word: &[u8]) -> Option<i16>
    ensures { result ≡ number word.now }
{
    match word {
        [sign, digits @ ..] if *sign == b'-' => match number_within(digits, 5, 0, 32768) {
            Some(value) => Some((0 - value as i32) as i16),
            None => None,
        },
        _ => match number_within(word, 5, 0, 32767) {
            Some(value) => Some(value as i16),
            None => None,
        },
    }
}
