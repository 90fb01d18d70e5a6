ghost use Rattle.std.specs.Prelude.{◌≡◌, ◌++◌, ◌∷◌, []};
ghost use Rattle.solo_cli.specs.Words.{asked, alone, takes_number, option_of, greatest_number, with_number, number_behind, apart, joined};

use deck_format::number_within;
use made_deck::LAST_NUMBER;

/// What the words of a command line ask for.
#[derive(Clone, Copy, Debug, PartialEq, Eq)]
pub enum Command {
    /// Runs a card deck on threads.
    Batch,
    /// Runs a card deck on the core, under the schedule of a number.
    Core { schedule: u32 },
    /// Makes the deck of a number, runs it on the core and prints the numbers of both.
    Make { number: u32 },
    /// Makes the area of the files one without a file.
    Format,
    /// Makes an area of format 1 one of format 2 with the same files.
    Migrate,
    /// Judges a description of access rights.
    Check,
    /// Runs a script of the real-time scheduler, under the schedule of a number.
    Times { schedule: u32 },
    /// Runs a session of Solo on threads.
    Solo,
}

/// A command that takes a number.
#[derive(Clone, Copy, Debug, PartialEq, Eq)]
pub enum Numbered {
    Core,
    Make,
    Times,
}

/// How many digits a number has at most.
const DIGITS: usize = 10;

/// The command that the words are, or `None` where they are no written form.
pub fn command_of(words: &[String]) -> Option<Command>
    ensures { result ≡ asked words.now }
{
    match words {
        [word] => alone(word.as_str()),
        [first, second] => {
            let (first, second) = (first.as_str(), second.as_str());
            joined(first, second).or(joined(second, first))
        }
        [first, second, third] => {
            let (first, second, third) = (first.as_str(), second.as_str(), third.as_str());
            apart(first, second, third).or(apart(third, first, second))
        }
        _ => None,
    }
}

/// The commands that stand alone.
fn alone(word: &str) -> Option<Command>
    ensures { result ≡ alone word.now }
{
    if word == "batch" {
        Some(Command::Batch)
    } else if word == "format" {
        Some(Command::Format)
    } else if word == "migrate" {
        Some(Command::Migrate)
    } else if word == "check" {
        Some(Command::Check)
    } else if word == "solo" {
        Some(Command::Solo)
    } else {
        None
    }
}

/// The command whose option and number are two words.
fn apart(word: &str, option: &str, digits: &str) -> Option<Command>
    ensures { result ≡ apart word.now option.now digits.now }
{
    let kind = takes_number(word)?;
    if option != kind.option() {
        return None;
    }
    let number = number_within(digits.as_bytes(), DIGITS, 0, kind.most())?;
    Some(kind.with_number(number))
}

/// The command whose option and number are one word, with `=` between them.
fn joined(word: &str, option: &str) -> Option<Command>
    ensures { result ≡ joined word.now option.now }
{
    let kind = takes_number(word)?;
    let number = number_behind(kind.option_before_number(), kind.most(), option.as_bytes())?;
    Some(kind.with_number(number))
}

/// The command of this word that takes a number.
fn takes_number(word: &str) -> Option<Numbered>
    ensures { result ≡ takes_number word.now }
{
    if word == "core" {
        Some(Numbered::Core)
    } else if word == "make" {
        Some(Numbered::Make)
    } else if word == "times" {
        Some(Numbered::Times)
    } else {
        None
    }
}

/// The number behind this beginning of a word.
fn number_behind(beginning: &[u8], most: u32, word: &[u8]) -> Option<u32>
    ensures { result ≡ number_behind beginning.now most word.now }
{
    match beginning {
        [] => number_within(word, DIGITS, 0, most),
        [code, later @ ..] => match word {
            [first, rest @ ..] if first == code => number_behind(later, most, rest),
            _ => None,
        },
    }
}

impl Numbered {
    /// The option that names the number.
    fn option(self) -> &'static str
        ensures { result.now ≡ option_of self }
    {
        match self {
            Numbered::Core | Numbered::Times => "--schedule",
            Numbered::Make => "--number",
        }
    }

    /// The option with the `=` behind it.
    fn option_before_number(self) -> &'static [u8]
        ensures { result.now ≡ option_of self ++ 61 ∷ [] }
    {
        match self {
            Numbered::Core | Numbered::Times => b"--schedule=",
            Numbered::Make => b"--number=",
        }
    }

    /// The greatest number.
    fn most(self) -> u32
        ensures { result ≡ greatest_number self }
    {
        match self {
            Numbered::Core | Numbered::Times => 2_147_483_647,
            Numbered::Make => LAST_NUMBER,
        }
    }

    /// The command with its number.
    fn with_number(self, number: u32) -> Command
        ensures { result ≡ with_number self number }
    {
        match self {
            Numbered::Core => Command::Core { schedule: number },
            Numbered::Make => Command::Make { number },
            Numbered::Times => Command::Times { schedule: number },
        }
    }
}
