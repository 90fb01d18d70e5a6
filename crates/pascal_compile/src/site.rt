// Where statements stand.

ghost use Rattle.std.specs.Prelude.{◌≡◌};
ghost use Rattle.pascal_code.specs.Senses.{number_of, constant_value};
ghost use Rattle.pascal_compile.specs.Seen.{seen_owner, seen_sense, seen_scope, IsSmall, AreSmall};

use crate::names::Names;
use crate::predeclared::predeclared;
use crate::senses::{Owner, Sense};
use pascal_tree::constant::Constant;
use pascal_tree::leaf::Name;

/// What a name is to the code by its declaration among the own names, else among the program's, else
/// before any program.
pub fn find<'a>(own: &Names<'a>, program: &Names<'a>, letters: &[u8]) -> Sense<'a>
    ensures { seen_sense result ≡ seen_scope own.now program.now letters.now }
{
    if let Some(sense) = own.get(letters) {
        return sense;
    }
    if let Some(sense) = program.get(letters) {
        return sense;
    }
    predeclared(letters)
}

/// The number that a constant stands for.
pub fn number<'a>(own: &Names<'a>, program: &Names<'a>, constant: &Constant) -> i16
    ensures { result ≡ constant_value (seen_scope own.now program.now) constant.now }
{
    match constant {
        Constant::Name(name) => number_named(find(own, program, name.letters.bytes())),
        Constant::Number(number) => number.value as i16,
        Constant::Negative(_, number) => -(number.value as i16),
        Constant::Character(character) => i16::from(character.code),
    }
}

fn number_named(sense: Sense<'_>) -> i16
    ensures { result ≡ number_of (seen_sense sense.entry) }
{
    match sense {
        Sense::Constant(number) => number,
        _ => 0,
    }
}

/// Where statements stand: the own names and those of the program, whose frame the own one is, and
/// the word of a function's result.
#[derive(Drop)]
pub struct Site<'t, 'a> {
    pub own: &'t Names<'a>,
    pub program: &'t Names<'a>,
    pub owner: Owner,
    pub answer: u16,
    ghost small: { AreSmall (seen_scope own.now program.now) },
}

impl<'t, 'a> Site<'t, 'a> {
    ghost use Rattle.pascal_compile.specs.SeenSite.{seen_site};

    /// Statements of the program or of a routine, whose frames fit the machine.
    pub fn new(
        own: &'t Names<'a>,
        program: &'t Names<'a>,
        owner: Owner,
        answer: u16,
    ) -> Site<'t, 'a>
        requires { AreSmall (seen_scope own.now program.now) }
        ensures { seen_site result ≡ record {
          names = seen_scope own.now program.now;
          owner = seen_owner owner;
          result = answer;
        } }
    {
        Site {
            own,
            program,
            owner,
            answer,
        }
    }

    /// What a name is to the code.
    pub fn find(&self, letters: &[u8]) -> Sense<'a>
        ensures sense { seen_sense result ≡ (seen_site self.now).names letters.now }
        ensures small { IsSmall (seen_sense result) }
    {
        find(self.own, self.program, letters)
    }

    /// What a name is to the code.
    pub fn find_name(&self, name: &Name) -> Sense<'a>
        ensures sense { seen_sense result ≡ (seen_site self.now).names name.now.letters }
        ensures small { IsSmall (seen_sense result) }
    {
        self.find(name.letters.bytes())
    }

    /// The number that a label stands for.
    pub fn number(&self, label: &Constant) -> i16
        ensures { result ≡ constant_value (seen_site self.now).names label.now }
    {
        number(self.own, self.program, label)
    }

    /// Whose frame the own one is.
    pub fn owner(&self) -> Owner
        ensures { seen_owner result ≡ (seen_site self.now).owner }
    {
        self.owner
    }

    /// The word of a function's result.
    pub fn answer(&self) -> u16
        ensures { result ≡ (seen_site self.now).result }
    {
        self.answer
    }
}
