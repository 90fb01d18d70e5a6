// What a program reads in the batch.

ghost use Rattle.std.specs.Prelude.{◌≡◌, IfOk};
ghost use Rattle.solo_base.specs.Text.{text};
ghost use Rattle.pascal_mean.specs.Batch.{next_character, but_the_first};

use solo_base::{LineList, NoMemory};
use std::alloc::Global;
use std::marker::Model;

/// The code that is read where the input has ended.
const END_OF_MEDIUM: u8 = 25;

/// The input of a program: the characters of each card, followed by code 10, and then code 25 for ever.
///
/// Contracts see the characters that weren't read yet, without the codes 25.
#[derive(Debug, Drop)]
pub struct Input {
    text: Vec<u8>,
    read: usize,
}

impl Model for Input {
    ghost use Rattle.std.specs.Prelude.{ℕ, List, drop};

    ghost Value = { List ℕ };

    ghost view = { λ i. drop i.read i.text.items };
}

impl Input {
    /// The input of these cards.
    pub fn of(alloc: Global, cards: &LineList) -> Result<Input, NoMemory>
        ensures { IfOk result (λ input. input ≡ text cards.now) }
    {
        let text = text_of(alloc, cards)?;
        Ok(Input { text, read: 0 })
    }

    /// The next character.
    pub fn read(&mut self) -> u8
        ensures code { result ≡ next_character self.old }
        ensures rest { self.new ≡ but_the_first self.old }
    {
        match self.text.as_slice().get(self.read) {
            Some(code) => {
                self.read += 1;
                *code
            }
            None => END_OF_MEDIUM,
        }
    }
}

/// The characters of these cards, each card's followed by code 10.
pub fn text_of(alloc: Global, cards: &LineList) -> Result<Vec<u8>, NoMemory>
    ensures { IfOk result (λ all. all.items ≡ text cards.now) }
{
    let mut text = Vec::new(alloc);
    for place in 0..cards.len() {
        text.extend_from_slice(cards.get(place).bytes())?;
        text.push(b'\n')?;
    }
    Ok(text)
}
