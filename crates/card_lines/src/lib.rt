//! An example for those who build pipelines, and a problem of Conway's: cards of 80 columns are printed in
//! lines of
//! 125 characters, and each pair of asterisks becomes an upward arrow.
#![tactic(auto)]

ghost use Rattle.std.specs.Prelude.{◌≡◌, [], ◌∷◌, ◌++◌, OnOk};
ghost use Rattle.pipeline.specs.First.{IsFirst};
ghost use Rattle.card_lines.specs.Cards.{printed, squeezed};

use pipeline::{Blocks, Came, Each, Function, Outs, Stage, run_three};
use solo_base::NoMemory;
use std::alloc::Global;
use std::sync::Wait;
use std::thread::Threads;

pub type CardImage = [u8; 80];

pub type PrintLine = [u8; 125];

/// The lines that the cards are printed in.
pub fn print_cards<R: Threads + Wait + Sync>(
    rt: &R,
    alloc: Global,
    cards: Vec<CardImage>,
) -> Came<PrintLine>
    ensures first { IsFirst result.items.items (printed cards.items) }
    ensures all { OnOk result.ended (result.items.items ≡ printed cards.items) }
{
    let lines = Blocks::<u8, 125>::new(b' ');
    run_three(
        rt,
        alloc,
        cards,
        Each(Columns),
        Squeeze { asterisk: false },
        lines,
    )
}

/// Gives the characters of a card, and a space behind them.
#[derive(Drop)]
struct Columns;

impl Function for Columns {
    type In = CardImage;

    type Out = u8;

    ghost of = { λ columns card. card ++ 32 ∷ [] };

    fn call(&self, card: CardImage, outs: &mut Outs<u8>) -> Result<(), NoMemory> {
        outs.give_all(&card)?;
        outs.give(b' ')
    }
}

/// Gives an upward arrow for each pair of asterisks.
#[derive(Drop)]
struct Squeeze {
    /// The last character was one, and isn't given yet.
    asterisk: bool,
}

impl Stage for Squeeze {
    type In = u8;

    type Out = u8;

    ghost gives = { λ stage chars. squeezed stage.asterisk chars };

    fn step(&mut self, char: u8, outs: &mut Outs<u8>) -> Result<(), NoMemory> {
        if self.asterisk {
            self.asterisk = false;
            if char == b'*' {
                return outs.give(b'^');
            }
            return outs.give_all(&[b'*', char]);
        }
        if char == b'*' {
            self.asterisk = true;
            return Ok(());
        }
        outs.give(char)
    }

    fn last(&mut self, outs: &mut Outs<u8>) -> Result<(), NoMemory> {
        if self.asterisk {
            return outs.give(b'*');
        }
        Ok(())
    }
}
