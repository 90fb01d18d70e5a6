ghost use Rattle.std.specs.Prelude.{◌≡◌, ◌∷◌, [], ℕ, List, Some};
ghost use Rattle.pascal_mean.specs.Batch.{next_character, but_the_first};
ghost use Rattle.program_run.specs.Sight.{no_hand};
ghost use Rattle.program_run.specs.Sharing.{ReadsSo, AcceptsSo, WritesSo, DisplaysSo};

use crate::characters::Characters;
use crate::printing::print_call;
use file_commands::print;
use solo_base::{Line, SysCall};
use std::alloc::Global;
use std::marker::Model;

/// The code that is read where no character is left.
const END_OF_MEDIUM: u8 = 25;

/// What the programs of a command share, but for the files: what is left of the card file, once one was
/// read, and whether it had a spoiled card; what is left of the typed line; the lines in hand of typewriter
/// and printer.
#[derive(Drop)]
pub struct Hands {
    input: Option<Characters>,
    spoiled: bool,
    typed: Characters,
    display: Line,
    print: Line,
}

impl Model for Hands {
    ghost use Rattle.prog_stack.specs.Answers.{Hand};

    ghost Value = { Hand };

    ghost view = { λ h. record {
      input = h.input;
      spoiled = h.spoiled;
      typed = h.typed;
      display = h.display;
      print = h.print;
    } };
}

impl Hands {
    /// At the beginning of a command.
    pub fn new(alloc: Global) -> Hands
        ensures { result ≡ no_hand }
    {
        Hands {
            input: None,
            spoiled: false,
            typed: Characters::none(alloc),
            display: Line::new(),
            print: Line::new(),
        }
    }

    /// READ. `None` where no card file was read yet.
    pub fn read(&mut self) -> Option<u8>
        ensures { ReadsSo self.old result self.new }
    {
        match &mut self.input {
            None => None,
            Some(input) => Some(next_or_end(input)),
        }
    }

    /// ACCEPT. `None` where nothing is left of the typed line.
    pub fn accept(&mut self) -> Option<u8>
        ensures { AcceptsSo self.old result self.new }
    {
        self.typed.next()
    }

    /// WRITE and WRITEINT. A line that is completed is given.
    pub fn write(&mut self, call: &SysCall) -> Option<Line>
        ensures { WritesSo self.old call.now result self.new }
    {
        print_call(&mut self.print, call)
    }

    /// DISPLAY. A line that is completed is given.
    pub fn display(&mut self, code: u8) -> Option<Line>
        ensures { DisplaysSo self.old code result self.new }
    {
        print(&mut self.display, code)
    }

    /// Takes the characters of a card file, and gives the first one.
    pub fn take_cards(&mut self, codes: Vec<u8>, spoiled: bool) -> u8
        ensures code { result ≡ next_character codes.items }
        ensures rest { self.new ≡ record self.old {
          input = Some (but_the_first codes.items);
          spoiled = spoiled;
        } }
    {
        let mut input = Characters::of(codes);
        let code = next_or_end(&mut input);
        self.input = Some(input);
        self.spoiled = spoiled;
        code
    }

    /// Takes the characters of a typed line, and gives the first one.
    pub fn take_line(&mut self, codes: Vec<u8>) -> u8
        ensures code { result ≡ next_character codes.items }
        ensures rest { self.new ≡ record self.old { typed = but_the_first codes.items } }
    {
        self.typed = Characters::of(codes);
        next_or_end(&mut self.typed)
    }

    /// Whether the card file had a spoiled card.
    pub fn spoiled(&self) -> bool
        ensures { result ≡ self.now.spoiled }
    {
        self.spoiled
    }

    /// The line in hand of the typewriter.
    pub fn displayed(&self) -> &Line
        ensures { result.now ≡ self.now.display }
    {
        &self.display
    }

    /// The line in hand of the printer.
    pub fn printed(&self) -> &Line
        ensures { result.now ≡ self.now.print }
    {
        &self.print
    }
}

// The next character, and code 25 where none is left.
fn next_or_end(left: &mut Characters) -> u8
    ensures code { result ≡ next_character left.old }
    ensures rest { left.new ≡ but_the_first left.old }
{
    match left.next() {
        Some(code) => code,
        None => END_OF_MEDIUM,
    }
}
