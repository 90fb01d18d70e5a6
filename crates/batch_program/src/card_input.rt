// What a program reads while its cards come.

ghost use Rattle.std.specs.Prelude.{◌≡◌, false, true, [], IfSome};
ghost use Rattle.solo_base.specs.Line.{IsLine};
ghost use Rattle.solo_base.specs.Fits.{Fits};
ghost use Rattle.solo_base.specs.Text.{line_text};
ghost use Rattle.pascal_mean.specs.Batch.{but_the_first, input_after};
ghost use Rattle.batch_program.specs.Input.{character_so_far, reply_so_far};

use arrayvec::ArrayVec;
use solo_base::{LINE_LENGTH, Line, SysCall, SysReply};
use std::marker::Model;

/// The code that is read where the input has ended.
const END_OF_MEDIUM: u8 = 25;

/// How many characters a card has at most, with the code 10 behind it.
const CARD_LENGTH: usize = LINE_LENGTH + 1;

/// The card in hand: its characters, followed by code 10.
///
/// Contracts see the characters that weren't read yet, and whether no further card comes.
#[derive(Debug, Drop)]
pub struct CardInput {
    text: ArrayVec<u8, CARD_LENGTH>,
    read: usize,
    closed: bool,
}

impl Model for CardInput {
    ghost use Rattle.std.specs.Prelude.{drop};
    ghost use Rattle.batch_program.specs.CardsLeft.{CardsLeft};

    ghost Value = { CardsLeft };

    ghost view = { λ i. record { left = drop i.read i.text.items; closed = i.closed } };
}

impl CardInput {
    /// The input before its first card.
    pub fn new() -> CardInput
        ensures { result ≡ record { left = []; closed = false } }
    {
        CardInput {
            text: ArrayVec::new(),
            read: 0,
            closed: false,
        }
    }

    /// Takes the next card, once the one in hand was read.
    pub fn feed(&mut self, card: &Line)
        requires { self.old.left ≡ [] }
        ensures fed { self.new ≡ record self.old { left = line_text card.now } }
        ensures line { IsLine card.now }
    {
        self.text.clear();
        let _ = self.text.try_extend_from_slice(card.bytes());
        self.text.push(b'\n');
        self.read = 0;
    }

    /// No further card comes.
    pub fn close(&mut self)
        ensures { self.new ≡ record self.old { closed = true } }
    {
        self.closed = true;
    }

    /// The reply to a call, or `None` for a READ that waits for a card.
    pub fn answer(&mut self, call: &SysCall) -> Option<SysReply>
        ensures reply { result ≡ reply_so_far self.old.left self.old.closed call.now }
        ensures rest { self.new ≡ record self.old { left = input_after self.old.left call.now } }
        ensures fits { IfSome result (λ reply. Fits call.now reply) }
    {
        match call {
            SysCall::Read => match self.read() {
                Some(code) => Some(SysReply::Char(code)),
                None => None,
            },
            SysCall::Write(_) | SysCall::WriteInt(_) => Some(SysReply::Done),
            _ => Some(SysReply::CallError),
        }
    }

    // The next character, if there is one by now.
    fn read(&mut self) -> Option<u8>
        ensures code { result ≡ character_so_far self.old.left self.old.closed }
        ensures rest { self.new ≡ record self.old { left = but_the_first self.old.left } }
    {
        match self.text.as_slice().get(self.read) {
            Some(code) => {
                self.read += 1;
                Some(*code)
            }
            None if self.closed => Some(END_OF_MEDIUM),
            None => None,
        }
    }
}
