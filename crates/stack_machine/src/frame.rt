ghost use Rattle.std.specs.Prelude.{◌≡◌, ◌<◌, ◌≤◌, ◌-◌, ◌++◌, ℤ, pos, List, [], length, take, replicate, slice_get, slice_set, IfOk};
ghost use Rattle.stack_machine.specs.Store.{Bounded};
ghost use Rattle.stack_machine.specs.declared.frame.TheConstants.{FRAME_WORDS};

use std::alloc::{AllocError, Global};
use std::marker::Model;

/// How many words a frame has at most.
pub(crate) const FRAME_WORDS: usize = 4352;

/// The words of an activation's frame. The room for them is taken when it is made.
#[derive(Debug, Drop)]
pub struct Frame {
    words: Vec<i16>,
    len: usize,
}

impl Model for Frame {
    ghost Value = { Bounded };

    ghost view = { λ frame. record {
      words = take frame.len frame.words.items;
      room = length frame.words.items;
    } };

    ghost invariant = { λ frame. (frame.len ≤ length frame.words.items)
        × (length frame.words.items ≤ FRAME_WORDS) };
}

impl Frame {
    /// A frame of no words, with room for so many.
    pub(crate) fn new(alloc: Global, room: usize) -> Result<Frame, AllocError>
        requires { room ≤ FRAME_WORDS }
        ensures { IfOk result (λ frame. frame ≡ record { words = []; room = room }) }
    {
        Ok(Frame {
            words: vec![in alloc; 0; room]?,
            len: 0,
        })
    }

    /// How many words the frame has.
    pub(crate) fn len(&self) -> usize
        ensures count { result ≡ length self.now.words }
        ensures bound { result ≤ FRAME_WORDS }
    {
        self.len
    }

    /// The word at a place, if the frame has it.
    pub(crate) fn get(&self, place: usize) -> Option<i16>
        ensures { result ≡ slice_get self.now.words place }
    {
        if place < self.len {
            Some(self.words[place])
        } else {
            None
        }
    }

    /// Changes the word at a place.
    pub(crate) fn set(&mut self, place: usize, word: i16)
        requires { place < length self.old.words }
        ensures { self.new ≡ record self.old { words = slice_set self.old.words place word } }
    {
        self.words[place] = word;
    }

    /// Begins again with so many words: the arguments, and behind them 0.
    pub(crate) fn begin(&mut self, arguments: &[i16], len: usize)
        requires front { length arguments.now ≤ len }
        requires room { len ≤ self.old.room }
        ensures { self.new ≡ record self.old {
          words =
              arguments.now ++ replicate (len - length arguments.now) (pos 0);
        } }
    {
        for place in 0..len {
            self.words[place] = if place < arguments.len() {
                arguments[place]
            } else {
                0
            };
        }
        self.len = len;
    }
}
