ghost use Rattle.std.specs.Prelude.{◌≡◌, ◌<◌, ◌≤◌, ◌==◌, ℤ, List, [], ◌∷◌, length, take, drop, reverse, slice_get, IfOk, IfSome, IfNone, MatchOption};
ghost use Rattle.stack_machine.specs.Store.{Bounded};
ghost use Rattle.stack_machine.specs.declared.operands.TheConstants.{HEIGHT};

use std::alloc::{AllocError, Global};
use std::marker::Model;

/// How many operands there are at most.
pub(crate) const HEIGHT: usize = 1536;

/// The operand stack of an activation, the topmost word first. The room for it is taken when it is
/// made.
#[derive(Debug, Drop)]
pub struct Operands {
    words: Vec<i16>,
    height: usize,
}

impl Model for Operands {
    ghost Value = { Bounded };

    ghost view = { λ operands. record {
      words = reverse (take operands.height operands.words.items);
      room = length operands.words.items;
    } };

    ghost invariant = { λ operands. (operands.height ≤ length operands.words.items)
        × (length operands.words.items ≤ HEIGHT) };
}

impl Operands {
    /// An empty stack, with room for so many words.
    pub(crate) fn new(alloc: Global, room: usize) -> Result<Operands, AllocError>
        requires { room ≤ HEIGHT }
        ensures { IfOk result (λ operands. operands ≡ record { words = []; room = room }) }
    {
        Ok(Operands {
            words: vec![in alloc; 0; room]?,
            height: 0,
        })
    }

    /// How many operands there are.
    pub(crate) fn len(&self) -> usize
        ensures count { result ≡ length self.now.words }
        ensures bound { result ≤ HEIGHT }
    {
        self.height
    }

    /// Puts a word on top.
    pub(crate) fn push(&mut self, word: i16)
        requires { length self.old.words < self.old.room }
        ensures { self.new ≡ record self.old { words = word ∷ self.old.words } }
    {
        self.words[self.height] = word;
        self.height += 1;
    }

    /// Takes the topmost word, if there is one.
    pub(crate) fn pop(&mut self) -> Option<i16>
        ensures some { IfSome result (λ word.
            self.old ≡ record self.new { words = word ∷ self.new.words }) }
        ensures none { IfNone result ((self.old.words ≡ []) × (self.new ≡ self.old)) }
        ensures room { IfSome result (λ _. length self.new.words < self.new.room) }
    {
        if self.height == 0 {
            return None;
        }
        self.height -= 1;
        Some(self.words[self.height])
    }

    /// The word at a depth, the topmost at 0, if there is one.
    pub(crate) fn get(&self, depth: usize) -> Option<i16>
        ensures { result ≡ slice_get self.now.words depth }
    {
        if depth < self.height {
            Some(self.words[self.height - 1 - depth])
        } else {
            None
        }
    }

    /// So many words from the top, the lowest of them first.
    pub(crate) fn top(&self, count: usize) -> &[i16]
        requires { count ≤ length self.now.words }
        ensures { result.now ≡ reverse (take count self.now.words) }
    {
        &self.words[self.height - count..self.height]
    }

    /// Takes so many words off the top.
    pub(crate) fn drop_top(&mut self, count: usize)
        requires { count ≤ length self.old.words }
        ensures { self.new ≡ record self.old { words = drop count self.old.words } }
    {
        self.height -= count;
    }

    /// Takes all words.
    pub(crate) fn clear(&mut self)
        ensures { self.new ≡ record self.old { words = [] } }
    {
        self.height = 0;
    }
}
