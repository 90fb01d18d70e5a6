// The words of a tree that carry more than their kind, each with its line.

use crate::letters::Letters;
use std::marker::Model;

/// A name in capitals.
pub struct Name {
    pub letters: Letters,
    pub line: u32,
}

impl Drop for Name {
    fn drop(self) {
        let Self {
            letters: _,
            line: _,
        } = self;
    }
}

impl Model for Name {
    ghost use Rattle.pascal_tree.specs.Word.{NameAt, IsName};

    ghost Value = { NameAt };

    ghost view = { λ n. record { letters = n.letters; line = n.line } };

    ghost inverse = { λ n. record { letters = n.letters; line = n.line } };

    ghost invariant = { λ n. IsName n.letters };
}

/// A number, at most 32767.
#[derive(Drop)]
pub struct Number {
    pub value: u16,
    pub line: u32,
}

impl Model for Number {
    ghost use Rattle.std.specs.Prelude.{◌≤◌};
    ghost use Rattle.pascal_tree.specs.Word.{NumberAt};

    ghost Value = { NumberAt };

    ghost view = { λ n. record { value = n.value; line = n.line } };

    ghost inverse = { λ n. record { value = n.value; line = n.line } };

    ghost invariant = { λ n. n.value ≤ 32767 };
}

/// A character, whose code is at most 127.
#[derive(Drop)]
pub struct Character {
    pub code: u8,
    pub line: u32,
}

impl Model for Character {
    ghost use Rattle.std.specs.Prelude.{◌≤◌};
    ghost use Rattle.pascal_tree.specs.Word.{CharacterAt};

    ghost Value = { CharacterAt };

    ghost view = { λ c. record { code = c.code; line = c.line } };

    ghost inverse = { λ c. record { code = c.code; line = c.line } };

    ghost invariant = { λ c. c.code ≤ 127 };
}
