// The words of a program that are still to be read.

ghost use Rattle.std.specs.Prelude.{◌≡◌, ◌↔◌, List, [], ◌∷◌, false, Bool, IsTrue, IfSome, IfNone, MatchOption};
ghost use Rattle.pascal_tree.specs.Word.{Spot};
ghost use Rattle.pascal_tree.specs.SpellExpression.{reserved_at, symbol_at, name_at, number_at, character_at};
ghost use Rattle.pascal_read.specs.ParseFirst.{first_line, first_is, end_at};
ghost use Rattle.pascal_read.specs.ParseWants.{is_reserved, is_symbol, is_name, is_number, is_character, is_end};

use pascal_tree::leaf::{Character, Name, Number};
use pascal_tree::{Reserved, Symbol, Token, Word};
use std::collections::VecDeque;
use std::marker::Model;

/// A reader over tokens. Contracts see the tokens that are left.
#[derive(Drop)]
pub struct Reader {
    rest: VecDeque<Token>,
}

impl Model for Reader {
    ghost use Rattle.std.specs.Prelude.{List};
    ghost use Rattle.pascal_tree.specs.Word.{Spot};

    ghost Value = { List Spot };

    ghost view = { λ r. r.rest.items };
}

impl Reader {
    /// All tokens are left.
    pub fn new(tokens: Vec<Token>) -> Reader
        ensures { result ≡ tokens.items }
    {
        Reader {
            rest: VecDeque::from(tokens),
        }
    }

    /// Whether no token is left.
    pub fn is_at_end(&self) -> bool
        ensures { IsTrue result ↔ (self.now ≡ []) }
    {
        self.first().is_none()
    }

    /// The line of the first token that is left.
    pub fn line(&self) -> u32
        ensures { result ≡ first_line self.now }
    {
        match self.first() {
            Some(token) => token.line,
            None => 0,
        }
    }

    // The first token that is left.
    fn first(&self) -> Option<&Token>
        ensures { MatchOption result (self.now ≡ [])
            (λ token. (behind : List Spot) × (self.now ≡ token.now ∷ behind)) }
    {
        self.rest.front()
    }

    // Takes the first token.
    fn take(&mut self) -> Option<Token>
        ensures { MatchOption result (self.old ≡ []) (λ token. self.old ≡ token ∷ self.new) }
    {
        self.rest.pop_front()
    }

    // Lets the first token go.
    fn advance(&mut self)
        ensures { (token : Spot) (behind : List Spot) → self.old ≡ token ∷ behind
            → self.new ≡ behind }
    {
        let _ = self.take();
    }

    /// Takes this reserved word, where it is the first, and gives its line.
    pub fn take_reserved(&mut self, reserved: Reserved) -> Option<u32>
        ensures taken { IfSome result (λ line. self.old ≡ reserved_at reserved line ∷ self.new) }
        ensures none { IfNone result (self.new ≡ self.old) }
        ensures other { IfNone result (first_is (λ w. is_reserved w reserved) self.old ≡ false) }
    {
        let token = self.first()?;
        let Word::Reserved(found) = &token.word else {
            return None;
        };
        if *found != reserved {
            return None;
        }
        let line = token.line;
        self.advance();
        Some(line)
    }

    /// Takes this symbol, where it is the first, and gives its line.
    pub fn take_symbol(&mut self, symbol: Symbol) -> Option<u32>
        ensures taken { IfSome result (λ line. self.old ≡ symbol_at symbol line ∷ self.new) }
        ensures none { IfNone result (self.new ≡ self.old) }
        ensures other { IfNone result (first_is (λ w. is_symbol w symbol) self.old ≡ false) }
    {
        let token = self.first()?;
        let Word::Symbol(found) = &token.word else {
            return None;
        };
        if *found != symbol {
            return None;
        }
        let line = token.line;
        self.advance();
        Some(line)
    }

    /// Takes a name, where one is the first.
    pub fn take_name(&mut self) -> Option<Name>
        ensures taken { IfSome result (λ name. self.old ≡ name_at name ∷ self.new) }
        ensures none { IfNone result (self.new ≡ self.old) }
        ensures other { IfNone result (first_is is_name self.old ≡ false) }
    {
        if !self.is_at_name() {
            return None;
        }
        match self.take() {
            Some(token) => Some(name_of(token)),
            None => None,
        }
    }

    // Whether a name is the first token.
    fn is_at_name(&self) -> bool
        ensures { result ≡ first_is is_name self.now }
    {
        match self.first() {
            Some(token) => matches!(&token.word, Word::Name(_)),
            None => false,
        }
    }

    /// Takes a number, where one is the first.
    pub fn take_number(&mut self) -> Option<Number>
        ensures taken { IfSome result (λ number. self.old ≡ number_at number ∷ self.new) }
        ensures none { IfNone result (self.new ≡ self.old) }
        ensures other { IfNone result (first_is is_number self.old ≡ false) }
    {
        let token = self.first()?;
        let Word::Number(value) = &token.word else {
            return None;
        };
        let number = Number {
            value: *value,
            line: token.line,
        };
        self.advance();
        Some(number)
    }

    /// Takes a character, where one is the first.
    pub fn take_character(&mut self) -> Option<Character>
        ensures taken { IfSome result (λ character. self.old ≡ character_at character ∷ self.new) }
        ensures none { IfNone result (self.new ≡ self.old) }
        ensures other { IfNone result (first_is is_character self.old ≡ false) }
    {
        let token = self.first()?;
        let Word::Character(code) = &token.word else {
            return None;
        };
        let character = Character {
            code: *code,
            line: token.line,
        };
        self.advance();
        Some(character)
    }

    /// Takes the end token, where it is the first, and gives its line.
    pub fn take_end(&mut self) -> Option<u32>
        ensures taken { IfSome result (λ line. self.old ≡ end_at line ∷ self.new) }
        ensures none { IfNone result (self.new ≡ self.old) }
        ensures other { IfNone result (first_is is_end self.old ≡ false) }
    {
        let token = self.first()?;
        let Word::End = &token.word else {
            return None;
        };
        let line = token.line;
        self.advance();
        Some(line)
    }
}

// The name that a token is.
fn name_of(token: Token) -> Name
    requires { IsTrue (is_name token.word) }
    ensures { name_at result ≡ token }
{
    let line = token.line;
    match token.word {
        Word::Name(letters) => Name { letters, line },
        _ => unreachable!(),
    }
}
