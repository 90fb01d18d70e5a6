// Expressions, by the productions of the grammar.

use crate::leading_sign::LeadingSign;
use crate::leaf::{Character, Name, Number};
use std::mem::size_of;

/// A relation: `=`, `<>`, `<`, `>`, `<=` or `>=`.
#[derive(Clone, Copy, Debug, PartialEq, Eq)]
pub enum Relation {
    Equal,
    NotEqual,
    Less,
    Greater,
    LessOrEqual,
    GreaterOrEqual,
}

/// The sign of a simple expression.
#[derive(Clone, Copy, Debug, PartialEq, Eq)]
pub enum Sign {
    Plus,
    Minus,
}

/// What stands between two terms: `+`, `-` or OR.
#[derive(Clone, Copy, Debug, PartialEq, Eq)]
pub enum Adding {
    Plus,
    Minus,
    Or,
}

/// What stands between two factors: `*`, DIV, MOD or `&`.
#[derive(Clone, Copy, Debug, PartialEq, Eq)]
pub enum Multiplying {
    Times,
    Div,
    Mod,
    And,
}

/// A simple expression, alone or compared with another.
#[cycle(expression)]
pub struct Expr {
    pub left: Simple,
    pub right: Option<Box<Comparison>>,
}

impl Drop for Expr {
    #[cycle(drop_expression)]
    fn drop(self) {
        let Self { left: _, right: _ } = self;
    }
}

// An expression that is one name has the fields of all levels, so these are kept small.
const _: () = prove!(size_of::<Expr>() == 112);

/// A relation, its line, and what stands behind it.
#[cycle(expression)]
pub struct Comparison {
    pub relation: Relation,
    pub line: u32,
    pub right: Simple,
}

impl Drop for Comparison {
    #[cycle(drop_expression)]
    fn drop(self) {
        let Self {
            relation: _,
            line: _,
            right: _,
        } = self;
    }
}

/// Terms, each later one with the operator before it and its line.
#[cycle(expression)]
pub struct Simple {
    pub sign: LeadingSign,
    pub first: Term,
    pub rest: Vec<(Adding, u32, Term)>,
}

impl Drop for Simple {
    #[cycle(drop_expression)]
    fn drop(self) {
        let Self {
            sign: _,
            first: _,
            rest: _,
        } = self;
    }
}

/// Factors, each later one with the operator before it and its line.
#[cycle(expression)]
pub struct Term {
    pub first: Factor,
    pub rest: Vec<(Multiplying, u32, Factor)>,
}

impl Drop for Term {
    #[cycle(drop_expression)]
    fn drop(self) {
        let Self { first: _, rest: _ } = self;
    }
}

/// A number, a character, a name with or without an index or arguments, an expression in
/// parentheses, or NOT and a factor.
#[cycle(expression)]
pub enum Factor {
    Number(Number),
    Character(Character),
    Name(Name),
    Element(Name, Box<Index>),
    Call(Name, Box<Arguments>),
    Group {
        opening: u32,
        inner: Box<Expr>,
        closing: u32,
    },
    Not {
        line: u32,
        operand: Box<Factor>,
    },
}

impl Drop for Factor {
    #[cycle(drop_expression)]
    fn drop(self) {
        match self {
            Self::Number(_) => {}
            Self::Character(_) => {}
            Self::Name(_) => {}
            Self::Element(_, _) => {}
            Self::Call(_, _) => {}
            Self::Group {
                opening: _,
                inner: _,
                closing: _,
            } => {}
            Self::Not {
                line: _,
                operand: _,
            } => {}
        }
    }
}

/// An expression between `(.` and `.)`.
#[cycle(expression)]
pub struct Index {
    pub opening: u32,
    pub place: Expr,
    pub closing: u32,
}

impl Drop for Index {
    #[cycle(drop_expression)]
    fn drop(self) {
        let Self {
            opening: _,
            place: _,
            closing: _,
        } = self;
    }
}

/// Expressions between `(` and `)`, each later one with the line of the comma before it.
#[cycle(expression)]
pub struct Arguments {
    pub opening: u32,
    pub first: Expr,
    pub rest: Vec<(u32, Expr)>,
    pub closing: u32,
}

impl Drop for Arguments {
    #[cycle(drop_expression)]
    fn drop(self) {
        let Self {
            opening: _,
            first: _,
            rest: _,
            closing: _,
        } = self;
    }
}
