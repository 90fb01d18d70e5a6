// Statements, by the productions of the grammar. Beside each part stand the lines of the words
// before and after it.

use crate::constant::Labels;
use crate::expression::{Arguments, Expr, Index};
use crate::leaf::Name;

/// A statement.
#[cycle(statement)]
pub enum Statement {
    Empty,
    Assign(Box<Assign>),
    Call(Box<Call>),
    Compound(Box<Body>),
    If(Box<If>),
    While(Box<While>),
    Repeat(Box<Repeat>),
    For(Box<For>),
    Case(Box<Case>),
}

impl Drop for Statement {
    #[cycle(drop_statement)]
    fn drop(self) {
        match self {
            Self::Empty => {}
            Self::Assign(_) => {}
            Self::Call(_) => {}
            Self::Compound(_) => {}
            Self::If(_) => {}
            Self::While(_) => {}
            Self::Repeat(_) => {}
            Self::For(_) => {}
            Self::Case(_) => {}
        }
    }
}

/// An assignment to a name, or to an element of an array.
pub struct Assign {
    pub target: Name,
    pub index: Option<Box<Index>>,
    pub becomes: u32,
    pub value: Expr,
}

impl Drop for Assign {
    fn drop(self) {
        let Self {
            target: _,
            index: _,
            becomes: _,
            value: _,
        } = self;
    }
}

/// A call of a procedure.
pub struct Call {
    pub name: Name,
    pub arguments: Option<Box<Arguments>>,
}

impl Drop for Call {
    fn drop(self) {
        let Self {
            name: _,
            arguments: _,
        } = self;
    }
}

/// An IF, whose ELSE stands with its line.
#[cycle(statement)]
pub struct If {
    pub line: u32,
    pub test: Expr,
    pub then: u32,
    pub first: Statement,
    pub otherwise: Option<(u32, Statement)>,
}

impl Drop for If {
    #[cycle(drop_statement)]
    fn drop(self) {
        let Self {
            line: _,
            test: _,
            then: _,
            first: _,
            otherwise: _,
        } = self;
    }
}

/// A WHILE.
#[cycle(statement)]
pub struct While {
    pub line: u32,
    pub test: Expr,
    pub does: u32,
    pub turn: Statement,
}

impl Drop for While {
    #[cycle(drop_statement)]
    fn drop(self) {
        let Self {
            line: _,
            test: _,
            does: _,
            turn: _,
        } = self;
    }
}

/// A REPEAT.
#[cycle(statement)]
pub struct Repeat {
    pub line: u32,
    pub turn: Statements,
    pub until: u32,
    pub test: Expr,
}

impl Drop for Repeat {
    #[cycle(drop_statement)]
    fn drop(self) {
        let Self {
            line: _,
            turn: _,
            until: _,
            test: _,
        } = self;
    }
}

/// The direction of a FOR.
#[derive(Clone, Copy, Debug, PartialEq, Eq)]
pub enum Direction {
    To,
    Downto,
}

/// A FOR, with the line of its direction.
#[cycle(statement)]
pub struct For {
    pub line: u32,
    pub control: Name,
    pub becomes: u32,
    pub from: Expr,
    pub direction: Direction,
    pub toward: u32,
    pub to: Expr,
    pub does: u32,
    pub turn: Statement,
}

impl Drop for For {
    #[cycle(drop_statement)]
    fn drop(self) {
        let Self {
            line: _,
            control: _,
            becomes: _,
            from: _,
            direction: _,
            toward: _,
            to: _,
            does: _,
            turn: _,
        } = self;
    }
}

/// A CASE, each later branch with the line of the semicolon before it.
#[cycle(statement)]
pub struct Case {
    pub line: u32,
    pub selector: Expr,
    pub of: u32,
    pub first: Branch,
    pub rest: Vec<(u32, Branch)>,
    pub end: u32,
}

impl Drop for Case {
    #[cycle(drop_statement)]
    fn drop(self) {
        let Self {
            line: _,
            selector: _,
            of: _,
            first: _,
            rest: _,
            end: _,
        } = self;
    }
}

/// A branch of a CASE.
#[cycle(statement)]
pub struct Branch {
    pub labels: Labels,
    pub colon: u32,
    pub statement: Statement,
}

impl Drop for Branch {
    #[cycle(drop_statement)]
    fn drop(self) {
        let Self {
            labels: _,
            colon: _,
            statement: _,
        } = self;
    }
}

/// Statements, each later one with the line of the semicolon before it.
#[cycle(statement)]
pub struct Statements {
    pub first: Statement,
    pub rest: Vec<(u32, Statement)>,
}

impl Drop for Statements {
    #[cycle(drop_statement)]
    fn drop(self) {
        let Self { first: _, rest: _ } = self;
    }
}

/// Statements between BEGIN and END.
#[cycle(statement)]
pub struct Body {
    pub begin: u32,
    pub statements: Statements,
    pub end: u32,
}

impl Drop for Body {
    #[cycle(drop_statement)]
    fn drop(self) {
        let Self {
            begin: _,
            statements: _,
            end: _,
        } = self;
    }
}
