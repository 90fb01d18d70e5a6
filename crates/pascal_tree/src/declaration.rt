// Declarations and the whole program, by the productions of the grammar.

use crate::constant::Constant;
use crate::leaf::Name;
use crate::statement::Body;

/// Names, each later one with the line of the comma before it.
pub struct Names {
    pub first: Name,
    pub rest: Vec<(u32, Name)>,
}

impl Drop for Names {
    fn drop(self) {
        let Self { first: _, rest: _ } = self;
    }
}

/// `name = constant ;`
pub struct Definition {
    pub name: Name,
    pub equal: u32,
    pub value: Constant,
    pub semicolon: u32,
}

impl Drop for Definition {
    fn drop(self) {
        let Self {
            name: _,
            equal: _,
            value: _,
            semicolon: _,
        } = self;
    }
}

/// CONST and its definitions.
pub struct Consts {
    pub line: u32,
    pub first: Definition,
    pub rest: Vec<Definition>,
}

impl Drop for Consts {
    fn drop(self) {
        let Self {
            line: _,
            first: _,
            rest: _,
        } = self;
    }
}

/// A type: a name, or an array with its bounds and the name of its elements' type.
pub enum Kind {
    Name(Name),
    Array {
        line: u32,
        opening: u32,
        low: Constant,
        up_to: u32,
        high: Constant,
        closing: u32,
        of: u32,
        element: Name,
    },
}

impl Drop for Kind {
    fn drop(self) {
        match self {
            Self::Name(_) => {}
            Self::Array {
                line: _,
                opening: _,
                low: _,
                up_to: _,
                high: _,
                closing: _,
                of: _,
                element: _,
            } => {}
        }
    }
}

/// Variables of one type, with the line of the semicolon behind them.
pub struct Group {
    pub names: Names,
    pub colon: u32,
    pub kind: Kind,
    pub semicolon: u32,
}

impl Drop for Group {
    fn drop(self) {
        let Self {
            names: _,
            colon: _,
            kind: _,
            semicolon: _,
        } = self;
    }
}

/// VAR and its groups.
pub struct Vars {
    pub line: u32,
    pub first: Group,
    pub rest: Vec<Group>,
}

impl Drop for Vars {
    fn drop(self) {
        let Self {
            line: _,
            first: _,
            rest: _,
        } = self;
    }
}

/// Parameters of one type, with the line of the VAR before them where they are variables.
pub struct ParameterGroup {
    pub var: Option<u32>,
    pub names: Names,
    pub colon: u32,
    pub kind: Name,
}

impl Drop for ParameterGroup {
    fn drop(self) {
        let Self {
            var: _,
            names: _,
            colon: _,
            kind: _,
        } = self;
    }
}

/// Parameters in parentheses, each later group with the line of the semicolon before it.
pub struct Parameters {
    pub opening: u32,
    pub first: ParameterGroup,
    pub rest: Vec<(u32, ParameterGroup)>,
    pub closing: u32,
}

impl Drop for Parameters {
    fn drop(self) {
        let Self {
            opening: _,
            first: _,
            rest: _,
            closing: _,
        } = self;
    }
}

/// Constants, variables and the statements that use them.
pub struct Block {
    pub consts: Option<Consts>,
    pub vars: Option<Vars>,
    pub body: Body,
}

impl Drop for Block {
    fn drop(self) {
        let Self {
            consts: _,
            vars: _,
            body: _,
        } = self;
    }
}

/// A procedure or a function, with the lines of its semicolons.
pub enum Routine {
    Procedure {
        line: u32,
        name: Name,
        parameters: Option<Parameters>,
        semicolon: u32,
        block: Block,
        end: u32,
    },
    Function {
        line: u32,
        name: Name,
        parameters: Option<Parameters>,
        colon: u32,
        answer: Name,
        semicolon: u32,
        block: Block,
        end: u32,
    },
}

impl Drop for Routine {
    fn drop(self) {
        match self {
            Self::Procedure {
                line: _,
                name: _,
                parameters: _,
                semicolon: _,
                block: _,
                end: _,
            } => {}
            Self::Function {
                line: _,
                name: _,
                parameters: _,
                colon: _,
                answer: _,
                semicolon: _,
                block: _,
                end: _,
            } => {}
        }
    }
}

/// PROGRAM, its name and the line of the semicolon behind it.
pub struct Heading {
    pub line: u32,
    pub name: Name,
    pub semicolon: u32,
}

impl Drop for Heading {
    fn drop(self) {
        let Self {
            line: _,
            name: _,
            semicolon: _,
        } = self;
    }
}

/// A program, with the lines of its period and of the end token.
pub struct Program {
    pub heading: Option<Heading>,
    pub consts: Option<Consts>,
    pub vars: Option<Vars>,
    pub routines: Vec<Routine>,
    pub body: Body,
    pub period: u32,
    pub end: u32,
}

impl Drop for Program {
    fn drop(self) {
        let Self {
            heading: _,
            consts: _,
            vars: _,
            routines: _,
            body: _,
            period: _,
            end: _,
        } = self;
    }
}
