// What a name can mean, and the names that a program or a routine declares.

use pascal_tree::Letters;
use solo_base::Procedure;

/// INTEGER, BOOLEAN or CHAR.
#[derive(Clone, Copy)]
pub enum Scalar {
    Integer,
    Boolean,
    Char,
}

/// Whose variable it is: the program's, or that of the routine in which its name stands.
#[derive(Clone, Copy)]
pub enum Owner {
    OfProgram,
    OfRoutine,
}

/// The first and the last index of an array.
#[derive(Clone, Copy)]
pub struct Bounds {
    pub low: i16,
    pub high: i16,
}

/// The functions ABS, SUCC, PRED, ORD and CHR.
#[derive(Clone, Copy)]
pub enum Standard {
    Abs,
    Succ,
    Pred,
    Ord,
    Chr,
}

/// A parameter, and whether it is a VAR parameter.
pub struct Parameter {
    pub letters: Letters,
    pub scalar: Scalar,
    pub is_variable: bool,
}

impl Drop for Parameter {
    fn drop(self) {
        let Self {
            letters: _,
            scalar: _,
            is_variable: _,
        } = self;
    }
}

/// The parameters of a routine in order, and the type of its result where it is a function.
pub struct Signature {
    pub parameters: Vec<Parameter>,
    pub answer: Option<Scalar>,
}

impl Drop for Signature {
    fn drop(self) {
        let Self {
            parameters: _,
            answer: _,
        } = self;
    }
}

/// What a name can mean that isn't a routine's.
#[derive(Clone, Copy)]
pub enum Plain {
    Constant(Scalar, i16),
    Variable(Owner, Scalar),
    Array(Owner, Scalar, Bounds),
    Reference(Scalar),
    Function(Standard),
    Interface(Procedure),
    TypeName(Scalar),
    Nothing,
}

/// What a declaration says that its name means. Routines have numbers from 1.
pub enum Means {
    Plain(Plain),
    Routine(usize, Signature),
}

impl Drop for Means {
    fn drop(self) {
        match self {
            Self::Plain(_) => {}
            Self::Routine(_, _) => {}
        }
    }
}

/// What a name means, as it is looked up.
#[derive(Clone, Copy)]
pub enum Sense<'a> {
    Plain(Plain),
    Routine(usize, &'a Signature),
}

/// A declared name, and what it means.
pub struct Item {
    pub letters: Letters,
    pub means: Means,
}

impl Drop for Item {
    fn drop(self) {
        let Self {
            letters: _,
            means: _,
        } = self;
    }
}
