// What names are to the code.

use solo_base::Procedure;

/// Whose frame a variable lies in: the program's, or that of the routine in which its name stands.
#[derive(Clone, Copy)]
pub enum Owner {
    OfProgram,
    OfRoutine,
}

/// The first and the last index of an array.
#[derive(Clone, Copy)]
pub struct Bounds {
    pub low: i16,
    pub high: i16,
}

/// The functions ABS, SUCC, PRED, ORD and CHR.
#[derive(Clone, Copy)]
pub enum Standard {
    Abs,
    Succ,
    Pred,
    Ord,
    Chr,
}

/// How an argument is passed: by its value, as a variable or as a whole array.
#[derive(Clone, Copy)]
pub enum Passing {
    ByValue,
    ByVariable,
    ByArray,
}

/// What a name is to the code: a constant with its value; a variable and an array with the first
/// word in its owner's frame; a VAR parameter with the first of its two words in the own frame; a
/// routine with its number, and how its arguments are passed.
#[derive(Clone, Copy)]
pub enum Sense<'a> {
    Constant(i16),
    Variable(Owner, u16),
    Array(Owner, u16, Bounds),
    Reference(u16),
    Routine(u16, &'a [Passing]),
    Function(Standard),
    Interface(Procedure),
    Nothing,
}
