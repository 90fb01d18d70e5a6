// Constants, which stand in declarations and as the labels of a CASE.

use crate::leaf::{Character, Name, Number};

/// A constant. A number with a minus sign has the sign's line first.
pub enum Constant {
    Name(Name),
    Number(Number),
    Negative(u32, Number),
    Character(Character),
}

impl Drop for Constant {
    fn drop(self) {
        match self {
            Self::Name(_) => {}
            Self::Number(_) => {}
            Self::Negative(_, _) => {}
            Self::Character(_) => {}
        }
    }
}

/// The labels of a branch, each later one with the line of the comma before it.
pub struct Labels {
    pub first: Constant,
    pub rest: Vec<(u32, Constant)>,
}

impl Drop for Labels {
    fn drop(self) {
        let Self { first: _, rest: _ } = self;
    }
}
