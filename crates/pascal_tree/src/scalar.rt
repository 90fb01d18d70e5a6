// The types of variables.

/// A scalar type.
#[derive(Clone, Copy, Debug, PartialEq, Eq)]
pub enum Scalar {
    Integer,
    Boolean,
    Character,
}

/// The type of a variable: a scalar, or an array with its bounds and the type of its elements.
#[derive(Clone, Copy, Debug, PartialEq, Eq)]
pub enum VariableType {
    Plain(Scalar),
    Array {
        low: i16,
        high: i16,
        element: Scalar,
    },
}
