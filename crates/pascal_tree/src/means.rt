// What a name of a program can mean.

use crate::parameter::ParameterList;
use crate::scalar::{Scalar, VariableType};

/// What a name means. A constant has its value, or its code where it is a character; a reference
/// is a VAR parameter.
#[derive(Drop)]
pub enum Means {
    Constant(Scalar, i16),
    Variable(VariableType),
    Reference(Scalar),
    Procedure(ParameterList),
    Function(ParameterList, Scalar),
    TypeName(Scalar),
}
