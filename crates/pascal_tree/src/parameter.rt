// What a routine wants of its arguments.

ghost use Rattle.std.specs.Prelude.{◌≡◌, [], ◌∷◌, ◌++◌, OnOk};

use crate::scalar::Scalar;
use solo_base::NoMemory;
use std::alloc::Global;
use std::marker::Model;

/// What stands for a parameter in a call: a value, the name of a scalar variable, or the name of
/// an array of so many characters.
#[derive(Clone, Copy, Debug, PartialEq, Eq)]
pub enum Parameter {
    Value(Scalar),
    VariableOf(Scalar),
    Characters(u16),
}

/// The parameters of a routine in their order.
///
/// Contracts see a list.
#[derive(Drop)]
pub struct ParameterList {
    items: Vec<Parameter>,
}

impl Model for ParameterList {
    ghost use Rattle.std.specs.Prelude.{List};
    ghost use Rattle.pascal_tree.specs.declared.parameter.Parameter.{Parameter};

    ghost Value = { List Parameter };

    ghost view = { λ p. p.items.items };
}

impl ParameterList {
    /// A list without a parameter.
    pub fn new(alloc: Global) -> ParameterList
        ensures { result ≡ [] }
    {
        ParameterList {
            items: Vec::new(alloc),
        }
    }

    /// One parameter more, behind the others.
    pub fn push(&mut self, parameter: Parameter) -> Result<(), NoMemory>
        ensures { OnOk result (self.new ≡ self.old ++ parameter ∷ []) }
    {
        self.items.push(parameter)?;
        Ok(())
    }

    /// The parameters in their order.
    pub fn parameters(&self) -> &[Parameter]
        ensures { result.now ≡ self.now }
    {
        self.items.as_slice()
    }
}
