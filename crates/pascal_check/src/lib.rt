// The static rules of Sequential Pascal: the first rule that a tree breaks.
#![tactic(auto)]

mod arguments;
mod checker;
mod constants;
mod definitions;
mod earlier;
mod expressions;
mod fault;
mod groups;
mod laws;
mod meaning;
mod names;
mod operands;
mod parameters;
mod predeclared;
mod routines;
mod scope;
mod statements;
mod targets;
mod types;
mod values;

pub use checker::check;
pub use fault::CheckFault;
pub use laws::{
    a_program_is_its_nodes, calls_have_their_parameters, expressions_have_types,
    frames_have_their_size, labels_have_values, names_have_their_declarations,
    parts_of_the_unbroken_are_unbroken,
};
