// The words of Sequential Pascal, and the trees that they spell.
#![tactic(auto)]

mod broken;
mod checked;
pub mod constant;
pub mod declaration;
pub mod expression;
mod leading_sign;
pub mod leaf;
mod letters;
mod means;
mod one_spelling;
mod parameter;
mod scalar;
mod spell_constant;
mod spell_expression;
mod spell_statement;
mod spelling;
pub mod statement;
mod token;
mod tree;

pub use broken::Broken;
pub use checked::Checked;
pub use leading_sign::LeadingSign;
pub use letters::Letters;
pub use means::Means;
pub use one_spelling::spells_one_tree;
pub use parameter::{Parameter, ParameterList};
pub use scalar::{Scalar, VariableType};
pub use spelling::spell;
pub use token::{Reserved, Symbol, Token, Word};
pub use tree::Tree;
