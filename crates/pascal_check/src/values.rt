// Names, elements and calls as factors.

ghost use Rattle.std.specs.Prelude.{◌≡◌, ◌≤◌, true, false, None, Some, IfOk, OnOk, IfErr};
ghost use Rattle.pascal_tree.specs.Scopes.{means_of};
ghost use Rattle.pascal_tree.specs.ExpressionRules.{judged_name, judged_element_of, judged_called, named_type, element_type, called_type};
ghost use Rattle.pascal_tree.specs.DeclarationRules.{first_broken};

use crate::meaning::Meaning;
use crate::scope::Scope;
use crate::types::is_same;
use pascal_tree::leaf::Name;
use pascal_tree::{Broken, Scalar, VariableType};

/// A name as a factor, and its type.
pub fn judge_name(scope: &Scope, name: &Name) -> Result<Scalar, Broken>
    ensures ok { OnOk result (first_broken (judged_name scope.now name.now false) ≡ None) }
    ensures typed { IfOk result (λ t. named_type (means_of scope.now name.now.letters) ≡ Some t) }
    ensures broken { IfErr result (λ b. first_broken (judged_name scope.now name.now false) ≡ Some b) }
{
    let line = name.line;
    match scope.meaning(name) {
        None => Err(Broken { rule: 2, line }),
        Some(Meaning::Constant(found, _)) => Ok(found),
        Some(Meaning::Variable(VariableType::Plain(found))) => Ok(found),
        Some(Meaning::Variable(VariableType::Array { .. })) => Err(Broken { rule: 11, line }),
        Some(Meaning::Reference(found)) => Ok(found),
        Some(Meaning::Procedure(_)) => Err(Broken { rule: 3, line }),
        Some(Meaning::Function(parameters, found)) => {
            if parameters.is_empty() {
                Ok(found)
            } else {
                Err(Broken { rule: 12, line })
            }
        }
        Some(Meaning::TypeName(_)) => Err(Broken { rule: 3, line }),
    }
}

/// A name at the place of an array argument. An array may stand there.
pub fn judge_array_name(scope: &Scope, name: &Name) -> Result<(), Broken>
    ensures ok { OnOk result (first_broken (judged_name scope.now name.now true) ≡ None) }
    ensures broken { IfErr result (λ b. first_broken (judged_name scope.now name.now true) ≡ Some b) }
{
    let line = name.line;
    match scope.meaning(name) {
        None => Err(Broken { rule: 2, line }),
        Some(Meaning::Procedure(_)) => Err(Broken { rule: 3, line }),
        Some(Meaning::Function(parameters, _)) => {
            if parameters.is_empty() {
                Ok(())
            } else {
                Err(Broken { rule: 12, line })
            }
        }
        Some(Meaning::TypeName(_)) => Err(Broken { rule: 3, line }),
        Some(_) => Ok(()),
    }
}

/// An element as a factor, behind an index of this type, and its own type.
pub fn judge_element_of(scope: &Scope, name: &Name, index: Scalar) -> Result<Scalar, Broken>
    ensures ok { OnOk result (first_broken (judged_element_of scope.now name.now (Some index)) ≡ None) }
    ensures typed { IfOk result (λ t. element_type (means_of scope.now name.now.letters) ≡ Some t) }
    ensures broken { IfErr result
        (λ b. first_broken (judged_element_of scope.now name.now (Some index)) ≡ Some b) }
{
    let line = name.line;
    match scope.meaning(name) {
        None => Err(Broken { rule: 2, line }),
        Some(Meaning::Variable(VariableType::Array { element, .. })) => {
            if is_same(index, Scalar::Integer) {
                Ok(element)
            } else {
                Err(Broken { rule: 11, line })
            }
        }
        Some(Meaning::Procedure(_)) => Err(Broken { rule: 3, line }),
        Some(Meaning::TypeName(_)) => Err(Broken { rule: 3, line }),
        Some(_) => Err(Broken { rule: 11, line }),
    }
}

/// A call as a factor, behind so many arguments, that suit or don't, and its type.
pub fn judge_called(scope: &Scope, name: &Name, count: usize, suit: bool) -> Result<Scalar, Broken>
    requires { 1 ≤ count }
    ensures ok { OnOk result (first_broken (judged_called scope.now name.now count suit) ≡ None) }
    ensures typed { IfOk result (λ t. called_type (means_of scope.now name.now.letters) ≡ Some t) }
    ensures broken { IfErr result
        (λ b. first_broken (judged_called scope.now name.now count suit) ≡ Some b) }
{
    let line = name.line;
    match scope.meaning(name) {
        None => Err(Broken { rule: 2, line }),
        Some(Meaning::Function(parameters, found)) => {
            if count != parameters.len() {
                return Err(Broken { rule: 12, line });
            }
            if !suit {
                return Err(Broken { rule: 13, line });
            }
            Ok(found)
        }
        Some(Meaning::Variable(VariableType::Array { .. })) => Err(Broken { rule: 11, line }),
        Some(Meaning::Procedure(_)) => Err(Broken { rule: 3, line }),
        Some(Meaning::TypeName(_)) => Err(Broken { rule: 3, line }),
        Some(_) => Err(Broken { rule: 12, line }),
    }
}
