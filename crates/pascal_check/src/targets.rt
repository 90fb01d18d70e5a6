// What an assignment sets, what a statement calls, what a FOR counts in.

ghost use Rattle.std.specs.Prelude.{◌≡◌, ◌&&◌, true, false, None, Some, OnOk, IfErr};
ghost use Rattle.pascal_tree.specs.Scopes.{same_scalar};
ghost use Rattle.pascal_tree.specs.StatementRules.{judged_target, judged_call, judged_control};
ghost use Rattle.pascal_tree.specs.DeclarationRules.{first_broken};
ghost use Rattle.pascal_check.specs.Parts.{judged_element_set};

use crate::meaning::Meaning;
use crate::scope::Scope;
use crate::types::is_same;
use pascal_tree::leaf::Name;
use pascal_tree::{Broken, Scalar, VariableType};

/// What a name without an index is set to: a value of this type. On line `becomes` stands `:=`.
pub fn judge_target(scope: &Scope, name: &Name, value: Scalar, becomes: u32) -> Result<(), Broken>
    ensures ok { OnOk result
        (first_broken (judged_target scope.now name.now (Some value) becomes) ≡ None) }
    ensures broken { IfErr result
        (λ b. first_broken (judged_target scope.now name.now (Some value) becomes) ≡ Some b) }
{
    let line = name.line;
    match scope.meaning(name) {
        None => Err(Broken { rule: 2, line }),
        Some(Meaning::Variable(VariableType::Plain(found))) => agree(found, value, becomes),
        Some(Meaning::Reference(found)) => agree(found, value, becomes),
        Some(Meaning::Variable(VariableType::Array { .. })) => Err(Broken {
            rule: 10,
            line: becomes,
        }),
        Some(Meaning::Function(_, found)) => {
            if scope.is_within(name) {
                agree(found, value, becomes)
            } else {
                Err(Broken { rule: 3, line })
            }
        }
        Some(_) => Err(Broken { rule: 3, line }),
    }
}

// The two sides of an assignment.
fn agree(target: Scalar, value: Scalar, becomes: u32) -> Result<(), Broken>
    ensures ok { OnOk result (same_scalar value target ≡ true) }
    ensures broken { IfErr result
        (λ b. (same_scalar value target ≡ false) × (b ≡ record { rule = 10; line = becomes })) }
{
    if is_same(value, target) {
        Ok(())
    } else {
        Err(Broken {
            rule: 10,
            line: becomes,
        })
    }
}

/// What an element is set to, behind an index of this type.
pub fn judge_element(
    scope: &Scope,
    name: &Name,
    index: Scalar,
    value: Scalar,
    becomes: u32,
) -> Result<(), Broken>
    ensures ok { OnOk result
        (first_broken (judged_element_set scope.now name.now (Some index) (Some value) becomes) ≡ None) }
    ensures broken { IfErr result (λ b. first_broken
        (judged_element_set scope.now name.now (Some index) (Some value) becomes) ≡ Some b) }
{
    let line = name.line;
    match scope.meaning(name) {
        None => Err(Broken { rule: 2, line }),
        Some(Meaning::Variable(VariableType::Array { element, .. })) => {
            agree(element, value, becomes)?;
            if is_same(index, Scalar::Integer) {
                Ok(())
            } else {
                Err(Broken { rule: 11, line })
            }
        }
        Some(Meaning::Variable(VariableType::Plain(_))) => Err(Broken { rule: 11, line }),
        Some(Meaning::Reference(_)) => Err(Broken { rule: 11, line }),
        Some(Meaning::Function(..)) => {
            let rule = if scope.is_within(name) { 11 } else { 3 };
            Err(Broken { rule, line })
        }
        Some(_) => Err(Broken { rule: 3, line }),
    }
}

/// A call as a statement, with so many arguments, that suit or don't.
pub fn judge_call(scope: &Scope, name: &Name, count: usize, suit: bool) -> Result<(), Broken>
    ensures ok { OnOk result (first_broken (judged_call scope.now name.now count suit) ≡ None) }
    ensures broken { IfErr result
        (λ b. first_broken (judged_call scope.now name.now count suit) ≡ Some b) }
{
    let line = name.line;
    match scope.meaning(name) {
        None => Err(Broken { rule: 2, line }),
        Some(Meaning::Procedure(parameters)) => {
            if count != parameters.len() {
                return Err(Broken { rule: 12, line });
            }
            if suit {
                Ok(())
            } else {
                Err(Broken { rule: 13, line })
            }
        }
        Some(_) => Err(Broken { rule: 3, line }),
    }
}

/// The name in which a FOR on line `line` counts, with bounds of these types.
pub fn judge_control(
    scope: &Scope,
    name: &Name,
    from: Scalar,
    to: Scalar,
    line: u32,
) -> Result<(), Broken>
    ensures ok { OnOk result (first_broken (judged_control scope.now name.now
        (same_scalar from Scalar.Integer && same_scalar to Scalar.Integer) line) ≡ None) }
    ensures broken { IfErr result (λ b. first_broken (judged_control scope.now name.now
        (same_scalar from Scalar.Integer && same_scalar to Scalar.Integer) line) ≡ Some b) }
{
    let bounds = is_same(from, Scalar::Integer) && is_same(to, Scalar::Integer);
    match scope.meaning(name) {
        None => Err(Broken {
            rule: 2,
            line: name.line,
        }),
        Some(Meaning::Variable(VariableType::Plain(Scalar::Integer))) if bounds => Ok(()),
        Some(Meaning::Reference(Scalar::Integer)) if bounds => Ok(()),
        Some(_) => Err(Broken { rule: 14, line }),
    }
}
