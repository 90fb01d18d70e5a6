// Constants, and the labels of a CASE.
#![tactic(auto, using(crate::proofs::Firsts::firsts))]

ghost use Rattle.std.specs.Prelude.{◌≡◌, None, Some, IfOk, OnOk, IfErr};
ghost use Rattle.pascal_tree.specs.Lines.{first_line_of_constant};
ghost use Rattle.pascal_tree.specs.SeenStatement.{seen_labels};
ghost use Rattle.pascal_tree.specs.Scopes.{means_of};
ghost use Rattle.pascal_tree.specs.StatementRules.{value_of, constant_meant, judged_constant, judged_constant_name, judged_label, judged_more_labels, judged_labels, with_value, more_values, values_of_labels};
ghost use Rattle.pascal_tree.specs.DeclarationRules.{first_broken};
ghost use Rattle.pascal_check.specs.Faults.{IsFault};

use crate::earlier::Earlier;
use crate::fault::CheckFault;
use crate::meaning::Meaning;
use crate::scope::Scope;
use crate::types::is_same;
use pascal_tree::constant::{Constant, Labels};
use pascal_tree::leaf::Name;
use pascal_tree::{Broken, Scalar};

/// The type of a constant and its value, or its code.
#[derive(Clone, Copy)]
pub struct Valued {
    pub type_: Scalar,
    pub value: i16,
}

/// A constant, and what it stands for.
pub fn judge_constant(scope: &Scope, constant: &Constant) -> Result<Valued, Broken>
    ensures ok { OnOk result (first_broken (judged_constant scope.now constant.now) ≡ None) }
    ensures value { IfOk result (λ v. value_of scope.now constant.now
        ≡ Some (record { type = v.type_; value = v.value })) }
    ensures broken { IfErr result
        (λ b. first_broken (judged_constant scope.now constant.now) ≡ Some b) }
{
    match constant {
        Constant::Name(name) => judge_constant_name(scope, name),
        Constant::Number(number) => Ok(Valued {
            type_: Scalar::Integer,
            value: number.value as i16,
        }),
        Constant::Negative(_, number) => Ok(Valued {
            type_: Scalar::Integer,
            value: -(number.value as i16),
        }),
        Constant::Character(character) => Ok(Valued {
            type_: Scalar::Character,
            value: i16::from(character.code),
        }),
    }
}

fn judge_constant_name(scope: &Scope, name: &Name) -> Result<Valued, Broken>
    ensures ok { OnOk result (first_broken (judged_constant_name scope.now name.now) ≡ None) }
    ensures value { IfOk result (λ v. constant_meant (means_of scope.now name.now.letters)
        ≡ Some (record { type = v.type_; value = v.value })) }
    ensures broken { IfErr result
        (λ b. first_broken (judged_constant_name scope.now name.now) ≡ Some b) }
{
    let line = name.line;
    match scope.meaning(name) {
        None => Err(Broken { rule: 2, line }),
        Some(Meaning::Constant(type_, value)) => Ok(Valued { type_, value }),
        Some(_) => Err(Broken { rule: 3, line }),
    }
}

fn first_line(constant: &Constant) -> u32
    ensures { result ≡ first_line_of_constant constant.now }
{
    match constant {
        Constant::Name(name) => name.line,
        Constant::Number(number) => number.line,
        Constant::Negative(line, _) => *line,
        Constant::Character(character) => character.line,
    }
}

/// The labels of a branch, behind those before it in the CASE.
pub fn judge_labels(
    scope: &Scope,
    selector: Scalar,
    earlier: &mut Earlier,
    labels: &Labels,
) -> Result<(), CheckFault>
    ensures ok { OnOk result (first_broken
        (judged_labels scope.now (Some selector) earlier.old (seen_labels labels.now)) ≡ None) }
    ensures values { OnOk result
        (earlier.new ≡ values_of_labels scope.now earlier.old (seen_labels labels.now)) }
    ensures broken { IfErr result (IsFault
        (judged_labels scope.now (Some selector) earlier.old (seen_labels labels.now))) }
{
    judge_label(scope, selector, earlier, &labels.first)?;
    judge_more_labels(scope, selector, earlier, &labels.rest)
}

fn judge_more_labels(
    scope: &Scope,
    selector: Scalar,
    earlier: &mut Earlier,
    labels: &[(u32, Constant)],
) -> Result<(), CheckFault>
    ensures ok { OnOk result (first_broken
        (judged_more_labels scope.now (Some selector) earlier.old labels.now) ≡ None) }
    ensures values { OnOk result
        (earlier.new ≡ more_values scope.now earlier.old labels.now) }
    ensures broken { IfErr result (IsFault
        (judged_more_labels scope.now (Some selector) earlier.old labels.now)) }
{
    for (_, label) in labels {
        judge_label(scope, selector, earlier, label)?;
    }
    Ok(())
}

fn judge_label(
    scope: &Scope,
    selector: Scalar,
    earlier: &mut Earlier,
    label: &Constant,
) -> Result<(), CheckFault>
    ensures ok { OnOk result (first_broken
        (judged_label scope.now (Some selector) earlier.old label.now) ≡ None) }
    ensures values { OnOk result
        (earlier.new ≡ with_value (value_of scope.now label.now) earlier.old) }
    ensures broken { IfErr result (IsFault
        (judged_label scope.now (Some selector) earlier.old label.now)) }
{
    let found = judge_constant(scope, label)?;
    if !is_same(selector, found.type_) || earlier.contains(found.value) {
        return Err(CheckFault::Semantic {
            line: first_line(label),
            rule: 15,
        });
    }
    earlier.add(found.value)?;
    Ok(())
}
