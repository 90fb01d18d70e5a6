// The arguments of a call.

ghost use Rattle.std.specs.Prelude.{◌≡◌, None, Some, IfOk, OnOk, IfErr};
ghost use Rattle.std.specs.Option.{option_copied};
ghost use Rattle.pascal_tree.specs.Expression as tree;
ghost use Rattle.pascal_tree.specs.SeenExpression.{seen_expr, seen_simple, seen_term, seen_factor};
ghost use Rattle.pascal_tree.specs.ExpressionRules.{plain_name, first_parameter, later_parameters, judged_name, is_for_array};
ghost use Rattle.pascal_tree.specs.DeclarationRules.{first_broken};
ghost use Rattle.pascal_check.specs.Parts.{name_suits, value_suits};

use crate::scope::Scope;
use crate::types::{is_characters, is_same, is_variable};
use crate::values::{judge_array_name, judge_name};
use pascal_tree::expression::{Expr, Factor, Simple, Term};
use pascal_tree::leaf::Name;
use pascal_tree::{Broken, Parameter, Scalar};

/// The name that an expression is, where it is nothing more.
pub fn plain_name(expr: &Expr) -> Option<&Name>
    ensures { option_copied result ≡ plain_name (seen_expr expr.now) }
{
    match &expr.right {
        None => plain_simple(&expr.left),
        Some(_) => None,
    }
}

fn plain_simple(simple: &Simple) -> Option<&Name>
    ensures { option_copied result ≡ plain_name (tree.alone (seen_simple simple.now)) }
{
    if simple.sign.is_some() {
        return None;
    }
    match simple.rest.as_slice() {
        [] => plain_term(&simple.first),
        [_, ..] => None,
    }
}

fn plain_term(term: &Term) -> Option<&Name>
    ensures { option_copied result ≡ plain_name
        (tree.alone (tree.simple None (seen_term term.now) tree.no_addend)) }
{
    match term.rest.as_slice() {
        [] => plain_factor(&term.first),
        [_, ..] => None,
    }
}

fn plain_factor(factor: &Factor) -> Option<&Name>
    ensures { option_copied result ≡ plain_name
        (tree.alone (tree.simple None (tree.term (seen_factor factor.now) tree.no_multiplier)
        tree.no_addend)) }
{
    match factor {
        Factor::Number(_) => None,
        Factor::Character(_) => None,
        Factor::Name(name) => Some(name),
        Factor::Element(..) => None,
        Factor::Call(..) => None,
        Factor::Group { .. } => None,
        Factor::Not { .. } => None,
    }
}

/// The first of these parameters, if there is one.
pub fn first(parameters: &[Parameter]) -> Option<Parameter>
    ensures { result ≡ first_parameter parameters.now }
{
    match parameters {
        [] => None,
        [first, ..] => Some(*first),
    }
}

/// The parameters behind the first.
pub fn later(parameters: &[Parameter]) -> &[Parameter]
    ensures { result.now ≡ later_parameters parameters.now }
{
    match parameters {
        [] => &[],
        [_, rest @ ..] => rest,
    }
}

/// A plain name as an argument, and whether it is what its parameter wants.
pub fn judge_plain(scope: &Scope, name: &Name, parameter: Option<Parameter>) -> Result<bool, Broken>
    ensures ok { OnOk result
        (first_broken (judged_name scope.now name.now (is_for_array parameter)) ≡ None) }
    ensures suit { IfOk result (λ r. r ≡ name_suits scope.now name.now parameter) }
    ensures broken { IfErr result
        (λ b. first_broken (judged_name scope.now name.now (is_for_array parameter)) ≡ Some b) }
{
    match parameter {
        None => {
            judge_name(scope, name)?;
            Ok(true)
        }
        Some(Parameter::Value(wanted)) => {
            let found = judge_name(scope, name)?;
            Ok(is_same(found, wanted))
        }
        Some(Parameter::VariableOf(wanted)) => {
            judge_name(scope, name)?;
            Ok(is_variable(scope.meaning(name), wanted))
        }
        Some(Parameter::Characters(length)) => {
            judge_array_name(scope, name)?;
            Ok(is_characters(scope.meaning(name), length))
        }
    }
}

/// Whether a value of this type, which is no plain name, is what its parameter wants.
pub fn suits(found: Scalar, parameter: Option<Parameter>) -> bool
    ensures { result ≡ value_suits found parameter }
{
    match parameter {
        None => true,
        Some(Parameter::Value(wanted)) => is_same(found, wanted),
        Some(_) => false,
    }
}
