// Expressions.

ghost use Rattle.std.specs.Prelude.{◌≡◌, None, Some, IfOk, OnOk, IfErr};
ghost use Rattle.pascal_tree.specs.Scopes.{or_else};
ghost use Rattle.pascal_tree.specs.SeenExpression.{seen_expr, seen_comparison, seen_simple, seen_term, seen_factor, seen_index, seen_arguments, seen_addends, seen_multipliers, seen_exprs};
ghost use Rattle.pascal_tree.specs.ExpressionRules.{judged_expr, judged_simple, judged_addends, judged_adding, judged_term, judged_multipliers, judged_multiplying, judged_factor, judged_arguments, judged_exprs, expr_type, simple_type, term_type, factor_type, addends_type, multipliers_type, arguments_suit, all_suit, suits_first};
ghost use Rattle.pascal_tree.specs.DeclarationRules.{first_broken};
ghost use Rattle.pascal_check.specs.Parts.{judged_right, judged_argument};

use crate::arguments::{first, judge_plain, later, plain_name, suits};
use crate::operands::Operands;
use crate::scope::Scope;
use crate::types::{adding_type, is_same, multiplying_type, parameters_of};
use crate::values::{judge_called, judge_element_of, judge_name};
use pascal_tree::expression::{
    Adding, Arguments, Comparison, Expr, Factor, Index, Multiplying, Simple, Term,
};
use pascal_tree::leaf::Name;
use pascal_tree::{Broken, Parameter, Scalar};

/// An expression, and its type.
#[cycle(judge_expression)]
pub fn judge_expr(scope: &Scope, expr: &Expr) -> Result<Scalar, Broken>
    ensures ok { OnOk result (first_broken (judged_expr scope.now (seen_expr expr.now)) ≡ None) }
    ensures typed { IfOk result (λ t. expr_type scope.now (seen_expr expr.now) ≡ Some t) }
    ensures broken { IfErr result
        (λ b. first_broken (judged_expr scope.now (seen_expr expr.now)) ≡ Some b) }
{
    let left = judge_simple(scope, &expr.left)?;
    match &expr.right {
        None => Ok(left),
        Some(comparison) => judge_comparison(scope, left, comparison),
    }
}

// A relation behind a left side of this type, and its right side.
#[cycle(judge_expression)]
fn judge_comparison(scope: &Scope, left: Scalar, comparison: &Comparison) -> Result<Scalar, Broken>
    ensures ok { OnOk result (first_broken
        (judged_right scope.now (Some left) (seen_comparison comparison.now)) ≡ None) }
    ensures typed { IfOk result (λ t. t ≡ Scalar.Boolean) }
    ensures broken { IfErr result (λ b. first_broken
        (judged_right scope.now (Some left) (seen_comparison comparison.now)) ≡ Some b) }
{
    let right = judge_simple(scope, &comparison.right)?;
    if is_same(right, left) {
        Ok(Scalar::Boolean)
    } else {
        Err(Broken {
            rule: 8,
            line: comparison.line,
        })
    }
}

// Terms, with a sign before the first or none.
#[cycle(judge_expression)]
fn judge_simple(scope: &Scope, simple: &Simple) -> Result<Scalar, Broken>
    ensures ok { OnOk result
        (first_broken (judged_simple scope.now (seen_simple simple.now)) ≡ None) }
    ensures typed { IfOk result (λ t. simple_type scope.now (seen_simple simple.now) ≡ Some t) }
    ensures broken { IfErr result
        (λ b. first_broken (judged_simple scope.now (seen_simple simple.now)) ≡ Some b) }
{
    let first = judge_term(scope, &simple.first)?;
    let mut operands = Operands::signed(&simple.sign, first);
    judge_addends(scope, &mut operands, &simple.rest)?;
    operands.whole()
}

// The later terms.
#[cycle(judge_expression)]
fn judge_addends(
    scope: &Scope,
    operands: &mut Operands,
    addends: &[(Adding, u32, Term)],
) -> Result<(), Broken>
    ensures ok { OnOk result
        (first_broken (judged_addends scope.now (seen_addends addends.now)) ≡ None) }
    ensures clash { OnOk result (operands.new.clash ≡ or_else operands.old.clash (first_broken
        (judged_adding scope.now (Some operands.old.type_) (seen_addends addends.now)))) }
    ensures typed { OnOk result (addends_type (Some operands.old.type_) (seen_addends addends.now)
        ≡ Some operands.new.type_) }
    ensures broken { IfErr result
        (λ b. first_broken (judged_addends scope.now (seen_addends addends.now)) ≡ Some b) }
{
    for (adding, line, term) in addends {
        let right = judge_term(scope, term)?;
        operands.push(adding_type(*adding), *line, right);
    }
    Ok(())
}

// A factor and those behind it.
#[cycle(judge_expression)]
fn judge_term(scope: &Scope, term: &Term) -> Result<Scalar, Broken>
    ensures ok { OnOk result (first_broken (judged_term scope.now (seen_term term.now)) ≡ None) }
    ensures typed { IfOk result (λ t. term_type scope.now (seen_term term.now) ≡ Some t) }
    ensures broken { IfErr result
        (λ b. first_broken (judged_term scope.now (seen_term term.now)) ≡ Some b) }
{
    let first = judge_factor(scope, &term.first)?;
    let mut operands = Operands::first(first);
    judge_multipliers(scope, &mut operands, &term.rest)?;
    operands.whole()
}

// The later factors.
#[cycle(judge_expression)]
fn judge_multipliers(
    scope: &Scope,
    operands: &mut Operands,
    multipliers: &[(Multiplying, u32, Factor)],
) -> Result<(), Broken>
    ensures ok { OnOk result
        (first_broken (judged_multipliers scope.now (seen_multipliers multipliers.now)) ≡ None) }
    ensures clash { OnOk result (operands.new.clash ≡ or_else operands.old.clash (first_broken
        (judged_multiplying scope.now (Some operands.old.type_) (seen_multipliers multipliers.now)))) }
    ensures typed { OnOk result
        (multipliers_type (Some operands.old.type_) (seen_multipliers multipliers.now)
        ≡ Some operands.new.type_) }
    ensures broken { IfErr result (λ b. first_broken
        (judged_multipliers scope.now (seen_multipliers multipliers.now)) ≡ Some b) }
{
    for (multiplying, line, factor) in multipliers {
        let right = judge_factor(scope, factor)?;
        operands.push(multiplying_type(*multiplying), *line, right);
    }
    Ok(())
}

#[cycle(judge_expression)]
fn judge_factor(scope: &Scope, factor: &Factor) -> Result<Scalar, Broken>
    ensures ok { OnOk result
        (first_broken (judged_factor scope.now (seen_factor factor.now)) ≡ None) }
    ensures typed { IfOk result (λ t. factor_type scope.now (seen_factor factor.now) ≡ Some t) }
    ensures broken { IfErr result
        (λ b. first_broken (judged_factor scope.now (seen_factor factor.now)) ≡ Some b) }
{
    match factor {
        Factor::Number(_) => Ok(Scalar::Integer),
        Factor::Character(_) => Ok(Scalar::Character),
        Factor::Name(name) => judge_name(scope, name),
        Factor::Element(name, index) => {
            let index = judge_expr(scope, &index.place)?;
            judge_element_of(scope, name, index)
        }
        Factor::Call(name, arguments) => {
            let parameters = parameters_of(scope.meaning(name));
            let suit = judge_arguments(scope, arguments, parameters)?;
            judge_called(scope, name, arguments.rest.len() + 1, suit)
        }
        Factor::Group { inner, .. } => judge_expr(scope, inner),
        Factor::Not { line, operand } => {
            let found = judge_factor(scope, operand)?;
            if is_same(found, Scalar::Boolean) {
                Ok(Scalar::Boolean)
            } else {
                Err(Broken {
                    rule: 8,
                    line: *line,
                })
            }
        }
    }
}

/// Arguments for these parameters, and whether they are what the parameters want.
#[cycle(judge_expression)]
pub fn judge_arguments(
    scope: &Scope,
    arguments: &Arguments,
    parameters: &[Parameter],
) -> Result<bool, Broken>
    ensures ok { OnOk result (first_broken
        (judged_arguments scope.now (seen_arguments arguments.now) parameters.now) ≡ None) }
    ensures suit { IfOk result
        (λ r. r ≡ arguments_suit scope.now (seen_arguments arguments.now) parameters.now) }
    ensures broken { IfErr result (λ b. first_broken
        (judged_arguments scope.now (seen_arguments arguments.now) parameters.now) ≡ Some b) }
{
    let suits = judge_argument(scope, &arguments.first, first(parameters))?;
    let later_suit = judge_later_arguments(scope, &arguments.rest, later(parameters))?;
    Ok(suits && later_suit)
}

#[cycle(judge_expression)]
fn judge_later_arguments(
    scope: &Scope,
    arguments: &[(u32, Expr)],
    parameters: &[Parameter],
) -> Result<bool, Broken>
    ensures ok { OnOk result (first_broken
        (judged_exprs scope.now (seen_exprs arguments.now) parameters.now) ≡ None) }
    ensures suit { IfOk result
        (λ r. r ≡ all_suit scope.now (seen_exprs arguments.now) parameters.now) }
    ensures broken { IfErr result (λ b. first_broken
        (judged_exprs scope.now (seen_exprs arguments.now) parameters.now) ≡ Some b) }
{
    let mut left = parameters;
    let mut all = true;
    for (_, expr) in arguments {
        let suits = judge_argument(scope, expr, first(left))?;
        all = all && suits;
        left = later(left);
    }
    Ok(all)
}

#[tactic(auto, using(crate::proofs::Plain::as_argument))]
#[cycle(judge_expression)]
fn judge_argument(scope: &Scope, expr: &Expr, parameter: Option<Parameter>) -> Result<bool, Broken>
    ensures ok { OnOk result
        (first_broken (judged_argument scope.now (seen_expr expr.now) parameter) ≡ None) }
    ensures suit { IfOk result (λ r. r ≡ suits_first scope.now (seen_expr expr.now) parameter) }
    ensures broken { IfErr result (λ b. first_broken
        (judged_argument scope.now (seen_expr expr.now) parameter) ≡ Some b) }
{
    match plain_name(expr) {
        Some(name) => judge_plain(scope, name, parameter),
        None => {
            let found = judge_expr(scope, expr)?;
            Ok(suits(found, parameter))
        }
    }
}
