// Statements.

ghost use Rattle.std.specs.Prelude.{◌≡◌, true, false, None, Some, OnOk, IfErr};
ghost use Rattle.pascal_tree.specs.Scopes.{same_scalar};
ghost use Rattle.pascal_tree.specs.SeenStatement.{seen_assign, seen_call, seen_if, seen_while, seen_repeat, seen_for, seen_case, seen_statement, seen_sequence, seen_statements, seen_body, seen_branch, seen_branches};
ghost use Rattle.pascal_tree.specs.StatementRules.{judged_statement, judged_body, judged_sequence, judged_statements, judged_branch, judged_branches, values_of_branch};
ghost use Rattle.pascal_tree.specs.DeclarationRules.{first_broken};
ghost use Rattle.pascal_check.specs.Faults.{IsFault};

use crate::constants::judge_labels;
use crate::earlier::Earlier;
use crate::expressions::{judge_arguments, judge_expr};
use crate::fault::CheckFault;
use crate::scope::Scope;
use crate::targets::{judge_call, judge_control, judge_element, judge_target};
use crate::types::{is_same, parameters_of};
use pascal_tree::statement::{
    Assign, Body, Branch, Call, Case, For, If, Repeat, Statement, Statements, While,
};
use pascal_tree::{Broken, Scalar};

fn judge_assign(scope: &Scope, assign: &Assign) -> Result<(), Broken>
    ensures ok { OnOk result
        (first_broken (judged_statement scope.now (seen_assign assign.now)) ≡ None) }
    ensures broken { IfErr result
        (λ b. first_broken (judged_statement scope.now (seen_assign assign.now)) ≡ Some b) }
{
    match &assign.index {
        None => {
            let value = judge_expr(scope, &assign.value)?;
            judge_target(scope, &assign.target, value, assign.becomes)
        }
        Some(index) => {
            let index = judge_expr(scope, &index.place)?;
            let value = judge_expr(scope, &assign.value)?;
            judge_element(scope, &assign.target, index, value, assign.becomes)
        }
    }
}

fn judge_call_statement(scope: &Scope, call: &Call) -> Result<(), Broken>
    ensures ok { OnOk result
        (first_broken (judged_statement scope.now (seen_call call.now)) ≡ None) }
    ensures broken { IfErr result
        (λ b. first_broken (judged_statement scope.now (seen_call call.now)) ≡ Some b) }
{
    match &call.arguments {
        None => judge_call(scope, &call.name, 0, true),
        Some(arguments) => {
            let parameters = parameters_of(scope.meaning(&call.name));
            let suit = judge_arguments(scope, arguments, parameters)?;
            judge_call(scope, &call.name, arguments.rest.len() + 1, suit)
        }
    }
}

// The test of an IF, a WHILE or a REPEAT, whose word stands on this line.
fn judge_test(test: Scalar, line: u32) -> Result<(), Broken>
    ensures ok { OnOk result (same_scalar test Scalar.Boolean ≡ true) }
    ensures broken { IfErr result (λ b. (same_scalar test Scalar.Boolean ≡ false)
        × (b ≡ record { rule = 9; line = line })) }
{
    if is_same(test, Scalar::Boolean) {
        Ok(())
    } else {
        Err(Broken { rule: 9, line })
    }
}

#[cycle(judge_statement)]
fn judge_statement(scope: &Scope, statement: &Statement) -> Result<(), CheckFault>
    ensures ok { OnOk result
        (first_broken (judged_statement scope.now (seen_statement statement.now)) ≡ None) }
    ensures broken { IfErr result
        (IsFault (judged_statement scope.now (seen_statement statement.now))) }
{
    match statement {
        Statement::Empty => Ok(()),
        Statement::Assign(assign) => Ok(judge_assign(scope, assign)?),
        Statement::Call(call) => Ok(judge_call_statement(scope, call)?),
        Statement::Compound(body) => judge_body(scope, body),
        Statement::If(conditional) => judge_if(scope, conditional),
        Statement::While(repeated) => judge_while(scope, repeated),
        Statement::Repeat(repeated) => judge_repeat(scope, repeated),
        Statement::For(repeated) => judge_for(scope, repeated),
        Statement::Case(choice) => judge_case(scope, choice),
    }
}

#[cycle(judge_statement)]
fn judge_if(scope: &Scope, conditional: &If) -> Result<(), CheckFault>
    ensures ok { OnOk result
        (first_broken (judged_statement scope.now (seen_if conditional.now)) ≡ None) }
    ensures broken { IfErr result
        (IsFault (judged_statement scope.now (seen_if conditional.now))) }
{
    let test = judge_expr(scope, &conditional.test)?;
    judge_statement(scope, &conditional.first)?;
    match &conditional.otherwise {
        None => Ok(judge_test(test, conditional.line)?),
        Some((_, second)) => {
            judge_statement(scope, second)?;
            Ok(judge_test(test, conditional.line)?)
        }
    }
}

#[cycle(judge_statement)]
fn judge_while(scope: &Scope, repeated: &While) -> Result<(), CheckFault>
    ensures ok { OnOk result
        (first_broken (judged_statement scope.now (seen_while repeated.now)) ≡ None) }
    ensures broken { IfErr result
        (IsFault (judged_statement scope.now (seen_while repeated.now))) }
{
    let test = judge_expr(scope, &repeated.test)?;
    judge_statement(scope, &repeated.turn)?;
    Ok(judge_test(test, repeated.line)?)
}

#[cycle(judge_statement)]
fn judge_repeat(scope: &Scope, repeated: &Repeat) -> Result<(), CheckFault>
    ensures ok { OnOk result
        (first_broken (judged_statement scope.now (seen_repeat repeated.now)) ≡ None) }
    ensures broken { IfErr result
        (IsFault (judged_statement scope.now (seen_repeat repeated.now))) }
{
    judge_sequence(scope, &repeated.turn)?;
    let test = judge_expr(scope, &repeated.test)?;
    Ok(judge_test(test, repeated.until)?)
}

#[cycle(judge_statement)]
fn judge_for(scope: &Scope, repeated: &For) -> Result<(), CheckFault>
    ensures ok { OnOk result
        (first_broken (judged_statement scope.now (seen_for repeated.now)) ≡ None) }
    ensures broken { IfErr result
        (IsFault (judged_statement scope.now (seen_for repeated.now))) }
{
    let from = judge_expr(scope, &repeated.from)?;
    let to = judge_expr(scope, &repeated.to)?;
    judge_statement(scope, &repeated.turn)?;
    Ok(judge_control(scope, &repeated.control, from, to, repeated.line)?)
}

#[cycle(judge_statement)]
fn judge_case(scope: &Scope, choice: &Case) -> Result<(), CheckFault>
    ensures ok { OnOk result
        (first_broken (judged_statement scope.now (seen_case choice.now)) ≡ None) }
    ensures broken { IfErr result
        (IsFault (judged_statement scope.now (seen_case choice.now))) }
{
    let selector = judge_expr(scope, &choice.selector)?;
    let mut earlier = Earlier::new(scope.alloc());
    judge_branch(scope, selector, &mut earlier, &choice.first)?;
    judge_branches(scope, selector, &mut earlier, &choice.rest)
}

// A branch, behind the values of the labels before it.
#[cycle(judge_statement)]
fn judge_branch(
    scope: &Scope,
    selector: Scalar,
    earlier: &mut Earlier,
    branch: &Branch,
) -> Result<(), CheckFault>
    ensures ok { OnOk result (first_broken
        (judged_branch scope.now (Some selector) earlier.old (seen_branch branch.now)) ≡ None) }
    ensures values { OnOk result (earlier.new
        ≡ values_of_branch scope.now earlier.old (seen_branch branch.now)) }
    ensures broken { IfErr result (IsFault
        (judged_branch scope.now (Some selector) earlier.old (seen_branch branch.now))) }
{
    judge_labels(scope, selector, earlier, &branch.labels)?;
    judge_statement(scope, &branch.statement)
}

#[cycle(judge_statement)]
fn judge_branches(
    scope: &Scope,
    selector: Scalar,
    earlier: &mut Earlier,
    branches: &[(u32, Branch)],
) -> Result<(), CheckFault>
    ensures ok { OnOk result (first_broken (judged_branches scope.now (Some selector)
        earlier.old (seen_branches branches.now)) ≡ None) }
    ensures broken { IfErr result (IsFault (judged_branches scope.now (Some selector)
        earlier.old (seen_branches branches.now))) }
{
    for (_, branch) in branches {
        judge_branch(scope, selector, earlier, branch)?;
    }
    Ok(())
}

#[cycle(judge_statement)]
fn judge_sequence(scope: &Scope, sequence: &Statements) -> Result<(), CheckFault>
    ensures ok { OnOk result
        (first_broken (judged_sequence scope.now (seen_sequence sequence.now)) ≡ None) }
    ensures broken { IfErr result
        (IsFault (judged_sequence scope.now (seen_sequence sequence.now))) }
{
    judge_statement(scope, &sequence.first)?;
    judge_statements(scope, &sequence.rest)
}

#[cycle(judge_statement)]
fn judge_statements(scope: &Scope, statements: &[(u32, Statement)]) -> Result<(), CheckFault>
    ensures ok { OnOk result
        (first_broken (judged_statements scope.now (seen_statements statements.now)) ≡ None) }
    ensures broken { IfErr result
        (IsFault (judged_statements scope.now (seen_statements statements.now))) }
{
    for (_, statement) in statements {
        judge_statement(scope, statement)?;
    }
    Ok(())
}

/// The statements of a body.
#[cycle(judge_statement)]
pub fn judge_body(scope: &Scope, body: &Body) -> Result<(), CheckFault>
    ensures ok { OnOk result (first_broken (judged_body scope.now (seen_body body.now)) ≡ None) }
    ensures broken { IfErr result (IsFault (judged_body scope.now (seen_body body.now))) }
{
    judge_sequence(scope, &body.statements)
}
