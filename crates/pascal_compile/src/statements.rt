// The code of statements.

ghost use Rattle.std.specs.Prelude.{◌≡◌, ◌+◌, ◌<◌, ◌^◌, [], ◌++◌, length, OnOk, IfOk};
ghost use Rattle.pascal_tree.specs.SeenStatement.{seen_assign, seen_call, seen_if, seen_while, seen_repeat, seen_for, seen_case, seen_statement, seen_sequence, seen_statements, seen_body, seen_branch, seen_branches};
ghost use Rattle.pascal_tree.specs.Statement.{if_then};
ghost use Rattle.pascal_tree.specs.SeenExpression.{seen_expr};
ghost use Rattle.pascal_code.specs.Statements.{no_branch_code, statement_code, body_code, sequence_code, statements_code, branch_code, branches_code};
ghost use Rattle.pascal_code.specs.Code.{nested_words, nested_in_body, nested_in_sequence, nested_in_statements, nested_in_branch, nested_in_branches};
ghost use Rattle.pascal_compile.specs.SeenSite.{seen_site};
ghost use Rattle.pascal_compile.specs.Landed.{all_landed, AreBefore};

use crate::calls::{call, given_arguments, passing_of};
use crate::constants::label_tests;
use crate::counters::{before_op, counter_step, counter_test, for_bounds, reach_op};
use crate::drafts::Drafts;
use crate::expressions::{arguments, expr, index};
use crate::instructions::{bare, load_word, push, store_word, test_index, tick};
use crate::senses::Bounds;
use crate::site::Site;
use crate::using_names::{store, store_item};
use pascal_tree::statement::{
    Assign, Body, Branch, Call, Case, For, If, Repeat, Statement, Statements, While,
};
use solo_base::NoMemory;
use stack_code::Op;

/// Emits the code of a body, where the words of the frame from this one on are free for FOR and
/// CASE.
#[cycle(statement)]
pub fn body(code: &mut Drafts, site: &Site<'_, '_>, free: u16, b: &Body) -> Result<(), NoMemory>
    requires { free + nested_in_body (seen_body b.now) < 2 ^ 16 }
    ensures { OnOk result (code.new ≡ code.old ++ body_code (seen_site site.now) free
        (seen_body b.now) (length code.old)) }
{
    sequence(code, site, free, &b.statements)
}

#[cycle(statement)]
fn sequence(
    code: &mut Drafts,
    site: &Site<'_, '_>,
    free: u16,
    s: &Statements,
) -> Result<(), NoMemory>
    requires { free + nested_in_sequence (seen_sequence s.now) < 2 ^ 16 }
    ensures { OnOk result (code.new ≡ code.old ++ sequence_code (seen_site site.now) free
        (seen_sequence s.now) (length code.old)) }
{
    statement(code, site, free, &s.first)?;
    statements(code, site, free, &s.rest)
}

#[cycle(statement)]
fn statements(
    code: &mut Drafts,
    site: &Site<'_, '_>,
    free: u16,
    rest: &[(u32, Statement)],
) -> Result<(), NoMemory>
    requires { free + nested_in_statements (seen_statements rest.now) < 2 ^ 16 }
    ensures { OnOk result (code.new ≡ code.old ++ statements_code (seen_site site.now) free
        (seen_statements rest.now) (length code.old)) }
{
    for (_, later) in rest {
        statement(code, site, free, later)?;
    }
    Ok(())
}

#[cycle(statement)]
fn statement(
    code: &mut Drafts,
    site: &Site<'_, '_>,
    free: u16,
    s: &Statement,
) -> Result<(), NoMemory>
    requires { free + nested_words (seen_statement s.now) < 2 ^ 16 }
    ensures { OnOk result (code.new ≡ code.old ++ statement_code (seen_site site.now) free
        (seen_statement s.now) (length code.old)) }
{
    match s {
        Statement::Empty => Ok(()),
        Statement::Assign(assign) => assignment(code, site, assign),
        Statement::Call(call) => call_statement(code, site, call),
        Statement::Compound(inside) => body(code, site, free, inside),
        Statement::If(choice) => conditional(code, site, free, choice),
        Statement::While(repeated) => while_loop(code, site, free, repeated),
        Statement::Repeat(repeated) => repeat_loop(code, site, free, repeated),
        Statement::For(repeated) => for_loop(code, site, free, repeated),
        Statement::Case(choice) => case(code, site, free, choice),
    }
}

fn assignment(code: &mut Drafts, site: &Site<'_, '_>, a: &Assign) -> Result<(), NoMemory>
    ensures { OnOk result (code.new
        ≡ code.old ++ statement_code (seen_site site.now) 0 (seen_assign a.now) 0) }
{
    code.emit(tick(a.target.line))?;
    let target = site.find_name(&a.target);
    match &a.index {
        None => {
            expr(code, site, &a.value)?;
            store(code, site.answer(), target)
        }
        Some(place) => {
            index(code, site, target, place)?;
            expr(code, site, &a.value)?;
            store_item(code, target)
        }
    }
}

fn call_statement(code: &mut Drafts, site: &Site<'_, '_>, c: &Call) -> Result<(), NoMemory>
    ensures { OnOk result (code.new ≡ code.old ++ statement_code (seen_site site.now) 0 (seen_call c.now) 0) }
{
    code.emit(tick(c.name.line))?;
    let callee = site.find_name(&c.name);
    match &c.arguments {
        None => call(code, site.answer(), callee, &[]),
        Some(list) => {
            arguments(code, site, callee, passing_of(callee), list)?;
            call(code, site.answer(), callee, &given_arguments(site, list)?)
        }
    }
}

#[cycle(statement)]
fn conditional(
    code: &mut Drafts,
    site: &Site<'_, '_>,
    free: u16,
    choice: &If,
) -> Result<(), NoMemory>
    requires { free + nested_words (seen_if choice.now) < 2 ^ 16 }
    ensures { OnOk result (code.new ≡ code.old ++ statement_code (seen_site site.now) free
        (seen_if choice.now) (length code.old)) }
{
    match &choice.otherwise {
        None => if_alone(code, site, free, choice),
        Some((_, second)) => {
            code.emit(tick(choice.line))?;
            expr(code, site, &choice.test)?;
            let past = code.place();
            code.jump_if_false(0)?;
            statement(code, site, free, &choice.first)?;
            let out = code.place();
            code.jump(0)?;
            code.land_test(past);
            statement(code, site, free, second)?;
            code.land_jump(out);
            Ok(())
        }
    }
}

#[cycle(statement)]
fn if_alone(code: &mut Drafts, site: &Site<'_, '_>, free: u16, choice: &If) -> Result<(), NoMemory>
    requires { free + nested_words (seen_statement choice.now.first) < 2 ^ 16 }
    ensures { OnOk result (code.new ≡ code.old ++ statement_code (seen_site site.now) free
        (if_then choice.now.line (seen_expr choice.now.test) 0 (seen_statement choice.now.first))
        (length code.old)) }
{
    code.emit(tick(choice.line))?;
    expr(code, site, &choice.test)?;
    let past = code.place();
    code.jump_if_false(0)?;
    statement(code, site, free, &choice.first)?;
    code.land_test(past);
    Ok(())
}

#[cycle(statement)]
fn while_loop(
    code: &mut Drafts,
    site: &Site<'_, '_>,
    free: u16,
    repeated: &While,
) -> Result<(), NoMemory>
    requires { free + nested_words (seen_while repeated.now) < 2 ^ 16 }
    ensures { OnOk result (code.new ≡ code.old ++ statement_code (seen_site site.now) free
        (seen_while repeated.now) (length code.old)) }
{
    code.emit(tick(repeated.line))?;
    let turn = code.place();
    code.emit(tick(repeated.line))?;
    expr(code, site, &repeated.test)?;
    let out = code.place();
    code.jump_if_false(0)?;
    statement(code, site, free, &repeated.turn)?;
    code.jump(turn)?;
    code.land_test(out);
    Ok(())
}

#[cycle(statement)]
fn repeat_loop(
    code: &mut Drafts,
    site: &Site<'_, '_>,
    free: u16,
    repeated: &Repeat,
) -> Result<(), NoMemory>
    requires { free + nested_words (seen_repeat repeated.now) < 2 ^ 16 }
    ensures { OnOk result (code.new ≡ code.old ++ statement_code (seen_site site.now) free
        (seen_repeat repeated.now) (length code.old)) }
{
    code.emit(tick(repeated.line))?;
    let first = code.place();
    code.jump(0)?;
    let turn = code.place();
    code.emit(tick(repeated.line))?;
    expr(code, site, &repeated.test)?;
    code.emit(bare(Op::Not))?;
    let out = code.place();
    code.jump_if_false(0)?;
    code.land_jump(first);
    sequence(code, site, free, &repeated.turn)?;
    code.jump(turn)?;
    code.land_test(out);
    Ok(())
}

#[cycle(statement)]
fn for_loop(
    code: &mut Drafts,
    site: &Site<'_, '_>,
    free: u16,
    repeated: &For,
) -> Result<(), NoMemory>
    requires { free + nested_words (seen_for repeated.now) < 2 ^ 16 }
    ensures { OnOk result (code.new ≡ code.old ++ statement_code (seen_site site.now) free
        (seen_for repeated.now) (length code.old)) }
{
    for_bounds(code, site, free, repeated)?;
    let none = counter_test(code, site, reach_op(repeated.direction), free)?;
    let turn = code.place();
    code.emit(tick(repeated.line))?;
    code.emit(load_word(site.owner(), free))?;
    store(code, site.answer(), site.find_name(&repeated.control))?;
    statement(code, site, free + 2, &repeated.turn)?;
    let last = counter_test(code, site, before_op(repeated.direction), free)?;
    counter_step(code, site, repeated.direction, free, turn)?;
    code.land_test(none);
    code.land_test(last);
    Ok(())
}

#[cycle(statement)]
fn case(code: &mut Drafts, site: &Site<'_, '_>, free: u16, choice: &Case) -> Result<(), NoMemory>
    requires { free + nested_words (seen_case choice.now) < 2 ^ 16 }
    ensures { OnOk result (code.new ≡ code.old ++ statement_code (seen_site site.now) free
        (seen_case choice.now) (length code.old)) }
{
    code.emit(tick(choice.line))?;
    expr(code, site, &choice.selector)?;
    code.emit(store_word(site.owner(), free))?;
    let end = branch(code, site, free, &choice.first)?;
    let mut ends = Vec::new(*choice.rest.allocator());
    ends.push(end)?;
    more_branches(code, site, free, &mut ends, &choice.rest)?;
    no_branch(code)?;
    land_all(code, &ends);
    Ok(())
}

/// Emits the later branches, and adds the places of the jumps at their ends to those of the earlier
/// ones. All of them are to lead behind what is done where no branch has the value.
#[cycle(statement)]
fn more_branches(
    code: &mut Drafts,
    site: &Site<'_, '_>,
    free: u16,
    ends: &mut Vec<usize>,
    rest: &[(u32, Branch)],
) -> Result<(), NoMemory>
    requires words { free + nested_in_branches (seen_branches rest.now) + 1 < 2 ^ 16 }
    requires before { AreBefore (length code.old) ends.old.items }
    ensures code { OnOk result (all_landed (code.new ++ no_branch_code (length code.new + 3)) ends.new.items
        ≡ all_landed (code.old ++ branches_code (seen_site site.now) free (seen_branches rest.now)
        (length code.old)) ends.old.items) }
    ensures before { OnOk result (AreBefore (length code.new) ends.new.items) }
{
    for (_, later) in rest {
        let end = branch(code, site, free, later)?;
        ends.push(end)?;
    }
    Ok(())
}

/// At these places stand jumps behind all that was emitted so far.
fn land_all(code: &mut Drafts, places: &[usize])
    requires { AreBefore (length code.old) places.now }
    ensures { code.new ≡ all_landed code.old places.now }
{
    for place in places {
        code.land_jump(*place);
    }
}

/// A value that no branch has is a range error.
fn no_branch(code: &mut Drafts) -> Result<(), NoMemory>
    ensures { OnOk result (code.new ≡ code.old ++ no_branch_code (length code.old + 3)) }
{
    code.emit(push(-1))?;
    code.emit(test_index(Bounds { low: 0, high: 0 }))?;
    let past = code.place();
    code.jump_if_false(0)?;
    code.land_test(past);
    Ok(())
}

/// Emits a branch, and gives the place of the jump at its end, which is to lead behind all branches.
#[cycle(statement)]
fn branch(code: &mut Drafts, site: &Site<'_, '_>, free: u16, b: &Branch) -> Result<usize, NoMemory>
    requires { free + nested_in_branch (seen_branch b.now) + 1 < 2 ^ 16 }
    ensures code { OnOk result (code.new ≡ code.old ++ branch_code (seen_site site.now) free
        (seen_branch b.now) (λ place. []) (length code.old)) }
    ensures end { IfOk result (λ end. end + 1 ≡ length code.new) }
{
    label_tests(code, site, free, &b.labels)?;
    let next = code.place();
    code.jump(0)?;
    statement(code, site, free + 1, &b.statement)?;
    let end = code.place();
    code.jump(0)?;
    code.land_jump(end);
    code.land_jump(next);
    Ok(end)
}
