// The words of a statement.

ghost use Rattle.std.specs.Prelude.{◌≡◌, [], ◌∷◌, ◌++◌, OnOk, Option, option_map};
ghost use Rattle.pascal_tree.specs.SeenExpression.{seen_index, seen_arguments};
ghost use Rattle.pascal_tree.specs.SeenStatement.{seen_assign, seen_call, seen_if, seen_while, seen_repeat, seen_for, seen_case, seen_statement, seen_sequence, seen_statements, seen_body, seen_branch, seen_branches};
ghost use Rattle.pascal_tree.specs.SpellExpression.{reserved_at};
ghost use Rattle.pascal_tree.specs.SpellStatement.{spelled_place, spelled_call, spelled_statement, spelled_sequence, spelled_statements, spelled_body, spelled_branch, spelled_branches, direction_word};

use crate::expression::{Arguments, Index};
use crate::spell_constant::spell_labels;
use crate::spell_expression::{
    push_name, push_reserved, push_symbol, spell_arguments, spell_expr, spell_index,
};
use crate::statement::{
    Assign, Body, Branch, Call, Case, Direction, For, If, Repeat, Statement, Statements, While,
};
use crate::token::{Reserved, Symbol, Token};
use solo_base::NoMemory;

fn push_direction(out: &mut Vec<Token>, direction: Direction, line: u32) -> Result<(), NoMemory>
    ensures { OnOk result (out.new.items
        ≡ out.old.items ++ reserved_at (direction_word direction) line ∷ []) }
{
    match direction {
        Direction::To => push_reserved(out, Reserved::To, line),
        Direction::Downto => push_reserved(out, Reserved::Downto, line),
    }
}

fn spell_place(out: &mut Vec<Token>, index: &Option<Box<Index>>) -> Result<(), NoMemory>
    ensures { OnOk result (out.new.items
        ≡ out.old.items ++ spelled_place (option_map (λ i. seen_index i.value) index.now)) }
{
    match index {
        None => Ok(()),
        Some(index) => spell_index(out, index),
    }
}

fn spell_call_arguments(
    out: &mut Vec<Token>,
    arguments: &Option<Box<Arguments>>,
) -> Result<(), NoMemory>
    ensures { OnOk result (out.new.items
        ≡ out.old.items ++ spelled_call (option_map (λ a. seen_arguments a.value) arguments.now)) }
{
    match arguments {
        None => Ok(()),
        Some(arguments) => spell_arguments(out, arguments),
    }
}

fn spell_assign(out: &mut Vec<Token>, assign: &Assign) -> Result<(), NoMemory>
    ensures { OnOk result (out.new.items
        ≡ out.old.items ++ spelled_statement (seen_assign assign.now)) }
{
    push_name(out, &assign.target)?;
    spell_place(out, &assign.index)?;
    push_symbol(out, Symbol::Becomes, assign.becomes)?;
    spell_expr(out, &assign.value)?;
    Ok(())
}

fn spell_call(out: &mut Vec<Token>, call: &Call) -> Result<(), NoMemory>
    ensures { OnOk result (out.new.items
        ≡ out.old.items ++ spelled_statement (seen_call call.now)) }
{
    push_name(out, &call.name)?;
    spell_call_arguments(out, &call.arguments)?;
    Ok(())
}

#[cycle(spell_statement)]
fn spell_statement(out: &mut Vec<Token>, statement: &Statement) -> Result<(), NoMemory>
    ensures { OnOk result (out.new.items
        ≡ out.old.items ++ spelled_statement (seen_statement statement.now)) }
{
    match statement {
        Statement::Empty => Ok(()),
        Statement::Assign(assign) => spell_assign(out, assign),
        Statement::Call(call) => spell_call(out, call),
        Statement::Compound(body) => spell_body(out, body),
        Statement::If(conditional) => spell_if(out, conditional),
        Statement::While(repeated) => spell_while(out, repeated),
        Statement::Repeat(repeated) => spell_repeat(out, repeated),
        Statement::For(repeated) => spell_for(out, repeated),
        Statement::Case(choice) => spell_case(out, choice),
    }
}

#[cycle(spell_statement)]
fn spell_if(out: &mut Vec<Token>, conditional: &If) -> Result<(), NoMemory>
    ensures { OnOk result (out.new.items
        ≡ out.old.items ++ spelled_statement (seen_if conditional.now)) }
{
    push_reserved(out, Reserved::If, conditional.line)?;
    spell_expr(out, &conditional.test)?;
    push_reserved(out, Reserved::Then, conditional.then)?;
    spell_statement(out, &conditional.first)?;
    match &conditional.otherwise {
        None => Ok(()),
        Some((line, second)) => {
            push_reserved(out, Reserved::Else, *line)?;
            spell_statement(out, second)?;
            Ok(())
        }
    }
}

#[cycle(spell_statement)]
fn spell_while(out: &mut Vec<Token>, repeated: &While) -> Result<(), NoMemory>
    ensures { OnOk result (out.new.items
        ≡ out.old.items ++ spelled_statement (seen_while repeated.now)) }
{
    push_reserved(out, Reserved::While, repeated.line)?;
    spell_expr(out, &repeated.test)?;
    push_reserved(out, Reserved::Do, repeated.does)?;
    spell_statement(out, &repeated.turn)?;
    Ok(())
}

#[cycle(spell_statement)]
fn spell_repeat(out: &mut Vec<Token>, repeated: &Repeat) -> Result<(), NoMemory>
    ensures { OnOk result (out.new.items
        ≡ out.old.items ++ spelled_statement (seen_repeat repeated.now)) }
{
    push_reserved(out, Reserved::Repeat, repeated.line)?;
    spell_sequence(out, &repeated.turn)?;
    push_reserved(out, Reserved::Until, repeated.until)?;
    spell_expr(out, &repeated.test)?;
    Ok(())
}

#[cycle(spell_statement)]
fn spell_for(out: &mut Vec<Token>, repeated: &For) -> Result<(), NoMemory>
    ensures { OnOk result (out.new.items
        ≡ out.old.items ++ spelled_statement (seen_for repeated.now)) }
{
    push_reserved(out, Reserved::For, repeated.line)?;
    push_name(out, &repeated.control)?;
    push_symbol(out, Symbol::Becomes, repeated.becomes)?;
    spell_expr(out, &repeated.from)?;
    push_direction(out, repeated.direction, repeated.toward)?;
    spell_expr(out, &repeated.to)?;
    push_reserved(out, Reserved::Do, repeated.does)?;
    spell_statement(out, &repeated.turn)?;
    Ok(())
}

#[cycle(spell_statement)]
fn spell_case(out: &mut Vec<Token>, choice: &Case) -> Result<(), NoMemory>
    ensures { OnOk result (out.new.items
        ≡ out.old.items ++ spelled_statement (seen_case choice.now)) }
{
    push_reserved(out, Reserved::Case, choice.line)?;
    spell_expr(out, &choice.selector)?;
    push_reserved(out, Reserved::Of, choice.of)?;
    spell_branch(out, &choice.first)?;
    spell_branches(out, &choice.rest)?;
    push_reserved(out, Reserved::End, choice.end)?;
    Ok(())
}

#[cycle(spell_statement)]
fn spell_branch(out: &mut Vec<Token>, branch: &Branch) -> Result<(), NoMemory>
    ensures { OnOk result (out.new.items
        ≡ out.old.items ++ spelled_branch (seen_branch branch.now)) }
{
    spell_labels(out, &branch.labels)?;
    push_symbol(out, Symbol::Colon, branch.colon)?;
    spell_statement(out, &branch.statement)?;
    Ok(())
}

#[cycle(spell_statement)]
fn spell_branches(out: &mut Vec<Token>, branches: &[(u32, Branch)]) -> Result<(), NoMemory>
    ensures { OnOk result (out.new.items
        ≡ out.old.items ++ spelled_branches (seen_branches branches.now)) }
{
    for (line, branch) in branches {
        push_symbol(out, Symbol::Semicolon, *line)?;
        spell_branch(out, branch)?;
    }
    Ok(())
}

#[cycle(spell_statement)]
fn spell_sequence(out: &mut Vec<Token>, sequence: &Statements) -> Result<(), NoMemory>
    ensures { OnOk result (out.new.items
        ≡ out.old.items ++ spelled_sequence (seen_sequence sequence.now)) }
{
    spell_statement(out, &sequence.first)?;
    spell_statements(out, &sequence.rest)?;
    Ok(())
}

#[cycle(spell_statement)]
fn spell_statements(out: &mut Vec<Token>, statements: &[(u32, Statement)]) -> Result<(), NoMemory>
    ensures { OnOk result (out.new.items
        ≡ out.old.items ++ spelled_statements (seen_statements statements.now)) }
{
    for (line, statement) in statements {
        push_symbol(out, Symbol::Semicolon, *line)?;
        spell_statement(out, statement)?;
    }
    Ok(())
}

#[cycle(spell_statement)]
pub fn spell_body(out: &mut Vec<Token>, body: &Body) -> Result<(), NoMemory>
    ensures { OnOk result (out.new.items ≡ out.old.items ++ spelled_body (seen_body body.now)) }
{
    push_reserved(out, Reserved::Begin, body.begin)?;
    spell_sequence(out, &body.statements)?;
    push_reserved(out, Reserved::End, body.end)?;
    Ok(())
}
