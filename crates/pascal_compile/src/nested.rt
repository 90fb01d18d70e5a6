// The words of FOR and CASE, as far as 16 bits count them.

ghost use Rattle.std.specs.Prelude.{◌≡◌, min};
ghost use Rattle.pascal_tree.specs.SeenStatement.{seen_statement, seen_if, seen_for, seen_case, seen_body, seen_sequence, seen_statements, seen_branch, seen_branches};
ghost use Rattle.pascal_code.specs.Code.{nested_words, nested_in_body, nested_in_sequence, nested_in_statements, nested_in_branch, nested_in_branches};

use pascal_tree::statement::{Body, Branch, Case, For, If, Statement, Statements};
use std::cmp::max;

/// How many words FOR and CASE take where they are nested deepest in a body.
#[cycle(nested)]
pub fn nested_in_body(b: &Body) -> u16
    ensures { result ≡ min (nested_in_body (seen_body b.now)) 65535 }
{
    nested_in_sequence(&b.statements)
}

#[cycle(nested)]
fn nested_in_sequence(s: &Statements) -> u16
    ensures { result ≡ min (nested_in_sequence (seen_sequence s.now)) 65535 }
{
    max(nested_words(&s.first), nested_in_statements(&s.rest))
}

#[cycle(nested)]
fn nested_in_statements(rest: &[(u32, Statement)]) -> u16
    ensures { result ≡ min (nested_in_statements (seen_statements rest.now)) 65535 }
{
    let mut most = 0;
    for (_, later) in rest {
        most = max(most, nested_words(later));
    }
    most
}

#[cycle(nested)]
fn nested_words(s: &Statement) -> u16
    ensures { result ≡ min (nested_words (seen_statement s.now)) 65535 }
{
    match s {
        Statement::Empty | Statement::Assign(_) | Statement::Call(_) => 0,
        Statement::Compound(inside) => nested_in_body(inside),
        Statement::If(choice) => nested_in_if(choice),
        Statement::While(repeated) => nested_words(&repeated.turn),
        Statement::Repeat(repeated) => nested_in_sequence(&repeated.turn),
        Statement::For(repeated) => nested_in_for(repeated),
        Statement::Case(choice) => nested_in_case(choice),
    }
}

#[cycle(nested)]
fn nested_in_if(choice: &If) -> u16
    ensures { result ≡ min (nested_words (seen_if choice.now)) 65535 }
{
    match &choice.otherwise {
        None => nested_words(&choice.first),
        Some((_, second)) => max(nested_words(&choice.first), nested_words(second)),
    }
}

#[cycle(nested)]
fn nested_in_for(repeated: &For) -> u16
    ensures { result ≡ min (nested_words (seen_for repeated.now)) 65535 }
{
    nested_words(&repeated.turn).saturating_add(2)
}

#[cycle(nested)]
fn nested_in_case(choice: &Case) -> u16
    ensures { result ≡ min (nested_words (seen_case choice.now)) 65535 }
{
    max(
        nested_in_branch(&choice.first),
        nested_in_branches(&choice.rest),
    )
    .saturating_add(1)
}

#[cycle(nested)]
fn nested_in_branch(b: &Branch) -> u16
    ensures { result ≡ min (nested_in_branch (seen_branch b.now)) 65535 }
{
    nested_words(&b.statement)
}

#[cycle(nested)]
fn nested_in_branches(rest: &[(u32, Branch)]) -> u16
    ensures { result ≡ min (nested_in_branches (seen_branches rest.now)) 65535 }
{
    let mut most = 0;
    for (_, later) in rest {
        most = max(most, nested_in_branch(later));
    }
    most
}
