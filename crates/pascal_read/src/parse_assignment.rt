// Assignments and calls.
#![tactic(auto, using(crate::proofs::ParseStatementRows::statement_rows))]

ghost use Rattle.std.specs.Prelude.{◌≡◌, ℕ, ◌≤◌, ◌∷◌, [], ◌++◌, true, Err, IfOk, OnOk};
ghost use Rattle.pascal_tree.specs.SeenStatement.{seen_assign, seen_statement};
ghost use Rattle.pascal_tree.specs.SpellExpression.{name_at, symbol_at};
ghost use Rattle.pascal_tree.specs.SpellStatement.{spelled_statement};
ghost use Rattle.pascal_tree.specs.Limits.{StatementFits, EndsClosed};
ghost use Rattle.pascal_read.specs.ParseWants.{mark, GoesOn, IsStuck, AllGoesOn, AllIsStuck};
ghost use Rattle.pascal_read.specs.ParseWants as want;

use crate::parse_expect::{LEVELS, expect_symbol};
use crate::parse_expression::{arguments, expr, index};
use crate::parse_fault::ParseFault;
use crate::parse_node::boxed;
use crate::parse_reader::Reader;
use pascal_tree::Symbol;
use pascal_tree::leaf::Name;
use pascal_tree::statement::{Assign, Call, Statement};
use std::alloc::Global;

/// An assignment or a call whose name is read.
pub fn begun_by_name(
    reader: &mut Reader,
    alloc: Global,
    name: Name,
) -> Result<Statement, ParseFault>
    ensures words { IfOk result
        (λ x. name_at name ∷ reader.old ≡ spelled_statement (seen_statement x) ++ reader.new) }
    ensures fits { IfOk result (λ x. (n : ℕ) → 1 ≤ n → StatementFits (seen_statement x) n) }
    ensures closed { IfOk result (λ x. EndsClosed (seen_statement x)) }
    ensures goes { OnOk result (GoesOn want.behind_first_name reader.old reader.new) }
    ensures fault { (line : ℕ) → result ≡ Err (ParseFault.Syntax line)
        → IsStuck want.behind_first_name reader.old line }
{
    if let Some(becomes) = reader.take_symbol(Symbol::Becomes) {
        let value = expr(reader, alloc, LEVELS)?;
        let assign = Assign {
            target: name,
            index: None,
            becomes,
            value,
        };
        return Ok(Statement::Assign(boxed(alloc, assign)?));
    }
    if let Some(opening) = reader.take_symbol(Symbol::OpenIndex) {
        let assign = indexed_assignment(reader, alloc, name, opening)?;
        return Ok(Statement::Assign(boxed(alloc, assign)?));
    }
    let arguments = match reader.take_symbol(Symbol::Open) {
        Some(opening) => Some(arguments(reader, alloc, LEVELS, opening)?),
        None => None,
    };
    Ok(Statement::Call(boxed(alloc, Call { name, arguments })?))
}

// An assignment to an element, whose name and opening bracket are read.
fn indexed_assignment(
    reader: &mut Reader,
    alloc: Global,
    name: Name,
    opening: u32,
) -> Result<Assign, ParseFault>
    ensures words { IfOk result (λ x. name_at name ∷ symbol_at Symbol.OpenIndex opening ∷ reader.old
        ≡ spelled_statement (seen_assign x) ++ reader.new) }
    ensures fits { IfOk result (λ x. (n : ℕ) → 1 ≤ n → StatementFits (seen_assign x) n) }
    ensures closed { IfOk result (λ x. EndsClosed (seen_assign x)) }
    ensures goes { OnOk result (AllGoesOn
        (want.expr 64 ∷ mark Symbol.CloseIndex ∷ mark Symbol.Becomes ∷ want.expr 64 ∷ [])
        reader.old reader.new) }
    ensures fault { (line : ℕ) → result ≡ Err (ParseFault.Syntax line) → AllIsStuck
        (want.expr 64 ∷ mark Symbol.CloseIndex ∷ mark Symbol.Becomes ∷ want.expr 64 ∷ [])
        reader.old line }
{
    let index = index(reader, alloc, LEVELS, opening)?;
    let becomes = expect_symbol(reader, Symbol::Becomes)?;
    let value = expr(reader, alloc, LEVELS)?;
    Ok(Assign {
        target: name,
        index: Some(index),
        becomes,
        value,
    })
}
