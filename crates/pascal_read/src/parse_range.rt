// What stands in a statement before the statement inside it.
#![tactic(auto, using(crate::proofs::ParseStatementRows::statement_rows))]

ghost use Rattle.std.specs.Prelude.{◌≡◌, ℕ, ◌∷◌, [], ◌++◌, Err, IfOk, OnOk};
ghost use Rattle.pascal_tree.specs.SeenExpression.{seen_expr};
ghost use Rattle.pascal_tree.specs.SpellExpression.{spelled_expr, name_at, symbol_at, reserved_at};
ghost use Rattle.pascal_tree.specs.SpellStatement.{direction_word};
ghost use Rattle.pascal_tree.specs.Limits.{ExprFits};
ghost use Rattle.pascal_read.specs.ParseRange.{spelled_range};
ghost use Rattle.pascal_read.specs.ParseWants.{reserved_word, mark, range_wants, GoesOn, IsStuck, AllGoesOn, AllIsStuck};
ghost use Rattle.pascal_read.specs.ParseWants as want;

use crate::parse_expect::{LEVELS, expect_name, expect_reserved, expect_symbol};
use crate::parse_expression::expr;
use crate::parse_fault::ParseFault;
use crate::parse_reader::Reader;
use pascal_tree::expression::Expr;
use pascal_tree::leaf::Name;
use pascal_tree::statement::Direction;
use pascal_tree::{Reserved, Symbol};
use std::alloc::Global;

/// What stands between FOR and its statement, with the lines of its words.
#[derive(Drop)]
pub struct Range {
    pub control: Name,
    pub becomes: u32,
    pub from: Expr,
    pub direction: Direction,
    pub toward: u32,
    pub to: Expr,
    pub does: u32,
}

/// Reads what stands between FOR and its statement.
pub fn read_range(reader: &mut Reader, alloc: Global) -> Result<Range, ParseFault>
    ensures words { IfOk result (λ x. reader.old ≡ spelled_range x ++ reader.new) }
    ensures fits { IfOk result
        (λ x. ExprFits (seen_expr x.from) 64 × ExprFits (seen_expr x.to) 64) }
    ensures goes { OnOk result (AllGoesOn range_wants reader.old reader.new) }
    ensures fault { (line : ℕ) → result ≡ Err (ParseFault.Syntax line)
        → AllIsStuck range_wants reader.old line }
{
    let (control, becomes, from) = start(reader, alloc)?;
    let (direction, toward) = expect_direction(reader)?;
    let (to, does) = condition(reader, alloc, Reserved::Do)?;
    Ok(Range {
        control,
        becomes,
        from,
        direction,
        toward,
        to,
        does,
    })
}

// The control name of a FOR and its first value.
fn start(reader: &mut Reader, alloc: Global) -> Result<(Name, u32, Expr), ParseFault>
    ensures words { IfOk result (λ x. reader.old
        ≡ (name_at x.0 ∷ symbol_at Symbol.Becomes x.1 ∷ spelled_expr (seen_expr x.2))
        ++ reader.new) }
    ensures fits { IfOk result (λ x. ExprFits (seen_expr x.2) 64) }
    ensures goes { OnOk result (AllGoesOn
        (want.name ∷ mark Symbol.Becomes ∷ want.expr 64 ∷ []) reader.old reader.new) }
    ensures fault { (line : ℕ) → result ≡ Err (ParseFault.Syntax line) → AllIsStuck
        (want.name ∷ mark Symbol.Becomes ∷ want.expr 64 ∷ []) reader.old line }
{
    let control = expect_name(reader)?;
    let becomes = expect_symbol(reader, Symbol::Becomes)?;
    let from = expr(reader, alloc, LEVELS)?;
    Ok((control, becomes, from))
}

/// An expression and the reserved word behind it, with its line.
pub fn condition(
    reader: &mut Reader,
    alloc: Global,
    closing: Reserved,
) -> Result<(Expr, u32), ParseFault>
    ensures words { IfOk result (λ x. reader.old
        ≡ (spelled_expr (seen_expr x.0) ++ reserved_at closing x.1 ∷ []) ++ reader.new) }
    ensures fits { IfOk result (λ x. ExprFits (seen_expr x.0) 64) }
    ensures goes { OnOk result
        (AllGoesOn (want.expr 64 ∷ reserved_word closing ∷ []) reader.old reader.new) }
    ensures fault { (line : ℕ) → result ≡ Err (ParseFault.Syntax line)
        → AllIsStuck (want.expr 64 ∷ reserved_word closing ∷ []) reader.old line }
{
    let test = expr(reader, alloc, LEVELS)?;
    let line = expect_reserved(reader, closing)?;
    Ok((test, line))
}

// Takes TO or DOWNTO, and gives its line.
fn expect_direction(reader: &mut Reader) -> Result<(Direction, u32), ParseFault>
    ensures taken { IfOk result
        (λ d. reader.old ≡ reserved_at (direction_word d.0) d.1 ∷ reader.new) }
    ensures goes { OnOk result (GoesOn want.direction reader.old reader.new) }
    ensures fault { (line : ℕ) → result ≡ Err (ParseFault.Syntax line)
        → IsStuck want.direction reader.old line }
{
    if let Some(line) = reader.take_reserved(Reserved::To) {
        return Ok((Direction::To, line));
    }
    match reader.take_reserved(Reserved::Downto) {
        Some(line) => Ok((Direction::Downto, line)),
        None => Err(ParseFault::Syntax {
            line: reader.line(),
        }),
    }
}
