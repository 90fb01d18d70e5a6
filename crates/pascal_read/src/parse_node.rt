// Expressions and statements of their parts, and nodes in boxes.

ghost use Rattle.std.specs.Prelude.{◌≡◌, IfOk, IfErr};
ghost use Rattle.pascal_tree.specs.SeenExpression.{seen_expr, seen_simple, expr_of};
ghost use Rattle.pascal_tree.specs.SeenStatement.{seen_statement, seen_branch, seen_branches, seen_if, seen_for, seen_case, if_of};
ghost use Rattle.pascal_tree.specs.Statement.{for_do, case_of};
ghost use Rattle.pascal_read.specs.ParseParts.{seen_otherwise, seen_right};

use crate::parse_fault::ParseFault;
use crate::parse_range::Range;
use pascal_tree::expression::{Comparison, Expr, Simple};
use pascal_tree::statement::{Branch, Case, For, If, Statement};
use std::alloc::Global;

/// A node in a box. A function of its own, so that those that call each other keep little on the stack.
pub fn boxed<T: Drop>(alloc: Global, node: T) -> Result<Box<T>, ParseFault>
    ensures node { IfOk result (λ x. x.value ≡ node) }
    ensures fault { IfErr result (λ fault. fault ≡ ParseFault.NoMemory) }
{
    Ok(Box::new(alloc, node)?)
}

/// The expression of its parts.
pub fn compared(left: Simple, right: Option<Box<Comparison>>) -> Expr
    ensures { seen_expr result ≡ expr_of (seen_simple left) (seen_right right) }
{
    Expr { left, right }
}

/// The IF of its parts.
pub fn conditional(
    line: u32,
    test: Expr,
    then: u32,
    first: Statement,
    otherwise: Option<(u32, Statement)>,
) -> If
    ensures { seen_if result
        ≡ if_of line (seen_expr test) then (seen_statement first) (seen_otherwise otherwise) }
{
    If {
        line,
        test,
        then,
        first,
        otherwise,
    }
}

/// The FOR of its parts.
pub fn repeated(line: u32, range: Range, turn: Statement) -> For
    ensures { seen_for result ≡ for_do line range.control range.becomes (seen_expr range.from)
        range.direction range.toward (seen_expr range.to) range.does (seen_statement turn) }
{
    For {
        line,
        control: range.control,
        becomes: range.becomes,
        from: range.from,
        direction: range.direction,
        toward: range.toward,
        to: range.to,
        does: range.does,
        turn,
    }
}

/// The CASE of its parts.
pub fn choice(
    line: u32,
    selector: Expr,
    of: u32,
    first: Branch,
    rest: Vec<(u32, Branch)>,
    end: u32,
) -> Case
    ensures { seen_case result ≡ case_of line (seen_expr selector) of (seen_branch first)
        (seen_branches rest.items) end }
{
    Case {
        line,
        selector,
        of,
        first,
        rest,
        end,
    }
}
