// Statements, read by descent.
#![tactic(auto, using(crate::proofs::ParseStatementRows::statement_rows))]

ghost use Rattle.std.specs.Prelude.{◌≡◌, ℕ, ◌+◌, ◌≤◌, ◌∷◌, [], ◌++◌, true, Err, IfOk, OnOk, IfSome};
ghost use Rattle.pascal_tree.specs.SeenStatement.{seen_statement, seen_statements, seen_sequence, seen_body, seen_branch, seen_branches};
ghost use Rattle.pascal_tree.specs.SpellExpression.{reserved_at};
ghost use Rattle.pascal_tree.specs.SpellStatement.{spelled_statement, spelled_sequence, spelled_statements, spelled_body, spelled_branch, spelled_branches};
ghost use Rattle.pascal_tree.specs.Limits.{StatementFits, SequenceFits, StatementsFit, EndsClosed, BodyFits, BranchFits, BranchesFit};
ghost use Rattle.pascal_read.specs.ParseFirst.{first_is};
ghost use Rattle.pascal_read.specs.ParseParts.{seen_otherwise, spelled_otherwise, OtherwiseFits, OtherwiseCloses};
ghost use Rattle.pascal_read.specs.ParseWants.{compound_wants, if_wants, while_wants, repeat_wants, range_wants, branch_wants, case_wants, is_reserved, GoesOn, IsStuck, AllGoesOn, AllIsStuck};
ghost use Rattle.pascal_read.specs.ParseWants as want;

use crate::parse_assignment::begun_by_name;
use crate::parse_constant::labels;
use crate::parse_expect::{LEVELS, expect_reserved, expect_symbol, within};
use crate::parse_expression::expr;
use crate::parse_fault::ParseFault;
use crate::parse_node::{boxed, choice, conditional, repeated};
use crate::parse_range::{condition, read_range};
use crate::parse_reader::Reader;
use pascal_tree::statement::{Body, Branch, Repeat, Statement, Statements, While};
use pascal_tree::{Reserved, Symbol};
use std::alloc::Global;

/// A body, with its BEGIN.
pub fn body(reader: &mut Reader, alloc: Global) -> Result<Body, ParseFault>
    ensures words { IfOk result (λ x. reader.old ≡ spelled_body (seen_body x) ++ reader.new) }
    ensures fits { IfOk result (λ x. BodyFits (seen_body x) 64) }
    ensures goes { OnOk result (GoesOn want.body reader.old reader.new) }
    ensures fault { (line : ℕ) → result ≡ Err (ParseFault.Syntax line)
        → IsStuck want.body reader.old line }
{
    let Some(begin) = reader.take_reserved(Reserved::Begin) else {
        return Err(ParseFault::Syntax {
            line: reader.line(),
        });
    };
    compound(reader, alloc, LEVELS, begin)
}

// A statement: what stands inside it has one level less. Where no other begins, it is an empty one.
#[cycle(statement)]
fn statement(reader: &mut Reader, alloc: Global, levels: usize) -> Result<Statement, ParseFault>
    requires { 1 ≤ levels }
    ensures words { IfOk result
        (λ x. reader.old ≡ spelled_statement (seen_statement x) ++ reader.new) }
    ensures fits { IfOk result (λ x. StatementFits (seen_statement x) levels) }
    ensures closed { IfOk result
        (λ x. first_is (λ w. is_reserved w Reserved.Else) reader.new ≡ true
        → EndsClosed (seen_statement x)) }
    ensures goes { OnOk result (GoesOn (want.statement levels) reader.old reader.new) }
    ensures fault { (line : ℕ) → result ≡ Err (ParseFault.Syntax line)
        → IsStuck (want.statement levels) reader.old line }
{
    if let Some(name) = reader.take_name() {
        return begun_by_name(reader, alloc, name);
    }
    if let Some(line) = reader.take_reserved(Reserved::Begin) {
        let node = compound(reader, alloc, within(levels, line)?, line)?;
        return Ok(Statement::Compound(boxed(alloc, node)?));
    }
    if let Some(line) = reader.take_reserved(Reserved::If) {
        return if_statement(reader, alloc, within(levels, line)?, line);
    }
    if let Some(line) = reader.take_reserved(Reserved::While) {
        return while_statement(reader, alloc, within(levels, line)?, line);
    }
    if let Some(line) = reader.take_reserved(Reserved::Repeat) {
        return repeat_statement(reader, alloc, within(levels, line)?, line);
    }
    if let Some(line) = reader.take_reserved(Reserved::For) {
        return for_statement(reader, alloc, within(levels, line)?, line);
    }
    if let Some(line) = reader.take_reserved(Reserved::Case) {
        return case_statement(reader, alloc, within(levels, line)?, line);
    }
    Ok(Statement::Empty)
}

// A body whose BEGIN is read.
#[cycle(statement)]
fn compound(
    reader: &mut Reader,
    alloc: Global,
    levels: usize,
    begin: u32,
) -> Result<Body, ParseFault>
    requires { 1 ≤ levels }
    ensures words { IfOk result (λ x. reserved_at Reserved.Begin begin ∷ reader.old
        ≡ spelled_body (seen_body x) ++ reader.new) }
    ensures fits { IfOk result (λ x. BodyFits (seen_body x) levels) }
    ensures goes { OnOk result (AllGoesOn (compound_wants levels) reader.old reader.new) }
    ensures fault { (line : ℕ) → result ≡ Err (ParseFault.Syntax line)
        → AllIsStuck (compound_wants levels) reader.old line }
{
    let statements = sequence(reader, alloc, levels)?;
    let end = expect_reserved(reader, Reserved::End)?;
    Ok(Body {
        begin,
        statements,
        end,
    })
}

// Statements up to the word that ends them.
#[cycle(statement)]
fn sequence(reader: &mut Reader, alloc: Global, levels: usize) -> Result<Statements, ParseFault>
    requires { 1 ≤ levels }
    ensures words { IfOk result
        (λ x. reader.old ≡ spelled_sequence (seen_sequence x) ++ reader.new) }
    ensures fits { IfOk result (λ x. SequenceFits (seen_sequence x) levels) }
    ensures goes { OnOk result (AllGoesOn
        (want.statement levels ∷ want.more_statements levels ∷ []) reader.old reader.new) }
    ensures fault { (line : ℕ) → result ≡ Err (ParseFault.Syntax line) → AllIsStuck
        (want.statement levels ∷ want.more_statements levels ∷ []) reader.old line }
{
    let first = statement(reader, alloc, levels)?;
    let rest = more_statements(reader, alloc, levels)?;
    Ok(Statements { first, rest })
}

// The later statements, each behind its semicolon.
#[cycle(statement)]
fn more_statements(
    reader: &mut Reader,
    alloc: Global,
    levels: usize,
) -> Result<Vec<(u32, Statement)>, ParseFault>
    requires { 1 ≤ levels }
    ensures words { IfOk result
        (λ x. reader.old ≡ spelled_statements (seen_statements x.items) ++ reader.new) }
    ensures fits { IfOk result (λ x. StatementsFit (seen_statements x.items) levels) }
    ensures goes { OnOk result (GoesOn (want.more_statements levels) reader.old reader.new) }
    ensures fault { (line : ℕ) → result ≡ Err (ParseFault.Syntax line)
        → IsStuck (want.more_statements levels) reader.old line }
{
    let mut rest = Vec::new(alloc);
    while let Some(line) = reader.take_symbol(Symbol::Semicolon) {
        let statement = statement(reader, alloc, levels)?;
        rest.push((line, statement))?;
    }
    Ok(rest)
}

// An IF that is read.
#[cycle(statement)]
fn if_statement(
    reader: &mut Reader,
    alloc: Global,
    levels: usize,
    line: u32,
) -> Result<Statement, ParseFault>
    requires { 1 ≤ levels }
    ensures words { IfOk result (λ x. reserved_at Reserved.If line ∷ reader.old
        ≡ spelled_statement (seen_statement x) ++ reader.new) }
    ensures fits { IfOk result (λ x. StatementFits (seen_statement x) (levels + 1)) }
    ensures closed { IfOk result
        (λ x. first_is (λ w. is_reserved w Reserved.Else) reader.new ≡ true
        → EndsClosed (seen_statement x)) }
    ensures goes { OnOk result (AllGoesOn (if_wants levels) reader.old reader.new) }
    ensures fault { (at : ℕ) → result ≡ Err (ParseFault.Syntax at)
        → AllIsStuck (if_wants levels) reader.old at }
{
    let (test, then) = condition(reader, alloc, Reserved::Then)?;
    let first = statement(reader, alloc, levels)?;
    let otherwise = otherwise(reader, alloc, levels)?;
    Ok(Statement::If(boxed(alloc, conditional(line, test, then, first, otherwise))?))
}

// ELSE and its statement, where they stand here.
#[cycle(statement)]
fn otherwise(
    reader: &mut Reader,
    alloc: Global,
    levels: usize,
) -> Result<Option<(u32, Statement)>, ParseFault>
    requires { 1 ≤ levels }
    ensures words { IfOk result
        (λ x. reader.old ≡ spelled_otherwise (seen_otherwise x) ++ reader.new) }
    ensures fits { IfOk result (λ x. OtherwiseFits (seen_otherwise x) levels) }
    ensures before { IfOk result (λ x. IfSome x
        (λ _. first_is (λ w. is_reserved w Reserved.Else) reader.old ≡ true)) }
    ensures closed { IfOk result (λ x. OtherwiseCloses (seen_otherwise x)
        (first_is (λ w. is_reserved w Reserved.Else) reader.new)) }
    ensures goes { OnOk result (GoesOn (want.otherwise levels) reader.old reader.new) }
    ensures fault { (line : ℕ) → result ≡ Err (ParseFault.Syntax line)
        → IsStuck (want.otherwise levels) reader.old line }
{
    let Some(line) = reader.take_reserved(Reserved::Else) else {
        return Ok(None);
    };
    let second = statement(reader, alloc, levels)?;
    Ok(Some((line, second)))
}

// A WHILE that is read.
#[cycle(statement)]
fn while_statement(
    reader: &mut Reader,
    alloc: Global,
    levels: usize,
    line: u32,
) -> Result<Statement, ParseFault>
    requires { 1 ≤ levels }
    ensures words { IfOk result (λ x. reserved_at Reserved.While line ∷ reader.old
        ≡ spelled_statement (seen_statement x) ++ reader.new) }
    ensures fits { IfOk result (λ x. StatementFits (seen_statement x) (levels + 1)) }
    ensures closed { IfOk result
        (λ x. first_is (λ w. is_reserved w Reserved.Else) reader.new ≡ true
        → EndsClosed (seen_statement x)) }
    ensures goes { OnOk result (AllGoesOn (while_wants levels) reader.old reader.new) }
    ensures fault { (at : ℕ) → result ≡ Err (ParseFault.Syntax at)
        → AllIsStuck (while_wants levels) reader.old at }
{
    let (test, does) = condition(reader, alloc, Reserved::Do)?;
    let turn = statement(reader, alloc, levels)?;
    let node = While {
        line,
        test,
        does,
        turn,
    };
    Ok(Statement::While(boxed(alloc, node)?))
}

// A REPEAT that is read.
#[cycle(statement)]
fn repeat_statement(
    reader: &mut Reader,
    alloc: Global,
    levels: usize,
    line: u32,
) -> Result<Statement, ParseFault>
    requires { 1 ≤ levels }
    ensures words { IfOk result (λ x. reserved_at Reserved.Repeat line ∷ reader.old
        ≡ spelled_statement (seen_statement x) ++ reader.new) }
    ensures fits { IfOk result (λ x. StatementFits (seen_statement x) (levels + 1)) }
    ensures closed { IfOk result (λ x. EndsClosed (seen_statement x)) }
    ensures goes { OnOk result (AllGoesOn (repeat_wants levels) reader.old reader.new) }
    ensures fault { (at : ℕ) → result ≡ Err (ParseFault.Syntax at)
        → AllIsStuck (repeat_wants levels) reader.old at }
{
    let turn = sequence(reader, alloc, levels)?;
    let until = expect_reserved(reader, Reserved::Until)?;
    let test = expr(reader, alloc, LEVELS)?;
    let node = Repeat {
        line,
        turn,
        until,
        test,
    };
    Ok(Statement::Repeat(boxed(alloc, node)?))
}

// A FOR that is read.
#[cycle(statement)]
fn for_statement(
    reader: &mut Reader,
    alloc: Global,
    levels: usize,
    line: u32,
) -> Result<Statement, ParseFault>
    requires { 1 ≤ levels }
    ensures words { IfOk result (λ x. reserved_at Reserved.For line ∷ reader.old
        ≡ spelled_statement (seen_statement x) ++ reader.new) }
    ensures fits { IfOk result (λ x. StatementFits (seen_statement x) (levels + 1)) }
    ensures closed { IfOk result
        (λ x. first_is (λ w. is_reserved w Reserved.Else) reader.new ≡ true
        → EndsClosed (seen_statement x)) }
    ensures goes { OnOk result (AllGoesOn (range_wants ++ want.statement levels ∷ []) reader.old reader.new) }
    ensures fault { (at : ℕ) → result ≡ Err (ParseFault.Syntax at)
        → AllIsStuck (range_wants ++ want.statement levels ∷ []) reader.old at }
{
    let range = read_range(reader, alloc)?;
    let turn = statement(reader, alloc, levels)?;
    Ok(Statement::For(boxed(alloc, repeated(line, range, turn))?))
}

// A CASE that is read.
#[cycle(statement)]
fn case_statement(
    reader: &mut Reader,
    alloc: Global,
    levels: usize,
    line: u32,
) -> Result<Statement, ParseFault>
    requires { 1 ≤ levels }
    ensures words { IfOk result (λ x. reserved_at Reserved.Case line ∷ reader.old
        ≡ spelled_statement (seen_statement x) ++ reader.new) }
    ensures fits { IfOk result (λ x. StatementFits (seen_statement x) (levels + 1)) }
    ensures closed { IfOk result (λ x. EndsClosed (seen_statement x)) }
    ensures goes { OnOk result (AllGoesOn (case_wants levels) reader.old reader.new) }
    ensures fault { (at : ℕ) → result ≡ Err (ParseFault.Syntax at)
        → AllIsStuck (case_wants levels) reader.old at }
{
    let (selector, of) = condition(reader, alloc, Reserved::Of)?;
    let first = branch(reader, alloc, levels)?;
    let rest = more_branches(reader, alloc, levels)?;
    let end = expect_reserved(reader, Reserved::End)?;
    Ok(Statement::Case(boxed(alloc, choice(line, selector, of, first, rest, end))?))
}

// A branch of a CASE.
#[cycle(statement)]
fn branch(reader: &mut Reader, alloc: Global, levels: usize) -> Result<Branch, ParseFault>
    requires { 1 ≤ levels }
    ensures words { IfOk result
        (λ x. reader.old ≡ spelled_branch (seen_branch x) ++ reader.new) }
    ensures fits { IfOk result (λ x. BranchFits (seen_branch x) levels) }
    ensures goes { OnOk result (AllGoesOn (branch_wants levels) reader.old reader.new) }
    ensures fault { (line : ℕ) → result ≡ Err (ParseFault.Syntax line)
        → AllIsStuck (branch_wants levels) reader.old line }
{
    let labels = labels(reader, alloc)?;
    let colon = expect_symbol(reader, Symbol::Colon)?;
    let statement = statement(reader, alloc, levels)?;
    Ok(Branch {
        labels,
        colon,
        statement,
    })
}

// The later branches, each behind its semicolon.
#[cycle(statement)]
fn more_branches(
    reader: &mut Reader,
    alloc: Global,
    levels: usize,
) -> Result<Vec<(u32, Branch)>, ParseFault>
    requires { 1 ≤ levels }
    ensures words { IfOk result
        (λ x. reader.old ≡ spelled_branches (seen_branches x.items) ++ reader.new) }
    ensures fits { IfOk result (λ x. BranchesFit (seen_branches x.items) levels) }
    ensures goes { OnOk result (GoesOn (want.more_branches levels) reader.old reader.new) }
    ensures fault { (line : ℕ) → result ≡ Err (ParseFault.Syntax line)
        → IsStuck (want.more_branches levels) reader.old line }
{
    let mut rest = Vec::new(alloc);
    while let Some(line) = reader.take_symbol(Symbol::Semicolon) {
        let branch = branch(reader, alloc, levels)?;
        rest.push((line, branch))?;
    }
    Ok(rest)
}
