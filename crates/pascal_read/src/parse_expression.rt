// Expressions, read by descent.
#![tactic(auto, using(crate::proofs::ParseRows::rows, crate::proofs::ParseLists::pushes))]

ghost use Rattle.std.specs.Prelude.{◌≡◌, ℕ, ◌+◌, ◌≤◌, ◌∷◌, [], ◌++◌, List, Some, Err, IfOk, OnOk, IfSome, IfNone};
ghost use Rattle.pascal_tree.specs.SeenExpression.{seen_expr, seen_simple, seen_term, seen_factor, seen_index, seen_arguments, seen_addends, seen_multipliers, seen_exprs};
ghost use Rattle.pascal_tree.specs.SpellExpression.{spelled_expr, spelled_simple, spelled_addends, spelled_term, spelled_multipliers, spelled_factor, spelled_exprs, spelled_sign, spelled_index, spelled_arguments, name_at, symbol_at, reserved_at, adding_word, multiplying_word, relation_symbol};
ghost use Rattle.pascal_tree.specs.Limits.{ExprFits, SimpleFits, AddendsFit, TermFits, MultipliersFit, FactorFits, IndexFits, ArgumentsFit, ExprsFit};
ghost use Rattle.pascal_read.specs.ParseFirst.{word_at};
ghost use Rattle.pascal_read.specs.ParseParts.{seen_right, spelled_comparison, RightFits};
ghost use Rattle.pascal_read.specs.ParseWants.{Want, mark, index_wants, argument_wants, GoesOn, IsStuck, Skips, AllGoesOn, AllIsStuck, report};
ghost use Rattle.pascal_read.specs.ParseWants as want;

use crate::parse_expect::{expect_symbol, within};
use crate::parse_fault::ParseFault;
use crate::parse_node::{boxed, compared};
use crate::parse_reader::Reader;
use pascal_tree::expression::{
    Adding, Arguments, Comparison, Expr, Factor, Index, Multiplying, Relation, Sign, Simple, Term,
};
use pascal_tree::leaf::Name;
use pascal_tree::{LeadingSign, Reserved, Symbol};
use std::alloc::Global;

/// An expression whose factors have at most so many levels.
#[cycle(expression)]
pub fn expr(reader: &mut Reader, alloc: Global, levels: usize) -> Result<Expr, ParseFault>
    requires { 1 ≤ levels }
    ensures words { IfOk result
        (λ x. reader.old ≡ spelled_expr (seen_expr x) ++ reader.new) }
    ensures fits { IfOk result (λ x. ExprFits (seen_expr x) levels) }
    ensures goes { OnOk result (GoesOn (want.expr levels) reader.old reader.new) }
    ensures fault { (line : ℕ) → result ≡ Err (ParseFault.Syntax line)
        → IsStuck (want.expr levels) reader.old line }
{
    let left = simple(reader, alloc, levels)?;
    let right = comparison(reader, alloc, levels)?;
    Ok(compared(left, right))
}

// A relation and what stands behind it, where a relation stands here.
#[cycle(expression)]
fn comparison(
    reader: &mut Reader,
    alloc: Global,
    levels: usize,
) -> Result<Option<Box<Comparison>>, ParseFault>
    requires { 1 ≤ levels }
    ensures words { IfOk result
        (λ x. reader.old ≡ spelled_comparison (seen_right x) ++ reader.new) }
    ensures fits { IfOk result (λ x. RightFits (seen_right x) levels) }
    ensures goes { OnOk result (GoesOn (want.relation levels) reader.old reader.new) }
    ensures fault { (line : ℕ) → result ≡ Err (ParseFault.Syntax line)
        → IsStuck (want.relation levels) reader.old line }
{
    let Some((relation, line)) = take_relation(reader) else {
        return Ok(None);
    };
    let right = simple(reader, alloc, levels)?;
    let node = Comparison {
        relation,
        line,
        right,
    };
    Ok(Some(boxed(alloc, node)?))
}

// Takes a relation, where one stands here.
fn take_relation(reader: &mut Reader) -> Option<(Relation, u32)>
    ensures taken { IfSome result
        (λ r. reader.old ≡ symbol_at (relation_symbol r.0) r.1 ∷ reader.new) }
    ensures none { IfNone result (reader.new ≡ reader.old) }
    ensures skips { IfNone result ((n : ℕ) → Skips (want.relation n) reader.old) }
{
    if let Some(line) = reader.take_symbol(Symbol::Equal) {
        return Some((Relation::Equal, line));
    }
    if let Some(line) = reader.take_symbol(Symbol::NotEqual) {
        return Some((Relation::NotEqual, line));
    }
    if let Some(line) = reader.take_symbol(Symbol::Less) {
        return Some((Relation::Less, line));
    }
    if let Some(line) = reader.take_symbol(Symbol::Greater) {
        return Some((Relation::Greater, line));
    }
    if let Some(line) = reader.take_symbol(Symbol::LessOrEqual) {
        return Some((Relation::LessOrEqual, line));
    }
    let line = reader.take_symbol(Symbol::GreaterOrEqual)?;
    Some((Relation::GreaterOrEqual, line))
}

// Terms, with a sign before the first or none.
#[cycle(expression)]
fn simple(reader: &mut Reader, alloc: Global, levels: usize) -> Result<Simple, ParseFault>
    requires { 1 ≤ levels }
    ensures words { IfOk result
        (λ x. reader.old ≡ spelled_simple (seen_simple x) ++ reader.new) }
    ensures fits { IfOk result (λ x. SimpleFits (seen_simple x) levels) }
    ensures goes { OnOk result (GoesOn (want.simple levels) reader.old reader.new) }
    ensures fault { (line : ℕ) → result ≡ Err (ParseFault.Syntax line)
        → IsStuck (want.simple levels) reader.old line }
{
    let sign = take_sign(reader);
    let first = term(reader, alloc, levels)?;
    let rest = addends(reader, alloc, levels)?;
    Ok(Simple { sign, first, rest })
}

// Takes a sign, where one stands here.
fn take_sign(reader: &mut Reader) -> LeadingSign
    ensures words { reader.old ≡ spelled_sign result ++ reader.new }
    ensures goes { (n : ℕ) (rest : List Want) → report reader.old (want.simple n ∷ rest)
        ≡ report reader.new (want.term n ∷ (want.addends n ∷ rest)) }
{
    if let Some(line) = reader.take_symbol(Symbol::Plus) {
        return LeadingSign::of(Some((Sign::Plus, line)));
    }
    match reader.take_symbol(Symbol::Minus) {
        Some(line) => LeadingSign::of(Some((Sign::Minus, line))),
        None => LeadingSign::of(None),
    }
}

// The later terms, each behind its operator.
#[cycle(expression)]
fn addends(
    reader: &mut Reader,
    alloc: Global,
    levels: usize,
) -> Result<Vec<(Adding, u32, Term)>, ParseFault>
    requires { 1 ≤ levels }
    ensures words { IfOk result
        (λ x. reader.old ≡ spelled_addends (seen_addends x.items) ++ reader.new) }
    ensures fits { IfOk result (λ x. AddendsFit (seen_addends x.items) levels) }
    ensures goes { OnOk result (GoesOn (want.addends levels) reader.old reader.new) }
    ensures fault { (line : ℕ) → result ≡ Err (ParseFault.Syntax line)
        → IsStuck (want.addends levels) reader.old line }
{
    let mut rest = Vec::new(alloc);
    while let Some((adding, line)) = take_adding(reader) {
        let term = term(reader, alloc, levels)?;
        rest.push((adding, line, term))?;
    }
    rest.shrink_to_fit();
    Ok(rest)
}

// Takes an operator between terms, where one stands here.
fn take_adding(reader: &mut Reader) -> Option<(Adding, u32)>
    ensures taken { IfSome result
        (λ a. reader.old ≡ word_at (adding_word a.0) a.1 ∷ reader.new) }
    ensures none { IfNone result (reader.new ≡ reader.old) }
    ensures skips { IfNone result ((n : ℕ) → Skips (want.addends n) reader.old) }
{
    if let Some(line) = reader.take_symbol(Symbol::Plus) {
        return Some((Adding::Plus, line));
    }
    if let Some(line) = reader.take_symbol(Symbol::Minus) {
        return Some((Adding::Minus, line));
    }
    let line = reader.take_reserved(Reserved::Or)?;
    Some((Adding::Or, line))
}

// A factor and those behind it.
#[cycle(expression)]
fn term(reader: &mut Reader, alloc: Global, levels: usize) -> Result<Term, ParseFault>
    requires { 1 ≤ levels }
    ensures words { IfOk result
        (λ x. reader.old ≡ spelled_term (seen_term x) ++ reader.new) }
    ensures fits { IfOk result (λ x. TermFits (seen_term x) levels) }
    ensures goes { OnOk result (GoesOn (want.term levels) reader.old reader.new) }
    ensures fault { (line : ℕ) → result ≡ Err (ParseFault.Syntax line)
        → IsStuck (want.term levels) reader.old line }
{
    let first = factor(reader, alloc, levels)?;
    let rest = multipliers(reader, alloc, levels)?;
    Ok(Term { first, rest })
}

// The later factors, each behind its operator.
#[cycle(expression)]
fn multipliers(
    reader: &mut Reader,
    alloc: Global,
    levels: usize,
) -> Result<Vec<(Multiplying, u32, Factor)>, ParseFault>
    requires { 1 ≤ levels }
    ensures words { IfOk result
        (λ x. reader.old ≡ spelled_multipliers (seen_multipliers x.items) ++ reader.new) }
    ensures fits { IfOk result (λ x. MultipliersFit (seen_multipliers x.items) levels) }
    ensures goes { OnOk result (GoesOn (want.multipliers levels) reader.old reader.new) }
    ensures fault { (line : ℕ) → result ≡ Err (ParseFault.Syntax line)
        → IsStuck (want.multipliers levels) reader.old line }
{
    let mut rest = Vec::new(alloc);
    while let Some((multiplying, line)) = take_multiplying(reader) {
        let factor = factor(reader, alloc, levels)?;
        rest.push((multiplying, line, factor))?;
    }
    rest.shrink_to_fit();
    Ok(rest)
}

// Takes an operator between factors, where one stands here.
fn take_multiplying(reader: &mut Reader) -> Option<(Multiplying, u32)>
    ensures taken { IfSome result
        (λ m. reader.old ≡ word_at (multiplying_word m.0) m.1 ∷ reader.new) }
    ensures none { IfNone result (reader.new ≡ reader.old) }
    ensures skips { IfNone result ((n : ℕ) → Skips (want.multipliers n) reader.old) }
{
    if let Some(line) = reader.take_symbol(Symbol::Times) {
        return Some((Multiplying::Times, line));
    }
    if let Some(line) = reader.take_reserved(Reserved::Div) {
        return Some((Multiplying::Div, line));
    }
    if let Some(line) = reader.take_reserved(Reserved::Mod) {
        return Some((Multiplying::Mod, line));
    }
    let line = reader.take_symbol(Symbol::And)?;
    Some((Multiplying::And, line))
}

// A factor: what stands inside it has one level less.
#[cycle(expression)]
fn factor(reader: &mut Reader, alloc: Global, levels: usize) -> Result<Factor, ParseFault>
    requires { 1 ≤ levels }
    ensures words { IfOk result
        (λ x. reader.old ≡ spelled_factor (seen_factor x) ++ reader.new) }
    ensures fits { IfOk result (λ x. FactorFits (seen_factor x) levels) }
    ensures goes { OnOk result (GoesOn (want.factor levels) reader.old reader.new) }
    ensures fault { (line : ℕ) → result ≡ Err (ParseFault.Syntax line)
        → IsStuck (want.factor levels) reader.old line }
{
    if let Some(number) = reader.take_number() {
        return Ok(Factor::Number(number));
    }
    if let Some(character) = reader.take_character() {
        return Ok(Factor::Character(character));
    }
    if let Some(name) = reader.take_name() {
        return named(reader, alloc, levels, name);
    }
    if let Some(opening) = reader.take_symbol(Symbol::Open) {
        return group(reader, alloc, within(levels, opening)?, opening);
    }
    if let Some(line) = reader.take_reserved(Reserved::Not) {
        let operand = factor(reader, alloc, within(levels, line)?)?;
        return Ok(Factor::Not {
            line,
            operand: boxed(alloc, operand)?,
        });
    }
    Err(ParseFault::Syntax {
        line: reader.line(),
    })
}

// An expression in parentheses of which the first is read.
#[cycle(expression)]
fn group(
    reader: &mut Reader,
    alloc: Global,
    levels: usize,
    opening: u32,
) -> Result<Factor, ParseFault>
    requires { 1 ≤ levels }
    ensures words { IfOk result (λ x. symbol_at Symbol.Open opening ∷ reader.old
        ≡ spelled_factor (seen_factor x) ++ reader.new) }
    ensures fits { IfOk result (λ x. FactorFits (seen_factor x) (levels + 1)) }
    ensures goes { OnOk result (AllGoesOn (want.expr levels ∷ mark Symbol.Close ∷ [])
        reader.old reader.new) }
    ensures fault { (line : ℕ) → result ≡ Err (ParseFault.Syntax line)
        → AllIsStuck (want.expr levels ∷ mark Symbol.Close ∷ []) reader.old line }
{
    let inner = expr(reader, alloc, levels)?;
    let closing = expect_symbol(reader, Symbol::Close)?;
    Ok(Factor::Group {
        opening,
        inner: boxed(alloc, inner)?,
        closing,
    })
}

// A factor whose name is read.
#[cycle(expression)]
fn named(
    reader: &mut Reader,
    alloc: Global,
    levels: usize,
    name: Name,
) -> Result<Factor, ParseFault>
    requires { 1 ≤ levels }
    ensures words { IfOk result
        (λ x. name_at name ∷ reader.old ≡ spelled_factor (seen_factor x) ++ reader.new) }
    ensures fits { IfOk result (λ x. FactorFits (seen_factor x) levels) }
    ensures goes { OnOk result (GoesOn (want.behind_name levels) reader.old reader.new) }
    ensures fault { (line : ℕ) → result ≡ Err (ParseFault.Syntax line)
        → IsStuck (want.behind_name levels) reader.old line }
{
    if let Some(opening) = reader.take_symbol(Symbol::OpenIndex) {
        let index = index(reader, alloc, within(levels, opening)?, opening)?;
        return Ok(Factor::Element(name, index));
    }
    if let Some(opening) = reader.take_symbol(Symbol::Open) {
        let arguments = arguments(reader, alloc, within(levels, opening)?, opening)?;
        return Ok(Factor::Call(name, arguments));
    }
    Ok(Factor::Name(name))
}

/// An index whose opening bracket is read.
#[cycle(expression)]
pub fn index(
    reader: &mut Reader,
    alloc: Global,
    levels: usize,
    opening: u32,
) -> Result<Box<Index>, ParseFault>
    requires { 1 ≤ levels }
    ensures words { IfOk result (λ x. symbol_at Symbol.OpenIndex opening ∷ reader.old
        ≡ spelled_index (seen_index x.value) ++ reader.new) }
    ensures fits { IfOk result (λ x. IndexFits (seen_index x.value) levels) }
    ensures goes { OnOk result (AllGoesOn (index_wants levels) reader.old reader.new) }
    ensures fault { (line : ℕ) → result ≡ Err (ParseFault.Syntax line)
        → AllIsStuck (index_wants levels) reader.old line }
{
    let place = expr(reader, alloc, levels)?;
    let closing = expect_symbol(reader, Symbol::CloseIndex)?;
    let node = Index {
        opening,
        place,
        closing,
    };
    boxed(alloc, node)
}

/// Arguments whose opening parenthesis is read.
#[cycle(expression)]
pub fn arguments(
    reader: &mut Reader,
    alloc: Global,
    levels: usize,
    opening: u32,
) -> Result<Box<Arguments>, ParseFault>
    requires { 1 ≤ levels }
    ensures words { IfOk result (λ x. symbol_at Symbol.Open opening ∷ reader.old
        ≡ spelled_arguments (seen_arguments x.value) ++ reader.new) }
    ensures fits { IfOk result (λ x. ArgumentsFit (seen_arguments x.value) levels) }
    ensures goes { OnOk result (AllGoesOn (argument_wants levels) reader.old reader.new) }
    ensures fault { (line : ℕ) → result ≡ Err (ParseFault.Syntax line)
        → AllIsStuck (argument_wants levels) reader.old line }
{
    let first = expr(reader, alloc, levels)?;
    let rest = more_exprs(reader, alloc, levels)?;
    let closing = expect_symbol(reader, Symbol::Close)?;
    let node = Arguments {
        opening,
        first,
        rest,
        closing,
    };
    boxed(alloc, node)
}

// The later expressions of a list, each behind its comma.
#[cycle(expression)]
fn more_exprs(
    reader: &mut Reader,
    alloc: Global,
    levels: usize,
) -> Result<Vec<(u32, Expr)>, ParseFault>
    requires { 1 ≤ levels }
    ensures words { IfOk result
        (λ x. reader.old ≡ spelled_exprs (seen_exprs x.items) ++ reader.new) }
    ensures fits { IfOk result (λ x. ExprsFit (seen_exprs x.items) levels) }
    ensures goes { OnOk result (GoesOn (want.more_exprs levels) reader.old reader.new) }
    ensures fault { (line : ℕ) → result ≡ Err (ParseFault.Syntax line)
        → IsStuck (want.more_exprs levels) reader.old line }
{
    let mut rest = Vec::new(alloc);
    while let Some(line) = reader.take_symbol(Symbol::Comma) {
        let expr = expr(reader, alloc, levels)?;
        rest.push((line, expr))?;
    }
    rest.shrink_to_fit();
    Ok(rest)
}
