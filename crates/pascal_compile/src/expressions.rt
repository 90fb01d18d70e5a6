// The code of expressions.

ghost use Rattle.std.specs.Prelude.{◌≡◌, ◌++◌, map, OnOk};
ghost use Rattle.pascal_tree.specs.SeenExpression.{seen_expr, seen_simple, seen_addends, seen_term, seen_multipliers, seen_factor, seen_index, seen_arguments, seen_exprs};
ghost use Rattle.pascal_mean.specs.Expressions.{name_in};
ghost use Rattle.pascal_code.specs.Calls.{passed_code};
ghost use Rattle.pascal_code.specs.Expressions.{relation_op, adding_op, multiplying_op, sign_code, expr_code, simple_code, addends_code, term_code, multipliers_code, factor_code, index_code, arguments_code, exprs_code};
ghost use Rattle.pascal_compile.specs.Seen.{seen_passing, seen_sense, IsSmall};
ghost use Rattle.pascal_compile.specs.SeenSite.{seen_site};

use crate::calls::{call, given_arguments, given_by, pass_variable, passing_of};
use crate::drafts::Drafts;
use crate::instructions::{bare, push};
use crate::senses::{Passing, Sense};
use crate::site::Site;
use crate::using_names::{load, load_item, test};
use pascal_tree::LeadingSign;
use pascal_tree::expression::{
    Adding, Arguments, Expr, Factor, Index, Multiplying, Relation, Sign, Simple, Term,
};
use solo_base::NoMemory;
use stack_code::Op;

fn relation_op(relation: Relation) -> Op
    ensures { result ≡ relation_op relation }
{
    match relation {
        Relation::Equal => Op::Eq,
        Relation::NotEqual => Op::Ne,
        Relation::Less => Op::Lt,
        Relation::Greater => Op::Gt,
        Relation::LessOrEqual => Op::Le,
        Relation::GreaterOrEqual => Op::Ge,
    }
}

fn adding_op(adding: Adding) -> Op
    ensures { result ≡ adding_op adding }
{
    match adding {
        Adding::Plus => Op::Add,
        Adding::Minus => Op::Sub,
        Adding::Or => Op::Or,
    }
}

fn multiplying_op(multiplying: Multiplying) -> Op
    ensures { result ≡ multiplying_op multiplying }
{
    match multiplying {
        Multiplying::Times => Op::Mul,
        Multiplying::Div => Op::Div,
        Multiplying::Mod => Op::Mod,
        Multiplying::And => Op::And,
    }
}

/// Emits the code of an expression.
#[cycle(expression)]
pub fn expr(code: &mut Drafts, site: &Site<'_, '_>, e: &Expr) -> Result<(), NoMemory>
    ensures { OnOk result (code.new ≡ code.old ++ expr_code (seen_site site.now) (seen_expr e.now)) }
{
    simple(code, site, &e.left)?;
    match &e.right {
        None => Ok(()),
        Some(comparison) => {
            simple(code, site, &comparison.right)?;
            code.emit(bare(relation_op(comparison.relation)))
        }
    }
}

#[cycle(expression)]
fn simple(code: &mut Drafts, site: &Site<'_, '_>, s: &Simple) -> Result<(), NoMemory>
    ensures { OnOk result (code.new ≡ code.old ++ simple_code (seen_site site.now) (seen_simple s.now)) }
{
    term(code, site, &s.first)?;
    sign(code, &s.sign)?;
    addends(code, site, &s.rest)?;
    Ok(())
}

fn sign(code: &mut Drafts, sign: &LeadingSign) -> Result<(), NoMemory>
    ensures { OnOk result (code.new ≡ code.old ++ sign_code sign.now) }
{
    match sign.get() {
        Some((Sign::Minus, _)) => code.emit(bare(Op::Neg)),
        Some((Sign::Plus, _)) | None => Ok(()),
    }
}

#[cycle(expression)]
fn addends(
    code: &mut Drafts,
    site: &Site<'_, '_>,
    rest: &[(Adding, u32, Term)],
) -> Result<(), NoMemory>
    ensures { OnOk result (code.new
        ≡ code.old ++ addends_code (seen_site site.now) (seen_addends rest.now)) }
{
    for (adding, _, operand) in rest {
        term(code, site, operand)?;
        code.emit(bare(adding_op(*adding)))?;
    }
    Ok(())
}

#[cycle(expression)]
fn term(code: &mut Drafts, site: &Site<'_, '_>, t: &Term) -> Result<(), NoMemory>
    ensures { OnOk result (code.new ≡ code.old ++ term_code (seen_site site.now) (seen_term t.now)) }
{
    factor(code, site, &t.first)?;
    multipliers(code, site, &t.rest)?;
    Ok(())
}

#[cycle(expression)]
fn multipliers(
    code: &mut Drafts,
    site: &Site<'_, '_>,
    rest: &[(Multiplying, u32, Factor)],
) -> Result<(), NoMemory>
    ensures { OnOk result (code.new
        ≡ code.old ++ multipliers_code (seen_site site.now) (seen_multipliers rest.now)) }
{
    for (multiplying, _, operand) in rest {
        factor(code, site, operand)?;
        code.emit(bare(multiplying_op(*multiplying)))?;
    }
    Ok(())
}

#[cycle(expression)]
fn factor(code: &mut Drafts, site: &Site<'_, '_>, f: &Factor) -> Result<(), NoMemory>
    ensures { OnOk result (code.new ≡ code.old ++ factor_code (seen_site site.now) (seen_factor f.now)) }
{
    match f {
        Factor::Number(number) => code.emit(push(number.value as i16)),
        Factor::Character(character) => code.emit(push(i16::from(character.code))),
        Factor::Name(name) => load(code, site.find_name(name)),
        Factor::Element(name, place) => {
            let array = site.find_name(name);
            index(code, site, array, place)?;
            load_item(code, array)
        }
        Factor::Call(name, list) => {
            let callee = site.find_name(name);
            arguments(code, site, callee, passing_of(callee), list)?;
            call(code, site.answer(), callee, &given_arguments(site, list)?)
        }
        Factor::Group { inner, .. } => expr(code, site, inner),
        Factor::Not { operand, .. } => {
            factor(code, site, operand)?;
            code.emit(bare(Op::Not))
        }
    }
}

/// Emits the code of an array's index, and its test.
#[cycle(expression)]
pub fn index(
    code: &mut Drafts,
    site: &Site<'_, '_>,
    array: Sense<'_>,
    index: &Index,
) -> Result<(), NoMemory>
    ensures { OnOk result (code.new
        ≡ code.old ++ index_code (seen_site site.now) (seen_sense array.entry) (seen_index index.now)) }
{
    expr(code, site, &index.place)?;
    test(code, array)
}

/// Emits the code of the arguments of what is called, as they are passed.
#[cycle(expression)]
pub fn arguments(
    code: &mut Drafts,
    site: &Site<'_, '_>,
    callee: Sense<'_>,
    passing: &[Passing],
    list: &Arguments,
) -> Result<(), NoMemory>
    ensures { OnOk result (code.new
        ≡ code.old ++ arguments_code (seen_site site.now) (seen_sense callee.entry)
        (map seen_passing passing.now) (seen_arguments list.now)) }
{
    let [first, others @ ..] = passing else {
        return Ok(());
    };
    argument(code, site, callee, *first, &list.first)?;
    more_arguments(code, site, callee, others, &list.rest)?;
    Ok(())
}

#[cycle(expression)]
fn more_arguments(
    code: &mut Drafts,
    site: &Site<'_, '_>,
    callee: Sense<'_>,
    passing: &[Passing],
    rest: &[(u32, Expr)],
) -> Result<(), NoMemory>
    ensures { OnOk result (code.new ≡ code.old ++ exprs_code (seen_site site.now) (seen_sense callee.entry)
        (map seen_passing passing.now) (seen_exprs rest.now)) }
{
    let mut left = passing;
    for (_, e) in rest {
        let [first, others @ ..] = left else {
            return Ok(());
        };
        argument(code, site, callee, *first, e)?;
        left = others;
    }
    Ok(())
}

#[cycle(expression)]
fn argument(
    code: &mut Drafts,
    site: &Site<'_, '_>,
    callee: Sense<'_>,
    passing: Passing,
    e: &Expr,
) -> Result<(), NoMemory>
    ensures { OnOk result (code.new ≡ code.old ++ passed_code (seen_sense callee.entry) (seen_passing passing)
        ((seen_site site.now).names (name_in (seen_expr e.now)))
        (expr_code (seen_site site.now) (seen_expr e.now))) }
{
    match passing {
        Passing::ByValue => expr(code, site, e),
        Passing::ByVariable => pass_variable(code, callee, given_by(site, e)),
        Passing::ByArray => Ok(()),
    }
}
