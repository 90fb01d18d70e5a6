// The code of calls, behind what was passed.

ghost use Rattle.std.specs.Prelude.{◌≡◌, ◌++◌, map, option_map, OnOk, IfOk};
ghost use Rattle.pascal_tree.specs.SeenExpression.{seen_expr, seen_simple, seen_term, seen_factor, seen_arguments, seen_exprs};
ghost use Rattle.pascal_mean.specs.Calls.{row_passing};
ghost use Rattle.pascal_mean.specs.Expressions.{name_in, name_in_simple, name_in_term, name_in_factor};
ghost use Rattle.pascal_code.specs.Calls.{row_number, standard_code, passing_of, variable_code, variables_among, arrays_among, given_exprs, given_arguments, row_call, stores_code, call_code};
ghost use Rattle.pascal_code.specs.Senses.{Interface};
ghost use Rattle.pascal_compile.specs.Seen.{seen_standard, seen_passing, seen_sense, IsSmall};
ghost use Rattle.pascal_compile.specs.SeenSite.{seen_site};
ghost use Rattle.pascal_compile.specs.SeenCalls.{listed, first_of};

use crate::drafts::Drafts;
use crate::instructions::{bare, call_with_array, with_a};
use crate::senses::{Passing, Sense, Standard};
use crate::site::Site;
use crate::using_names::{reference, store};
use pascal_tree::expression::{Arguments, Expr, Factor, Simple, Term};
use solo_base::{NoMemory, Procedure};
use stack_code::{Instr, Op};

/// How the arguments of what is called are passed.
pub fn passing_of(callee: Sense<'_>) -> &[Passing]
    ensures { map seen_passing result.now ≡ passing_of (seen_sense callee.entry) }
{
    match callee {
        Sense::Routine(_, passing) => passing,
        Sense::Function(_) => &[Passing::ByValue],
        Sense::Interface(procedure) => row_passing(procedure),
        _ => &[],
    }
}

fn row_passing(procedure: Procedure) -> &'static [Passing]
    ensures { map seen_passing result.now ≡ row_passing procedure }
{
    use Passing::{ByArray, ByValue, ByVariable};
    match procedure {
        Procedure::Read | Procedure::Accept => &[ByVariable],
        Procedure::Write
        | Procedure::WriteInt
        | Procedure::Display
        | Procedure::Close
        | Procedure::Length => &[ByValue],
        Procedure::Open => &[ByValue, ByArray, ByVariable],
        Procedure::Get | Procedure::Put | Procedure::WriteArg => &[ByValue, ByValue, ByArray],
        Procedure::Lookup | Procedure::Run => &[ByArray, ByVariable, ByVariable],
        Procedure::ReadArg => &[ByVariable, ByVariable, ByArray],
    }
}

/// A variable that is passed to what is called: a routine gets a reference to it, and the interface
/// sets it behind the call.
pub fn pass_variable(code: &mut Drafts, callee: Sense<'_>, given: Sense<'_>) -> Result<(), NoMemory>
    requires { IsSmall (seen_sense given) }
    ensures { OnOk result (code.new
        ≡ code.old ++ variable_code (seen_sense callee.entry) (seen_sense given.entry)) }
{
    match callee {
        Sense::Routine(_, _) => reference(code, given),
        Sense::Interface(_) => Ok(()),
        Sense::Constant(_) => Ok(()),
        Sense::Variable(_, _) => Ok(()),
        Sense::Array(_, _, _) => Ok(()),
        Sense::Reference(_) => Ok(()),
        Sense::Function(_) => Ok(()),
        Sense::Nothing => Ok(()),
    }
}

/// What an argument is by its name, where it is nothing but a name.
pub fn given_by<'a>(site: &Site<'_, 'a>, argument: &Expr) -> Sense<'a>
    ensures sense { seen_sense result ≡ (seen_site site.now).names (name_in (seen_expr argument.now)) }
    ensures small { IsSmall (seen_sense result) }
{
    match &argument.right {
        None => given_by_simple(site, &argument.left),
        Some(_) => site.find(&[]),
    }
}

fn given_by_simple<'a>(site: &Site<'_, 'a>, simple: &Simple) -> Sense<'a>
    ensures sense { seen_sense result
        ≡ (seen_site site.now).names (name_in_simple (seen_simple simple.now)) }
    ensures small { IsSmall (seen_sense result) }
{
    given_by_term(site, &simple.first)
}

fn given_by_term<'a>(site: &Site<'_, 'a>, term: &Term) -> Sense<'a>
    ensures sense { seen_sense result
        ≡ (seen_site site.now).names (name_in_term (seen_term term.now)) }
    ensures small { IsSmall (seen_sense result) }
{
    given_by_factor(site, &term.first)
}

fn given_by_factor<'a>(site: &Site<'_, 'a>, factor: &Factor) -> Sense<'a>
    ensures sense { seen_sense result
        ≡ (seen_site site.now).names (name_in_factor (seen_factor factor.now)) }
    ensures small { IsSmall (seen_sense result) }
{
    match factor {
        Factor::Name(name) => site.find_name(name),
        Factor::Number(_) => site.find(&[]),
        Factor::Character(_) => site.find(&[]),
        Factor::Element(_, _) => site.find(&[]),
        Factor::Call(_, _) => site.find(&[]),
        Factor::Group { .. } => site.find(&[]),
        Factor::Not { .. } => site.find(&[]),
    }
}

/// What each argument is by its name.
pub fn given_arguments<'a>(
    site: &Site<'_, 'a>,
    list: &Arguments,
) -> Result<Vec<Sense<'a>>, NoMemory>
    ensures { IfOk result (λ given. map seen_sense given.items
        ≡ given_arguments (seen_site site.now) (seen_arguments list.now)) }
{
    let mut given = Vec::new(*list.rest.allocator());
    given.push(given_by(site, &list.first))?;
    add_given(&mut given, site, &list.rest)?;
    Ok(given)
}

fn add_given<'a>(
    given: &mut Vec<Sense<'a>>,
    site: &Site<'_, 'a>,
    rest: &[(u32, Expr)],
) -> Result<(), NoMemory>
    ensures { OnOk result (map seen_sense given.new.items
        ≡ map seen_sense given.old.items ++ given_exprs (seen_site site.now) (seen_exprs rest.now)) }
{
    for (_, argument) in rest {
        given.push(given_by(site, argument))?;
    }
    Ok(())
}

/// A call of what a name is, behind what was passed, where these are the arguments and a function's
/// result has this word.
pub fn call(
    code: &mut Drafts,
    answer: u16,
    callee: Sense<'_>,
    given: &[Sense<'_>],
) -> Result<(), NoMemory>
    ensures { OnOk result (code.new
        ≡ code.old ++ call_code answer (seen_sense callee.entry) (map seen_sense given.now)) }
{
    match callee {
        Sense::Routine(number, _) => code.emit(with_a(Op::Call, number)),
        Sense::Function(function) => standard(code, function),
        Sense::Interface(procedure) => interface(code, answer, procedure, given),
        Sense::Constant(_) => Ok(()),
        Sense::Variable(_, _) => Ok(()),
        Sense::Array(_, _, _) => Ok(()),
        Sense::Reference(_) => Ok(()),
        Sense::Nothing => Ok(()),
    }
}

fn standard(code: &mut Drafts, function: Standard) -> Result<(), NoMemory>
    ensures { OnOk result (code.new ≡ code.old ++ standard_code (seen_standard function)) }
{
    match function {
        Standard::Abs => code.emit(bare(Op::Abs)),
        Standard::Succ => code.emit(bare(Op::Succ)),
        Standard::Pred => code.emit(bare(Op::Pred)),
        Standard::Ord => Ok(()),
        Standard::Chr => code.emit(bare(Op::Chr)),
    }
}

fn interface(
    code: &mut Drafts,
    answer: u16,
    procedure: Procedure,
    given: &[Sense<'_>],
) -> Result<(), NoMemory>
    ensures { OnOk result (code.new
        ≡ code.old ++ call_code answer (Interface procedure) (map seen_sense given.now)) }
{
    let passing = row_passing(procedure);
    code.emit(row_call(procedure, array_among(passing, given)))?;
    store_variables(code, answer, passing, given)?;
    Ok(())
}

/// The call of a row, with the array that it has.
fn row_call(procedure: Procedure, array: Option<Sense<'_>>) -> Instr
    ensures { result ≡ row_call procedure (listed (option_map seen_sense array.entry)) }
{
    match array {
        Some(Sense::Array(owner, place, _)) => {
            call_with_array(owner, row_number(procedure), place)
        }
        _ => with_a(Op::Sys, row_number(procedure)),
    }
}

/// The first argument that is passed as an array.
fn array_among<'a>(passing: &[Passing], given: &[Sense<'a>]) -> Option<Sense<'a>>
    ensures { option_map seen_sense result
        ≡ first_of (arrays_among (map seen_passing passing.now) (map seen_sense given.now)) }
{
    let [first, others @ ..] = passing else {
        return None;
    };
    let [sense, more @ ..] = given else {
        return None;
    };
    match first {
        Passing::ByArray => Some(*sense),
        Passing::ByValue => array_among(others, more),
        Passing::ByVariable => array_among(others, more),
    }
}

/// Sets the variables among the arguments, from the last to the first.
fn store_variables(
    code: &mut Drafts,
    answer: u16,
    passing: &[Passing],
    given: &[Sense<'_>],
) -> Result<(), NoMemory>
    ensures { OnOk result (code.new ≡ code.old ++ stores_code answer
        (variables_among (map seen_passing passing.now) (map seen_sense given.now))) }
{
    let [first, others @ ..] = passing else {
        return Ok(());
    };
    let [sense, more @ ..] = given else {
        return Ok(());
    };
    store_variables(code, answer, others, more)?;
    match first {
        Passing::ByVariable => store(code, answer, *sense),
        Passing::ByValue => Ok(()),
        Passing::ByArray => Ok(()),
    }
}

/// The number of a row.
fn row_number(procedure: Procedure) -> u16
    ensures { result ≡ row_number procedure }
{
    match procedure {
        Procedure::Read => 0,
        Procedure::Write => 1,
        Procedure::WriteInt => 2,
        Procedure::Accept => 3,
        Procedure::Display => 4,
        Procedure::Open => 5,
        Procedure::Close => 6,
        Procedure::Get => 7,
        Procedure::Put => 8,
        Procedure::Length => 9,
        Procedure::Lookup => 10,
        Procedure::ReadArg => 11,
        Procedure::WriteArg => 12,
        Procedure::Run => 13,
    }
}
