// The values of expressions.
#![tactic(auto, using(crate::proofs::Parts::steps))]

ghost use Rattle.std.specs.Prelude.{◌≡◌, map};
ghost use Rattle.pascal_tree.specs.SeenExpression.{seen_expr, seen_simple, seen_addends, seen_term, seen_multipliers, seen_factor, seen_index, seen_arguments, seen_exprs};
ghost use Rattle.pascal_mean.specs.Situation.{Situation, Gives};
ghost use Rattle.pascal_mean.specs.Variables.{place_named, array_named};
ghost use Rattle.pascal_mean.specs.Calls.{Alias, Elements, passing_named, passed};
ghost use Rattle.pascal_mean.specs.Expressions.{call_value, named_value, name_in, name_in_term, name_in_factor, with_sign, expr_value, simple_value, addends_value, term_value, multipliers_value, factor_value, index_value, arguments_given, exprs_given};
ghost use Rattle.pascal_evaluate.specs.SeenNames.{seen_sense, seen_bounds, seen_scope};
ghost use Rattle.pascal_evaluate.specs.SeenStore.{situation, seen_passing, seen_given, all_given};
ghost use Rattle.pascal_evaluate.specs.SeenSetting.{seen_setting};
ghost use Rattle.pascal_evaluate.specs.Ran.{Ran, RanGiven, RanArguments, RanMore};

use crate::activation::ArrayPlace;
use crate::calls::{Given, Passing, array_named, first_value, passing_named};
use crate::interface::interface;
use crate::level::Level;
use crate::means::{Bounds, Plain, Sense};
use crate::operators::{
    added, compared, multiplied, number_or_overflow, signed, standard, truth, within,
};
use crate::run::Run;
use crate::setting::Setting;
use crate::stop::Stop;
use pascal_tree::expression::{
    Adding, Arguments, Expr, Factor, Index, Multiplying, Sign, Simple, Term,
};
use pascal_tree::leaf::Name;
use pascal_tree::{LeadingSign, Letters};

/// The value of an expression.
#[cycle(expression)]
pub fn expr<L: Level>(setting: &Setting<'_>, run: &mut Run, e: &Expr) -> Result<i16, Stop>
    ensures { Ran (expr_value (seen_setting L.free setting.now) (seen_expr e.now) (situation run.old))
        result (situation run.new) }
{
    match &e.right {
        None => simple::<L>(setting, run, &e.left),
        Some(comparison) => {
            let left = simple::<L>(setting, run, &e.left)?;
            let right = simple::<L>(setting, run, &comparison.right)?;
            Ok(compared(comparison.relation, left, right))
        }
    }
}

// The sign applies to the first term.
#[cycle(expression)]
fn simple<L: Level>(setting: &Setting<'_>, run: &mut Run, s: &Simple) -> Result<i16, Stop>
    ensures { Ran (simple_value (seen_setting L.free setting.now) (seen_simple s.now) (situation run.old))
        result (situation run.new) }
{
    let value = term::<L>(setting, run, &s.first)?;
    let first = with_sign(&s.sign, value)?;
    addends::<L>(setting, run, first, &s.rest)
}

fn with_sign(sign: &LeadingSign, value: i16) -> Result<i16, Stop>
    ensures { (now : Situation) → Ran (with_sign sign.now value now) result now }
{
    match sign.get() {
        Some((sign, _)) => number_or_overflow(signed(sign, value)),
        None => Ok(value),
    }
}

// The terms behind a first value, from left to right.
#[cycle(expression)]
fn addends<L: Level>(
    setting: &Setting<'_>,
    run: &mut Run,
    first: i16,
    rest: &[(Adding, u32, Term)],
) -> Result<i16, Stop>
    ensures { Ran (addends_value (seen_setting L.free setting.now) (seen_addends rest.now) first
        (situation run.old))
        result (situation run.new) }
{
    let mut left = first;
    for (adding, _, operand) in rest {
        let right = term::<L>(setting, run, operand)?;
        left = number_or_overflow(added(*adding, left, right))?;
    }
    Ok(left)
}

#[cycle(expression)]
fn term<L: Level>(setting: &Setting<'_>, run: &mut Run, t: &Term) -> Result<i16, Stop>
    ensures { Ran (term_value (seen_setting L.free setting.now) (seen_term t.now) (situation run.old))
        result (situation run.new) }
{
    let first = factor::<L>(setting, run, &t.first)?;
    multipliers::<L>(setting, run, first, &t.rest)
}

// The factors behind a first value, from left to right.
#[cycle(expression)]
fn multipliers<L: Level>(
    setting: &Setting<'_>,
    run: &mut Run,
    first: i16,
    rest: &[(Multiplying, u32, Factor)],
) -> Result<i16, Stop>
    ensures { Ran (multipliers_value (seen_setting L.free setting.now) (seen_multipliers rest.now) first
        (situation run.old))
        result (situation run.new) }
{
    let mut left = first;
    for (multiplying, _, operand) in rest {
        let right = factor::<L>(setting, run, operand)?;
        left = number_or_overflow(multiplied(*multiplying, left, right))?;
    }
    Ok(left)
}

#[cycle(expression)]
fn factor<L: Level>(setting: &Setting<'_>, run: &mut Run, f: &Factor) -> Result<i16, Stop>
    ensures { Ran (factor_value (seen_setting L.free setting.now) (seen_factor f.now) (situation run.old))
        result (situation run.new) }
{
    match f {
        Factor::Number(number) => Ok(number.value as i16),
        Factor::Character(character) => Ok(i16::from(character.code)),
        Factor::Name(name) => named::<L>(setting, run, name),
        Factor::Element(name, place) => {
            let array = array_named(setting.scope.find(name.letters.bytes()), setting.number);
            let at = index::<L>(setting, run, array.bounds, place)?;
            Ok(run.element(array.activation, name.letters.bytes(), i32::from(at)))
        }
        Factor::Call(name, list) => {
            let sense = setting.scope.find(name.letters.bytes());
            let given = arguments::<L>(setting, run, sense, list)?;
            call_value::<L>(setting, run, sense, &given)
        }
        Factor::Group { inner, .. } => expr::<L>(setting, run, inner),
        Factor::Not { operand, .. } => {
            let value = factor::<L>(setting, run, operand)?;
            Ok(truth(value == 0))
        }
    }
}

/// An index within these bounds.
#[cycle(expression)]
pub fn index<L: Level>(
    setting: &Setting<'_>,
    run: &mut Run,
    bounds: Bounds,
    index: &Index,
) -> Result<i16, Stop>
    ensures { Ran (index_value (seen_setting L.free setting.now) (seen_bounds bounds) (seen_index index.now)
        (situation run.old))
        result (situation run.new) }
{
    let value = expr::<L>(setting, run, &index.place)?;
    within(bounds, value)
}

/// The arguments of a call of what a name means.
#[cycle(expression)]
pub fn arguments<L: Level>(
    setting: &Setting<'_>,
    run: &mut Run,
    sense: Sense<'_>,
    list: &Arguments,
) -> Result<Vec<Given>, Stop>
    ensures { RanArguments (arguments_given (seen_setting L.free setting.now)
        (passing_named (seen_sense sense.entry)) (seen_arguments list.now) (situation run.old))
        result (situation run.new) }
{
    let alloc = *run.activations.allocator();
    let passing = passing_named(alloc, sense)?;
    let mut given = Vec::new(alloc);
    match &passing[..] {
        [] => Ok(given),
        [first, others @ ..] => {
            let value = argument::<L>(setting, run, *first, &list.first)?;
            given.push(value)?;
            more_arguments::<L>(setting, run, others, &list.rest, &mut given)?;
            Ok(given)
        }
    }
}

// The arguments behind the first one. What a call takes no more of isn't evaluated.
#[cycle(expression)]
fn more_arguments<L: Level>(
    setting: &Setting<'_>,
    run: &mut Run,
    passing: &[Passing],
    rest: &[(u32, Expr)],
    given: &mut Vec<Given>,
) -> Result<(), Stop>
    ensures { RanMore (exprs_given (seen_setting L.free setting.now) (map seen_passing passing.now)
        (seen_exprs rest.now) (situation run.old)) (all_given given.old.items)
        result (all_given given.new.items) (situation run.new) }
{
    for place in 0..rest.len() {
        let Some(next) = passing.get(place) else {
            return Ok(());
        };
        let value = argument::<L>(setting, run, *next, &rest[place].1)?;
        given.push(value)?;
    }
    Ok(())
}

// An argument that the call takes so. Of a variable or an array the name alone counts.
#[cycle(expression)]
fn argument<L: Level>(
    setting: &Setting<'_>,
    run: &mut Run,
    passing: Passing,
    e: &Expr,
) -> Result<Given, Stop>
    ensures { let c = seen_setting L.free setting.now in let x = name_in (seen_expr e.now) in
        RanGiven (passed (seen_passing passing) (c.scope x) c.number x (expr_value c (seen_expr e.now))
        (situation run.old))
        result (situation run.new) }
{
    match passing {
        Passing::ByValue => {
            let value = expr::<L>(setting, run, e)?;
            Ok(Given::Value(value))
        }
        Passing::ByVariable => variable_given(setting, run, name_in(e)),
        Passing::ByArray => array_given(setting, run, name_in(e)),
    }
}

fn variable_given(setting: &Setting<'_>, run: &Run, letters: &[u8]) -> Result<Given, Stop>
    ensures { let means = seen_scope setting.now.scope letters.now in
        RanGiven (Gives (Alias (place_named means setting.now.number letters.now (situation run.now)))
        (situation run.now))
        result (situation run.now) }
{
    let sense = setting.scope.find(letters);
    let place = run.place_named(sense, setting.number, letters)?;
    Ok(Given::Alias(place))
}

fn array_given(setting: &Setting<'_>, run: &Run, letters: &[u8]) -> Result<Given, Stop>
    ensures { let means = seen_scope setting.now.scope letters.now in
        RanGiven (Gives (Elements (array_named means setting.now.number letters.now)) (situation run.now))
        result (situation run.now) }
{
    let array = array_named(setting.scope.find(letters), setting.number);
    let letters = Letters::of(*run.activations.allocator(), letters)?;
    Ok(Given::Elements(ArrayPlace {
        activation: array.activation,
        letters,
        bounds: array.bounds,
    }))
}

// The name that an argument begins with, where that is nothing but a name.
fn name_in(e: &Expr) -> &[u8]
    ensures { result.now ≡ name_in (seen_expr e.now) }
{
    match &e.right {
        Some(_) => b"",
        None => name_in_term(&e.left.first),
    }
}

fn name_in_term(t: &Term) -> &[u8]
    ensures { result.now ≡ name_in_term (seen_term t.now) }
{
    name_in_factor(&t.first)
}

fn name_in_factor(f: &Factor) -> &[u8]
    ensures { result.now ≡ name_in_factor (seen_factor f.now) }
{
    match f {
        Factor::Name(name) => name.letters.bytes(),
        Factor::Number(_)
        | Factor::Character(_)
        | Factor::Element(_, _)
        | Factor::Call(_, _)
        | Factor::Group { .. }
        | Factor::Not { .. } => b"",
    }
}

// A name alone: a function's is a call.
fn named<L: Level>(setting: &Setting<'_>, run: &mut Run, name: &Name) -> Result<i16, Stop>
    ensures { let c = seen_setting L.free setting.now in
        Ran (named_value c (c.scope name.now.letters) name.now.letters (situation run.old))
        result (situation run.new) }
{
    let letters = name.letters.bytes();
    let sense = setting.scope.find(letters);
    match sense {
        Sense::Plain(Plain::Constant(_, value)) => Ok(value),
        Sense::Plain(Plain::Variable(_, _) | Plain::Reference(_)) => {
            let place = run.place_named(sense, setting.number, letters)?;
            Ok(run.value(&place))
        }
        Sense::Plain(_) => Ok(0),
        Sense::Routine(number, _) => L::call(setting, run, number, &[]),
    }
}

/// A call of what a name means with these arguments.
pub fn call_value<L: Level>(
    setting: &Setting<'_>,
    run: &mut Run,
    sense: Sense<'_>,
    given: &[Given],
) -> Result<i16, Stop>
    ensures { Ran (call_value (seen_setting L.free setting.now) (seen_sense sense.entry)
        (all_given given.now) (situation run.old))
        result (situation run.new) }
{
    match sense {
        Sense::Routine(number, _) => L::call(setting, run, number, given),
        Sense::Plain(Plain::Function(function)) => standard(function, first_value(given)),
        Sense::Plain(Plain::Interface(procedure)) => {
            interface(setting.text, run, procedure, given)
        }
        Sense::Plain(_) => Ok(0),
    }
}
