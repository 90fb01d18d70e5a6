// What statements do.
#![tactic(auto, using(crate::proofs::Openings::openings))]

ghost use Rattle.std.specs.Prelude.{◌≡◌, OnOk};
ghost use Rattle.std.specs.Ordering.{int_eq};
ghost use Rattle.std.specs.List.{list_any};
ghost use Rattle.pascal_tree.specs.SeenExpression.{seen_expr, seen_index};
ghost use Rattle.pascal_tree.specs.SeenStatement.{seen_statement, seen_sequence, seen_assign, seen_call, seen_if, seen_while, seen_repeat, seen_for, seen_case, seen_labels, seen_statements, seen_branches};
ghost use Rattle.pascal_mean.specs.Scope.{constant_number};
ghost use Rattle.pascal_mean.specs.Variables.{assigned};
ghost use Rattle.pascal_mean.specs.Expressions.{is_true, is_false};
ghost use Rattle.pascal_mean.specs.Statements.{within_reach, before_last, next_count, is_labelled, after_assigning, after_assigning_at, after_statement, after_sequence, after_statements, after_branches};
ghost use Rattle.pascal_evaluate.specs.SeenNames.{seen_scope};
ghost use Rattle.pascal_evaluate.specs.SeenStore.{situation};
ghost use Rattle.pascal_evaluate.specs.SeenSetting.{seen_setting};
ghost use Rattle.pascal_evaluate.specs.Ran.{Ran};
ghost use Rattle.pascal_evaluate.specs.Turns.{while_turn, repeat_turn, for_turn};

use crate::calls::array_named;
use crate::expression::{arguments, call_value, expr, index};
use crate::level::Level;
use crate::run::Run;
use crate::scope::Scope;
use crate::setting::Setting;
use crate::stop::Stop;
use pascal_tree::constant::{Constant, Labels};
use pascal_tree::expression::{Expr, Index};
use pascal_tree::leaf::Name;
use pascal_tree::statement::{
    Assign, Branch, Call, Case, Direction, For, If, Repeat, Statement, Statements, While,
};
use solo_base::{NoMemory, ProgResult};

/// A statement is done.
#[cycle(statement)]
pub fn statement<L: Level>(setting: &Setting<'_>, run: &mut Run, s: &Statement) -> Result<(), Stop>
    ensures { Ran (after_statement (seen_setting L.free setting.now) (seen_statement s.now)
        (situation run.old))
        result (situation run.new) }
{
    match s {
        Statement::Empty => Ok(()),
        Statement::Assign(a) => assign::<L>(setting, run, a),
        Statement::Call(c) => call::<L>(setting, run, c),
        Statement::Compound(body) => sequence::<L>(setting, run, &body.statements),
        Statement::If(i) => conditional::<L>(setting, run, i),
        Statement::While(w) => while_do::<L>(setting, run, w),
        Statement::Repeat(r) => repeat_until::<L>(setting, run, r),
        Statement::For(f) => for_do::<L>(setting, run, f),
        Statement::Case(c) => case_of::<L>(setting, run, c),
    }
}

/// Statements are done in order.
#[cycle(statement)]
pub fn sequence<L: Level>(
    setting: &Setting<'_>,
    run: &mut Run,
    all: &Statements,
) -> Result<(), Stop>
    ensures { Ran (after_sequence (seen_setting L.free setting.now) (seen_sequence all.now)
        (situation run.old))
        result (situation run.new) }
{
    statement::<L>(setting, run, &all.first)?;
    statements::<L>(setting, run, &all.rest)
}

// The later statements of a sequence.
#[cycle(statement)]
fn statements<L: Level>(
    setting: &Setting<'_>,
    run: &mut Run,
    rest: &[(u32, Statement)],
) -> Result<(), Stop>
    ensures { Ran (after_statements (seen_setting L.free setting.now) (seen_statements rest.now)
        (situation run.old))
        result (situation run.new) }
{
    for (_, s) in rest {
        statement::<L>(setting, run, s)?;
    }
    Ok(())
}

fn assign<L: Level>(setting: &Setting<'_>, run: &mut Run, a: &Assign) -> Result<(), Stop>
    ensures { Ran (after_statement (seen_setting L.free setting.now) (seen_assign a.now) (situation run.old))
        result (situation run.new) }
{
    run.tick(setting.limit, a.target.line)?;
    match &a.index {
        None => assign_name::<L>(setting, run, &a.target, &a.value),
        Some(place) => assign_element::<L>(setting, run, &a.target, place, &a.value),
    }
}

// An assignment to a name, after its tick.
fn assign_name<L: Level>(
    setting: &Setting<'_>,
    run: &mut Run,
    name: &Name,
    e: &Expr,
) -> Result<(), Stop>
    ensures { Ran (after_assigning (seen_setting L.free setting.now) name.now (seen_expr e.now)
        (situation run.old))
        result (situation run.new) }
{
    let value = expr::<L>(setting, run, e)?;
    set_named(setting, run, name, value)?;
    Ok(())
}

// An assignment to an element, after its tick. The index is evaluated and tested first.
fn assign_element<L: Level>(
    setting: &Setting<'_>,
    run: &mut Run,
    name: &Name,
    place: &Index,
    e: &Expr,
) -> Result<(), Stop>
    ensures { Ran (after_assigning_at (seen_setting L.free setting.now) name.now (seen_index place.now)
        (seen_expr e.now) (situation run.old))
        result (situation run.new) }
{
    let letters = name.letters.bytes();
    let sense = setting.scope.find(letters);
    let array = array_named(sense, setting.number);
    let at = index::<L>(setting, run, array.bounds, place)?;
    let value = expr::<L>(setting, run, e)?;
    run.store_element(array.activation, letters, i32::from(at), value)?;
    Ok(())
}

fn call<L: Level>(setting: &Setting<'_>, run: &mut Run, c: &Call) -> Result<(), Stop>
    ensures { Ran (after_statement (seen_setting L.free setting.now) (seen_call c.now) (situation run.old))
        result (situation run.new) }
{
    run.tick(setting.limit, c.name.line)?;
    let sense = setting.scope.find(c.name.letters.bytes());
    match &c.arguments {
        None => {
            call_value::<L>(setting, run, sense, &[])?;
            Ok(())
        }
        Some(list) => {
            let given = arguments::<L>(setting, run, sense, list)?;
            call_value::<L>(setting, run, sense, &given)?;
            Ok(())
        }
    }
}

#[cycle(statement)]
fn conditional<L: Level>(setting: &Setting<'_>, run: &mut Run, i: &If) -> Result<(), Stop>
    ensures { Ran (after_statement (seen_setting L.free setting.now) (seen_if i.now) (situation run.old))
        result (situation run.new) }
{
    run.tick(setting.limit, i.line)?;
    if is_true::<L>(setting, run, &i.test)? {
        return statement::<L>(setting, run, &i.first);
    }
    match &i.otherwise {
        Some((_, s)) => statement::<L>(setting, run, s),
        None => Ok(()),
    }
}

fn is_true<L: Level>(setting: &Setting<'_>, run: &mut Run, e: &Expr) -> Result<bool, Stop>
    ensures { Ran (is_true (seen_setting L.free setting.now) (seen_expr e.now) (situation run.old))
        result (situation run.new) }
{
    let value = expr::<L>(setting, run, e)?;
    Ok(value != 0)
}

fn is_false<L: Level>(setting: &Setting<'_>, run: &mut Run, e: &Expr) -> Result<bool, Stop>
    ensures { Ran (is_false (seen_setting L.free setting.now) (seen_expr e.now) (situation run.old))
        result (situation run.new) }
{
    let value = expr::<L>(setting, run, e)?;
    Ok(value == 0)
}

// A turn takes a tick, so that there are no more turns than ticks are left.
#[cycle(statement)]
fn while_do<L: Level>(setting: &Setting<'_>, run: &mut Run, w: &While) -> Result<(), Stop>
    ensures { Ran (after_statement (seen_setting L.free setting.now) (seen_while w.now) (situation run.old))
        result (situation run.new) }
{
    run.tick(setting.limit, w.line)?;
    for _spent in run.ticks..setting.limit {
        if !while_turn::<L>(setting, run, w)? {
            return Ok(());
        }
    }
    run.line = w.line;
    Err(Stop::Over(ProgResult::TimeLimit))
}

// A tick, the test, and the statement where it is true. Answers whether the loop goes on.
#[cycle(statement)]
fn while_turn<L: Level>(setting: &Setting<'_>, run: &mut Run, w: &While) -> Result<bool, Stop>
    ensures { Ran (while_turn (seen_setting L.free setting.now) (seen_while w.now) (situation run.old))
        result (situation run.new) }
{
    run.tick(setting.limit, w.line)?;
    if !is_true::<L>(setting, run, &w.test)? {
        return Ok(false);
    }
    statement::<L>(setting, run, &w.turn)?;
    Ok(true)
}

#[cycle(statement)]
fn repeat_until<L: Level>(setting: &Setting<'_>, run: &mut Run, r: &Repeat) -> Result<(), Stop>
    ensures { Ran (after_statement (seen_setting L.free setting.now) (seen_repeat r.now) (situation run.old))
        result (situation run.new) }
{
    run.tick(setting.limit, r.line)?;
    sequence::<L>(setting, run, &r.turn)?;
    for _spent in run.ticks..setting.limit {
        if !repeat_turn::<L>(setting, run, r)? {
            return Ok(());
        }
    }
    run.line = r.line;
    Err(Stop::Over(ProgResult::TimeLimit))
}

// A tick, the test, and the statements where it is false. Answers whether the loop goes on.
#[cycle(statement)]
fn repeat_turn<L: Level>(setting: &Setting<'_>, run: &mut Run, r: &Repeat) -> Result<bool, Stop>
    ensures { Ran (repeat_turn (seen_setting L.free setting.now) (seen_repeat r.now) (situation run.old))
        result (situation run.new) }
{
    run.tick(setting.limit, r.line)?;
    if !is_false::<L>(setting, run, &r.test)? {
        return Ok(false);
    }
    sequence::<L>(setting, run, &r.turn)?;
    Ok(true)
}

#[cycle(statement)]
fn for_do<L: Level>(setting: &Setting<'_>, run: &mut Run, f: &For) -> Result<(), Stop>
    ensures { Ran (after_statement (seen_setting L.free setting.now) (seen_for f.now) (situation run.old))
        result (situation run.new) }
{
    run.tick(setting.limit, f.line)?;
    let first = expr::<L>(setting, run, &f.from)?;
    let last = expr::<L>(setting, run, &f.to)?;
    if !within_reach(f.direction, first, last) {
        return Ok(());
    }
    let mut counter = first;
    for _spent in run.ticks..setting.limit {
        match for_turn::<L>(setting, run, f, counter, last)? {
            Some(next) => counter = next,
            None => return Ok(()),
        }
    }
    run.line = f.line;
    Err(Stop::Over(ProgResult::TimeLimit))
}

// A tick, and the statement with the counter in the control variable. Answers the next counter,
// where the loop goes on.
#[cycle(statement)]
fn for_turn<L: Level>(
    setting: &Setting<'_>,
    run: &mut Run,
    f: &For,
    counter: i16,
    last: i16,
) -> Result<Option<i16>, Stop>
    ensures { Ran (for_turn (seen_setting L.free setting.now) (seen_for f.now) counter last
        (situation run.old))
        result (situation run.new) }
{
    run.tick(setting.limit, f.line)?;
    set_named(setting, run, &f.control, counter)?;
    statement::<L>(setting, run, &f.turn)?;
    if !before_last(f.direction, counter, last) {
        return Ok(None);
    }
    match next_count(f.direction, counter) {
        Some(next) => Ok(Some(next)),
        None => Err(Stop::Over(ProgResult::Overflow)),
    }
}

// A name without an index has this value from now on.
fn set_named(setting: &Setting<'_>, run: &mut Run, name: &Name, value: i16) -> Result<(), NoMemory>
    ensures { OnOk result (situation run.new
        ≡ assigned (seen_scope setting.now.scope name.now.letters) setting.now.number
        name.now.letters value (situation run.old)) }
{
    let letters = name.letters.bytes();
    let sense = setting.scope.find(letters);
    run.assign(sense, setting.number, letters, value)
}

// Whether a counter hasn't passed the last value.
fn within_reach(direction: Direction, counter: i16, last: i16) -> bool
    ensures { result ≡ within_reach direction counter last }
{
    match direction {
        Direction::To => counter <= last,
        Direction::Downto => last <= counter,
    }
}

// Whether a counter hasn't reached the last value.
fn before_last(direction: Direction, counter: i16, last: i16) -> bool
    ensures { result ≡ before_last direction counter last }
{
    match direction {
        Direction::To => counter < last,
        Direction::Downto => last < counter,
    }
}

fn next_count(direction: Direction, counter: i16) -> Option<i16>
    ensures { result ≡ next_count direction counter }
{
    match direction {
        Direction::To => counter.checked_add(1),
        Direction::Downto => counter.checked_sub(1),
    }
}

// A value that no branch has is a range error.
#[cycle(statement)]
fn case_of<L: Level>(setting: &Setting<'_>, run: &mut Run, c: &Case) -> Result<(), Stop>
    ensures { Ran (after_statement (seen_setting L.free setting.now) (seen_case c.now) (situation run.old))
        result (situation run.new) }
{
    run.tick(setting.limit, c.line)?;
    let value = expr::<L>(setting, run, &c.selector)?;
    if is_labelled(&setting.scope, &c.first.labels, value) {
        return statement::<L>(setting, run, &c.first.statement);
    }
    branches::<L>(setting, run, value, &c.rest)
}

// The later branches of a CASE.
#[cycle(statement)]
fn branches<L: Level>(
    setting: &Setting<'_>,
    run: &mut Run,
    value: i16,
    rest: &[(u32, Branch)],
) -> Result<(), Stop>
    ensures { Ran (after_branches (seen_setting L.free setting.now) value (seen_branches rest.now)
        (situation run.old))
        result (situation run.new) }
{
    for (_, branch) in rest {
        if is_labelled(&setting.scope, &branch.labels, value) {
            return statement::<L>(setting, run, &branch.statement);
        }
    }
    Err(Stop::Over(ProgResult::RangeError))
}

// Whether one of the labels has the value.
fn is_labelled(scope: &Scope<'_>, labels: &Labels, value: i16) -> bool
    ensures { result ≡ is_labelled (seen_scope scope.now) (seen_labels labels.now) value }
{
    scope.number(&labels.first) == value || is_among(scope, &labels.rest, value)
}

// Whether one of the later labels has the value.
fn is_among(scope: &Scope<'_>, labels: &[(u32, Constant)], value: i16) -> bool
    ensures { result
        ≡ list_any (λ l. int_eq (constant_number (seen_scope scope.now) l.1) value) labels.now }
{
    match labels {
        [] => false,
        [(_, label), others @ ..] => {
            if scope.number(label) == value {
                return true;
            }
            is_among(scope, others, value)
        }
    }
}
