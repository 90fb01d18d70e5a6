// How many activations may still open.

ghost use Rattle.std.specs.Prelude.{◌≡◌, ℕ, suc, map, option_map, slice_get, OnOk};
ghost use Rattle.pascal_mean.specs.Variables.{map_at};
ghost use Rattle.pascal_mean.specs.Meaning.{begun, ended, setting_of};
ghost use Rattle.pascal_evaluate.specs.SeenNames.{seen_declared};
ghost use Rattle.pascal_evaluate.specs.SeenStore.{situation, all_given};
ghost use Rattle.pascal_evaluate.specs.SeenSetting.{answers_in, does_in, opened_in, seen_setting};
ghost use Rattle.pascal_evaluate.specs.Ran.{Ran};

use crate::activation::begun;
use crate::calls::Given;
use crate::run::Run;
use crate::setting::Setting;
use crate::statement::sequence;
use crate::stop::Stop;
use crate::table::Declared;
use solo_base::{NoMemory, ProgResult};
use std::marker::PhantomData;

/// Calls of routines while so many activations may still open. A level is a type, so that calls
/// lead from each level to the one below it and end.
pub trait Level {
    /// How many activations may still open.
    ghost free: { ℕ };

    /// A call of a routine by its number, which gives the result of a function.
    fn call(
        setting: &Setting<'_>,
        run: &mut Run,
        routine: usize,
        given: &[Given],
    ) -> Result<i16, Stop>
        ensures { Ran (does_in free setting.now routine (all_given given.now) (situation run.old))
            result (situation run.new) };
}

/// No activation may open.
pub struct Closed;

impl Level for Closed {
    ghost free = { 0 };

    fn call(
        _setting: &Setting<'_>,
        _run: &mut Run,
        _routine: usize,
        _given: &[Given],
    ) -> Result<i16, Stop> {
        Err(Stop::Over(ProgResult::StackLimit))
    }
}

/// One activation may open, and then those of a level.
pub struct Open<L> {
    rest: PhantomData<L>,
}

impl<L: Level> Level for Open<L> {
    ghost free = { suc L.free };

    fn call(
        setting: &Setting<'_>,
        run: &mut Run,
        routine: usize,
        given: &[Given],
    ) -> Result<i16, Stop> {
        match routine_at(setting.routines, routine) {
            Some(declared) => opened::<L>(setting, run, declared, given),
            None => Ok(0),
        }
    }
}

fn routine_at<'a>(routines: &'a [Declared<'a>], number: usize) -> Option<&'a Declared<'a>>
    ensures { slice_get (map seen_declared routines.now) number
        ≡ option_map (λ declared. seen_declared declared.now) result }
{
    if number < routines.len() {
        Some(&routines[number])
    } else {
        None
    }
}

// A routine is called: its activation begins, its statements are done, and it ends.
fn opened<L: Level>(
    setting: &Setting<'_>,
    run: &mut Run,
    declared: &Declared<'_>,
    given: &[Given],
) -> Result<i16, Stop>
    ensures { Ran (opened_in L.free setting.now (seen_declared declared.now) (all_given given.now)
        (situation run.old)) result (situation run.new) }
{
    let (number, line) = (run.activations.len(), run.line);
    begin(run, declared, given)?;
    let inside = inside(setting, declared, number);
    match sequence::<L>(&inside, run, &declared.body.statements) {
        Ok(()) => Ok(end(run, number, line)),
        Err(stop) => Err(stop),
    }
}

fn begin(run: &mut Run, declared: &Declared<'_>, given: &[Given]) -> Result<(), NoMemory>
    ensures { OnOk result (situation run.new
        ≡ begun (seen_declared declared.now) (all_given given.now) (situation run.old)) }
{
    let alloc = *run.activations.allocator();
    let activation = begun(alloc, &declared.signature.parameters, given)?;
    run.activations.push(activation)?;
    run.line = 0;
    Ok(())
}

// What the statements of a routine stand in.
fn inside<'a>(setting: &Setting<'a>, declared: &'a Declared<'_>, number: usize) -> Setting<'a>
    ensures { (free : ℕ) → seen_setting free result ≡ setting_of (answers_in setting.now)
        setting.now.limit (seen_declared declared.now) number (does_in free setting.now) }
{
    Setting {
        routines: setting.routines,
        text: setting.text,
        limit: setting.limit,
        scope: declared.scope(),
        number,
    }
}

// An activation ends, and its caller's line is the run's again. Answers the result of a function.
fn end(run: &mut Run, number: usize, line: u32) -> i16
    ensures answer { result ≡ (map_at (situation run.old).maps number).answer }
    ensures run { situation run.new ≡ ended number line (situation run.old) }
{
    let answer = run.answer(number);
    run.activations.truncate(number);
    run.line = line;
    answer
}

type Two<L> = Open<Open<L>>;

type Four<L> = Two<Two<L>>;

type Eight<L> = Four<Four<L>>;

type Sixteen<L> = Eight<Eight<L>>;

type ThirtyTwo<L> = Sixteen<Sixteen<L>>;

/// The level of the program itself: 63 activations may open beside its own.
pub type Whole = ThirtyTwo<Sixteen<Eight<Four<Two<Open<Closed>>>>>>;
