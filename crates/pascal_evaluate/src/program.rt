// Programs, evaluated in the batch.

ghost use Rattle.std.specs.Prelude.{◌≡◌, ◌<◌, IfOk, OnOk, map, length};
ghost use Rattle.pascal_tree.specs.SeenProgram.{seen_program};
ghost use Rattle.pascal_mean.specs.Batch.{ending_in_batch, batch_answers, output_of, with_characters, characters_of};
ghost use Rattle.pascal_mean.specs.Situation.{Situation, Course};
ghost use Rattle.pascal_mean.specs.Meaning.{declared_at, setting_of, called_value, outcome_of};
ghost use Rattle.pascal_evaluate.specs.SeenNames.{seen_declared};
ghost use Rattle.pascal_evaluate.specs.SeenStore.{seen_made};
ghost use Rattle.pascal_evaluate.specs.SeenSetting.{seen_setting};
ghost use Rattle.pascal_evaluate.specs.Ran.{IsEnd, Ran};

use crate::level::Whole;
use crate::run::{Made, Run};
use crate::setting::Setting;
use crate::statement::sequence;
use crate::stop::Stop;
use crate::table::{Declared, all_declared, names_of};
use pascal_mean::{Output, text_of};
use pascal_tree::declaration::Program;
use solo_base::{LineList, NoMemory, ProgResult};
use std::alloc::Global;

/// How a program ended: its result and the line of it, the ticks that were taken, and the lines
/// that were printed.
#[derive(Debug, Drop)]
pub struct Meaning {
    pub result: ProgResult,
    pub line: u32,
    pub ticks: u32,
    pub output: LineList,
}

/// Evaluates a program in the batch, with these cards as its input and under a limit of ticks.
pub fn evaluate(program: &Program, input: &LineList, limit: u32) -> Result<Meaning, NoMemory>
    ensures { let ending = ending_in_batch (seen_program program.now) limit input.now in
        IfOk result (λ meaning. record {
          result = meaning.result;
          line = meaning.line;
          ticks = meaning.ticks;
          output = meaning.output;
        } ≡ ending) }
{
    let alloc = *program.routines.allocator();
    let items = names_of(alloc, program)?;
    let routines = all_declared(alloc, &items, program)?;
    let text = text_of(alloc, input)?;
    let mut run = Run::opening(alloc)?;
    let setting = outermost(&routines, &text, limit);
    let result = result_of(sequence::<Whole>(&setting, &mut run, &program.body.statements))?;
    let output = printed(alloc, &run.made)?;
    Ok(Meaning {
        result,
        line: run.line,
        ticks: run.ticks,
        output,
    })
}

// Where the statements of the program itself stand.
fn outermost<'a>(routines: &'a [Declared<'a>], text: &'a [u8], limit: u32) -> Setting<'a>
    requires { 0 < length routines.now }
    ensures { let all = map seen_declared routines.now in let answers = batch_answers text.now in
        seen_setting 63 result ≡ setting_of answers limit (declared_at all 0) 0
        (called_value answers limit all 63) }
{
    Setting {
        routines,
        text,
        limit,
        scope: routines[0].scope(),
        number: 0,
    }
}

// How a program has ended, whose statements came to this.
fn result_of(done: Result<(), Stop>) -> Result<ProgResult, NoMemory>
    ensures { (course : Course (Unit {0})) (now : Situation) → Ran course done now
        → IfOk result (λ r. IsEnd (outcome_of course) r now) }
{
    match done {
        Ok(()) => Ok(ProgResult::Terminated),
        Err(stop) => stop.result(),
    }
}

// The lines that calls print.
fn printed(alloc: Global, made: &[Made]) -> Result<LineList, NoMemory>
    ensures { IfOk result (λ lines. lines ≡ output_of (map seen_made made.now)) }
{
    let mut output = Output::new(alloc);
    for place in 0..made.len() {
        print(&mut output, made[place])?;
    }
    output.finish()
}

fn print(output: &mut Output, call: Made) -> Result<(), NoMemory>
    ensures { OnOk result (output.new ≡ with_characters output.old (characters_of (seen_made call))) }
{
    match call {
        Made::Read => Ok(()),
        Made::Write(code) => output.push(code),
        Made::WriteInt(number) => output.push_number(number),
    }
}
