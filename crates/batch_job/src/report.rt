ghost use Rattle.std.specs.Prelude.{◌≡◌, ◌+◌, ◌≤◌, ◌++◌, ◌∷◌, ℕ, List, [], length, true, false, is_some, unwrap_or, IfOk, OnOk};
ghost use Rattle.code_law.specs.Compiling.{compiling};
ghost use Rattle.program_lines.specs.Task.{Task, source_of, new_task, task_lines, with_more};
ghost use Rattle.program_lines.specs.Standing.{StandsFor, IsSpent};
ghost use Rattle.disk_contents.specs.declared.loading.Loaded.TheVariants.{NoFile};
ghost use Rattle.batch_job.specs.Report.{report, is_of_file, heading, listed_line, fault_line, listing_end, skipped_line, kind_text, run_lines, file_limit, source_loaded};
ghost use Rattle.batch_job.specs.LinesSoFar.{fault_so_far};
ghost use Rattle.batch_job.specs.Places.{Made, is_run};
ghost use Rattle.solo_base.specs.Blanks.{trimmed};

use deck_format::{CardFault, CardFaultKind, Job};
use disk_system::Loaded;
use program_lines::{ProgramLines, bad_code_line, no_file_line, not_code_line};
use solo_base::{Ident, Line, LineList, NoMemory};
use std::alloc::Global;

/// A program of a file may take so many ticks.
const FILE_LIMIT: u32 = 10_000;

/// The lines that the job prints. What its file was loaded as is there exactly for a job of a file.
pub fn run_job(alloc: Global, job: Job, load: Option<Loaded>) -> Result<LineList, NoMemory>
    requires { is_some load ≡ is_of_file job }
    ensures { IfOk result (λ lines. lines ≡ report (λ file. unwrap_or load NoFile) job) }
{
    let mut lines = LineList::new(alloc);
    match &job {
        Job::List { name, cards, fault } => push_list(&mut lines, name, cards, *fault)?,
        Job::Pascal {
            name,
            limit,
            program,
            input,
            fault,
        } => {
            lines.push(&heading(name))?;
            push_program(&mut lines, alloc, name, *limit, program, input, *fault)?;
        }
        Job::Run {
            name,
            file: _,
            input,
            fault,
        } => {
            lines.push(&heading(name))?;
            push_loaded(&mut lines, alloc, name, load.unwrap(), input, *fault)?;
        }
        Job::Skipped { count } => lines.push(&skipped_line(*count))?,
    }
    Ok(lines)
}

/// Adds the lines of a list.
fn push_list(
    lines: &mut LineList,
    name: &Ident,
    cards: &LineList,
    fault: Option<CardFault>,
) -> Result<(), NoMemory>
    ensures { OnOk result (lines.new ≡ lines.old
        ++ (heading name.now ∷ cards.now ++ listing_end name.now cards.now fault ∷ [])) }
{
    lines.push(&heading(name))?;
    push_all(lines, cards)?;
    lines.push(&listing_end(name, cards, fault))
}

/// Adds the lines of a program and of its input's fault, or its own fault alone.
fn push_program(
    lines: &mut LineList,
    alloc: Global,
    name: &Ident,
    limit: u32,
    program: &LineList,
    input: &LineList,
    fault: Option<CardFault>,
) -> Result<(), NoMemory>
    ensures { OnOk result (lines.new ≡ lines.old
        ++ run_lines name.now limit (source_of name.now (compiling program.now)) input.now fault) }
{
    if !is_run(fault) {
        return push_fault(lines, name, fault);
    }
    let started = ProgramLines::start(alloc, *name, limit, program)?;
    push_run(lines, started, input)?;
    push_fault(lines, name, fault)
}

/// Adds the lines of the program of a file, or why there is none, and of its input's fault.
fn push_loaded(
    lines: &mut LineList,
    alloc: Global,
    name: &Ident,
    load: Loaded,
    input: &LineList,
    fault: Option<CardFault>,
) -> Result<(), NoMemory>
    ensures { OnOk result (lines.new ≡ lines.old
        ++ run_lines name.now file_limit (source_loaded name.now load) input.now fault) }
{
    if !is_run(fault) {
        return push_fault(lines, name, fault);
    }
    let started = start_loaded(alloc, *name, load)?;
    push_run(lines, started, input)?;
    push_fault(lines, name, fault)
}

/// The program of a file before the first card of its input, or the line that says why there is none.
pub fn start_loaded(alloc: Global, name: Ident, load: Loaded) -> Result<ProgramLines, NoMemory>
    ensures { IfOk result (λ lines.
        StandsFor lines (new_task name file_limit (source_loaded name load)) []) }
{
    match load {
        Loaded::Code(code) => ProgramLines::of_code(alloc, name, FILE_LIMIT, code),
        Loaded::NoFile => Ok(ProgramLines::Last(no_file_line(&name))),
        Loaded::NotCode => Ok(ProgramLines::Last(not_code_line(&name))),
        Loaded::BadCode { at } => Ok(ProgramLines::Last(bad_code_line(&name, at))),
    }
}

/// Whether a program with this fault is run: where the fault is in its input.
fn is_run(fault: Option<CardFault>) -> bool
    ensures { result ≡ is_run fault }
{
    match fault {
        Some(fault) => fault.in_input,
        None => true,
    }
}

/// Adds the line of a fault, where there is one.
fn push_fault(lines: &mut LineList, name: &Ident, fault: Option<CardFault>) -> Result<(), NoMemory>
    ensures { OnOk result (lines.new ≡ lines.old ++ fault_so_far name.now fault) }
{
    match fault {
        Some(fault) => lines.push(&fault_line(name, fault)),
        None => Ok(()),
    }
}

/// Adds the lines of a program that runs with this input.
fn push_run(
    lines: &mut LineList,
    mut program: ProgramLines,
    input: &LineList,
) -> Result<(), NoMemory>
    ensures { (t : Task) → StandsFor program t [] → t.closed ≡ false
        → OnOk result (lines.new ≡ lines.old ++ task_lines (with_more t input.now true)) }
{
    for place in 0..input.len() {
        push_made(lines, &mut program)?;
        program.feed(&input.get(place));
    }
    program.close();
    push_made(lines, &mut program)
}

/// Adds the lines of a program that come with the cards so far.
fn push_made(lines: &mut LineList, program: &mut ProgramLines) -> Result<(), NoMemory>
    ensures made { OnOk result ((t : Task) (given : List (List ℕ)) → StandsFor program.old t given
        → Made t given lines.old lines.new program.new) }
    ensures spent { OnOk result (IsSpent program.new) }
{
    'made: while let Some(line) = program.next() {
        lines.push(&line)?;
    }
    Ok(())
}

/// Adds all lines of the one list to the other.
fn push_all(lines: &mut LineList, more: &LineList) -> Result<(), NoMemory>
    ensures { OnOk result (lines.new ≡ lines.old ++ more.now) }
{
    for place in 0..more.len() {
        lines.push(&more.get(place))?;
    }
    Ok(())
}

/// `JOB A`
pub fn heading(name: &Ident) -> Line
    ensures { result ≡ heading name.now }
{
    let mut line = Line::new();
    line.append(b"JOB ");
    line.append(name.name());
    line
}

/// The last line of a listing: how many cards were listed, or the fault.
fn listing_end(name: &Ident, cards: &LineList, fault: Option<CardFault>) -> Line
    ensures { result ≡ listing_end name.now cards.now fault }
{
    match fault {
        Some(fault) => fault_line(name, fault),
        None => listed_line(name, u32::try_from(cards.len()).unwrap_or(u32::MAX)),
    }
}

/// `A: LISTED 1 CARDS`
pub fn listed_line(name: &Ident, count: u32) -> Line
    ensures { result ≡ listed_line name.now count }
{
    let mut line = starting_with(name);
    line.append(b": LISTED ");
    line.append_number(count);
    line.append(b" CARDS");
    line
}

/// `A: SPOILED CARD 2`
pub fn fault_line(name: &Ident, fault: CardFault) -> Line
    ensures { result ≡ fault_line name.now fault }
{
    let mut line = starting_with(name);
    match fault.kind {
        CardFaultKind::Spoiled => line.append(b": SPOILED CARD "),
        CardFaultKind::Control => line.append(b": BAD CONTROL CARD "),
    }
    line.append_number(fault.card);
    line
}

/// `3 CARDS SKIPPED`
pub fn skipped_line(count: u32) -> Line
    ensures { result ≡ skipped_line count }
{
    let mut line = Line::new();
    line.append_number(count);
    line.append(b" CARDS SKIPPED");
    line
}

/// A line that begins with the name.
fn starting_with(name: &Ident) -> Line
    ensures name { result ≡ trimmed name.now }
    ensures short { length result ≤ 12 }
{
    let mut line = Line::new();
    line.append(name.name());
    line
}
