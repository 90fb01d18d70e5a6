// The code of whole programs.

ghost use Rattle.std.specs.Prelude.{◌≡◌, ◌+◌, ◌<◌, ◌≤◌, Some, None, Err, [], ◌∷◌, ◌++◌, length, slice_get, OnOk, IfOk};
ghost use Rattle.pascal_tree.specs.SeenStatement.{seen_body};
ghost use Rattle.pascal_tree.specs.SeenProgram.{seen_program};
ghost use Rattle.pascal_tree.specs.Program as seen;
ghost use Rattle.pascal_tree.specs.Limits.{IsTree};
ghost use Rattle.pascal_tree.specs.DeclarationRules.{broken};
ghost use Rattle.pascal_mean.specs.Declarations.{global_items};
ghost use Rattle.pascal_code.specs.Frames.{plain_frame};
ghost use Rattle.pascal_code.specs.Senses.{Site as site_meant, Framed, framed_program, framed_after, all_framed};
ghost use Rattle.pascal_code.specs.Statements.{body_code};
ghost use Rattle.pascal_code.specs.Code.{code_of, nested_in_body, ending, routine_code, routine_info, calling_infos, instrs_from, infos_from};
ghost use Rattle.pascal_code.specs.Size.{size};
ghost use Rattle.code_law.specs.Law.{Compiles};
ghost use Rattle.pascal_compile.specs.Seen.{seen_owner, seen_scope, AreSmall};
ghost use Rattle.pascal_compile.specs.Holds.{HoldsNames, HoldsFrame, known_at};
ghost use Rattle.pascal_compile.specs.Passings.{ArePassed};
ghost use Rattle.pascal_compile.specs.Infos.{without_height, without_heights};
ghost use Rattle.pascal_compile.specs.WithHeights.{AreEmitted};

use crate::declarations::{declare_constants, declare_parameters, declare_variables};
use crate::drafts::Drafts;
use crate::fault::EmitFault;
use crate::frame::Frame;
use crate::heights::with_heights;
use crate::instructions::bare;
use crate::names::Names;
use crate::nested::nested_in_body;
use crate::routines::{
    all_passings, block_of, declare_heading, declare_headings, is_function, parameters_of,
};
use crate::senses::{Owner, Passing};
use crate::site::Site;
use crate::statements::body;
use pascal_tree::Checked;
use pascal_tree::declaration::Program;
use pascal_tree::statement::Body;
use solo_base::NoMemory;
use stack_code::{Code, Instr, Op, RoutineInfo};
use std::alloc::Global;

/// How many instructions a code has at most.
const MOST_INSTRS: usize = 8192;

/// The code of a program by the schemes, or `CodeLimit` where they give more than 8,192 instructions.
pub fn code_of(checked: &Checked) -> Result<Code, EmitFault>
    requires tree { IsTree (seen_program checked.now) }
    requires unbroken { broken (seen_program checked.now) ≡ None }
    ensures code { IfOk result (λ code. code ≡ code_of (seen_program checked.now)) }
    ensures fits { IfOk result (λ _. size (seen_program checked.now) ≤ 8192) }
    ensures limit { result ≡ Err EmitFault.CodeLimit → 8192 < size (seen_program checked.now) }
{
    let program = &checked.tree().program;
    let alloc = *program.routines.allocator();
    let mut drafts = Drafts::new(alloc);
    let mut infos = Vec::new(alloc);
    let passings = all_passings(alloc, &program.routines)?;
    add_program(&mut drafts, &mut infos, program, &passings)?;
    match add_routines(&mut drafts, &mut infos, program, &passings) {
        Ok(()) => limited(alloc, &drafts, &infos),
        Err(fault) => Err(fault),
    }
}

/// The code of a program, of which all was emitted, or `CodeLimit` where that is too much.
fn limited(alloc: Global, drafts: &Drafts, infos: &[RoutineInfo]) -> Result<Code, EmitFault>
    requires { (p : seen.Program) × IsTree p × (broken p ≡ None) × AreEmitted p drafts.now infos.now }
    ensures code { (p : seen.Program) → IsTree p → broken p ≡ None → AreEmitted p drafts.now infos.now
        → IfOk result (λ code. code ≡ code_of p) }
    ensures fits { (p : seen.Program) → AreEmitted p drafts.now infos.now
        → IfOk result (λ _. size p ≤ 8192) }
    ensures limit { (p : seen.Program) → AreEmitted p drafts.now infos.now
        → result ≡ Err EmitFault.CodeLimit → 8192 < size p }
{
    if drafts.place() > MOST_INSTRS {
        return Err(EmitFault::CodeLimit);
    }
    Ok(assembled(alloc, drafts, infos)?)
}

/// The code of a program, of which all was emitted.
fn assembled(alloc: Global, drafts: &Drafts, infos: &[RoutineInfo]) -> Result<Code, NoMemory>
    requires { (p : seen.Program) × Compiles p × AreEmitted p drafts.now infos.now }
    ensures { (p : seen.Program) → Compiles p → AreEmitted p drafts.now infos.now
        → IfOk result (λ code. code ≡ code_of p) }
{
    let instrs = drafts.instrs()?;
    let routines = with_heights(alloc, infos, &instrs)?;
    Ok(Code::of(routines, instrs))
}

/// The constants and variables of a program.
fn global_frame<'a>(alloc: Global, program: &Program) -> Result<Frame<'a>, NoMemory>
    ensures { IfOk result
        (λ frame. HoldsFrame frame (plain_frame (global_items (seen_program program.now)))) }
{
    let mut frame = Frame::new(alloc, Owner::OfProgram);
    let nothing = Names::new(alloc);
    declare_constants(&mut frame, &nothing, &program.consts)?;
    declare_variables(&mut frame, &nothing, &program.vars)?;
    Ok(frame)
}

/// The program itself: its code is the first, and knows all headings.
fn add_program(
    drafts: &mut Drafts,
    infos: &mut Vec<RoutineInfo>,
    program: &Program,
    passings: &[Vec<Passing>],
) -> Result<(), NoMemory>
    requires tree { IsTree (seen_program program.now) }
    requires unbroken { broken (seen_program program.now) ≡ None }
    requires passings { ArePassed passings.now (seen_program program.now).routines }
    requires first { drafts.old ≡ [] }
    ensures code { OnOk result (drafts.new ≡ routine_code (framed_program (seen_program program.now)) 0) }
    ensures info { let p = seen_program program.now in
        OnOk result (infos.new.items ≡ infos.old.items ++ without_height (routine_info
        (calling_infos (all_framed p)) (framed_program p) 0 (routine_code (framed_program p) 0)) ∷ []) }
{
    let alloc = *infos.allocator();
    let mut frame = global_frame(alloc, program)?;
    declare_headings(&mut frame, &program.routines, passings)?;
    let nothing = Names::new(alloc);
    let shape = Shape {
        owner: Owner::OfProgram,
        params: 0,
        function: false,
        words: frame.words,
    };
    add_framed(drafts, infos, &nothing, &frame.names, &shape, &program.body)
}

/// What is known of a routine, or of the program itself, before its statements.
#[derive(Clone, Copy)]
struct Shape {
    owner: Owner,
    params: u16,
    function: bool,
    words: u16,
}

/// A routine, or the program itself, behind what was emitted before, where these names are known.
fn add_framed<'t, 'a>(
    drafts: &mut Drafts,
    infos: &mut Vec<RoutineInfo>,
    own: &'t Names<'a>,
    program: &'t Names<'a>,
    shape: &Shape,
    statements: &Body,
) -> Result<(), NoMemory>
    requires small { AreSmall (seen_scope own.now program.now) }
    requires place { length drafts.old ≤ 8192 }
    requires params { shape.now.params ≤ 16 }
    requires words { shape.now.words ≤ 4096 }
    requires nested { nested_in_body (seen_body statements.now) ≤ 128 }
    ensures code { let site : site_meant = record {
      names = seen_scope own.now program.now;
      owner = seen_owner shape.now.owner;
      result = shape.now.params;
    } in
        OnOk result (drafts.new ≡ drafts.old ++ (body_code site shape.now.words (seen_body statements.now)
        (length drafts.old) ++ ending (seen_owner shape.now.owner) ∷ [])) }
    ensures info { OnOk result (infos.new.items ≡ infos.old.items ++ (record {
      start = length drafts.old;
      params = shape.now.params;
      function = shape.now.function;
      words = shape.now.words + nested_in_body (seen_body statements.now);
      height = 0;
    }) ∷ []) }
{
    infos.push(RoutineInfo {
        start: drafts.place() as u16,
        params: shape.params as u8,
        function: shape.function,
        words: shape.words + nested_in_body(statements),
        height: 0,
    })?;
    let site = Site::new(own, program, shape.owner, shape.params);
    body(drafts, &site, shape.words, statements)?;
    drafts.emit(ending(shape.owner))
}

/// The program ends, a routine returns.
fn ending(owner: Owner) -> Instr
    ensures { result ≡ ending (seen_owner owner) }
{
    match owner {
        Owner::OfProgram => bare(Op::Halt),
        Owner::OfRoutine => bare(Op::Return),
    }
}

/// The routines, behind what was emitted before. Each knows the names of the program up to its own
/// heading.
fn add_routines(
    drafts: &mut Drafts,
    infos: &mut Vec<RoutineInfo>,
    program: &Program,
    passings: &[Vec<Passing>],
) -> Result<(), EmitFault>
    requires tree { IsTree (seen_program program.now) }
    requires unbroken { broken (seen_program program.now) ≡ None }
    requires passings { ArePassed passings.now (seen_program program.now).routines }
    ensures code { let p = seen_program program.now in
        OnOk result (drafts.new ≡ drafts.old
        ++ instrs_from (framed_after 1 (global_items p) p.routines) (length drafts.old)) }
    ensures infos { let p = seen_program program.now in
        OnOk result (infos.new.items ≡ infos.old.items ++ without_heights (infos_from
        (calling_infos (all_framed p)) (framed_after 1 (global_items p) p.routines) (length drafts.old))) }
    ensures limit { let p = seen_program program.now in
        result ≡ Err EmitFault.CodeLimit → 8192 < length
        (drafts.old ++ instrs_from (framed_after 1 (global_items p) p.routines) (length drafts.old)) }
{
    let mut known = global_frame(*infos.allocator(), program)?;
    for place in 0..passings.len() {
        if drafts.place() > MOST_INSTRS {
            return Err(EmitFault::CodeLimit);
        }
        let number = place as u16 + 1;
        declare_heading(
            &mut known,
            &program.routines[place],
            number,
            &passings[place],
        )?;
        add_routine(drafts, infos, &known.names, program, place)?;
    }
    Ok(())
}

/// A routine by its place, where these names of the program are known, its own the latest.
fn add_routine(
    drafts: &mut Drafts,
    infos: &mut Vec<RoutineInfo>,
    known: &Names<'_>,
    program: &Program,
    place: usize,
) -> Result<(), NoMemory>
    requires tree { IsTree (seen_program program.now) }
    requires unbroken { broken (seen_program program.now) ≡ None }
    requires routine { place < length (seen_program program.now).routines }
    requires known { HoldsNames known.now (plain_frame (known_at (seen_program program.now) (place + 1))) }
    requires start { length drafts.old ≤ 8192 }
    ensures code { let p = seen_program program.now in
        (r : Framed) → slice_get (all_framed p) (place + 1) ≡ Some r
        → OnOk result (drafts.new ≡ drafts.old ++ routine_code r (length drafts.old)) }
    ensures info { let p = seen_program program.now in
        (r : Framed) → slice_get (all_framed p) (place + 1) ≡ Some r
        → OnOk result (infos.new.items ≡ infos.old.items ++ without_height (routine_info
        (calling_infos (all_framed p)) r (length drafts.old) (routine_code r (length drafts.old))) ∷ []) }
{
    let routine = &program.routines[place];
    let block = block_of(routine);
    let mut frame = Frame::new(*infos.allocator(), Owner::OfRoutine);
    declare_parameters(&mut frame, parameters_of(routine))?;
    let params = frame.words;
    let function = is_function(routine);
    frame.add_result(function);
    declare_constants(&mut frame, known, &block.consts)?;
    declare_variables(&mut frame, known, &block.vars)?;
    let shape = Shape {
        owner: Owner::OfRoutine,
        params,
        function,
        words: frame.words,
    };
    add_framed(drafts, infos, &frame.names, known, &shape, &block.body)
}
