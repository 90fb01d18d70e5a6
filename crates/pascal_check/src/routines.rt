// Routines, and the program that has them.
#![tactic(auto, using(crate::proofs::Firsts::firsts))]

ghost use Rattle.std.specs.Prelude.{◌≡◌, ◌≤◌, true, false, None, OnOk, IfErr, map, option_map, is_some, nat_le};
ghost use Rattle.pascal_tree.specs.Scopes.{found};
ghost use Rattle.pascal_tree.specs.SeenStatement.{seen_body};
ghost use Rattle.pascal_tree.specs.SeenProgram.{seen_parameters, seen_block, seen_routine, seen_program};
ghost use Rattle.pascal_tree.specs.Program.{procedure, function};
ghost use Rattle.pascal_tree.specs.DeclarationRules.{judged, judged_routine, judged_routines, judged_block, behind_heading, behind_routines, empty_scope, frame_words, first_broken};
ghost use Rattle.pascal_check.specs.Faults.{IsFault};
ghost use Rattle.pascal_check.specs.Entered.{IsOfProgram};

use crate::definitions::judge_consts;
use crate::fault::CheckFault;
use crate::groups::{judge_type_name, judge_vars};
use crate::parameters::judge_parameters;
use crate::scope::Scope;
use crate::statements::judge_body;
use pascal_tree::declaration::{Block, Parameters, Program, Routine};
use pascal_tree::leaf::Name;
use pascal_tree::{Broken, Means, ParameterList};

/// How many routines a program may have.
const MOST_ROUTINES: usize = 254;

/// The nodes of a whole program.
#[tactic(auto, using(crate::proofs::Firsts::firsts, crate::proofs::Framed::blocks))]
pub fn judge_program(scope: &mut Scope, program: &Program) -> Result<(), CheckFault>
    requires { scope.old ≡ empty_scope }
    ensures ok { OnOk result (first_broken (judged (seen_program program.now)) ≡ None) }
    ensures broken { IfErr result (IsFault (judged (seen_program program.now))) }
{
    judge_consts(scope, &program.consts)?;
    judge_vars(scope, 0, &program.vars)?;
    judge_routines(scope, &program.routines)?;
    judge_body(scope, &program.body)
}

fn judge_routines(scope: &mut Scope, routines: &[Routine]) -> Result<(), CheckFault>
    requires { IsOfProgram scope.old }
    ensures ok { OnOk result
        (first_broken (judged_routines scope.old 0 (map seen_routine routines.now)) ≡ None) }
    ensures scope { OnOk result
        (scope.new ≡ behind_routines scope.old (map seen_routine routines.now)) }
    ensures broken { IfErr result
        (IsFault (judged_routines scope.old 0 (map seen_routine routines.now))) }
{
    for place in 0..routines.len() {
        judge_routine(scope, place, &routines[place])?;
    }
    Ok(())
}

// A routine behind so many others, and the program's scope behind it.
fn judge_routine(scope: &mut Scope, before: usize, routine: &Routine) -> Result<(), CheckFault>
    requires { IsOfProgram scope.old }
    ensures ok { OnOk result
        (first_broken (judged_routine scope.old before (seen_routine routine.now)) ≡ None) }
    ensures scope { OnOk result (scope.new ≡ behind_heading scope.old (seen_routine routine.now)) }
    ensures broken { IfErr result
        (IsFault (judged_routine scope.old before (seen_routine routine.now))) }
{
    match routine {
        Routine::Procedure {
            name,
            parameters,
            block,
            ..
        } => judge_procedure(scope, before, name, parameters, block),
        Routine::Function {
            name,
            parameters,
            answer,
            block,
            ..
        } => judge_function(scope, before, name, parameters, answer, block),
    }
}

// A procedure: its heading, and its block.
fn judge_procedure(
    scope: &mut Scope,
    before: usize,
    name: &Name,
    parameters: &Option<Parameters>,
    block: &Block,
) -> Result<(), CheckFault>
    requires { IsOfProgram scope.old }
    ensures ok { OnOk result (first_broken (judged_routine scope.old before
        (procedure 0 name.now (option_map seen_parameters parameters.now) 0 (seen_block block.now) 0))
        ≡ None) }
    ensures scope { OnOk result (scope.new ≡ behind_heading scope.old
        (procedure 0 name.now (option_map seen_parameters parameters.now) 0 (seen_block block.now) 0)) }
    ensures broken { IfErr result (IsFault (judged_routine scope.old before
        (procedure 0 name.now (option_map seen_parameters parameters.now) 0 (seen_block block.now) 0))) }
{
    scope.enter();
    let mut wanted = ParameterList::new(scope.alloc());
    let used = judge_parameters(scope, &mut wanted, parameters)?;
    judge_routine_name(scope, name)?;
    judge_count(before, name)?;
    scope.declare_outside(name, Means::Procedure(wanted))?;
    judge_block(scope, used, block)?;
    scope.leave();
    Ok(())
}

// A function: its heading, and its block.
fn judge_function(
    scope: &mut Scope,
    before: usize,
    name: &Name,
    parameters: &Option<Parameters>,
    answer: &Name,
    block: &Block,
) -> Result<(), CheckFault>
    requires { IsOfProgram scope.old }
    ensures ok { OnOk result (first_broken (judged_routine scope.old before
        (function 0 name.now (option_map seen_parameters parameters.now) 0 answer.now 0
        (seen_block block.now) 0))
        ≡ None) }
    ensures scope { OnOk result (scope.new ≡ behind_heading scope.old
        (function 0 name.now (option_map seen_parameters parameters.now) 0 answer.now 0
        (seen_block block.now) 0)) }
    ensures broken { IfErr result (IsFault (judged_routine scope.old before
        (function 0 name.now (option_map seen_parameters parameters.now) 0 answer.now 0
        (seen_block block.now) 0))) }
{
    scope.enter();
    let mut wanted = ParameterList::new(scope.alloc());
    let used = judge_parameters(scope, &mut wanted, parameters)?;
    judge_routine_name(scope, name)?;
    let answer = judge_type_name(scope, answer)?;
    judge_count(before, name)?;
    scope.declare_outside(name, Means::Function(wanted, answer))?;
    scope.begin_function(name)?;
    judge_block(scope, used + 1, block)?;
    scope.leave();
    Ok(())
}

// The name of a routine, which the program's list doesn't have already.
fn judge_routine_name(scope: &Scope, name: &Name) -> Result<(), Broken>
    ensures ok { OnOk result (is_some (found scope.now.outer name.now.letters) ≡ false) }
    ensures broken { IfErr result (λ b. (is_some (found scope.now.outer name.now.letters) ≡ true)
        × (b ≡ record { rule = 1; line = name.now.line })) }
{
    if scope.declares_outside(name) {
        Err(Broken {
            rule: 1,
            line: name.line,
        })
    } else {
        Ok(())
    }
}

// Whether a program may have one routine more than so many.
fn judge_count(before: usize, name: &Name) -> Result<(), Broken>
    ensures ok { OnOk result (nat_le 254 before ≡ false) }
    ensures broken { IfErr result (λ b. (nat_le 254 before ≡ true)
        × (b ≡ record { rule = 7; line = name.now.line })) }
{
    if MOST_ROUTINES <= before {
        Err(Broken {
            rule: 7,
            line: name.line,
        })
    } else {
        Ok(())
    }
}

// The block of a routine, behind so many words of its frame.
#[tactic(auto, using(crate::proofs::Firsts::firsts, crate::proofs::Framed::blocks))]
fn judge_block(scope: &mut Scope, used: u32, block: &Block) -> Result<(), CheckFault>
    requires used { used ≡ frame_words scope.old }
    requires most { used ≤ 4096 }
    ensures ok { OnOk result (first_broken (judged_block scope.old (seen_block block.now)) ≡ None) }
    ensures outer { OnOk result (scope.new.outer ≡ scope.old.outer) }
    ensures broken { IfErr result (IsFault (judged_block scope.old (seen_block block.now))) }
{
    judge_consts(scope, &block.consts)?;
    judge_vars(scope, used, &block.vars)?;
    judge_body(scope, &block.body)
}
