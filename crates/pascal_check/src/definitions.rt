// Definitions of constants.
#![tactic(auto, using(crate::proofs::Firsts::firsts))]

ghost use Rattle.std.specs.Prelude.{◌≡◌, None, OnOk, IfErr, option_map};
ghost use Rattle.pascal_tree.specs.SeenProgram.{seen_consts};
ghost use Rattle.pascal_tree.specs.DeclarationRules.{judged_definition, judged_definitions, judged_consts, behind_definition, behind_definitions, behind_consts, first_broken};
ghost use Rattle.pascal_check.specs.Faults.{IsFault};

use crate::constants::judge_constant;
use crate::fault::CheckFault;
use crate::scope::Scope;
use pascal_tree::Means;
use pascal_tree::declaration::{Consts, Definition};

/// The definitions of a block or of the program, and the scope behind them.
pub fn judge_consts(scope: &mut Scope, consts: &Option<Consts>) -> Result<(), CheckFault>
    ensures ok { OnOk result
        (first_broken (judged_consts scope.old (option_map seen_consts consts.now)) ≡ None) }
    ensures scope { OnOk result
        (scope.new ≡ behind_consts scope.old (option_map seen_consts consts.now)) }
    ensures broken { IfErr result
        (IsFault (judged_consts scope.old (option_map seen_consts consts.now))) }
{
    let Some(consts) = consts else {
        return Ok(());
    };
    judge_definition(scope, &consts.first)?;
    judge_definitions(scope, &consts.rest)
}

fn judge_definitions(scope: &mut Scope, definitions: &[Definition]) -> Result<(), CheckFault>
    ensures ok { OnOk result (first_broken (judged_definitions scope.old definitions.now) ≡ None) }
    ensures scope { OnOk result (scope.new ≡ behind_definitions scope.old definitions.now) }
    ensures broken { IfErr result (IsFault (judged_definitions scope.old definitions.now)) }
{
    for definition in definitions {
        judge_definition(scope, definition)?;
    }
    Ok(())
}

fn judge_definition(scope: &mut Scope, definition: &Definition) -> Result<(), CheckFault>
    ensures ok { OnOk result (first_broken (judged_definition scope.old definition.now) ≡ None) }
    ensures scope { OnOk result (scope.new ≡ behind_definition scope.old definition.now) }
    ensures broken { IfErr result (IsFault (judged_definition scope.old definition.now)) }
{
    let found = judge_constant(scope, &definition.value)?;
    if scope.declares(&definition.name) {
        return Err(CheckFault::Semantic {
            line: definition.name.line,
            rule: 1,
        });
    }
    let means = Means::Constant(found.type_, found.value);
    scope.declare(&definition.name, means)?;
    Ok(())
}
