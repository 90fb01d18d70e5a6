// The parameters of a routine.
#![tactic(auto, using(crate::proofs::Firsts::firsts))]

ghost use Rattle.std.specs.Prelude.{◌≡◌, ◌≤◌, ◌++◌, ◌∷◌, [], None, IfOk, OnOk, IfErr, map, option_map};
ghost use Rattle.pascal_tree.specs.SeenProgram.{seen_names, seen_parameter_group, seen_parameters};
ghost use Rattle.pascal_tree.specs.DeclarationRules.{judged_parameter_group, judged_parameter_groups, behind_parameter_group, behind_parameter_groups, parameters_wanted, parameter_means, parameter_wants, group_wants, all_names, all_groups, or_integer, frame_words, first_broken};
ghost use Rattle.pascal_check.specs.Faults.{IsFault};
ghost use Rattle.pascal_check.specs.Frames.{group_wanted};
ghost use Rattle.pascal_check.specs.Holds.{means_held};

use crate::fault::CheckFault;
use crate::groups::{Held, Limit, declare_names, judge_type_name};
use crate::scope::Scope;
use pascal_tree::declaration::{Names, ParameterGroup, Parameters};
use pascal_tree::leaf::Name;
use pascal_tree::{Parameter, ParameterList, Scalar, VariableType};

/// The limit of the parameters of a routine.
const PARAMETERS: Limit = Limit { rule: 7, most: 16 };

/// The parameters of a heading, from inside the routine; how many words they have, and the scope
/// behind them. What they want stands behind `wanted`.
pub fn judge_parameters(
    scope: &mut Scope,
    wanted: &mut ParameterList,
    parameters: &Option<Parameters>,
) -> Result<u32, CheckFault>
    requires used { frame_words scope.old ≡ 0 }
    ensures ok { OnOk result (first_broken (judged_parameter_groups scope.old
        (all_groups (option_map seen_parameters parameters.now))) ≡ None) }
    ensures scope { OnOk result (scope.new ≡ behind_parameter_groups scope.old
        (all_groups (option_map seen_parameters parameters.now))) }
    ensures wanted { OnOk result (wanted.new ≡ wanted.old ++ parameters_wanted scope.old
        (all_groups (option_map seen_parameters parameters.now))) }
    ensures used { IfOk result (λ n. n ≡ frame_words scope.new) }
    ensures most { IfOk result (λ n. n ≤ 16) }
    ensures broken { IfErr result (IsFault (judged_parameter_groups scope.old
        (all_groups (option_map seen_parameters parameters.now)))) }
{
    let Some(parameters) = parameters else {
        return Ok(0);
    };
    let used = judge_parameter_group(scope, wanted, 0, &parameters.first)?;
    judge_more_parameters(scope, wanted, used, &parameters.rest)
}

fn judge_more_parameters(
    scope: &mut Scope,
    wanted: &mut ParameterList,
    used: u32,
    groups: &[(u32, ParameterGroup)],
) -> Result<u32, CheckFault>
    requires used { used ≡ frame_words scope.old }
    requires most { used ≤ 16 }
    ensures ok { OnOk result (first_broken (judged_parameter_groups scope.old
        (map (λ g. seen_parameter_group g.1) groups.now)) ≡ None) }
    ensures scope { OnOk result (scope.new ≡ behind_parameter_groups scope.old
        (map (λ g. seen_parameter_group g.1) groups.now)) }
    ensures wanted { OnOk result (wanted.new ≡ wanted.old ++ parameters_wanted scope.old
        (map (λ g. seen_parameter_group g.1) groups.now)) }
    ensures used { IfOk result (λ n. n ≡ frame_words scope.new) }
    ensures most { IfOk result (λ n. n ≤ 16) }
    ensures broken { IfErr result (IsFault (judged_parameter_groups scope.old
        (map (λ g. seen_parameter_group g.1) groups.now))) }
{
    let mut total = used;
    for (_, group) in groups {
        total = judge_parameter_group(scope, wanted, total, group)?;
    }
    Ok(total)
}

// Parameters of one type: the type, and then their names.
fn judge_parameter_group(
    scope: &mut Scope,
    wanted: &mut ParameterList,
    used: u32,
    group: &ParameterGroup,
) -> Result<u32, CheckFault>
    requires used { used ≡ frame_words scope.old }
    requires most { used ≤ 16 }
    ensures ok { OnOk result
        (first_broken (judged_parameter_group scope.old (seen_parameter_group group.now)) ≡ None) }
    ensures scope { OnOk result
        (scope.new ≡ behind_parameter_group scope.old (seen_parameter_group group.now)) }
    ensures wanted { OnOk result
        (wanted.new ≡ wanted.old ++ group_wanted scope.old (seen_parameter_group group.now)) }
    ensures used { IfOk result (λ n. n ≡ frame_words scope.new) }
    ensures most { IfOk result (λ n. n ≤ 16) }
    ensures broken { IfErr result
        (IsFault (judged_parameter_group scope.old (seen_parameter_group group.now))) }
{
    let type_ = judge_type_name(scope, &group.kind)?;
    let used = declare_names(
        scope,
        PARAMETERS,
        used,
        held(&group.var, type_),
        &group.names,
    )?;
    want(wanted, parameter(&group.var, type_), &group.names)?;
    Ok(used)
}

fn held(var: &Option<u32>, type_: Scalar) -> Held
    ensures means { means_held result ≡ parameter_means var.now type_ }
{
    match var {
        None => Held::Variable(VariableType::Plain(type_)),
        Some(_) => Held::Reference(type_),
    }
}

fn parameter(var: &Option<u32>, type_: Scalar) -> Parameter
    ensures { result ≡ parameter_wants var.now type_ }
{
    match var {
        None => Parameter::Value(type_),
        Some(_) => Parameter::VariableOf(type_),
    }
}

// A parameter for each of these names.
fn want(wanted: &mut ParameterList, parameter: Parameter, names: &Names) -> Result<(), CheckFault>
    ensures wanted { OnOk result
        (wanted.new ≡ wanted.old ++ group_wants parameter (all_names (seen_names names.now))) }
    ensures memory { IfErr result (λ f. f ≡ CheckFault.NoMemory) }
{
    wanted.push(parameter)?;
    want_more(wanted, parameter, &names.rest)
}

fn want_more(
    wanted: &mut ParameterList,
    parameter: Parameter,
    names: &[(u32, Name)],
) -> Result<(), CheckFault>
    ensures wanted { OnOk result
        (wanted.new ≡ wanted.old ++ group_wants parameter (map (λ n. n.1) names.now)) }
    ensures memory { IfErr result (λ f. f ≡ CheckFault.NoMemory) }
{
    for place in 0..names.len() {
        wanted.push(parameter)?;
    }
    Ok(())
}
