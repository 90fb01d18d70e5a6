// Constants, variables and parameters, declared one after the other.

ghost use Rattle.std.specs.Prelude.{◌≡◌, ℕ, List, [], ◌∷◌, map, option_map, OnOk};
ghost use Rattle.pascal_tree.specs.SeenProgram.{seen_names as names_in, seen_consts, seen_group, seen_vars, seen_parameter_group, seen_parameters};
ghost use Rattle.pascal_mean.specs.Means.{Scalar, Owner, OfRoutine};
ghost use Rattle.pascal_mean.specs.Predeclared.{Item};
ghost use Rattle.pascal_mean.specs.Scope.{Scope};
ghost use Rattle.pascal_mean.specs.Declarations.{name_list, constant_item, declared_definitions, declared_constants, variable_of, declared_names, declared_groups, declared_variables, parameter_of, group_parameters, parameter_means, declared_parameters, parameters_after, parameter_list};
ghost use Rattle.pascal_code.specs.Frames.{Frame as frame_meant, plain_frame};
ghost use Rattle.pascal_code.specs.Senses.{AreSenses};
ghost use Rattle.pascal_compile.specs.Seen.{seen_owner, seen_scope};
ghost use Rattle.pascal_compile.specs.Holds.{HoldsFrame, with_items, HeldAs, NamesLaidOut, LaidOut, ParametersLaidOut};

use crate::frame::{Frame, Held};
use crate::names::Names;
use crate::senses::{Bounds, Sense};
use crate::site::number;
use pascal_tree::declaration::{
    Consts, Definition, Group, Kind, Names as Listed, ParameterGroup, Parameters, Vars,
};
use pascal_tree::leaf::Name;
use solo_base::NoMemory;

/// Declares constants. Each knows those before it, and these names of the program.
pub fn declare_constants<'a>(
    frame: &mut Frame<'a>,
    program: &Names<'a>,
    consts: &Option<Consts>,
) -> Result<(), NoMemory>
    ensures constants { OnOk result (LaidOut program.now frame.old frame.new
        (λ scope. declared_constants scope (option_map seen_consts consts.now))) }
    ensures owner { frame.new.owner ≡ frame.old.owner }
{
    let Some(consts) = consts else {
        return Ok(());
    };
    declare_constant(frame, program, &consts.first)?;
    declare_definitions(frame, program, &consts.rest)
}

fn declare_definitions<'a>(
    frame: &mut Frame<'a>,
    program: &Names<'a>,
    definitions: &[Definition],
) -> Result<(), NoMemory>
    ensures definitions { OnOk result (LaidOut program.now frame.old frame.new
        (λ scope. declared_definitions scope definitions.now)) }
    ensures owner { frame.new.owner ≡ frame.old.owner }
{
    for definition in definitions {
        declare_constant(frame, program, definition)?;
    }
    Ok(())
}

fn declare_constant<'a>(
    frame: &mut Frame<'a>,
    program: &Names<'a>,
    definition: &Definition,
) -> Result<(), NoMemory>
    ensures constant { OnOk result (LaidOut program.now frame.old frame.new
        (λ scope items. constant_item (scope items) definition.now ∷ items)) }
    ensures owner { frame.new.owner ≡ frame.old.owner }
{
    let value = number(&frame.names, program, &definition.value);
    frame.declare(&definition.name, Sense::Constant(value))
}

/// Declares variables. The type of a group is known before its names are.
pub fn declare_variables<'a>(
    frame: &mut Frame<'a>,
    program: &Names<'a>,
    vars: &Option<Vars>,
) -> Result<(), NoMemory>
    ensures variables { OnOk result (LaidOut program.now frame.old frame.new
        (λ scope. declared_variables (seen_owner frame.old.owner) scope (option_map seen_vars vars.now))) }
    ensures owner { frame.new.owner ≡ frame.old.owner }
{
    let Some(vars) = vars else {
        return Ok(());
    };
    declare_group(frame, program, &vars.first)?;
    declare_groups(frame, program, &vars.rest)
}

fn declare_groups<'a>(
    frame: &mut Frame<'a>,
    program: &Names<'a>,
    groups: &[Group],
) -> Result<(), NoMemory>
    ensures groups { OnOk result (LaidOut program.now frame.old frame.new
        (λ scope. declared_groups (seen_owner frame.old.owner) scope (map seen_group groups.now))) }
    ensures owner { frame.new.owner ≡ frame.old.owner }
{
    for group in groups {
        declare_group(frame, program, group)?;
    }
    Ok(())
}

fn declare_group<'a>(
    frame: &mut Frame<'a>,
    program: &Names<'a>,
    group: &Group,
) -> Result<(), NoMemory>
    ensures group { OnOk result (LaidOut program.now frame.old frame.new
        (λ scope items. declared_names (variable_of (seen_owner frame.old.owner) (scope items) group.now.kind)
        (name_list (names_in group.now.names)) items)) }
    ensures owner { frame.new.owner ≡ frame.old.owner }
{
    let held = held_by(&frame.names, program, &group.kind);
    declare_names(frame, &group.names, held)
}

/// What a variable of a type holds.
fn held_by<'a>(own: &Names<'a>, program: &Names<'a>, kind: &Kind) -> Held
    ensures { (owner : Owner) (scope : Scope) → AreSenses scope (seen_scope own.now program.now)
        → HeldAs result owner (variable_of owner scope kind.now) }
{
    match kind {
        Kind::Name(_) => Held::Scalar,
        Kind::Array { low, high, .. } => Held::Array(Bounds {
            low: number(own, program, low),
            high: number(own, program, high),
        }),
    }
}

/// Declares the parameters of a routine, in a frame without words.
pub fn declare_parameters(
    frame: &mut Frame<'_>,
    parameters: &Option<Parameters>,
) -> Result<(), NoMemory>
    ensures parameters { OnOk result ((known : List Item) → seen_owner frame.old.owner ≡ OfRoutine
        → HoldsFrame frame.old (plain_frame []) → HoldsFrame frame.new (plain_frame
        (declared_parameters (parameter_list known (option_map seen_parameters parameters.now)) []))) }
    ensures owner { frame.new.owner ≡ frame.old.owner }
{
    let Some(parameters) = parameters else {
        return Ok(());
    };
    declare_parameter_group(frame, &parameters.first)?;
    declare_parameter_groups(frame, &parameters.rest)
}

fn declare_parameter_groups(
    frame: &mut Frame<'_>,
    groups: &[(u32, ParameterGroup)],
) -> Result<(), NoMemory>
    ensures groups { OnOk result (ParametersLaidOut frame.old frame.new
        (map (λ g. (g.0, seen_parameter_group g.1)) groups.now)) }
    ensures owner { frame.new.owner ≡ frame.old.owner }
{
    for (_, group) in groups {
        declare_parameter_group(frame, group)?;
    }
    Ok(())
}

fn declare_parameter_group(frame: &mut Frame<'_>, group: &ParameterGroup) -> Result<(), NoMemory>
    ensures group { OnOk result ((scope : Scope) (f : frame_meant) → seen_owner frame.old.owner ≡ OfRoutine
        → HoldsFrame frame.old f → HoldsFrame frame.new (with_items f
        (declared_parameters (group_parameters scope (seen_parameter_group group.now)) f.items))) }
    ensures owner { frame.new.owner ≡ frame.old.owner }
{
    let held = held_by_parameter(group.var);
    declare_names(frame, &group.names, held)
}

/// What a parameter holds, where VAR stands on a line.
fn held_by_parameter(var: Option<u32>) -> Held
    ensures { (t : Scalar) (x : List ℕ) → HeldAs result OfRoutine (parameter_means (parameter_of var t x)) }
{
    match var {
        None => Held::Scalar,
        Some(_) => Held::Reference,
    }
}

fn declare_names(frame: &mut Frame<'_>, names: &Listed, held: Held) -> Result<(), NoMemory>
    ensures names { OnOk result (NamesLaidOut held frame.old frame.new (name_list (names_in names.now))) }
    ensures owner { frame.new.owner ≡ frame.old.owner }
{
    frame.lay_out(&names.first, held)?;
    declare_more_names(frame, &names.rest, held)
}

fn declare_more_names(
    frame: &mut Frame<'_>,
    names: &[(u32, Name)],
    held: Held,
) -> Result<(), NoMemory>
    ensures names { OnOk result (NamesLaidOut held frame.old frame.new (map (λ m. (m.1).letters) names.now)) }
    ensures owner { frame.new.owner ≡ frame.old.owner }
{
    for (_, name) in names {
        frame.lay_out(name, held)?;
    }
    Ok(())
}
