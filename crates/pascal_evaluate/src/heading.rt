// The headings of routines.

ghost use Rattle.std.specs.Prelude.{◌≡◌, ◌∷◌, ◌++◌, [], IfOk, OnOk, map, option_map};
ghost use Rattle.pascal_tree.specs.SeenProgram.{seen_names, seen_parameter_group, seen_parameters, seen_routine};
ghost use Rattle.pascal_mean.specs.Scope.{scope_of};
ghost use Rattle.pascal_mean.specs.Declarations.{name_list, parameter_of, group_parameters, declared_parameters, parameters_after, parameter_list, signature_of, routine_name, heading_item, declared_headings};
ghost use Rattle.pascal_evaluate.specs.SeenNames.{seen_scalar, seen_parameter, seen_signature, seen_items};

use crate::declare::{declare, parameter_means};
use crate::means::{Item, Means, Parameter, Scalar, Signature};
use crate::scope::Scope;
use pascal_tree::declaration::{ParameterGroup, Parameters, Routine};
use pascal_tree::leaf::Name;
use solo_base::NoMemory;
use std::alloc::Global;

/// The parameters of a routine and the type of its result. Each group's type is looked up among the
/// program's names and the parameters before it.
pub fn signature_of(alloc: Global, known: &[Item], routine: &Routine) -> Result<Signature, NoMemory>
    ensures { IfOk result (λ signature. seen_signature signature
        ≡ signature_of (seen_items known.now) (seen_routine routine.now)) }
{
    match routine {
        Routine::Procedure { parameters, .. } => {
            let (parameters, _) = parameters_of(alloc, known, parameters)?;
            Ok(Signature {
                parameters,
                answer: None,
            })
        }
        Routine::Function {
            parameters,
            answer,
            ..
        } => {
            let (parameters, own) = parameters_of(alloc, known, parameters)?;
            let scope = Scope { own: &own, known };
            Ok(Signature {
                parameters,
                answer: Some(scope.scalar_named(answer)),
            })
        }
    }
}

// The parameters, and what their names mean.
fn parameters_of(
    alloc: Global,
    known: &[Item],
    parameters: &Option<Parameters>,
) -> Result<(Vec<Parameter>, Vec<Item>), NoMemory>
    ensures list { IfOk result (λ answer. map seen_parameter answer.0.items
        ≡ parameter_list (seen_items known.now) (option_map seen_parameters parameters.now)) }
    ensures own { IfOk result (λ answer. seen_items answer.1.items
        ≡ declared_parameters (map seen_parameter answer.0.items) []) }
{
    let mut list = Vec::new(alloc);
    let mut own = Vec::new(alloc);
    let Some(parameters) = parameters else {
        return Ok((list, own));
    };
    add_group(&mut list, &mut own, known, &parameters.first)?;
    add_groups(&mut list, &mut own, known, &parameters.rest)?;
    Ok((list, own))
}

fn add_groups(
    list: &mut Vec<Parameter>,
    own: &mut Vec<Item>,
    known: &[Item],
    groups: &[(u32, ParameterGroup)],
) -> Result<(), NoMemory>
    requires { seen_items own.old.items
        ≡ declared_parameters (map seen_parameter list.old.items) [] }
    ensures list { OnOk result (map seen_parameter list.new.items
        ≡ map seen_parameter list.old.items ++ parameters_after (seen_items own.old.items)
        (seen_items known.now) (map (λ g. (g.0, seen_parameter_group g.1)) groups.now)) }
    ensures own { OnOk result (seen_items own.new.items
        ≡ declared_parameters (map seen_parameter list.new.items) []) }
{
    for place in 0..groups.len() {
        add_group(list, own, known, &groups[place].1)?;
    }
    Ok(())
}

// Adds the parameters of a group, and declares their names.
fn add_group(
    list: &mut Vec<Parameter>,
    own: &mut Vec<Item>,
    known: &[Item],
    group: &ParameterGroup,
) -> Result<(), NoMemory>
    ensures list { let these =
        group_parameters (scope_of (seen_items own.old.items) (seen_items known.now))
        (seen_parameter_group group.now) in
        OnOk result (map seen_parameter list.new.items
        ≡ map seen_parameter list.old.items ++ these) }
    ensures own { let these =
        group_parameters (scope_of (seen_items own.old.items) (seen_items known.now))
        (seen_parameter_group group.now) in
        OnOk result (seen_items own.new.items
        ≡ declared_parameters these (seen_items own.old.items)) }
{
    let scope = Scope { own, known };
    let scalar = scope.scalar_named(&group.kind);
    add_parameter(
        list,
        own,
        parameter(&group.var, &group.names.first, scalar)?,
    )?;
    add_parameters(list, own, &group.var, &group.names.rest, scalar)
}

fn add_parameters(
    list: &mut Vec<Parameter>,
    own: &mut Vec<Item>,
    var: &Option<u32>,
    names: &[(u32, Name)],
    scalar: Scalar,
) -> Result<(), NoMemory>
    ensures list { let these = map (parameter_of var.now (seen_scalar scalar))
        (map (λ m. (m.1).letters) names.now) in
        OnOk result (map seen_parameter list.new.items
        ≡ map seen_parameter list.old.items ++ these) }
    ensures own { let these = map (parameter_of var.now (seen_scalar scalar))
        (map (λ m. (m.1).letters) names.now) in
        OnOk result (seen_items own.new.items
        ≡ declared_parameters these (seen_items own.old.items)) }
{
    for (_, name) in names {
        add_parameter(list, own, parameter(var, name, scalar)?)?;
    }
    Ok(())
}

// Adds a parameter, and declares its name.
fn add_parameter(
    list: &mut Vec<Parameter>,
    own: &mut Vec<Item>,
    parameter: Parameter,
) -> Result<(), NoMemory>
    ensures list { OnOk result (map seen_parameter list.new.items
        ≡ map seen_parameter list.old.items ++ seen_parameter parameter ∷ []) }
    ensures own { OnOk result (seen_items own.new.items
        ≡ declared_parameters (seen_parameter parameter ∷ []) (seen_items own.old.items)) }
{
    let means = Means::Plain(parameter_means(&parameter));
    declare(own, &parameter.letters, means)?;
    list.push(parameter)?;
    Ok(())
}

fn parameter(var: &Option<u32>, name: &Name, scalar: Scalar) -> Result<Parameter, NoMemory>
    ensures { IfOk result (λ parameter. seen_parameter parameter
        ≡ parameter_of var.now (seen_scalar scalar) name.now.letters) }
{
    let letters = name.letters.copy()?;
    Ok(Parameter {
        letters,
        scalar,
        is_variable: var.is_some(),
    })
}

/// The name of a routine.
pub fn routine_name(routine: &Routine) -> &Name
    ensures { result.now ≡ routine_name (seen_routine routine.now) }
{
    match routine {
        Routine::Procedure { name, .. } | Routine::Function { name, .. } => name,
    }
}

/// Declares the headings of routines, whose numbers begin with 1.
pub fn declare_headings(items: &mut Vec<Item>, routines: &[Routine]) -> Result<(), NoMemory>
    ensures { OnOk result (seen_items items.new.items
        ≡ declared_headings 1 (map seen_routine routines.now) (seen_items items.old.items)) }
{
    for place in 0..routines.len() {
        declare_heading(items, place + 1, &routines[place])?;
    }
    Ok(())
}

fn declare_heading(items: &mut Vec<Item>, number: usize, routine: &Routine) -> Result<(), NoMemory>
    ensures { OnOk result (seen_items items.new.items
        ≡ heading_item number (seen_items items.old.items) (seen_routine routine.now)
        ∷ seen_items items.old.items) }
{
    let signature = signature_of(*items.allocator(), items, routine)?;
    let means = Means::Routine(number, signature);
    declare(items, &routine_name(routine).letters, means)
}
