// The headings of routines.

ghost use Rattle.std.specs.Prelude.{◌≡◌, ◌≤◌, List, ◌∷◌, ◌++◌, length, map, option_map, is_some, OnOk, IfOk};
ghost use Rattle.pascal_tree.specs.SeenProgram.{seen_parameter_group, seen_parameters, seen_block, seen_routine};
ghost use Rattle.pascal_mean.specs.Predeclared.{Item};
ghost use Rattle.pascal_mean.specs.Declarations.{block_of, heading_item, routine_name, signature_of};
ghost use Rattle.pascal_code.specs.Frames.{Frame as frame_meant};
ghost use Rattle.pascal_compile.specs.Seen.{seen_passing};
ghost use Rattle.pascal_compile.specs.Holds.{HoldsFrame, HeadingsHeld, with_items};
ghost use Rattle.pascal_compile.specs.Passings.{ArePassed, var_passing, group_passing, groups_passing, parameters_passing, parameters_in, heading_passing};

use crate::frame::Frame;
use crate::senses::{Passing, Sense};
use pascal_tree::declaration::{Block, ParameterGroup, Parameters, Routine};
use pascal_tree::leaf::Name;
use solo_base::NoMemory;
use std::alloc::Global;

/// How the arguments of each routine are passed, in the order of the routines.
pub fn all_passings(alloc: Global, routines: &[Routine]) -> Result<Vec<Vec<Passing>>, NoMemory>
    ensures { IfOk result (λ lists. ArePassed lists.items (map seen_routine routines.now)) }
{
    let mut all = Vec::new(alloc);
    for routine in routines {
        all.push(passings(alloc, parameters_of(routine))?)?;
    }
    Ok(all)
}

fn passings(alloc: Global, parameters: &Option<Parameters>) -> Result<Vec<Passing>, NoMemory>
    ensures { IfOk result (λ list. map seen_passing list.items
        ≡ parameters_passing (option_map seen_parameters parameters.now)) }
{
    let mut list = Vec::new(alloc);
    if let Some(parameters) = parameters {
        add_group(&mut list, &parameters.first)?;
        add_groups(&mut list, &parameters.rest)?;
    }
    Ok(list)
}

fn add_groups(list: &mut Vec<Passing>, groups: &[(u32, ParameterGroup)]) -> Result<(), NoMemory>
    ensures { OnOk result (map seen_passing list.new.items ≡ map seen_passing list.old.items
        ++ groups_passing (map (λ g. (g.0, seen_parameter_group g.1)) groups.now)) }
{
    for (_, group) in groups {
        add_group(list, group)?;
    }
    Ok(())
}

fn add_group(list: &mut Vec<Passing>, group: &ParameterGroup) -> Result<(), NoMemory>
    ensures { OnOk result (map seen_passing list.new.items
        ≡ map seen_passing list.old.items ++ group_passing (seen_parameter_group group.now)) }
{
    let passing = passing_of(group.var);
    list.push(passing)?;
    add_each(list, &group.names.rest, passing)
}

fn add_each(
    list: &mut Vec<Passing>,
    names: &[(u32, Name)],
    passing: Passing,
) -> Result<(), NoMemory>
    ensures { OnOk result (map seen_passing list.new.items
        ≡ map seen_passing list.old.items ++ map (λ name. seen_passing passing) names.now) }
{
    for _ in names {
        list.push(passing)?;
    }
    Ok(())
}

/// How a parameter is passed, where VAR stands on a line.
fn passing_of(var: Option<u32>) -> Passing
    ensures { seen_passing result ≡ var_passing var }
{
    match var {
        None => Passing::ByValue,
        Some(_) => Passing::ByVariable,
    }
}

/// Declares all routines by their headings.
pub fn declare_headings<'a>(
    frame: &mut Frame<'a>,
    routines: &[Routine],
    passings: &'a [Vec<Passing>],
) -> Result<(), NoMemory>
    requires passings { ArePassed passings.now (map seen_routine routines.now) }
    requires few { length routines.now ≤ 254 }
    ensures { OnOk result (HeadingsHeld frame.old frame.new 1 (map seen_routine routines.now)) }
{
    for place in 0..passings.len() {
        let number = place as u16 + 1;
        declare_heading(frame, &routines[place], number, &passings[place])?;
    }
    Ok(())
}

/// Declares a routine by its heading, with its number and how its arguments are passed.
pub fn declare_heading<'a>(
    frame: &mut Frame<'a>,
    routine: &Routine,
    number: u16,
    passing: &'a [Passing],
) -> Result<(), NoMemory>
    requires { map seen_passing passing.now ≡ heading_passing (seen_routine routine.now) }
    ensures heading { OnOk result ((f : frame_meant) → HoldsFrame frame.old f → HoldsFrame frame.new
        (with_items f (heading_item number f.items (seen_routine routine.now) ∷ f.items))) }
    ensures owner { frame.new.owner ≡ frame.old.owner }
{
    frame.declare(name_of(routine), Sense::Routine(number, passing))
}

fn name_of(routine: &Routine) -> &Name
    ensures { result.now ≡ routine_name (seen_routine routine.now) }
{
    match routine {
        Routine::Procedure { name, .. } | Routine::Function { name, .. } => name,
    }
}

/// The parameters of a routine.
pub fn parameters_of(routine: &Routine) -> &Option<Parameters>
    ensures { option_map seen_parameters result.now ≡ parameters_in (seen_routine routine.now) }
{
    match routine {
        Routine::Procedure { parameters, .. } | Routine::Function { parameters, .. } => parameters,
    }
}

/// The constants, variables and statements of a routine.
pub fn block_of(routine: &Routine) -> &Block
    ensures { seen_block result.now ≡ block_of (seen_routine routine.now) }
{
    match routine {
        Routine::Procedure { block, .. } | Routine::Function { block, .. } => block,
    }
}

/// Whether a routine is a function.
pub fn is_function(routine: &Routine) -> bool
    ensures { (known : List Item) → result ≡ is_some (signature_of known (seen_routine routine.now)).answer }
{
    matches!(routine, Routine::Function { .. })
}
