// Constants, variables and parameters, declared one after the other.

ghost use Rattle.std.specs.Prelude.{◌≡◌, ◌∷◌, OnOk, map, option_map};
ghost use Rattle.pascal_tree.specs.SeenProgram.{seen_names, seen_consts, seen_group, seen_vars};
ghost use Rattle.pascal_mean.specs.Scope.{scope_of, constant_number};
ghost use Rattle.pascal_mean.specs.Declarations.{name_list, declared_names, constant_item, declared_definitions, declared_constants, variable_of, declared_groups, declared_variables, parameter_means, declared_parameters};
ghost use Rattle.pascal_evaluate.specs.SeenNames.{seen_owner, seen_parameter, seen_plain, seen_means, seen_items, seen_scope};

use crate::means::{Bounds, Item, Means, Owner, Parameter, Plain};
use crate::scope::Scope;
use pascal_tree::Letters;
use pascal_tree::constant::Constant;
use pascal_tree::declaration::{Consts, Definition, Group, Kind, Names, Vars};
use pascal_tree::leaf::Name;
use solo_base::NoMemory;

/// Declares a name after those of a list.
pub fn declare(items: &mut Vec<Item>, letters: &Letters, means: Means) -> Result<(), NoMemory>
    ensures { OnOk result (seen_items items.new.items
        ≡ record { letters = letters.now; means = seen_means means } ∷ seen_items items.old.items) }
{
    let letters = letters.copy()?;
    items.insert(0, Item { letters, means })?;
    Ok(())
}

/// Declares constants. Each knows those before it, and the names that were known before.
pub fn declare_constants(
    items: &mut Vec<Item>,
    known: &[Item],
    consts: &Option<Consts>,
) -> Result<(), NoMemory>
    ensures { OnOk result (seen_items items.new.items
        ≡ declared_constants (λ own. scope_of own (seen_items known.now))
        (option_map seen_consts consts.now) (seen_items items.old.items)) }
{
    let Some(consts) = consts else {
        return Ok(());
    };
    declare_constant(items, known, &consts.first)?;
    declare_definitions(items, known, &consts.rest)
}

fn declare_definitions(
    items: &mut Vec<Item>,
    known: &[Item],
    definitions: &[Definition],
) -> Result<(), NoMemory>
    ensures { OnOk result (seen_items items.new.items
        ≡ declared_definitions (λ own. scope_of own (seen_items known.now))
        definitions.now (seen_items items.old.items)) }
{
    for definition in definitions {
        declare_constant(items, known, definition)?;
    }
    Ok(())
}

fn declare_constant(
    items: &mut Vec<Item>,
    known: &[Item],
    definition: &Definition,
) -> Result<(), NoMemory>
    ensures { OnOk result (seen_items items.new.items
        ≡ constant_item (scope_of (seen_items items.old.items) (seen_items known.now)) definition.now
        ∷ seen_items items.old.items) }
{
    let scope = Scope { own: items, known };
    let scalar = scope.scalar(&definition.value);
    let number = scope.number(&definition.value);
    let means = Means::Plain(Plain::Constant(scalar, number));
    declare(items, &definition.name.letters, means)
}

/// Declares variables, as the program's or as a routine's. The type of a group is known before its
/// names are.
pub fn declare_variables(
    items: &mut Vec<Item>,
    known: &[Item],
    owner: Owner,
    vars: &Option<Vars>,
) -> Result<(), NoMemory>
    ensures { OnOk result (seen_items items.new.items
        ≡ declared_variables (seen_owner owner) (λ own. scope_of own (seen_items known.now))
        (option_map seen_vars vars.now) (seen_items items.old.items)) }
{
    let Some(vars) = vars else {
        return Ok(());
    };
    declare_group(items, known, owner, &vars.first)?;
    declare_groups(items, known, owner, &vars.rest)
}

fn declare_groups(
    items: &mut Vec<Item>,
    known: &[Item],
    owner: Owner,
    groups: &[Group],
) -> Result<(), NoMemory>
    ensures { OnOk result (seen_items items.new.items
        ≡ declared_groups (seen_owner owner) (λ own. scope_of own (seen_items known.now))
        (map seen_group groups.now) (seen_items items.old.items)) }
{
    for group in groups {
        declare_group(items, known, owner, group)?;
    }
    Ok(())
}

fn declare_group(
    items: &mut Vec<Item>,
    known: &[Item],
    owner: Owner,
    group: &Group,
) -> Result<(), NoMemory>
    ensures { let scope = scope_of (seen_items items.old.items) (seen_items known.now) in
        OnOk result (seen_items items.new.items
        ≡ declared_names (variable_of (seen_owner owner) scope group.now.kind)
        (name_list (seen_names group.now.names)) (seen_items items.old.items)) }
{
    let scope = Scope { own: items, known };
    let plain = variable_of(&scope, owner, &group.kind);
    declare_names(items, &group.names, plain)
}

// What a variable of a type means.
fn variable_of(scope: &Scope<'_>, owner: Owner, kind: &Kind) -> Plain
    ensures { seen_plain result ≡ variable_of (seen_owner owner) (seen_scope scope.now) kind.now }
{
    match kind {
        Kind::Name(name) => Plain::Variable(owner, scope.scalar_named(name)),
        Kind::Array {
            low,
            high,
            element,
            ..
        } => Plain::Array(
            owner,
            scope.scalar_named(element),
            bounds_of(scope, low, high),
        ),
    }
}

fn bounds_of(scope: &Scope<'_>, low: &Constant, high: &Constant) -> Bounds
    ensures low { result.low ≡ constant_number (seen_scope scope.now) low.now }
    ensures high { result.high ≡ constant_number (seen_scope scope.now) high.now }
{
    Bounds {
        low: scope.number(low),
        high: scope.number(high),
    }
}

// Declares each of these names with one meaning.
fn declare_names(items: &mut Vec<Item>, names: &Names, plain: Plain) -> Result<(), NoMemory>
    ensures { OnOk result (seen_items items.new.items ≡ declared_names (seen_plain plain)
        (name_list (seen_names names.now)) (seen_items items.old.items)) }
{
    declare(items, &names.first.letters, Means::Plain(plain))?;
    declare_more(items, &names.rest, plain)
}

fn declare_more(items: &mut Vec<Item>, names: &[(u32, Name)], plain: Plain) -> Result<(), NoMemory>
    ensures { OnOk result (seen_items items.new.items ≡ declared_names (seen_plain plain)
        (map (λ m. (m.1).letters) names.now) (seen_items items.old.items)) }
{
    for (_, name) in names {
        declare(items, &name.letters, Means::Plain(plain))?;
    }
    Ok(())
}

/// Declares the parameters of a routine.
pub fn declare_parameters(items: &mut Vec<Item>, parameters: &[Parameter]) -> Result<(), NoMemory>
    ensures { OnOk result (seen_items items.new.items
        ≡ declared_parameters (map seen_parameter parameters.now) (seen_items items.old.items)) }
{
    for parameter in parameters {
        let means = Means::Plain(parameter_means(parameter));
        declare(items, &parameter.letters, means)?;
    }
    Ok(())
}

/// What the name of a parameter means.
pub fn parameter_means(parameter: &Parameter) -> Plain
    ensures { seen_plain result ≡ parameter_means (seen_parameter parameter.now) }
{
    if parameter.is_variable {
        Plain::Reference(parameter.scalar)
    } else {
        Plain::Variable(Owner::OfRoutine, parameter.scalar)
    }
}
