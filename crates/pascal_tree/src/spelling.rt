// The words of a program.

ghost use Rattle.std.specs.Prelude.{◌≡◌, [], ◌∷◌, ◌++◌, IfOk, OnOk, map, option_map};
ghost use Rattle.pascal_tree.specs.SeenStatement.{seen_body};
ghost use Rattle.pascal_tree.specs.SeenProgram.{seen_names, seen_consts, seen_group, seen_vars, seen_parameter_group, seen_parameters, seen_block, seen_routine, seen_program};
ghost use Rattle.pascal_tree.specs.SpellProgram.{spelled, spelled_heading, spelled_definition, spelled_definitions, spelled_consts, spelled_more_names, spelled_kind, spelled_group, spelled_groups, spelled_vars, spelled_var, spelled_parameter_group, spelled_parameter_groups, spelled_parameters, spelled_block, spelled_routine, spelled_routines};

use crate::declaration::{
    Block, Consts, Definition, Group, Heading, Kind, ParameterGroup, Parameters, Program, Routine,
    Vars,
};
use crate::leaf::Name;
use crate::spell_constant::spell_constant;
use crate::spell_expression::{push_name, push_reserved, push_symbol};
use crate::spell_statement::spell_body;
use crate::token::{Reserved, Symbol, Token, Word};
use crate::tree::Tree;
use solo_base::NoMemory;

/// The words of a tree in their order, each with its line. The end token is the last.
pub fn spell(tree: &Tree) -> Result<Vec<Token>, NoMemory>
    ensures { IfOk result (λ tokens. tokens.items ≡ spelled (seen_program tree.now)) }
{
    let mut out = Vec::new(*tree.program.routines.allocator());
    spell_program(&mut out, &tree.program)?;
    Ok(out)
}

fn spell_program(out: &mut Vec<Token>, program: &Program) -> Result<(), NoMemory>
    ensures { OnOk result (out.new.items ≡ out.old.items ++ spelled (seen_program program.now)) }
{
    spell_heading(out, &program.heading)?;
    spell_consts(out, &program.consts)?;
    spell_vars(out, &program.vars)?;
    spell_routines(out, &program.routines)?;
    spell_body(out, &program.body)?;
    push_symbol(out, Symbol::Period, program.period)?;
    out.push(Token {
        word: Word::End,
        line: program.end,
    })?;
    Ok(())
}

fn spell_heading(out: &mut Vec<Token>, heading: &Option<Heading>) -> Result<(), NoMemory>
    ensures { OnOk result (out.new.items ≡ out.old.items ++ spelled_heading heading.now) }
{
    let Some(heading) = heading else {
        return Ok(());
    };
    push_reserved(out, Reserved::Program, heading.line)?;
    push_name(out, &heading.name)?;
    push_symbol(out, Symbol::Semicolon, heading.semicolon)?;
    Ok(())
}

fn spell_definition(out: &mut Vec<Token>, definition: &Definition) -> Result<(), NoMemory>
    ensures { OnOk result (out.new.items
        ≡ out.old.items ++ spelled_definition definition.now) }
{
    push_name(out, &definition.name)?;
    push_symbol(out, Symbol::Equal, definition.equal)?;
    spell_constant(out, &definition.value)?;
    push_symbol(out, Symbol::Semicolon, definition.semicolon)?;
    Ok(())
}

fn spell_definitions(out: &mut Vec<Token>, definitions: &[Definition]) -> Result<(), NoMemory>
    ensures { OnOk result (out.new.items
        ≡ out.old.items ++ spelled_definitions definitions.now) }
{
    for definition in definitions {
        spell_definition(out, definition)?;
    }
    Ok(())
}

fn spell_consts(out: &mut Vec<Token>, consts: &Option<Consts>) -> Result<(), NoMemory>
    ensures { OnOk result (out.new.items
        ≡ out.old.items ++ spelled_consts (option_map seen_consts consts.now)) }
{
    let Some(consts) = consts else {
        return Ok(());
    };
    push_reserved(out, Reserved::Const, consts.line)?;
    spell_definition(out, &consts.first)?;
    spell_definitions(out, &consts.rest)?;
    Ok(())
}

fn spell_more_names(out: &mut Vec<Token>, names: &[(u32, Name)]) -> Result<(), NoMemory>
    ensures { OnOk result (out.new.items ≡ out.old.items ++ spelled_more_names names.now) }
{
    for (line, name) in names {
        push_symbol(out, Symbol::Comma, *line)?;
        push_name(out, name)?;
    }
    Ok(())
}

fn spell_kind(out: &mut Vec<Token>, kind: &Kind) -> Result<(), NoMemory>
    ensures { OnOk result (out.new.items ≡ out.old.items ++ spelled_kind kind.now) }
{
    match kind {
        Kind::Name(name) => push_name(out, name),
        Kind::Array {
            line,
            opening,
            low,
            up_to,
            high,
            closing,
            of,
            element,
        } => {
            push_reserved(out, Reserved::Array, *line)?;
            push_symbol(out, Symbol::OpenIndex, *opening)?;
            spell_constant(out, low)?;
            push_symbol(out, Symbol::UpTo, *up_to)?;
            spell_constant(out, high)?;
            push_symbol(out, Symbol::CloseIndex, *closing)?;
            push_reserved(out, Reserved::Of, *of)?;
            push_name(out, element)?;
            Ok(())
        }
    }
}

fn spell_group(out: &mut Vec<Token>, group: &Group) -> Result<(), NoMemory>
    ensures { OnOk result (out.new.items
        ≡ out.old.items ++ spelled_group (seen_group group.now)) }
{
    push_name(out, &group.names.first)?;
    spell_more_names(out, &group.names.rest)?;
    push_symbol(out, Symbol::Colon, group.colon)?;
    spell_kind(out, &group.kind)?;
    push_symbol(out, Symbol::Semicolon, group.semicolon)?;
    Ok(())
}

fn spell_groups(out: &mut Vec<Token>, groups: &[Group]) -> Result<(), NoMemory>
    ensures { OnOk result (out.new.items
        ≡ out.old.items ++ spelled_groups (map seen_group groups.now)) }
{
    for group in groups {
        spell_group(out, group)?;
    }
    Ok(())
}

fn spell_vars(out: &mut Vec<Token>, vars: &Option<Vars>) -> Result<(), NoMemory>
    ensures { OnOk result (out.new.items
        ≡ out.old.items ++ spelled_vars (option_map seen_vars vars.now)) }
{
    let Some(vars) = vars else {
        return Ok(());
    };
    push_reserved(out, Reserved::Var, vars.line)?;
    spell_group(out, &vars.first)?;
    spell_groups(out, &vars.rest)?;
    Ok(())
}

fn spell_var(out: &mut Vec<Token>, var: &Option<u32>) -> Result<(), NoMemory>
    ensures { OnOk result (out.new.items ≡ out.old.items ++ spelled_var var.now) }
{
    match var {
        None => Ok(()),
        Some(line) => push_reserved(out, Reserved::Var, *line),
    }
}

fn spell_parameter_group(out: &mut Vec<Token>, group: &ParameterGroup) -> Result<(), NoMemory>
    ensures { OnOk result (out.new.items
        ≡ out.old.items ++ spelled_parameter_group (seen_parameter_group group.now)) }
{
    spell_var(out, &group.var)?;
    push_name(out, &group.names.first)?;
    spell_more_names(out, &group.names.rest)?;
    push_symbol(out, Symbol::Colon, group.colon)?;
    push_name(out, &group.kind)?;
    Ok(())
}

fn spell_parameter_groups(
    out: &mut Vec<Token>,
    groups: &[(u32, ParameterGroup)],
) -> Result<(), NoMemory>
    ensures { OnOk result (out.new.items ≡ out.old.items
        ++ spelled_parameter_groups (map (λ g. (g.0, seen_parameter_group g.1)) groups.now)) }
{
    for (line, group) in groups {
        push_symbol(out, Symbol::Semicolon, *line)?;
        spell_parameter_group(out, group)?;
    }
    Ok(())
}

fn spell_parameters(out: &mut Vec<Token>, parameters: &Option<Parameters>) -> Result<(), NoMemory>
    ensures { OnOk result (out.new.items
        ≡ out.old.items ++ spelled_parameters (option_map seen_parameters parameters.now)) }
{
    let Some(parameters) = parameters else {
        return Ok(());
    };
    push_symbol(out, Symbol::Open, parameters.opening)?;
    spell_parameter_group(out, &parameters.first)?;
    spell_parameter_groups(out, &parameters.rest)?;
    push_symbol(out, Symbol::Close, parameters.closing)?;
    Ok(())
}

fn spell_block(out: &mut Vec<Token>, block: &Block) -> Result<(), NoMemory>
    ensures { OnOk result (out.new.items
        ≡ out.old.items ++ spelled_block (seen_block block.now)) }
{
    spell_consts(out, &block.consts)?;
    spell_vars(out, &block.vars)?;
    spell_body(out, &block.body)?;
    Ok(())
}

fn spell_routine(out: &mut Vec<Token>, routine: &Routine) -> Result<(), NoMemory>
    ensures { OnOk result (out.new.items
        ≡ out.old.items ++ spelled_routine (seen_routine routine.now)) }
{
    match routine {
        Routine::Procedure {
            line,
            name,
            parameters,
            semicolon,
            block,
            end,
        } => {
            push_reserved(out, Reserved::Procedure, *line)?;
            push_name(out, name)?;
            spell_parameters(out, parameters)?;
            push_symbol(out, Symbol::Semicolon, *semicolon)?;
            spell_block(out, block)?;
            push_symbol(out, Symbol::Semicolon, *end)?;
            Ok(())
        }
        Routine::Function {
            line,
            name,
            parameters,
            colon,
            answer,
            semicolon,
            block,
            end,
        } => {
            push_reserved(out, Reserved::Function, *line)?;
            push_name(out, name)?;
            spell_parameters(out, parameters)?;
            push_symbol(out, Symbol::Colon, *colon)?;
            push_name(out, answer)?;
            push_symbol(out, Symbol::Semicolon, *semicolon)?;
            spell_block(out, block)?;
            push_symbol(out, Symbol::Semicolon, *end)?;
            Ok(())
        }
    }
}

fn spell_routines(out: &mut Vec<Token>, routines: &[Routine]) -> Result<(), NoMemory>
    ensures { OnOk result (out.new.items
        ≡ out.old.items ++ spelled_routines (map seen_routine routines.now)) }
{
    for routine in routines {
        spell_routine(out, routine)?;
    }
    Ok(())
}
