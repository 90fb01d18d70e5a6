// Declarations, read by descent.
#![tactic(auto, using(crate::proofs::ParseDeclarationRows::declaration_rows))]

ghost use Rattle.std.specs.Prelude.{◌≡◌, ℕ, List, ◌∷◌, [], ◌++◌, Err, IfOk, OnOk, MatchOption, Some, option_map, map};
ghost use Rattle.pascal_tree.specs.SeenProgram.{seen_names, seen_consts, seen_group, seen_vars, seen_parameter_group, seen_parameters};
ghost use Rattle.pascal_tree.specs.SpellExpression.{name_at, symbol_at, reserved_at};
ghost use Rattle.pascal_tree.specs.SpellProgram.{spelled_heading, spelled_definition, spelled_definitions, spelled_consts, spelled_more_names, spelled_kind, spelled_group, spelled_groups, spelled_vars, spelled_var, spelled_parameter_group, spelled_parameter_groups, spelled_parameters};
ghost use Rattle.pascal_read.specs.ParseWants.{mark, definition_rest, array_rest, group_rest, parameter_group_rest, Want, report, GoesOn, IsStuck, Skips, AllGoesOn, AllIsStuck};
ghost use Rattle.pascal_read.specs.ParseWants as want;

use crate::parse_constant::constant;
use crate::parse_expect::{expect_name, expect_reserved, expect_symbol};
use crate::parse_fault::ParseFault;
use crate::parse_reader::Reader;
use pascal_tree::declaration::{
    Consts, Definition, Group, Heading, Kind, Names, ParameterGroup, Parameters, Vars,
};
use pascal_tree::leaf::Name;
use pascal_tree::{Reserved, Symbol};
use std::alloc::Global;

/// The heading of a program, where there is one.
pub fn heading(reader: &mut Reader) -> Result<Option<Heading>, ParseFault>
    ensures words { IfOk result (λ x. reader.old ≡ spelled_heading x ++ reader.new) }
    ensures goes { OnOk result (GoesOn want.heading reader.old reader.new) }
    ensures fault { (line : ℕ) → result ≡ Err (ParseFault.Syntax line)
        → IsStuck want.heading reader.old line }
{
    let Some(line) = reader.take_reserved(Reserved::Program) else {
        return Ok(None);
    };
    let name = expect_name(reader)?;
    let semicolon = expect_symbol(reader, Symbol::Semicolon)?;
    Ok(Some(Heading {
        line,
        name,
        semicolon,
    }))
}

// A definition whose name is read.
fn definition(reader: &mut Reader, name: Name) -> Result<Definition, ParseFault>
    ensures words { IfOk result
        (λ x. name_at name ∷ reader.old ≡ spelled_definition x ++ reader.new) }
    ensures goes { OnOk result (AllGoesOn (definition_rest []) reader.old reader.new) }
    ensures fault { (line : ℕ) → result ≡ Err (ParseFault.Syntax line)
        → AllIsStuck (definition_rest []) reader.old line }
{
    let equal = expect_symbol(reader, Symbol::Equal)?;
    let value = constant(reader)?;
    let semicolon = expect_symbol(reader, Symbol::Semicolon)?;
    Ok(Definition {
        name,
        equal,
        value,
        semicolon,
    })
}

/// The constants of a program or of a routine, where there are some.
pub fn consts(reader: &mut Reader, alloc: Global) -> Result<Option<Consts>, ParseFault>
    ensures words { IfOk result
        (λ x. reader.old ≡ spelled_consts (option_map seen_consts x) ++ reader.new) }
    ensures goes { OnOk result (GoesOn want.consts reader.old reader.new) }
    ensures fault { (line : ℕ) → result ≡ Err (ParseFault.Syntax line)
        → IsStuck want.consts reader.old line }
{
    let Some(line) = reader.take_reserved(Reserved::Const) else {
        return Ok(None);
    };
    let name = expect_name(reader)?;
    let first = definition(reader, name)?;
    let rest = more_definitions(reader, alloc)?;
    Ok(Some(Consts { line, first, rest }))
}

// The later definitions.
fn more_definitions(reader: &mut Reader, alloc: Global) -> Result<Vec<Definition>, ParseFault>
    ensures words { IfOk result (λ x. reader.old ≡ spelled_definitions x.items ++ reader.new) }
    ensures goes { OnOk result (GoesOn want.more_definitions reader.old reader.new) }
    ensures fault { (line : ℕ) → result ≡ Err (ParseFault.Syntax line)
        → IsStuck want.more_definitions reader.old line }
{
    let mut rest = Vec::new(alloc);
    while let Some(name) = reader.take_name() {
        let definition = definition(reader, name)?;
        rest.push(definition)?;
    }
    Ok(rest)
}

// Names of which the first is read.
fn names(reader: &mut Reader, alloc: Global, first: Name) -> Result<Names, ParseFault>
    ensures words { IfOk result
        (λ x. (x.first ≡ first) × (reader.old ≡ spelled_more_names x.rest.items ++ reader.new)) }
    ensures goes { OnOk result (GoesOn want.more_names reader.old reader.new) }
    ensures fault { (line : ℕ) → result ≡ Err (ParseFault.Syntax line)
        → IsStuck want.more_names reader.old line }
{
    let mut rest = Vec::new(alloc);
    while let Some(name) = next_name(reader)? {
        rest.push(name)?;
    }
    Ok(Names { first, rest })
}

// A comma and the name behind it, where a comma stands here.
fn next_name(reader: &mut Reader) -> Result<Option<(u32, Name)>, ParseFault>
    ensures words { IfOk result (λ found. MatchOption found (reader.old ≡ reader.new)
        (λ x. reader.old ≡ symbol_at Symbol.Comma x.0 ∷ name_at x.1 ∷ reader.new)) }
    ensures goes { IfOk result (λ found. MatchOption found (Skips want.more_names reader.old)
        (λ _. (rest : List Want) → report reader.old (want.more_names ∷ rest)
        ≡ report reader.new (want.more_names ∷ rest))) }
    ensures fault { (line : ℕ) → result ≡ Err (ParseFault.Syntax line)
        → IsStuck want.more_names reader.old line }
{
    let Some(line) = reader.take_symbol(Symbol::Comma) else {
        return Ok(None);
    };
    let later = expect_name(reader)?;
    Ok(Some((line, later)))
}

// A type.
fn kind(reader: &mut Reader) -> Result<Kind, ParseFault>
    ensures words { IfOk result (λ x. reader.old ≡ spelled_kind x ++ reader.new) }
    ensures goes { OnOk result (GoesOn want.kind reader.old reader.new) }
    ensures fault { (line : ℕ) → result ≡ Err (ParseFault.Syntax line)
        → IsStuck want.kind reader.old line }
{
    if let Some(name) = reader.take_name() {
        return Ok(Kind::Name(name));
    }
    match reader.take_reserved(Reserved::Array) {
        Some(line) => array(reader, line),
        None => Err(ParseFault::Syntax {
            line: reader.line(),
        }),
    }
}

// An array type whose ARRAY is read.
fn array(reader: &mut Reader, line: u32) -> Result<Kind, ParseFault>
    ensures words { IfOk result
        (λ x. reserved_at Reserved.Array line ∷ reader.old ≡ spelled_kind x ++ reader.new) }
    ensures goes { OnOk result (AllGoesOn array_rest reader.old reader.new) }
    ensures fault { (line : ℕ) → result ≡ Err (ParseFault.Syntax line)
        → AllIsStuck array_rest reader.old line }
{
    let opening = expect_symbol(reader, Symbol::OpenIndex)?;
    let low = constant(reader)?;
    let up_to = expect_symbol(reader, Symbol::UpTo)?;
    let high = constant(reader)?;
    let closing = expect_symbol(reader, Symbol::CloseIndex)?;
    let of = expect_reserved(reader, Reserved::Of)?;
    let element = expect_name(reader)?;
    Ok(Kind::Array {
        line,
        opening,
        low,
        up_to,
        high,
        closing,
        of,
        element,
    })
}

// A group of variables whose first name is read, with its semicolon.
fn group(reader: &mut Reader, alloc: Global, name: Name) -> Result<Group, ParseFault>
    ensures words { IfOk result
        (λ x. name_at name ∷ reader.old ≡ spelled_group (seen_group x) ++ reader.new) }
    ensures goes { OnOk result (AllGoesOn (group_rest []) reader.old reader.new) }
    ensures fault { (line : ℕ) → result ≡ Err (ParseFault.Syntax line)
        → AllIsStuck (group_rest []) reader.old line }
{
    let names = names(reader, alloc, name)?;
    let colon = expect_symbol(reader, Symbol::Colon)?;
    let kind = kind(reader)?;
    let semicolon = expect_symbol(reader, Symbol::Semicolon)?;
    Ok(Group {
        names,
        colon,
        kind,
        semicolon,
    })
}

/// The variables of a program or of a routine, where there are some.
pub fn vars(reader: &mut Reader, alloc: Global) -> Result<Option<Vars>, ParseFault>
    ensures words { IfOk result
        (λ x. reader.old ≡ spelled_vars (option_map seen_vars x) ++ reader.new) }
    ensures goes { OnOk result (GoesOn want.vars reader.old reader.new) }
    ensures fault { (line : ℕ) → result ≡ Err (ParseFault.Syntax line)
        → IsStuck want.vars reader.old line }
{
    let Some(line) = reader.take_reserved(Reserved::Var) else {
        return Ok(None);
    };
    let name = expect_name(reader)?;
    let first = group(reader, alloc, name)?;
    let rest = more_groups(reader, alloc)?;
    Ok(Some(Vars { line, first, rest }))
}

// The later groups of variables.
fn more_groups(reader: &mut Reader, alloc: Global) -> Result<Vec<Group>, ParseFault>
    ensures words { IfOk result
        (λ x. reader.old ≡ spelled_groups (map seen_group x.items) ++ reader.new) }
    ensures goes { OnOk result (GoesOn want.more_groups reader.old reader.new) }
    ensures fault { (line : ℕ) → result ≡ Err (ParseFault.Syntax line)
        → IsStuck want.more_groups reader.old line }
{
    let mut rest = Vec::new(alloc);
    while let Some(name) = reader.take_name() {
        let group = group(reader, alloc, name)?;
        rest.push(group)?;
    }
    Ok(rest)
}

// Parameters of one type.
fn parameter_group(reader: &mut Reader, alloc: Global) -> Result<ParameterGroup, ParseFault>
    ensures words { IfOk result
        (λ x. reader.old ≡ spelled_parameter_group (seen_parameter_group x) ++ reader.new) }
    ensures goes { OnOk result (GoesOn want.parameter_group reader.old reader.new) }
    ensures fault { (line : ℕ) → result ≡ Err (ParseFault.Syntax line)
        → IsStuck want.parameter_group reader.old line }
{
    let var = take_var(reader);
    let name = expect_name(reader)?;
    let names = names(reader, alloc, name)?;
    let colon = expect_symbol(reader, Symbol::Colon)?;
    let kind = expect_name(reader)?;
    Ok(ParameterGroup {
        var,
        names,
        colon,
        kind,
    })
}

// Takes VAR before the names of parameters, where it stands here, and gives its line.
fn take_var(reader: &mut Reader) -> Option<u32>
    ensures words { reader.old ≡ spelled_var result ++ reader.new }
    ensures goes { (rest : List Want) → report reader.old (want.parameter_group ∷ rest)
        ≡ report reader.new (want.name ∷ (parameter_group_rest ++ rest)) }
{
    let line = reader.take_reserved(Reserved::Var)?;
    Some(line)
}

/// The parameters of a routine, where there are some.
pub fn parameters(reader: &mut Reader, alloc: Global) -> Result<Option<Parameters>, ParseFault>
    ensures words { IfOk result
        (λ x. reader.old ≡ spelled_parameters (option_map seen_parameters x) ++ reader.new) }
    ensures goes { OnOk result (GoesOn want.parameters reader.old reader.new) }
    ensures fault { (line : ℕ) → result ≡ Err (ParseFault.Syntax line)
        → IsStuck want.parameters reader.old line }
{
    let Some(opening) = reader.take_symbol(Symbol::Open) else {
        return Ok(None);
    };
    let parameters = opened_parameters(reader, alloc, opening)?;
    Ok(Some(parameters))
}

// Parameters whose opening parenthesis is read.
fn opened_parameters(
    reader: &mut Reader,
    alloc: Global,
    opening: u32,
) -> Result<Parameters, ParseFault>
    ensures words { IfOk result (λ x. symbol_at Symbol.Open opening ∷ reader.old
        ≡ spelled_parameters (Some (seen_parameters x)) ++ reader.new) }
    ensures goes { OnOk result (AllGoesOn
        (want.parameter_group ∷ want.more_parameters ∷ mark Symbol.Close ∷ [])
        reader.old reader.new) }
    ensures fault { (line : ℕ) → result ≡ Err (ParseFault.Syntax line) → AllIsStuck
        (want.parameter_group ∷ want.more_parameters ∷ mark Symbol.Close ∷ []) reader.old line }
{
    let first = parameter_group(reader, alloc)?;
    let rest = more_parameters(reader, alloc)?;
    let closing = expect_symbol(reader, Symbol::Close)?;
    Ok(Parameters {
        opening,
        first,
        rest,
        closing,
    })
}

// The later groups of parameters, each behind its semicolon.
fn more_parameters(
    reader: &mut Reader,
    alloc: Global,
) -> Result<Vec<(u32, ParameterGroup)>, ParseFault>
    ensures words { IfOk result
        (λ x. reader.old
        ≡ spelled_parameter_groups (map (λ g. (g.0, seen_parameter_group g.1)) x.items)
        ++ reader.new) }
    ensures goes { OnOk result (GoesOn want.more_parameters reader.old reader.new) }
    ensures fault { (line : ℕ) → result ≡ Err (ParseFault.Syntax line)
        → IsStuck want.more_parameters reader.old line }
{
    let mut rest = Vec::new(alloc);
    while let Some(line) = reader.take_symbol(Symbol::Semicolon) {
        let group = parameter_group(reader, alloc)?;
        rest.push((line, group))?;
    }
    Ok(rest)
}
