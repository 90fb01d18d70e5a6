// Routines and whole programs, read by descent.
#![tactic(auto, using(crate::proofs::ParseDeclarationRows::declaration_rows))]

ghost use Rattle.std.specs.Prelude.{◌≡◌, ℕ, List, [], ◌∷◌, ◌++◌, Some, Err, IfOk, OnOk, IfSome, MatchOption, map};
ghost use Rattle.pascal_tree.specs.SeenProgram.{seen_block, seen_routine, seen_program};
ghost use Rattle.pascal_tree.specs.SpellExpression.{reserved_at};
ghost use Rattle.pascal_tree.specs.SpellProgram.{spelled_block, spelled_routine, spelled_routines, spelled};
ghost use Rattle.pascal_tree.specs.Limits.{BodyFits, RoutineFits, RoutinesFit};
ghost use Rattle.pascal_read.specs.ParseWants.{block_wants, procedure_rest, function_rest, program_wants, report, Want, GoesOn, IsStuck, Skips, AllGoesOn, AllIsStuck};
ghost use Rattle.pascal_read.specs.ParseWants as want;

use crate::parse_declaration::{consts, heading, parameters, vars};
use crate::parse_expect::{expect_name, expect_symbol};
use crate::parse_fault::ParseFault;
use crate::parse_reader::Reader;
use crate::parse_statement::body;
use pascal_tree::declaration::{Block, Program, Routine};
use pascal_tree::{Reserved, Symbol};
use std::alloc::Global;

/// A whole program, with its end token.
pub fn program(reader: &mut Reader, alloc: Global) -> Result<Program, ParseFault>
    ensures words { IfOk result (λ x. reader.old ≡ spelled (seen_program x) ++ reader.new) }
    ensures routines { IfOk result (λ x. RoutinesFit (seen_program x).routines) }
    ensures body { IfOk result (λ x. BodyFits (seen_program x).body 64) }
    ensures goes { OnOk result (report reader.old program_wants ≡ report reader.new []) }
    ensures fault { (line : ℕ) → result ≡ Err (ParseFault.Syntax line)
        → report reader.old program_wants ≡ Some line }
{
    let heading = heading(reader)?;
    let consts = consts(reader, alloc)?;
    let vars = vars(reader, alloc)?;
    let routines = routines(reader, alloc)?;
    let body = body(reader, alloc)?;
    let period = expect_symbol(reader, Symbol::Period)?;
    let Some(end) = reader.take_end() else {
        return Err(ParseFault::Syntax {
            line: reader.line(),
        });
    };
    Ok(Program {
        heading,
        consts,
        vars,
        routines,
        body,
        period,
        end,
    })
}

// All routines that stand here.
fn routines(reader: &mut Reader, alloc: Global) -> Result<Vec<Routine>, ParseFault>
    ensures words { IfOk result
        (λ x. reader.old ≡ spelled_routines (map seen_routine x.items) ++ reader.new) }
    ensures fits { IfOk result (λ x. RoutinesFit (map seen_routine x.items)) }
    ensures goes { OnOk result (GoesOn want.routines reader.old reader.new) }
    ensures fault { (line : ℕ) → result ≡ Err (ParseFault.Syntax line)
        → IsStuck want.routines reader.old line }
{
    let mut routines = Vec::new(alloc);
    while let Some(routine) = next_routine(reader, alloc)? {
        routines.push(routine)?;
    }
    Ok(routines)
}

// A routine, where one begins here.
fn next_routine(reader: &mut Reader, alloc: Global) -> Result<Option<Routine>, ParseFault>
    ensures words { IfOk result (λ found. MatchOption found (reader.old ≡ reader.new)
        (λ x. reader.old ≡ spelled_routine (seen_routine x) ++ reader.new)) }
    ensures fits { IfOk result (λ found. IfSome found (λ x. RoutineFits (seen_routine x))) }
    ensures goes { IfOk result (λ found. MatchOption found (Skips want.routines reader.old)
        (λ _. (rest : List Want) → report reader.old (want.routines ∷ rest)
        ≡ report reader.new (want.routines ∷ rest))) }
    ensures fault { (line : ℕ) → result ≡ Err (ParseFault.Syntax line)
        → IsStuck want.routines reader.old line }
{
    if let Some(line) = reader.take_reserved(Reserved::Procedure) {
        return Ok(Some(procedure(reader, alloc, line)?));
    }
    if let Some(line) = reader.take_reserved(Reserved::Function) {
        return Ok(Some(function(reader, alloc, line)?));
    }
    Ok(None)
}

// A procedure whose PROCEDURE is read.
fn procedure(reader: &mut Reader, alloc: Global, line: u32) -> Result<Routine, ParseFault>
    ensures words { IfOk result (λ x. reserved_at Reserved.Procedure line ∷ reader.old
        ≡ spelled_routine (seen_routine x) ++ reader.new) }
    ensures fits { IfOk result (λ x. RoutineFits (seen_routine x)) }
    ensures goes { OnOk result (AllGoesOn procedure_rest reader.old reader.new) }
    ensures fault { (line : ℕ) → result ≡ Err (ParseFault.Syntax line)
        → AllIsStuck procedure_rest reader.old line }
{
    let name = expect_name(reader)?;
    let parameters = parameters(reader, alloc)?;
    let semicolon = expect_symbol(reader, Symbol::Semicolon)?;
    let block = block(reader, alloc)?;
    let end = expect_symbol(reader, Symbol::Semicolon)?;
    Ok(Routine::Procedure {
        line,
        name,
        parameters,
        semicolon,
        block,
        end,
    })
}

// A function whose FUNCTION is read.
fn function(reader: &mut Reader, alloc: Global, line: u32) -> Result<Routine, ParseFault>
    ensures words { IfOk result (λ x. reserved_at Reserved.Function line ∷ reader.old
        ≡ spelled_routine (seen_routine x) ++ reader.new) }
    ensures fits { IfOk result (λ x. RoutineFits (seen_routine x)) }
    ensures goes { OnOk result (AllGoesOn function_rest reader.old reader.new) }
    ensures fault { (line : ℕ) → result ≡ Err (ParseFault.Syntax line)
        → AllIsStuck function_rest reader.old line }
{
    let name = expect_name(reader)?;
    let parameters = parameters(reader, alloc)?;
    let colon = expect_symbol(reader, Symbol::Colon)?;
    let answer = expect_name(reader)?;
    let semicolon = expect_symbol(reader, Symbol::Semicolon)?;
    let block = block(reader, alloc)?;
    let end = expect_symbol(reader, Symbol::Semicolon)?;
    Ok(Routine::Function {
        line,
        name,
        parameters,
        colon,
        answer,
        semicolon,
        block,
        end,
    })
}

// The constants, the variables and the statements of a routine.
fn block(reader: &mut Reader, alloc: Global) -> Result<Block, ParseFault>
    ensures words { IfOk result (λ x. reader.old ≡ spelled_block (seen_block x) ++ reader.new) }
    ensures fits { IfOk result (λ x. BodyFits (seen_block x).body 64) }
    ensures goes { OnOk result (AllGoesOn block_wants reader.old reader.new) }
    ensures fault { (line : ℕ) → result ≡ Err (ParseFault.Syntax line)
        → AllIsStuck block_wants reader.old line }
{
    let consts = consts(reader, alloc)?;
    let vars = vars(reader, alloc)?;
    let body = body(reader, alloc)?;
    Ok(Block { consts, vars, body })
}
