// Constants, and the labels of a branch.
#![tactic(auto, using(crate::proofs::ParseDeclarationRows::declaration_rows, crate::proofs::ParseStatementRows::label_rows))]

ghost use Rattle.std.specs.Prelude.{◌≡◌, ℕ, [], ◌∷◌, ◌++◌, Err, IfOk, OnOk};
ghost use Rattle.pascal_tree.specs.SeenStatement.{seen_labels};
ghost use Rattle.pascal_tree.specs.SpellConstant.{spelled_constant, spelled_more_labels, spelled_labels};
ghost use Rattle.pascal_read.specs.ParseWants.{GoesOn, IsStuck, AllGoesOn, AllIsStuck};
ghost use Rattle.pascal_read.specs.ParseWants as want;

use crate::parse_expect::expect_number;
use crate::parse_fault::ParseFault;
use crate::parse_reader::Reader;
use pascal_tree::Symbol;
use pascal_tree::constant::{Constant, Labels};
use std::alloc::Global;

/// A name, a number with a minus or without, or a character.
pub fn constant(reader: &mut Reader) -> Result<Constant, ParseFault>
    ensures words { IfOk result (λ x. reader.old ≡ spelled_constant x ++ reader.new) }
    ensures goes { OnOk result (GoesOn want.constant reader.old reader.new) }
    ensures fault { (line : ℕ) → result ≡ Err (ParseFault.Syntax line)
        → IsStuck want.constant reader.old line }
{
    if let Some(name) = reader.take_name() {
        return Ok(Constant::Name(name));
    }
    if let Some(number) = reader.take_number() {
        return Ok(Constant::Number(number));
    }
    if let Some(line) = reader.take_symbol(Symbol::Minus) {
        let number = expect_number(reader)?;
        return Ok(Constant::Negative(line, number));
    }
    match reader.take_character() {
        Some(character) => Ok(Constant::Character(character)),
        None => Err(ParseFault::Syntax {
            line: reader.line(),
        }),
    }
}

/// The labels of a branch.
pub fn labels(reader: &mut Reader, alloc: Global) -> Result<Labels, ParseFault>
    ensures words { IfOk result (λ x. reader.old ≡ spelled_labels (seen_labels x) ++ reader.new) }
    ensures goes { OnOk result
        (AllGoesOn (want.constant ∷ want.more_labels ∷ []) reader.old reader.new) }
    ensures fault { (line : ℕ) → result ≡ Err (ParseFault.Syntax line)
        → AllIsStuck (want.constant ∷ want.more_labels ∷ []) reader.old line }
{
    let first = constant(reader)?;
    let rest = more_labels(reader, alloc)?;
    Ok(Labels { first, rest })
}

// The later labels, each behind its comma.
fn more_labels(reader: &mut Reader, alloc: Global) -> Result<Vec<(u32, Constant)>, ParseFault>
    ensures words { IfOk result (λ x. reader.old ≡ spelled_more_labels x.items ++ reader.new) }
    ensures goes { OnOk result (GoesOn want.more_labels reader.old reader.new) }
    ensures fault { (line : ℕ) → result ≡ Err (ParseFault.Syntax line)
        → IsStuck want.more_labels reader.old line }
{
    let mut rest = Vec::new(alloc);
    while let Some(line) = reader.take_symbol(Symbol::Comma) {
        let label = constant(reader)?;
        rest.push((line, label))?;
    }
    Ok(rest)
}
