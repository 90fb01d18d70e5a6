// The words of a constant, and of the labels of a branch.

ghost use Rattle.std.specs.Prelude.{◌≡◌, ◌++◌, OnOk};
ghost use Rattle.pascal_tree.specs.SpellConstant.{spelled_constant, spelled_more_labels, spelled_labels};
ghost use Rattle.pascal_tree.specs.SeenStatement.{seen_labels};

use crate::constant::{Constant, Labels};
use crate::spell_expression::{push_character, push_name, push_number, push_symbol};
use crate::token::{Symbol, Token};
use solo_base::NoMemory;

pub fn spell_constant(out: &mut Vec<Token>, constant: &Constant) -> Result<(), NoMemory>
    ensures { OnOk result (out.new.items ≡ out.old.items ++ spelled_constant constant.now) }
{
    match constant {
        Constant::Name(name) => push_name(out, name),
        Constant::Number(number) => push_number(out, number),
        Constant::Negative(line, number) => {
            push_symbol(out, Symbol::Minus, *line)?;
            push_number(out, number)?;
            Ok(())
        }
        Constant::Character(character) => push_character(out, character),
    }
}

pub fn spell_labels(out: &mut Vec<Token>, labels: &Labels) -> Result<(), NoMemory>
    ensures { OnOk result (out.new.items ≡ out.old.items ++ spelled_labels (seen_labels labels.now)) }
{
    spell_constant(out, &labels.first)?;
    spell_more_labels(out, &labels.rest)?;
    Ok(())
}

fn spell_more_labels(out: &mut Vec<Token>, labels: &[(u32, Constant)]) -> Result<(), NoMemory>
    ensures { OnOk result (out.new.items ≡ out.old.items ++ spelled_more_labels labels.now) }
{
    for (line, label) in labels {
        push_symbol(out, Symbol::Comma, *line)?;
        spell_constant(out, label)?;
    }
    Ok(())
}
