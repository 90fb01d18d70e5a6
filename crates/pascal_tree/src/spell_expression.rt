// The words of an expression.

ghost use Rattle.std.specs.Prelude.{◌≡◌, [], ◌∷◌, ◌++◌, OnOk};
ghost use Rattle.pascal_tree.specs.Word.{Spot};
ghost use Rattle.pascal_tree.specs.SeenExpression.{seen_expr, seen_comparison, seen_simple, seen_term, seen_factor, seen_index, seen_arguments, seen_addends, seen_multipliers, seen_exprs};
ghost use Rattle.pascal_tree.specs.SpellExpression.{spelled_sign, spelled_expr, spelled_right, spelled_simple, spelled_addends, spelled_term, spelled_multipliers, spelled_factor, spelled_exprs, spelled_index, spelled_arguments, symbol_at, reserved_at, name_at, number_at, character_at, adding_word, multiplying_word, relation_symbol};

use crate::expression::{
    Adding, Arguments, Comparison, Expr, Factor, Index, Multiplying, Relation, Sign, Simple, Term,
};
use crate::leading_sign::LeadingSign;
use crate::leaf::{Character, Name, Number};
use crate::token::{Reserved, Symbol, Token, Word};
use solo_base::NoMemory;

pub fn push_symbol(out: &mut Vec<Token>, symbol: Symbol, line: u32) -> Result<(), NoMemory>
    ensures { OnOk result (out.new.items ≡ out.old.items ++ symbol_at symbol line ∷ []) }
{
    out.push(Token {
        word: Word::Symbol(symbol),
        line,
    })?;
    Ok(())
}

pub fn push_reserved(out: &mut Vec<Token>, reserved: Reserved, line: u32) -> Result<(), NoMemory>
    ensures { OnOk result (out.new.items ≡ out.old.items ++ reserved_at reserved line ∷ []) }
{
    out.push(Token {
        word: Word::Reserved(reserved),
        line,
    })?;
    Ok(())
}

fn push_adding(out: &mut Vec<Token>, adding: Adding, line: u32) -> Result<(), NoMemory>
    ensures { OnOk result (out.new.items
        ≡ out.old.items ++ record { word = adding_word adding; line = line } ∷ []) }
{
    match adding {
        Adding::Plus => push_symbol(out, Symbol::Plus, line),
        Adding::Minus => push_symbol(out, Symbol::Minus, line),
        Adding::Or => push_reserved(out, Reserved::Or, line),
    }
}

fn push_multiplying(
    out: &mut Vec<Token>,
    multiplying: Multiplying,
    line: u32,
) -> Result<(), NoMemory>
    ensures { OnOk result (out.new.items
        ≡ out.old.items ++ record { word = multiplying_word multiplying; line = line } ∷ []) }
{
    match multiplying {
        Multiplying::Times => push_symbol(out, Symbol::Times, line),
        Multiplying::Div => push_reserved(out, Reserved::Div, line),
        Multiplying::Mod => push_reserved(out, Reserved::Mod, line),
        Multiplying::And => push_symbol(out, Symbol::And, line),
    }
}

fn push_sign(out: &mut Vec<Token>, sign: &LeadingSign) -> Result<(), NoMemory>
    ensures { OnOk result (out.new.items ≡ out.old.items ++ spelled_sign sign.now) }
{
    match sign.get() {
        None => Ok(()),
        Some((Sign::Plus, line)) => push_symbol(out, Symbol::Plus, line),
        Some((Sign::Minus, line)) => push_symbol(out, Symbol::Minus, line),
    }
}

fn symbol_of(relation: Relation) -> Symbol
    ensures { result ≡ relation_symbol relation }
{
    match relation {
        Relation::Equal => Symbol::Equal,
        Relation::NotEqual => Symbol::NotEqual,
        Relation::Less => Symbol::Less,
        Relation::Greater => Symbol::Greater,
        Relation::LessOrEqual => Symbol::LessOrEqual,
        Relation::GreaterOrEqual => Symbol::GreaterOrEqual,
    }
}

pub fn push_name(out: &mut Vec<Token>, name: &Name) -> Result<(), NoMemory>
    ensures { OnOk result (out.new.items ≡ out.old.items ++ name_at name.now ∷ []) }
{
    out.push(Token {
        word: Word::Name(name.letters.copy()?),
        line: name.line,
    })?;
    Ok(())
}

pub fn push_number(out: &mut Vec<Token>, number: &Number) -> Result<(), NoMemory>
    ensures { OnOk result (out.new.items ≡ out.old.items ++ number_at number.now ∷ []) }
{
    out.push(Token {
        word: Word::Number(number.value),
        line: number.line,
    })?;
    Ok(())
}

pub fn push_character(out: &mut Vec<Token>, character: &Character) -> Result<(), NoMemory>
    ensures { OnOk result (out.new.items ≡ out.old.items ++ character_at character.now ∷ []) }
{
    out.push(Token {
        word: Word::Character(character.code),
        line: character.line,
    })?;
    Ok(())
}

#[cycle(spell_expression)]
pub fn spell_expr(out: &mut Vec<Token>, expr: &Expr) -> Result<(), NoMemory>
    ensures { OnOk result (out.new.items ≡ out.old.items ++ spelled_expr (seen_expr expr.now)) }
{
    spell_simple(out, &expr.left)?;
    match &expr.right {
        None => Ok(()),
        Some(comparison) => spell_comparison(out, comparison),
    }
}

#[cycle(spell_expression)]
fn spell_comparison(out: &mut Vec<Token>, comparison: &Comparison) -> Result<(), NoMemory>
    ensures { OnOk result (out.new.items
        ≡ out.old.items ++ spelled_right (seen_comparison comparison.now)) }
{
    push_symbol(out, symbol_of(comparison.relation), comparison.line)?;
    spell_simple(out, &comparison.right)
}

#[cycle(spell_expression)]
fn spell_simple(out: &mut Vec<Token>, simple: &Simple) -> Result<(), NoMemory>
    ensures { OnOk result (out.new.items
        ≡ out.old.items ++ spelled_simple (seen_simple simple.now)) }
{
    push_sign(out, &simple.sign)?;
    spell_term(out, &simple.first)?;
    spell_addends(out, &simple.rest)?;
    Ok(())
}

#[cycle(spell_expression)]
fn spell_addends(out: &mut Vec<Token>, addends: &[(Adding, u32, Term)]) -> Result<(), NoMemory>
    ensures { OnOk result (out.new.items
        ≡ out.old.items ++ spelled_addends (seen_addends addends.now)) }
{
    for (adding, line, term) in addends {
        push_adding(out, *adding, *line)?;
        spell_term(out, term)?;
    }
    Ok(())
}

#[cycle(spell_expression)]
fn spell_term(out: &mut Vec<Token>, term: &Term) -> Result<(), NoMemory>
    ensures { OnOk result (out.new.items ≡ out.old.items ++ spelled_term (seen_term term.now)) }
{
    spell_factor(out, &term.first)?;
    spell_multipliers(out, &term.rest)
}

#[cycle(spell_expression)]
fn spell_multipliers(
    out: &mut Vec<Token>,
    multipliers: &[(Multiplying, u32, Factor)],
) -> Result<(), NoMemory>
    ensures { OnOk result (out.new.items
        ≡ out.old.items ++ spelled_multipliers (seen_multipliers multipliers.now)) }
{
    for (multiplying, line, factor) in multipliers {
        push_multiplying(out, *multiplying, *line)?;
        spell_factor(out, factor)?;
    }
    Ok(())
}

#[cycle(spell_expression)]
fn spell_factor(out: &mut Vec<Token>, factor: &Factor) -> Result<(), NoMemory>
    ensures { OnOk result (out.new.items
        ≡ out.old.items ++ spelled_factor (seen_factor factor.now)) }
{
    match factor {
        Factor::Number(number) => push_number(out, number),
        Factor::Character(character) => push_character(out, character),
        Factor::Name(name) => push_name(out, name),
        Factor::Element(name, index) => {
            push_name(out, name)?;
            spell_index(out, index)
        }
        Factor::Call(name, arguments) => {
            push_name(out, name)?;
            spell_arguments(out, arguments)
        }
        Factor::Group {
            opening,
            inner,
            closing,
        } => {
            push_symbol(out, Symbol::Open, *opening)?;
            spell_expr(out, inner)?;
            push_symbol(out, Symbol::Close, *closing)
        }
        Factor::Not { line, operand } => {
            push_reserved(out, Reserved::Not, *line)?;
            spell_factor(out, operand)
        }
    }
}

#[cycle(spell_expression)]
pub fn spell_index(out: &mut Vec<Token>, index: &Index) -> Result<(), NoMemory>
    ensures { OnOk result (out.new.items
        ≡ out.old.items ++ spelled_index (seen_index index.now)) }
{
    push_symbol(out, Symbol::OpenIndex, index.opening)?;
    spell_expr(out, &index.place)?;
    push_symbol(out, Symbol::CloseIndex, index.closing)
}

#[cycle(spell_expression)]
pub fn spell_arguments(out: &mut Vec<Token>, arguments: &Arguments) -> Result<(), NoMemory>
    ensures { OnOk result (out.new.items
        ≡ out.old.items ++ spelled_arguments (seen_arguments arguments.now)) }
{
    push_symbol(out, Symbol::Open, arguments.opening)?;
    spell_expr(out, &arguments.first)?;
    spell_exprs(out, &arguments.rest)?;
    push_symbol(out, Symbol::Close, arguments.closing)?;
    Ok(())
}

#[cycle(spell_expression)]
fn spell_exprs(out: &mut Vec<Token>, exprs: &[(u32, Expr)]) -> Result<(), NoMemory>
    ensures { OnOk result (out.new.items
        ≡ out.old.items ++ spelled_exprs (seen_exprs exprs.now)) }
{
    for (line, expr) in exprs {
        push_symbol(out, Symbol::Comma, *line)?;
        spell_expr(out, expr)?;
    }
    Ok(())
}
