// Words that have to stand at a place.
#![tactic(auto, using(crate::proofs::ParseDeclarationRows::declaration_rows))]

ghost use Rattle.std.specs.Prelude.{◌≡◌, ℕ, ◌-◌, ◌≤◌, ◌<◌, ◌∷◌, Err, IfOk, OnOk};
ghost use Rattle.pascal_tree.specs.SpellExpression.{name_at, number_at, symbol_at, reserved_at};
ghost use Rattle.pascal_read.specs.ParseWants.{reserved_word, mark, GoesOn, IsStuck};
ghost use Rattle.pascal_read.specs.ParseWants as want;

use crate::parse_fault::ParseFault;
use crate::parse_reader::Reader;
use pascal_tree::leaf::{Name, Number};
use pascal_tree::{Reserved, Symbol};

/// The levels that factors and statements have.
pub const LEVELS: usize = 64;

/// The levels that are left inside what begins on this line.
pub fn within(levels: usize, line: u32) -> Result<usize, ParseFault>
    ensures inner { IfOk result (λ inner. (2 ≤ levels) × (inner ≡ levels - 1)) }
    ensures none { (at : ℕ) → result ≡ Err (ParseFault.Syntax at)
        → (levels < 2) × (at ≡ line) }
{
    if levels < 2 {
        return Err(ParseFault::Syntax { line });
    }
    Ok(levels - 1)
}

/// Takes a symbol that has to stand here, and gives its line.
pub fn expect_symbol(reader: &mut Reader, symbol: Symbol) -> Result<u32, ParseFault>
    ensures taken { IfOk result (λ line. reader.old ≡ symbol_at symbol line ∷ reader.new) }
    ensures goes { OnOk result (GoesOn (mark symbol) reader.old reader.new) }
    ensures fault { (line : ℕ) → result ≡ Err (ParseFault.Syntax line)
        → IsStuck (mark symbol) reader.old line }
{
    match reader.take_symbol(symbol) {
        Some(line) => Ok(line),
        None => Err(ParseFault::Syntax {
            line: reader.line(),
        }),
    }
}

/// Takes a reserved word that has to stand here, and gives its line.
pub fn expect_reserved(reader: &mut Reader, reserved: Reserved) -> Result<u32, ParseFault>
    ensures taken { IfOk result (λ line. reader.old ≡ reserved_at reserved line ∷ reader.new) }
    ensures goes { OnOk result (GoesOn (reserved_word reserved) reader.old reader.new) }
    ensures fault { (line : ℕ) → result ≡ Err (ParseFault.Syntax line)
        → IsStuck (reserved_word reserved) reader.old line }
{
    match reader.take_reserved(reserved) {
        Some(line) => Ok(line),
        None => Err(ParseFault::Syntax {
            line: reader.line(),
        }),
    }
}

/// Takes a name that has to stand here.
pub fn expect_name(reader: &mut Reader) -> Result<Name, ParseFault>
    ensures taken { IfOk result (λ name. reader.old ≡ name_at name ∷ reader.new) }
    ensures goes { OnOk result (GoesOn want.name reader.old reader.new) }
    ensures fault { (line : ℕ) → result ≡ Err (ParseFault.Syntax line)
        → IsStuck want.name reader.old line }
{
    match reader.take_name() {
        Some(name) => Ok(name),
        None => Err(ParseFault::Syntax {
            line: reader.line(),
        }),
    }
}

/// Takes a number that has to stand here.
pub fn expect_number(reader: &mut Reader) -> Result<Number, ParseFault>
    ensures taken { IfOk result (λ number. reader.old ≡ number_at number ∷ reader.new) }
    ensures goes { OnOk result (GoesOn want.number reader.old reader.new) }
    ensures fault { (line : ℕ) → result ≡ Err (ParseFault.Syntax line)
        → IsStuck want.number reader.old line }
{
    match reader.take_number() {
        Some(number) => Ok(number),
        None => Err(ParseFault::Syntax {
            line: reader.line(),
        }),
    }
}
