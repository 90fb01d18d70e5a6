// The types on the sides of operators.
#![tactic(auto, using(crate::proofs::Firsts::firsts))]

ghost use Rattle.std.specs.Prelude.{◌≡◌, ◌&&◌, not, None, Some, IfOk, OnOk, IfErr};
ghost use Rattle.pascal_tree.specs.Scopes.{or_else, same_scalar};
ghost use Rattle.pascal_tree.specs.ExpressionRules.{signed_type, judged_sign, breaks};
ghost use Rattle.pascal_tree.specs.DeclarationRules.{first_broken};

use crate::types::is_same;
use pascal_tree::{Broken, LeadingSign, Scalar};

/// What was read of a row of operands: its type so far, and the first operator in it whose operands
/// have another type than it wants.
#[derive(Drop)]
pub struct Operands {
    pub type_: Scalar,
    pub clash: Option<Broken>,
}

impl Operands {
    /// A first operand of this type.
    pub fn first(type_: Scalar) -> Operands
        ensures typed { result.type_ ≡ type_ }
        ensures clash { result.clash ≡ None }
    {
        Operands { type_, clash: None }
    }

    /// A first operand of this type behind a sign.
    pub fn signed(sign: &LeadingSign, type_: Scalar) -> Operands
        ensures typed { signed_type sign.now (Some type_) ≡ Some result.type_ }
        ensures clash { first_broken (judged_sign sign.now (Some type_)) ≡ result.clash }
    {
        let Some((_, line)) = sign.get() else {
            return Operands::first(type_);
        };
        Operands {
            type_: Scalar::Integer,
            clash: clash(line, is_same(type_, Scalar::Integer)),
        }
    }

    /// One operand more, behind an operator on this line that wants a type on both sides.
    pub fn push(&mut self, wanted: Scalar, line: u32, right: Scalar)
        ensures typed { self.new.type_ ≡ wanted }
        ensures clash { self.new.clash ≡ or_else self.old.clash
            (breaks 8 (not (same_scalar self.old.type_ wanted && same_scalar right wanted)) line) }
    {
        if self.clash.is_none() {
            self.clash = clash(line, is_same(self.type_, wanted) && is_same(right, wanted));
        }
        self.type_ = wanted;
    }

    /// The type of the whole, where all operands suit.
    pub fn whole(&self) -> Result<Scalar, Broken>
        ensures ok { OnOk result (self.now.clash ≡ None) }
        ensures typed { IfOk result (λ t. t ≡ self.now.type_) }
        ensures broken { IfErr result (λ b. self.now.clash ≡ Some b) }
    {
        match self.clash {
            None => Ok(self.type_),
            Some(broken) => Err(broken),
        }
    }
}

// What an operator on this line breaks, whose operands suit or don't.
fn clash(line: u32, suit: bool) -> Option<Broken>
    ensures { result ≡ breaks 8 (not suit) line }
{
    if suit {
        None
    } else {
        Some(Broken { rule: 8, line })
    }
}
