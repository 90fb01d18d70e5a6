// What each operator and each standard function gives.

ghost use Rattle.std.specs.Prelude.{◌≡◌, ◌&&◌, int_le};
ghost use Rattle.solo_base.specs.Arithmetic.{fit, product, quotient, remainder, truth};
ghost use Rattle.pascal_mean.specs.Situation.{Situation, number_or_overflow};
ghost use Rattle.pascal_mean.specs.Values.{compared_values, added, multiplied, signed, standard_value, within};
ghost use Rattle.pascal_evaluate.specs.SeenNames.{seen_standard, seen_bounds};
ghost use Rattle.pascal_evaluate.specs.Ran.{Ran};

use crate::means::{Bounds, Standard};
use crate::stop::Stop;
use pascal_tree::expression::{Adding, Multiplying, Relation, Sign};
use solo_base::ProgResult;

/// 1 where the relation holds, else 0.
pub fn compared(relation: Relation, left: i16, right: i16) -> i16
    ensures { result ≡ compared_values relation left right }
{
    match relation {
        Relation::Equal => truth(left == right),
        Relation::NotEqual => truth(left != right),
        Relation::Less => truth(left < right),
        Relation::Greater => truth(left > right),
        Relation::LessOrEqual => truth(left <= right),
        Relation::GreaterOrEqual => truth(left >= right),
    }
}

/// The sum, the difference or the disjunction; `None` is an overflow.
pub fn added(adding: Adding, left: i16, right: i16) -> Option<i16>
    ensures { result ≡ added adding left right }
{
    match adding {
        Adding::Plus => fit(i32::from(left) + i32::from(right)),
        Adding::Minus => fit(i32::from(left) - i32::from(right)),
        Adding::Or => Some(truth(left != 0 || right != 0)),
    }
}

/// The product, the quotient, the rest or the conjunction; `None` is an overflow.
pub fn multiplied(multiplying: Multiplying, left: i16, right: i16) -> Option<i16>
    ensures { result ≡ multiplied multiplying left right }
{
    match multiplying {
        Multiplying::Times => product(left, right),
        Multiplying::Div => quotient(left, right),
        Multiplying::Mod => remainder(left, right),
        Multiplying::And => Some(truth(left != 0 && right != 0)),
    }
}

/// The value behind a sign; `None` is an overflow.
pub fn signed(sign: Sign, value: i16) -> Option<i16>
    ensures { result ≡ signed sign value }
{
    match sign {
        Sign::Plus => Some(value),
        Sign::Minus => fit(-i32::from(value)),
    }
}

/// The value of a standard function.
pub fn standard(function: Standard, value: i16) -> Result<i16, Stop>
    ensures { (now : Situation) → Ran (standard_value (seen_standard function) value now) result now }
{
    match function {
        Standard::Abs => number_or_overflow(fit(i32::from(value).abs())),
        Standard::Succ => number_or_overflow(fit(i32::from(value) + 1)),
        Standard::Pred => number_or_overflow(fit(i32::from(value) - 1)),
        Standard::Ord => Ok(value),
        Standard::Chr => within(Bounds { low: 0, high: 127 }, value),
    }
}

/// An index within its bounds, or a range error.
pub fn within(bounds: Bounds, value: i16) -> Result<i16, Stop>
    ensures { (now : Situation) → Ran (within (seen_bounds bounds) value now) result now }
{
    if is_within(bounds, value) {
        Ok(value)
    } else {
        Err(Stop::Over(ProgResult::RangeError))
    }
}

fn is_within(bounds: Bounds, value: i16) -> bool
    ensures { result ≡ (int_le bounds.low value && int_le value bounds.high) }
{
    bounds.low <= value && value <= bounds.high
}

/// A number, or an overflow.
pub fn number_or_overflow(number: Option<i16>) -> Result<i16, Stop>
    ensures { (now : Situation) → Ran (number_or_overflow number now) result now }
{
    match number {
        Some(number) => Ok(number),
        None => Err(Stop::Over(ProgResult::Overflow)),
    }
}

/// 1 for true, 0 for false.
pub fn truth(holds: bool) -> i16
    ensures { result ≡ truth holds }
{
    i16::from(holds)
}

fn product(left: i16, right: i16) -> Option<i16>
    ensures { result ≡ product left right }
{
    fit(i32::from(left) * i32::from(right))
}

// The quotient, towards zero; by zero there is none.
fn quotient(left: i16, right: i16) -> Option<i16>
    ensures { result ≡ quotient left right }
{
    if right == 0 {
        return None;
    }
    fit(i32::from(left) / i32::from(right))
}

// The remainder, with the sign of the dividend; by zero there is none.
fn remainder(left: i16, right: i16) -> Option<i16>
    ensures { result ≡ remainder left right }
{
    if right == 0 {
        return None;
    }
    Some((i32::from(left) % i32::from(right)) as i16)
}

// The number as a word, if it is one.
fn fit(number: i32) -> Option<i16>
    ensures { result ≡ fit number }
{
    i16::try_from(number).ok()
}
