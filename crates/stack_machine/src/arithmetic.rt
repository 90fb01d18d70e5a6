ghost use Rattle.std.specs.Prelude.{◌≡◌, ◌<◌, ◌∷◌, [], ℤ, pos, ◌+ℤ◌, ◌≤ℤ◌, negsuc, IfSome, IfNone, MatchOption, length};
ghost use Rattle.stack_machine.specs.State.{outcome, stop};
ghost use Rattle.solo_base.specs.Arithmetic.{fit, sum, difference, product, quotient, remainder, truth, holds};
ghost use Rattle.stack_machine.specs.Effects.{replace, unary, binary, index, chr};
ghost use Rattle.stack_machine.specs.Operators.{binary_of, unary_of};
ghost use Rattle.stack_machine.specs.Shown.{shown, rooms};

use crate::state::{Step, Store};
use solo_base::ProgResult;
use stack_code::Op;

impl Store {
    /// Ends the program with this result, in the activation's line.
    pub(crate) fn stop(&self, result_of: ProgResult) -> Step
        ensures { outcome result (shown self.now) ≡ stop (shown self.now) result_of }
    {
        Step::Stopped(result_of, self.current.line)
    }

    /// Takes the two topmost words, the lower one first.
    pub(crate) fn pop_two(&mut self) -> Option<(i16, i16)>
        ensures some { IfSome result (λ x. self.old ≡ record self.new {
          current =
              record self.new.current {
                operands =
                    record self.new.current.operands {
                      words =
                          x.1 ∷ x.0 ∷ self.new.current.operands.words;
                    };
              };
        }) }
        ensures none { IfNone result (length self.old.current.operands.words < 2) }
        ensures room { IfSome result (λ _.
            length self.new.current.operands.words < self.new.current.operands.room) }
        ensures same { rooms self.new ≡ rooms self.old }
    {
        let right = self.current.operands.pop()?;
        let left = self.current.operands.pop()?;
        Some((left, right))
    }

    // Pushes a value in the place of the operands that gave it; none is an overflow.
    fn replace(&mut self, value: Option<i16>) -> Step
        requires place { self.old.current.place < 8192 }
        requires room { length self.old.current.operands.words < self.old.current.operands.room }
        ensures does { outcome result (shown self.new)
            ≡ replace (shown self.old) self.old.current.operands.words value }
        ensures room { rooms self.new ≡ rooms self.old }
    {
        match value {
            Some(word) => {
                self.current.operands.push(word);
                self.current.place += 1;
                Step::Moved
            }
            None => self.stop(ProgResult::Overflow),
        }
    }

    /// An instruction of one operand and one result.
    pub(crate) fn unary(&mut self, op: Op) -> Step
        requires { self.old.current.place < 8192 }
        ensures does { outcome result (shown self.new)
            ≡ unary (unary_of op) (shown self.old) self.old.current.operands.words }
        ensures room { rooms self.new ≡ rooms self.old }
    {
        let Some(value) = self.current.operands.pop() else {
            return Step::Stuck;
        };
        self.replace(unary_of(op, value))
    }

    /// An instruction of two operands and one result.
    pub(crate) fn binary(&mut self, op: Op) -> Step
        requires { self.old.current.place < 8192 }
        ensures does { outcome result (shown self.new)
            ≡ binary (binary_of op) (shown self.old) self.old.current.operands.words }
        ensures room { rooms self.new ≡ rooms self.old }
    {
        let Some((left, right)) = self.pop_two() else {
            return Step::Stuck;
        };
        self.replace(binary_of(op, left, right))
    }
}

fn unary_of(op: Op, value: i16) -> Option<i16>
    ensures { result ≡ unary_of op value }
{
    let wide = i32::from(value);
    match op {
        Op::Neg => fit(-wide),
        Op::Abs => fit(wide.abs()),
        Op::Not => Some(truth(value == 0)),
        Op::Succ => fit(wide + 1),
        Op::Pred => fit(wide - 1),
        _ => None,
    }
}

fn binary_of(op: Op, left: i16, right: i16) -> Option<i16>
    ensures { result ≡ binary_of op left right }
{
    match op {
        Op::Add => fit(i32::from(left) + i32::from(right)),
        Op::Sub => difference(left, right),
        Op::Mul => fit(i32::from(left) * i32::from(right)),
        Op::Div => quotient(left, right),
        Op::Mod => remainder(left, right),
        Op::And => Some(truth(left != 0 && right != 0)),
        Op::Or => Some(truth(left != 0 || right != 0)),
        Op::Eq => Some(truth(left == right)),
        Op::Ne => Some(truth(left != right)),
        Op::Lt => Some(truth(left < right)),
        Op::Gt => Some(truth(left > right)),
        Op::Le => Some(truth(left <= right)),
        Op::Ge => Some(truth(left >= right)),
        _ => None,
    }
}

/// The difference, if it is a word.
pub(crate) fn difference(left: i16, right: i16) -> Option<i16>
    ensures { result ≡ difference left right }
{
    fit(i32::from(left) - i32::from(right))
}

// The quotient, towards zero; by zero there is none.
fn quotient(left: i16, right: i16) -> Option<i16>
    ensures { result ≡ quotient left right }
{
    if right == 0 {
        return None;
    }
    fit(i32::from(left) / i32::from(right))
}

// The remainder, with the sign of the dividend; by zero there is none.
fn remainder(left: i16, right: i16) -> Option<i16>
    ensures { result ≡ remainder left right }
{
    if right == 0 {
        return None;
    }
    Some((i32::from(left) % i32::from(right)) as i16)
}

// The number as a word, if it is one.
fn fit(number: i32) -> Option<i16>
    ensures { result ≡ fit number }
{
    i16::try_from(number).ok()
}

fn truth(holds: bool) -> i16
    ensures { result ≡ truth holds }
{
    i16::from(holds)
}
