// The counter of a FOR, in its two words.

ghost use Rattle.std.specs.Prelude.{◌≡◌, ◌+◌, ◌<◌, ◌^◌, ◌++◌, length, OnOk, IfOk};
ghost use Rattle.pascal_tree.specs.SeenExpression.{seen_expr};
ghost use Rattle.pascal_code.specs.Statements.{reach_op, before_op, step_op, counter_test, counter_step};
ghost use Rattle.pascal_compile.specs.SeenSite.{seen_site};
ghost use Rattle.pascal_compile.specs.SeenFor.{bounds_code};

use crate::drafts::Drafts;
use crate::expressions::expr;
use crate::instructions::{bare, load_word, store_word, tick};
use crate::site::Site;
use pascal_tree::statement::{Direction, For};
use solo_base::NoMemory;
use stack_code::Op;

/// The test whether a counter hasn't passed the last value.
pub fn reach_op(way: Direction) -> Op
    ensures { result ≡ reach_op way }
{
    match way {
        Direction::To => Op::Le,
        Direction::Downto => Op::Ge,
    }
}

/// The test whether a counter hasn't reached the last value.
pub fn before_op(way: Direction) -> Op
    ensures { result ≡ before_op way }
{
    match way {
        Direction::To => Op::Lt,
        Direction::Downto => Op::Gt,
    }
}

/// The step of a counter to its next value.
fn step_op(way: Direction) -> Op
    ensures { result ≡ step_op way }
{
    match way {
        Direction::To => Op::Succ,
        Direction::Downto => Op::Pred,
    }
}

/// Emits the comparison of a counter with the last value, and gives the place of the jump that
/// leaves the loop.
pub fn counter_test(
    code: &mut Drafts,
    site: &Site<'_, '_>,
    test: Op,
    counter: u16,
) -> Result<usize, NoMemory>
    requires { counter + 1 < 2 ^ 16 }
    ensures code { OnOk result (code.new ≡ code.old ++ counter_test (seen_site site.now) test counter 0) }
    ensures jump { IfOk result (λ place. place + 1 ≡ length code.new) }
{
    code.emit(load_word(site.owner(), counter))?;
    code.emit(load_word(site.owner(), counter + 1))?;
    code.emit(bare(test))?;
    let out = code.place();
    code.jump_if_false(0)?;
    Ok(out)
}

/// Emits the step to a counter's next value, and the jump to the next turn.
pub fn counter_step(
    code: &mut Drafts,
    site: &Site<'_, '_>,
    way: Direction,
    counter: u16,
    turn: usize,
) -> Result<(), NoMemory>
    ensures { OnOk result (code.new ≡ code.old ++ counter_step (seen_site site.now) way counter turn) }
{
    code.emit(load_word(site.owner(), counter))?;
    code.emit(bare(step_op(way)))?;
    code.emit(store_word(site.owner(), counter))?;
    code.jump(turn)
}

/// Emits the bounds of a FOR, which are kept in its two words.
pub fn for_bounds(
    code: &mut Drafts,
    site: &Site<'_, '_>,
    free: u16,
    repeated: &For,
) -> Result<(), NoMemory>
    requires { free + 1 < 2 ^ 16 }
    ensures { OnOk result (code.new ≡ code.old ++ bounds_code (seen_site site.now) repeated.now.line free
        (seen_expr repeated.now.from) (seen_expr repeated.now.to)) }
{
    code.emit(tick(repeated.line))?;
    expr(code, site, &repeated.from)?;
    code.emit(store_word(site.owner(), free))?;
    expr(code, site, &repeated.to)?;
    code.emit(store_word(site.owner(), free + 1))
}
