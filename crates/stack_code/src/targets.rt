ghost use Rattle.std.specs.Prelude.{◌≡◌, ◌<◌, ◌||◌, ◌&&◌, ◌==◌, ℕ, false, slice_index_or};
ghost use Rattle.stack_code.specs.Rules.{is_jump};
ghost use Rattle.stack_code.specs.Targets.{AreTargets};

use crate::kinds::is_jump;
use crate::{Code, Instr};

/// A mark for each place to which a jump may lead, one behind the last instruction among them.
pub(crate) const PLACES: usize = 8193;

/// Marks each place to which a jump leads.
pub(crate) fn mark_targets(code: &Code, marks: &mut [bool; PLACES])
    requires { (place : ℕ) → place < 8193 → slice_index_or marks.old place false ≡ false }
    ensures { AreTargets code.now marks.new }
{
    for instr in code.instrs() {
        mark_target(marks, *instr);
    }
}

// Marks the place to which the instruction jumps, where it is a jump.
fn mark_target(marks: &mut [bool; PLACES], instr: Instr)
    ensures { (place : ℕ) → place < 8193 → slice_index_or marks.new place false
        ≡ (slice_index_or marks.old place false || is_jump instr.op && instr.a == place) }
{
    let place = instr.a as usize;
    if is_jump(instr.op) && place < PLACES {
        marks[place] = true;
    }
}
