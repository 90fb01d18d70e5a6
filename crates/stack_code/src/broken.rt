ghost use Rattle.std.specs.Prelude.{◌≡◌, ◌<◌, ◌≤◌, ◌+◌, ◌*◌, ◌^◌, ◌&&◌, ◌||◌, ℕ, None, not, length, IfSome};
ghost use Rattle.stack_code.specs.CodeLists.{IsCode};
ghost use Rattle.stack_code.specs.Rules.{routine_of, is_jump, is_tick, is_target, height_at, is_behind_tick, instr_is_good, broken_routine, broken_instr, broken_record};
ghost use Rattle.stack_code.specs.Along.{IsAlong};

use crate::kinds::{is_call, is_jump, is_tick, may_be_last, pops, pushes};
use crate::places::{goes_on, instr_at, is_in};
use crate::rules::{height_fits, operands_fit, routine_is_good};
use crate::targets::{PLACES, mark_targets};
use crate::{Code, Instr, Op};

/// What the places before an instruction tell of it: the number of its routine, the height of the
/// operand stack before it, and whether it stands behind a TICK.
#[derive(Clone, Copy, Debug)]
pub struct Along {
    pub(crate) routine: usize,
    pub(crate) height: usize,
    pub(crate) behind_tick: bool,
}

/// The place in the code file of the first record that breaks a rule, routines before instructions.
#[tactic(auto, unfolding(crate::specs::Rules::broken_record))]
pub(crate) fn broken_record(code: &Code) -> Option<u32>
    ensures { result ≡ broken_record code.now }
{
    if let Some(k) = broken_routine(code) {
        return Some(12 + 8 * k as u32);
    }
    match broken_instr(code) {
        Some(place) => Some(12 + 8 * code.routines().len() as u32 + 5 * place as u32),
        None => None,
    }
}

fn broken_routine(code: &Code) -> Option<usize>
    ensures first { result ≡ broken_routine code.now }
    ensures few { IfSome result (λ k. k < 255) }
{
    for k in 0..code.routines().len() {
        if !routine_is_good(code, k) {
            return Some(k);
        }
    }
    None
}

fn broken_instr(code: &Code) -> Option<usize>
    requires { broken_routine code.now ≡ None }
    ensures first { result ≡ broken_instr code.now }
    ensures few { IfSome result (λ place. place < 8192) }
{
    let mut targets = [false; PLACES];
    mark_targets(code, &mut targets);
    let mut along = Along {
        routine: 0,
        height: 0,
        behind_tick: false,
    };
    for place in 0..code.instrs().len() {
        if !instr_is_good(code, place, targets[place], along) {
            return Some(place);
        }
        along = along_next(code, place, targets[place + 1], along);
    }
    None
}

// Whether no rule on the instruction at a place is broken, to which a jump leads or not.
fn instr_is_good(code: &Code, place: usize, target: bool, along: Along) -> bool
    requires rise { broken_routine code.now ≡ None }
    requires place { place < 8192 }
    requires target { target ≡ is_target code.now place }
    requires routine { along.routine ≡ routine_of code.now place }
    requires number { along.routine < length code.now.routines }
    requires height { along.height ≡ height_at code.now place }
    requires low { along.height < 2 ^ 32 }
    requires tick { along.behind_tick ≡ is_behind_tick code.now place }
    ensures { result ≡ instr_is_good code.now place }
{
    let instr = instr_at(code, place);
    (goes_on(code, place, along.routine) || may_be_last(instr.op))
        && operands_fit(code, place, along.routine, instr)
        && height_fits(code, place, along.routine, instr, along.height)
        && (along.height == 0 || !target)
        && (!is_call(instr.op) || along.behind_tick)
}

// What is known of the next place, to which a jump leads or not.
fn along_next(code: &Code, place: usize, target: bool, along: Along) -> Along
    requires rise { broken_routine code.now ≡ None }
    requires place { place < 8192 }
    requires target { target ≡ is_target code.now (place + 1) }
    requires along { IsAlong code.now place along }
    ensures { IsAlong code.now (place + 1) result }
{
    if !is_in(code, along.routine, place + 1) {
        return Along {
            routine: along.routine + 1,
            height: 0,
            behind_tick: false,
        };
    }
    let Instr { op, a, .. } = instr_at(code, place);
    let height = along.height.saturating_sub(pops(code, op, a)) + pushes(code, op, a);
    let behind_tick = leads_on(target, op, along.behind_tick);
    Along {
        routine: along.routine,
        height,
        behind_tick,
    }
}

// Whether a TICK leads straight on from an operation to the next place, which is a jump's target or not.
fn leads_on(target: bool, op: Op, behind_tick: bool) -> bool
    ensures { result ≡ (not target && (is_tick op || not (is_jump op) && behind_tick)) }
{
    !target && (is_tick(op) || (!is_jump(op) && behind_tick))
}
