ghost use Rattle.std.specs.Prelude.{◌≡◌, ◌<◌, true, false, length, slice_get, Some};
ghost use Rattle.stack_code.specs.declared.table.Op.TheVariants.{Call};
ghost use Rattle.stack_machine.specs.State.{outcome, asked};
ghost use Rattle.stack_machine.specs.Machine.{effect, calls, uses_program, array_start};
ghost use Rattle.stack_machine.specs.Shown.{shown, rooms, IsRoomy};

use crate::state::{Ask, Step, Store};
use solo_base::ProgResult;
use stack_code::{Instr, Op, Verified};

impl Store {
    /// The instruction at which the program stands.
    pub(crate) fn instr(&self, code: &Verified) -> Instr
        requires { self.now.current.place < length code.now.instrs }
        ensures found { slice_get code.now.instrs self.now.current.place ≡ Some result }
        ensures place { self.now.current.place < 8192 }
    {
        code.code().instrs()[self.current.place as usize]
    }

    /// The call of an instruction that makes one.
    pub(crate) fn ask(&self, code: &Verified, limit: u32, instr: Instr) -> Ask
        requires { calls instr.op ≡ true }
        ensures { asked result (shown self.now)
            ≡ effect code.now limit (shown self.now) instr.op instr.a instr.b }
    {
        self.sys(
            code,
            limit,
            uses_program(instr.op),
            instr.a,
            array_start(instr),
        )
    }

    /// An instruction that makes no call.
    #[tactic(auto, unfolding(crate::specs::Machine::effect))]
    pub(crate) fn perform(&mut self, code: &Verified, limit: u32, instr: Instr) -> Step
        requires place { self.old.current.place < 8192 }
        requires plain { calls instr.op ≡ false }
        requires some { instr.op ≡ Call → 1 < length code.now.routines }
        requires roomy { IsRoomy code.now (rooms self.old) }
        ensures does { outcome result (shown self.new)
            ≡ effect code.now limit (shown self.old) instr.op instr.a instr.b }
        ensures room { rooms self.new ≡ rooms self.old }
    {
        let Instr { op, a, b } = instr;
        match op {
            Op::Push => self.push(code, a.cast_signed()),
            Op::LoadG => self.load(code, true, a),
            Op::LoadL => self.load(code, false, a),
            Op::StoreG => self.store(true, a as usize),
            Op::StoreL => self.store(false, a as usize),
            Op::LoadGX => self.load_at(true, a, b),
            Op::LoadLX => self.load_at(false, a, b),
            Op::StoreGX => self.store_at(true, a, b),
            Op::StoreLX => self.store_at(false, a, b),
            Op::Index => self.index(a, b),
            Op::Add => self.binary(Op::Add),
            Op::Sub => self.binary(Op::Sub),
            Op::Mul => self.binary(Op::Mul),
            Op::Div => self.binary(Op::Div),
            Op::Mod => self.binary(Op::Mod),
            Op::Neg => self.unary(Op::Neg),
            Op::Abs => self.unary(Op::Abs),
            Op::Not => self.unary(Op::Not),
            Op::And => self.binary(Op::And),
            Op::Or => self.binary(Op::Or),
            Op::Eq => self.binary(Op::Eq),
            Op::Ne => self.binary(Op::Ne),
            Op::Lt => self.binary(Op::Lt),
            Op::Gt => self.binary(Op::Gt),
            Op::Le => self.binary(Op::Le),
            Op::Ge => self.binary(Op::Ge),
            Op::Chr => self.chr(),
            Op::Jump => self.jump(a),
            Op::JumpF => self.jump_false(a),
            Op::Tick => self.tick(limit, a, b),
            Op::Call => self.call(code, a),
            Op::Return => self.leave(code),
            Op::Sys | Op::SysG | Op::SysL => unreachable!(),
            Op::Halt => self.stop(ProgResult::Terminated),
            Op::Succ => self.unary(Op::Succ),
            Op::Pred => self.unary(Op::Pred),
            Op::RefG => self.refer(code, 0, a),
            Op::RefL => {
                let number = self.below.len();
                self.refer(code, number, a)
            }
            Op::LoadR => self.load_reference(code, a),
            Op::StoreR => self.store_reference(a),
        }
    }
}

/// Whether an instruction makes a call.
pub(crate) fn calls(op: Op) -> bool
    ensures { result ≡ calls op }
{
    matches!(op, Op::Sys | Op::SysG | Op::SysL)
}

/// Whether the array of an instruction's call is in the program's frame.
pub(crate) fn uses_program(op: Op) -> bool
    ensures { result ≡ uses_program op }
{
    matches!(op, Op::SysG)
}

/// Where the array of an instruction's call begins in its frame.
pub(crate) fn array_start(instr: Instr) -> u16
    ensures { result ≡ array_start instr.op instr.b }
{
    if instr.op == Op::Sys { 0 } else { instr.b }
}
