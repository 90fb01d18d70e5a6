ghost use Rattle.std.specs.Prelude.{◌≡◌};

use crate::{Instr, RoutineInfo};
use std::marker::Model;

/// The code of a program: its routines, the program itself first, and the instructions of all of
/// them. There are 1 to 255 routines and 1 to 8,192 instructions, and an operand that an
/// instruction doesn't use is 0.
#[derive(Debug, Drop)]
pub struct Code {
    routines: Vec<RoutineInfo>,
    instrs: Vec<Instr>,
}

impl Model for Code {
    ghost use Rattle.stack_code.specs.CodeLists.{CodeLists, IsCode};

    ghost Value = { CodeLists };

    ghost view = { λ code. record { routines = code.routines.items; instrs = code.instrs.items } };

    ghost invariant = { λ code. IsCode (record { routines = code.routines.items; instrs = code.instrs.items }) };
}

impl Code {
    ghost use Rattle.stack_code.specs.CodeLists.{IsCode};

    /// The code of these routines and instructions.
    pub fn of(routines: Vec<RoutineInfo>, instrs: Vec<Instr>) -> Code
        requires { IsCode (record { routines = routines.items; instrs = instrs.items }) }
        ensures routines { result.routines ≡ routines.items }
        ensures instrs { result.instrs ≡ instrs.items }
    {
        Code { routines, instrs }
    }

    /// The routines, the program first.
    pub fn routines(&self) -> &[RoutineInfo]
        ensures list { result.now ≡ self.now.routines }
        ensures code { IsCode self.now }
    {
        self.routines.as_slice()
    }

    /// The instructions of all routines, one routine after the other.
    pub fn instrs(&self) -> &[Instr]
        ensures list { result.now ≡ self.now.instrs }
        ensures code { IsCode self.now }
    {
        self.instrs.as_slice()
    }
}
