// Instructions as they are emitted.

ghost use Rattle.std.specs.Prelude.{◌≡◌, ◌<◌, ℕ, [], ◌∷◌, ◌++◌, length, map, slice_set, slice_get, Some, OnOk, IfOk};
ghost use Rattle.stack_code.specs.declared.instr.Instr.{Instr};
ghost use Rattle.pascal_code.specs.Statements.{jump, jump_if_false};
ghost use Rattle.pascal_compile.specs.Seen.{seen_draft};
ghost use Rattle.pascal_compile.specs.LowTargets.{HasLowTarget};

use solo_base::NoMemory;
use stack_code::{Instr, Op};
use std::alloc::Global;
use std::marker::Model;

/// An instruction that was emitted. Where a jump leads isn't limited yet.
#[derive(Clone, Copy)]
pub enum Draft {
    Instr(Instr),
    Jump(usize),
    JumpIfFalse(usize),
}

/// The instructions that were emitted so far.
///
/// Contracts see these.
#[derive(Drop)]
pub struct Drafts {
    items: Vec<Draft>,
}

impl Model for Drafts {
    ghost use Rattle.std.specs.Prelude.{List, map};
    ghost use Rattle.stack_code.specs.declared.instr.Instr.{Instr};
    ghost use Rattle.pascal_compile.specs.Seen.{seen_draft};

    ghost Value = { List Instr };

    ghost view = { λ d. map seen_draft d.items.items };
}

impl Drafts {
    /// No instruction.
    pub fn new(alloc: Global) -> Drafts
        ensures { result ≡ [] }
    {
        Drafts {
            items: Vec::new(alloc),
        }
    }

    /// The place of the next instruction.
    pub fn place(&self) -> usize
        ensures { result ≡ length self.now }
    {
        self.items.len()
    }

    /// Emits an instruction that is no jump.
    pub fn emit(&mut self, instr: Instr) -> Result<(), NoMemory>
        ensures { OnOk result (self.new ≡ self.old ++ instr ∷ []) }
    {
        self.items.push(Draft::Instr(instr))?;
        Ok(())
    }

    /// Emits a jump to a place.
    pub fn jump(&mut self, target: usize) -> Result<(), NoMemory>
        ensures { OnOk result (self.new ≡ self.old ++ jump target ∷ []) }
    {
        self.items.push(Draft::Jump(target))?;
        Ok(())
    }

    /// Emits a jump to a place where a test fails.
    pub fn jump_if_false(&mut self, target: usize) -> Result<(), NoMemory>
        ensures { OnOk result (self.new ≡ self.old ++ jump_if_false target ∷ []) }
    {
        self.items.push(Draft::JumpIfFalse(target))?;
        Ok(())
    }

    /// At this place stands a jump behind all that was emitted so far.
    pub fn land_jump(&mut self, place: usize)
        requires { place < length self.old }
        ensures { self.new ≡ slice_set self.old place (jump (length self.old)) }
    {
        let target = self.place();
        self.items[place] = Draft::Jump(target);
    }

    /// At this place stands a jump behind all that was emitted so far, where a test fails.
    pub fn land_test(&mut self, place: usize)
        requires { place < length self.old }
        ensures { self.new ≡ slice_set self.old place (jump_if_false (length self.old)) }
    {
        let target = self.place();
        self.items[place] = Draft::JumpIfFalse(target);
    }

    /// The instructions, whose jumps lead to places of 16 bits.
    pub fn instrs(&self) -> Result<Vec<Instr>, NoMemory>
        requires { (place : ℕ) (i : Instr) → slice_get self.now place ≡ Some i → HasLowTarget i }
        ensures { IfOk result (λ instrs. instrs.items ≡ self.now) }
    {
        instrs_of(*self.items.allocator(), &self.items)
    }
}

fn instrs_of(alloc: Global, drafts: &[Draft]) -> Result<Vec<Instr>, NoMemory>
    requires { (place : ℕ) (i : Instr) → slice_get (map seen_draft drafts.now) place ≡ Some i
        → HasLowTarget i }
    ensures { IfOk result (λ instrs. instrs.items ≡ map seen_draft drafts.now) }
{
    let mut instrs = Vec::new(alloc);
    for draft in drafts {
        instrs.push(instr_of(*draft))?;
    }
    Ok(instrs)
}

fn instr_of(draft: Draft) -> Instr
    requires { HasLowTarget (seen_draft draft) }
    ensures { result ≡ seen_draft draft }
{
    match draft {
        Draft::Instr(instr) => instr,
        Draft::Jump(target) => Instr {
            op: Op::Jump,
            a: target as u16,
            b: 0,
        },
        Draft::JumpIfFalse(target) => Instr {
            op: Op::JumpF,
            a: target as u16,
            b: 0,
        },
    }
}
