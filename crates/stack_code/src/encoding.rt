ghost use Rattle.std.specs.Prelude.{◌≡◌, ◌<◌, ◌++◌, ◌∷◌, ℕ, [], length, slice_index_or, OnOk, IfOk};
ghost use Rattle.std.specs.List.{flat_map};
ghost use Rattle.stack_code.specs.CodeLists.{IsCode, FitsItsFields, FitsRoutine, FitsInstr, no_routine, no_instr};
ghost use Rattle.stack_code.specs.CodeFile.{code_bytes, routine_bytes, instr_bytes};

use crate::file::LETTERS;
use crate::{Code, Instr, RoutineInfo};
use solo_base::{NoMemory, PAGE_LENGTH};
use std::alloc::{AllocError, Global};

/// The code file of the code: whole pages.
#[tactic(auto, unfolding(crate::specs::CodeFile::code_bytes))]
pub fn encode(alloc: Global, code: &Code) -> Result<Vec<u8>, NoMemory>
    ensures bytes { IfOk result (λ bytes. bytes.items ≡ code_bytes code.now) }
    // So `decode` reads the same code again.
    ensures code { IfOk result (λ _. IsCode code.now) }
    ensures fits { IfOk result (λ _. FitsItsFields code.now) }
{
    let mut bytes = Vec::new(alloc);
    bytes.extend_from_slice(LETTERS)?;
    bytes.extend_from_slice(&(code.routines().len() as u16).to_be_bytes())?;
    bytes.extend_from_slice(&(code.instrs().len() as u16).to_be_bytes())?;
    put_routines(&mut bytes, code.routines())?;
    put_instrs(&mut bytes, code.instrs())?;
    bytes.resize(bytes.len().next_multiple_of(PAGE_LENGTH), 0)?;
    Ok(bytes)
}

fn put_routines(bytes: &mut Vec<u8>, routines: &[RoutineInfo]) -> Result<(), AllocError>
    ensures bytes { OnOk result (bytes.new.items ≡ bytes.old.items ++ flat_map routine_bytes routines.now) }
    ensures fits { OnOk result ((k : ℕ) → k < length routines.now
        → FitsRoutine (slice_index_or routines.now k no_routine)) }
{
    for routine in routines {
        put_routine(bytes, routine)?;
    }
    Ok(())
}

fn put_routine(bytes: &mut Vec<u8>, routine: &RoutineInfo) -> Result<(), AllocError>
    ensures bytes { OnOk result (bytes.new.items ≡ bytes.old.items ++ routine_bytes routine.now) }
    ensures fits { OnOk result (FitsRoutine routine.now) }
{
    bytes.extend_from_slice(&routine.start.to_be_bytes())?;
    bytes.extend_from_slice(&[routine.params, u8::from(routine.function)])?;
    bytes.extend_from_slice(&routine.words.to_be_bytes())?;
    bytes.extend_from_slice(&routine.height.to_be_bytes())?;
    Ok(())
}

fn put_instrs(bytes: &mut Vec<u8>, instrs: &[Instr]) -> Result<(), AllocError>
    ensures bytes { OnOk result (bytes.new.items ≡ bytes.old.items ++ flat_map instr_bytes instrs.now) }
    ensures fits { OnOk result ((k : ℕ) → k < length instrs.now
        → FitsInstr (slice_index_or instrs.now k no_instr)) }
{
    for instr in instrs {
        put_instr(bytes, instr)?;
    }
    Ok(())
}

fn put_instr(bytes: &mut Vec<u8>, instr: &Instr) -> Result<(), AllocError>
    ensures bytes { OnOk result (bytes.new.items ≡ bytes.old.items ++ instr_bytes instr.now) }
    ensures fits { OnOk result (FitsInstr instr.now) }
{
    bytes.push(instr.op.row().number)?;
    bytes.extend_from_slice(&instr.a.to_be_bytes())?;
    bytes.extend_from_slice(&instr.b.to_be_bytes())?;
    Ok(())
}
