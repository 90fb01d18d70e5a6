use crate::listings::{code_of, is_refused};
use pascal_compile::CompileFault;
use solo_base::NoMemory;
use std::alloc::Global;
use std::test::Fail;

/// A program without its end: each assignment has three instructions, and one more with a sign.
pub fn statements_of(alloc: Global, plain: usize, signed: usize) -> Result<String, NoMemory> {
    let mut text = String::new(alloc);
    text.push_str("VAR N: INTEGER;\nBEGIN\n")?;
    for _ in 0..plain {
        text.push_str("N := 7;\n")?;
    }
    for _ in 0..signed {
        text.push_str("N := -7;\n")?;
    }
    Ok(text)
}

/// The same program with its end, which is one instruction.
fn program_of(alloc: Global, plain: usize, signed: usize) -> Result<String, NoMemory> {
    let mut text = statements_of(alloc, plain, signed)?;
    text.push_str("END.")?;
    Ok(text)
}

#[test]
fn eight_thousand_one_hundred_and_ninety_two_instructions(rt: HostRuntime) {
    let program = program_of(rt.alloc(), 2729, 1).ok().expect(&rt, "memory");
    let verified = code_of(&rt, rt.alloc(), &program);
    assert!(rt; verified.code().instrs().len() == 8192);
}

#[test]
fn one_instruction_more_passes_the_limit(rt: HostRuntime) {
    let program = program_of(rt.alloc(), 2728, 2).ok().expect(&rt, "memory");
    is_refused(&rt, rt.alloc(), &program, CompileFault::CodeLimit);
}
