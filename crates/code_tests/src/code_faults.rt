use crate::code_limits::statements_of;
use crate::listings::{FaultRow, each_is_refused, is_refused};
use pascal_compile::CompileFault;
use solo_base::NoMemory;
use std::alloc::Global;
use std::process::Abort;
use std::test::Fail;

/// A program of 8,193 instructions and more, on 2,733 cards, that ends so.
fn long_program(alloc: Global, end: &str) -> Result<String, NoMemory> {
    let mut text = statements_of(alloc, 2730, 0)?;
    text.push_str(end)?;
    Ok(text)
}

fn long_is_refused(rt: &impl Abort, alloc: Global, end: &str, fault: CompileFault) {
    let program = long_program(alloc, end).ok().expect(rt, "memory");
    is_refused(rt, alloc, &program, fault);
}

#[test]
fn words_come_first_then_the_tree_then_the_rules_then_the_size(rt: HostRuntime) {
    let alloc = rt.alloc();
    let bad_word = CompileFault::BadWord { line: 2733 };
    long_is_refused(&rt, alloc, "M := 1 ? END", bad_word);
    let syntax = CompileFault::Syntax { line: 2734 };
    long_is_refused(&rt, alloc, "M := 1 END", syntax);
    let undeclared = CompileFault::Semantic {
        line: 2733,
        rule: 2,
    };
    long_is_refused(&rt, alloc, "M := 1 END.", undeclared);
    long_is_refused(&rt, alloc, "N := 1 END.", CompileFault::CodeLimit);
}

const EACH_FAULT_NAMES_ITS_LINE: [FaultRow; 6] = [
    ("BEGIN\n?\nEND.", CompileFault::BadWord { line: 2 }),
    ("BEGIN\n\"NOT\nCLOSED", CompileFault::BadWord { line: 2 }),
    ("", CompileFault::Syntax { line: 1 }),
    ("BEGIN\nEND", CompileFault::Syntax { line: 3 }),
    (
        "BEGIN\nX := 1\nEND.",
        CompileFault::Semantic { line: 2, rule: 2 },
    ),
    (
        "CONST A = 1;\nA = 2;\nBEGIN END.",
        CompileFault::Semantic { line: 2, rule: 1 },
    ),
];

#[test]
fn each_fault_names_its_line(rt: HostRuntime) {
    each_is_refused(&rt, rt.alloc(), &EACH_FAULT_NAMES_ITS_LINE);
}
