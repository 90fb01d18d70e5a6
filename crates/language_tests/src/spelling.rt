use crate::reading::text_of;
use pascal_tree::declaration::Program;
use pascal_tree::expression::{Expr, Factor, Sign, Simple, Term};
use pascal_tree::leaf::{Name, Number};
use pascal_tree::statement::{Assign, Body, Statement, Statements};
use pascal_tree::{LeadingSign, Letters, Tree, spell};
use solo_base::NoMemory;
use std::alloc::Global;
use std::process::Abort;

// `BEGIN X := 1 END.` on one card, where the assignment stands on the second.
fn assignment(alloc: Global) -> Result<Tree, NoMemory> {
    let letters = Letters::of(alloc, b"X")?;
    let one = Factor::Number(Number { value: 1, line: 2 });
    let value = Expr {
        left: Simple {
            sign: LeadingSign::of(None),
            first: Term {
                first: one,
                rest: Vec::new(alloc),
            },
            rest: Vec::new(alloc),
        },
        right: None,
    };
    let assign = Assign {
        target: Name { letters, line: 2 },
        index: None,
        becomes: 2,
        value,
    };
    let statements = Statements {
        first: Statement::Assign(Box::new(alloc, assign)?),
        rest: Vec::new(alloc),
    };
    Ok(Tree {
        program: Program {
            heading: None,
            consts: None,
            vars: None,
            routines: Vec::new(alloc),
            body: Body {
                begin: 1,
                statements,
                end: 3,
            },
            period: 3,
            end: 4,
        },
    })
}

#[test]
fn an_assignment_is_spelled_with_its_lines(rt: HostRuntime) {
    let tree = assignment(rt.alloc()).ok().expect(&rt, "memory");
    let tokens = spell(&tree).ok().expect(&rt, "memory");
    let text = text_of(&rt, rt.alloc(), &tokens);
    let wanted = "1 Begin, 2 X, 2 Becomes, 2 1, 3 End, 3 Period, 4 .";
    assert!(rt; text.as_str() == wanted, "{text}");
}

/// Letters come back from a copy too.
fn come_back(rt: &impl Abort, alloc: Global, bytes: &[u8]) {
    let letters = Letters::of(alloc, bytes).ok().expect(rt, "memory");
    assert!(rt; letters.bytes() == bytes);
    let copy = letters.copy().ok().expect(rt, "memory");
    assert!(rt; copy.bytes() == bytes);
}

#[test]
fn letters_come_back_as_few_and_as_many(rt: HostRuntime) {
    let alphabet = b"ABCDEFGHIJKLMNOPQRSTUVWXYZ";
    for count in [1, 13, 14, 15, 26] {
        come_back(&rt, rt.alloc(), &alphabet[..count]);
    }
}

#[test]
fn a_leading_sign_keeps_its_line(rt: HostRuntime) {
    for sign in [None, Some((Sign::Plus, 1)), Some((Sign::Minus, u32::MAX))] {
        assert!(rt; LeadingSign::of(sign).get() == sign);
    }
}
