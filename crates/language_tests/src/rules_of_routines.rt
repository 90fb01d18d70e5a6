use crate::cards::{add_card, add_parted};
use crate::judging::{Row, judge_all, judged};
use solo_base::LineList;
use std::alloc::Global;
use std::process::Abort;

const HEADINGS: [Row; 13] = [
    (1, 2, "VAR F: CHAR;/FUNCTION F:/REAL;/BEGIN END;/BEGIN END."),
    (
        4,
        3,
        "VAR F: CHAR;/FUNCTION F(A:/REAL): CHAR;/BEGIN END;/BEGIN END.",
    ),
    (4, 2, "FUNCTION F(A:/REAL):/WORD;/BEGIN END;/BEGIN END."),
    (
        4,
        3,
        "VAR F: CHAR;/FUNCTION F(A,/A: REAL): WORD;/BEGIN END;/BEGIN END.",
    ),
    (
        1,
        3,
        "VAR F: CHAR;/FUNCTION F(A,/A: CHAR): CHAR;/BEGIN END;/BEGIN END.",
    ),
    (
        7,
        2,
        "PROCEDURE P(VAR A,B,C,D,E,F,G,H,/I: CHAR; J: REAL);/BEGIN END;/BEGIN END.",
    ),
    (
        7,
        3,
        "VAR P: CHAR;/PROCEDURE P(VAR A,B,C,D,E,F,G,H,/I: CHAR);/BEGIN END;/BEGIN END.",
    ),
    (4, 2, "FUNCTION F:/F;/BEGIN END;/BEGIN END."),
    (
        2,
        2,
        "PROCEDURE P; BEGIN/X := 1 END;/PROCEDURE P; BEGIN END;/BEGIN END.",
    ),
    (
        1,
        2,
        "PROCEDURE P; BEGIN END;/PROCEDURE P; BEGIN X := 1 END;/BEGIN END.",
    ),
    (
        0,
        0,
        "FUNCTION F: INTEGER;/VAR F: CHAR;/BEGIN F := 'A' END;/BEGIN WRITEINT(F) END.",
    ),
    (
        0,
        0,
        "FUNCTION F: INTEGER;/CONST F = 1;/BEGIN END;/BEGIN END.",
    ),
    (
        0,
        0,
        "PROCEDURE P(P: CHAR);/BEGIN P := 'A' END;/BEGIN P('A') END.",
    ),
];

#[test]
fn headings(rt: HostRuntime) {
    judge_all(&rt, rt.alloc(), &HEADINGS);
}

/// So many procedures without parameters, whose names no other has, and then these cards.
fn routines(alloc: Global, count: u32, text: &str) -> Option<LineList> {
    let mut program = LineList::new(alloc);
    for number in 0..count {
        add_procedure(alloc, &mut program, number)?;
    }
    add_parted(&mut program, text)?;
    Some(program)
}

fn add_procedure(alloc: Global, program: &mut LineList, number: u32) -> Option<()> {
    let card = format!(in alloc; "PROCEDURE P{number}; BEGIN END;").ok()?;
    add_card(program, card.as_str())
}

/// So many procedures and then these cards break this rule on this line.
fn judge_routines(rt: &impl Abort, alloc: Global, count: u32, (rule, line, text): Row) {
    let program = routines(alloc, count, text).expect(rt, "cards");
    let found = judged(alloc, &program);
    assert!(rt; found == Some((rule, line)), "{count} routines, {text}");
}

#[test]
fn numbers_of_routines(rt: HostRuntime) {
    let table = [
        (0, 0, 254, "BEGIN P253 END."),
        (0, 0, 253, "FUNCTION/F: INTEGER;/BEGIN END;/BEGIN P252 END."),
        (7, 255, 255, "BEGIN END."),
        (7, 256, 254, "FUNCTION/F: INTEGER;/BEGIN END;/BEGIN END."),
        (1, 256, 254, "FUNCTION/P0: INTEGER;/BEGIN END;/BEGIN END."),
        (4, 257, 254, "FUNCTION/F:/REAL;/BEGIN END;/BEGIN END."),
        (4, 256, 254, "PROCEDURE P(A:/REAL);/BEGIN END;/BEGIN END."),
        (7, 255, 254, "PROCEDURE P;/BEGIN X := 1 END;/BEGIN END."),
        (7, 255, 300, "BEGIN END."),
        (2, 255, 254, "BEGIN P254 END."),
    ];
    for (rule, line, count, text) in table {
        judge_routines(&rt, rt.alloc(), count, (rule, line, text));
    }
}
