use crate::judging::{Row, judge_all};

const NAMES_DECLARED_TWICE: [Row; 14] = [
    (1, 2, "VAR X: INTEGER;/X: CHAR;/BEGIN END."),
    (1, 2, "CONST A = 1;/A = 2;/BEGIN END."),
    (1, 3, "VAR X,/Y,/X: INTEGER;/BEGIN END."),
    (1, 2, "CONST A = 1;/VAR A: INTEGER;/BEGIN END."),
    (1, 2, "VAR P: INTEGER;/PROCEDURE P;/BEGIN END;/BEGIN END."),
    (
        1,
        2,
        "PROCEDURE P(A: INTEGER;/A: CHAR);/BEGIN END;/BEGIN END.",
    ),
    (
        1,
        2,
        "PROCEDURE P(A: INTEGER);/VAR A: CHAR;/BEGIN END;/BEGIN END.",
    ),
    (
        1,
        3,
        "PROCEDURE P;/BEGIN END;/FUNCTION P: INTEGER;/BEGIN END;/BEGIN END.",
    ),
    (1, 3, "VAR X: CHAR;/Y,/X: INTEGER;/BEGIN END."),
    (
        1,
        2,
        "PROCEDURE P(A: CHAR;/A, B: CHAR);/BEGIN END;/BEGIN END.",
    ),
    (1, 2, "CONST A = 1;/A = 2;/A = 3;/BEGIN END."),
    (
        0,
        0,
        "VAR X: INTEGER;/PROCEDURE P(X: CHAR);/BEGIN END;/BEGIN END.",
    ),
    (
        0,
        0,
        "FUNCTION F(F: INTEGER): INTEGER;/BEGIN F := 1 END;/BEGIN END.",
    ),
    (0, 0, "PROGRAM P;/VAR P: INTEGER;/BEGIN P := 1 END."),
];

#[test]
fn names_declared_twice(rt: HostRuntime) {
    judge_all(&rt, rt.alloc(), &NAMES_DECLARED_TWICE);
}

const NAMES_OF_A_GROUP: [Row; 17] = [
    (4, 2, "PROCEDURE P(A: CHAR;/A: FOO);/BEGIN END;/BEGIN END."),
    (
        4,
        2,
        "FUNCTION F(A: INTEGER;/A: REAL): INTEGER;/BEGIN END;/BEGIN END.",
    ),
    (4, 3, "PROCEDURE P(A,/A:/FOO);/BEGIN END;/BEGIN END."),
    (
        4,
        3,
        "PROCEDURE P(VAR A,B,C,D,E,F,G,H,/A:/REAL);/BEGIN END;/BEGIN END.",
    ),
    (4, 3, "VAR X,/X:/REAL;/BEGIN END."),
    (5, 3, "VAR X,/X:/ARRAY (.2..1.) OF CHAR;/BEGIN END."),
    (5, 2, "VAR X: CHAR;/X: ARRAY (.2..1.) OF CHAR;/BEGIN END."),
    (6, 1, "VAR X,/X: ARRAY (.1..4097.) OF CHAR;/BEGIN END."),
    (6, 2, "VAR X,/Y,/X: ARRAY (.1..3000.) OF CHAR;/BEGIN END."),
    (1, 2, "VAR X,/X,/Y: ARRAY (.1..3000.) OF CHAR;/BEGIN END."),
    (1, 2, "VAR X,/X: ARRAY (.1..3000.) OF CHAR;/BEGIN END."),
    (
        7,
        2,
        "PROCEDURE P(A,B,C,D,E,F,G,H,I,J,K,L,M,N,O,Q,/R,/A: CHAR);/BEGIN END;/BEGIN END.",
    ),
    (
        1,
        2,
        "PROCEDURE P(A,B,C,D,E,F,G,H,I,J,K,L,M,N,O,Q,/A: CHAR);/BEGIN END;/BEGIN END.",
    ),
    (
        1,
        2,
        "PROCEDURE P(A,B,C,D,E,F,G,H,I,J,K,L,M,N,O,/A,/Q,/R: CHAR);/BEGIN END;/BEGIN END.",
    ),
    (1, 2, "VAR INTEGER,/INTEGER: INTEGER;/BEGIN END."),
    (0, 0, "VAR CHAR, X: CHAR;/BEGIN CHAR := X END."),
    (0, 0, "PROCEDURE P(CHAR, X: CHAR);/BEGIN END;/BEGIN END."),
];

#[test]
fn names_of_a_group(rt: HostRuntime) {
    judge_all(&rt, rt.alloc(), &NAMES_OF_A_GROUP);
}

const NAMES_THAT_ARE_NOT_DECLARED: [Row; 20] = [
    (2, 1, "BEGIN X := 1 END."),
    (2, 3, "VAR X: INTEGER;/BEGIN/X := Y END."),
    (2, 2, "BEGIN/P END."),
    (2, 2, "CONST A =/B;/BEGIN END."),
    (2, 2, "VAR X: ARRAY (.1../N.) OF INTEGER;/BEGIN END."),
    (2, 2, "BEGIN FOR/I := 1 TO 2 DO END."),
    (2, 2, "BEGIN CASE 1 OF/A: END END."),
    (2, 2, "BEGIN X :=/Y END."),
    (2, 2, "BEGIN P(/Q) END."),
    (2, 3, "VAR X: INTEGER;/BEGIN X := TRUE + 1 +/Y END."),
    (
        2,
        2,
        "PROCEDURE P;/BEGIN Q END;/PROCEDURE Q;/BEGIN END;/BEGIN END.",
    ),
    (
        2,
        4,
        "PROCEDURE P;/VAR X: INTEGER;/BEGIN END;/BEGIN X := 1 END.",
    ),
    (2, 2, "CONST A =/A;/BEGIN END."),
    (2, 2, "VAR X: INTEGER;/BEGIN X(.Y.) := Z END."),
    (2, 2, "BEGIN FOR/I := 'A' TO 2 DO END."),
    (2, 2, "BEGIN/X := 1/END."),
    (2, 2, "PROGRAM P;/BEGIN P END."),
    (2, 2, "BEGIN/X := 1;/Y := 1 END."),
    (0, 0, "PROCEDURE P;/BEGIN P END;/BEGIN P END."),
    (
        0,
        0,
        "CONST A = 1; B = A;/VAR X: ARRAY (.A..B.) OF INTEGER;/BEGIN X(.B.) := A END.",
    ),
];

#[test]
fn names_that_are_not_declared(rt: HostRuntime) {
    judge_all(&rt, rt.alloc(), &NAMES_THAT_ARE_NOT_DECLARED);
}

const NAMES_OF_ANOTHER_SORT: [Row; 15] = [
    (3, 2, "CONST A =/INTEGER;/BEGIN END."),
    (
        3,
        2,
        "VAR X: INTEGER;/Y: ARRAY (.1..X.) OF CHAR;/BEGIN END.",
    ),
    (3, 2, "BEGIN/TRUE := FALSE END."),
    (3, 3, "VAR X: INTEGER;/BEGIN/X END."),
    (3, 4, "FUNCTION F: INTEGER;/BEGIN END;/BEGIN/F := 1 END."),
    (3, 4, "FUNCTION F: INTEGER;/BEGIN END;/BEGIN/F END."),
    (3, 3, "VAR X: INTEGER;/BEGIN X :=/READ END."),
    (3, 2, "VAR X: INTEGER;/BEGIN X := INTEGER END."),
    (3, 3, "VAR X: INTEGER;/BEGIN CASE X OF/X: END END."),
    (
        3,
        5,
        "FUNCTION F: INTEGER;/BEGIN END;/FUNCTION G: INTEGER;/BEGIN/F := 1 END;/BEGIN END.",
    ),
    (3, 2, "BEGIN/WRITE := 'A' END."),
    (3, 2, "CONST A = 1;/BEGIN A/:= TRUE END."),
    (3, 2, "VAR X: INTEGER;/BEGIN X := WRITE('A') END."),
    (0, 0, "FUNCTION F: INTEGER;/BEGIN F := 1 END;/BEGIN END."),
    (0, 0, "FUNCTION F: INTEGER;/BEGIN F := F END;/BEGIN END."),
];

#[test]
fn names_of_another_sort(rt: HostRuntime) {
    judge_all(&rt, rt.alloc(), &NAMES_OF_ANOTHER_SORT);
}

const NAMES_THAT_ARE_NO_TYPE: [Row; 14] = [
    (4, 2, "VAR X:/X;/BEGIN END."),
    (4, 1, "VAR X: TRUE;/BEGIN END."),
    (4, 2, "VAR X: ARRAY (.1..2.) OF/NL;/BEGIN END."),
    (4, 2, "PROCEDURE P(A:/B);/BEGIN END;/BEGIN END."),
    (4, 2, "FUNCTION F:/REAL;/BEGIN END;/BEGIN END."),
    (4, 2, "VAR INTEGER: INTEGER;/X: INTEGER;/BEGIN END."),
    (
        4,
        2,
        "PROCEDURE P(INTEGER: INTEGER;/B: INTEGER);/BEGIN END;/BEGIN END.",
    ),
    (
        4,
        2,
        "FUNCTION F(INTEGER: CHAR):/INTEGER;/BEGIN END;/BEGIN END.",
    ),
    (4, 2, "VAR X: ARRAY (.2..1.) OF/REAL;/BEGIN END."),
    (
        4,
        3,
        "PROCEDURE P(A,B,C,D,E,F,G,H,I,J,K,L,M,N,O,Q,/R:/REAL);/BEGIN END;/BEGIN END.",
    ),
    (4, 2, "CONST INTEGER = 1;/VAR X: INTEGER;/BEGIN END."),
    (0, 0, "PROCEDURE INTEGER(A: INTEGER);/BEGIN END;/BEGIN END."),
    (
        0,
        0,
        "FUNCTION INTEGER: INTEGER;/BEGIN INTEGER := 1 END;/BEGIN END.",
    ),
    (0, 0, "VAR CHAR: CHAR;/BEGIN CHAR := 'A' END."),
];

#[test]
fn names_that_are_no_type(rt: HostRuntime) {
    judge_all(&rt, rt.alloc(), &NAMES_THAT_ARE_NO_TYPE);
}
