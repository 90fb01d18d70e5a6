use crate::judging::{Row, judge_all};

const NUMBERS_OF_ARGUMENTS: [Row; 10] = [
    (12, 4, "PROCEDURE P;/BEGIN END;/BEGIN/P(1) END."),
    (12, 2, "BEGIN/WRITE END."),
    (12, 2, "BEGIN/WRITE('A', 'B') END."),
    (12, 3, "VAR X: INTEGER;/BEGIN X :=/ABS END."),
    (12, 3, "VAR X: INTEGER;/BEGIN X :=/X(1) END."),
    (12, 4, "CONST A = 1;/VAR X: INTEGER;/BEGIN X :=/A(1) END."),
    (12, 2, "BEGIN/WRITE(1, 2) END."),
    (
        12,
        3,
        "FUNCTION F(A: INTEGER): INTEGER;/BEGIN F :=/F END;/BEGIN END.",
    ),
    (
        12,
        3,
        "FUNCTION F(A: CHAR): INTEGER;/BEGIN READ(/F) END;/BEGIN END.",
    ),
    (12, 2, "VAR X: INTEGER;/BEGIN X := ABS(1, 2) END."),
];

#[test]
fn numbers_of_arguments(rt: HostRuntime) {
    judge_all(&rt, rt.alloc(), &NUMBERS_OF_ARGUMENTS);
}

const ARGUMENTS_OF_ANOTHER_TYPE: [Row; 18] = [
    (13, 2, "BEGIN/WRITE(1) END."),
    (13, 3, "VAR X: INTEGER;/BEGIN X :=/ABS('A') END."),
    (
        13,
        4,
        "VAR N: INTEGER;/PROCEDURE P(VAR A, B: INTEGER);/BEGIN B := B + A END;/BEGIN P(N + 1, N) END.",
    ),
    (13, 3, "VAR X: INTEGER;/BEGIN/READ(X) END."),
    (
        13,
        3,
        "VAR X: ARRAY (.1..11.) OF CHAR; I, J: INTEGER;/BEGIN/RUN(X, I, J) END.",
    ),
    (
        13,
        3,
        "VAR X: ARRAY (.1..12.) OF INTEGER; I, J: INTEGER;/BEGIN/RUN(X, I, J) END.",
    ),
    (
        13,
        3,
        "VAR X: ARRAY (.1..2.) OF CHAR;/BEGIN/READ(X(.1.)) END.",
    ),
    (13, 3, "VAR X: CHAR;/BEGIN/READ((X)) END."),
    (13, 3, "FUNCTION F: CHAR;/BEGIN/READ(F) END;/BEGIN END."),
    (13, 3, "CONST A = 'A';/BEGIN/READ(A) END."),
    (13, 3, "VAR I, J: INTEGER;/BEGIN/RUN(1, I, J) END."),
    (13, 3, "VAR I, J: INTEGER; C: CHAR;/BEGIN/RUN(C, I, J) END."),
    (
        13,
        3,
        "VAR X: ARRAY (.1..12.) OF CHAR; I, J: INTEGER;/BEGIN/RUN(X(.1.), I, J) END.",
    ),
    (
        13,
        3,
        "VAR X: ARRAY (.1..12.) OF CHAR; I: INTEGER;/BEGIN/RUN(X, 1, I) END.",
    ),
    (
        0,
        0,
        "VAR N: INTEGER;/PROCEDURE P(VAR A, B: INTEGER);/BEGIN B := B + A END;/BEGIN P(N, N) END.",
    ),
    (
        0,
        0,
        "VAR X: ARRAY (.0..11.) OF CHAR; I: INTEGER; B: BOOLEAN;/BEGIN RUN(X,I,I); LOOKUP(X,I,B) END.",
    ),
    (
        0,
        0,
        "PROCEDURE P(VAR A: CHAR);/BEGIN READ(A); WRITE(A); P(A) END;/BEGIN END.",
    ),
    (
        11,
        2,
        "VAR P: ARRAY (.1..512.) OF CHAR;/BEGIN OPEN(1, P, P) END.",
    ),
];

#[test]
fn arguments_of_another_type(rt: HostRuntime) {
    judge_all(&rt, rt.alloc(), &ARGUMENTS_OF_ANOTHER_TYPE);
}

const CONTROLS_AND_BOUNDS_OF_A_FOR: [Row; 12] = [
    (14, 3, "VAR C: CHAR;/BEGIN/FOR C := 1 TO 2 DO END."),
    (14, 3, "VAR I: INTEGER;/BEGIN/FOR I := 'A' TO 2 DO END."),
    (14, 3, "VAR I: INTEGER;/BEGIN/FOR I := 1 TO TRUE DO END."),
    (
        14,
        3,
        "VAR A: ARRAY (.1..2.) OF INTEGER;/BEGIN/FOR A := 1 TO 2 DO END.",
    ),
    (14, 3, "CONST A = 1;/BEGIN/FOR A := 1 TO 2 DO END."),
    (
        14,
        3,
        "FUNCTION F: INTEGER;/BEGIN/FOR F := 1 TO 2 DO END;/BEGIN END.",
    ),
    (2, 3, "VAR C: CHAR;/BEGIN FOR C := 1 TO 2 DO/X := 1 END."),
    (14, 2, "BEGIN/FOR WRITE := 1 TO 2 DO END."),
    (14, 2, "BEGIN/FOR CHAR := 1 TO 2 DO END."),
    (
        14,
        4,
        "VAR C: CHAR;/BEGIN/FOR C := 1 TO 2 DO/FOR C := 1 TO 2 DO END.",
    ),
    (
        0,
        0,
        "PROCEDURE P(VAR I: INTEGER);/BEGIN FOR I := 1 TO 2 DO END;/BEGIN END.",
    ),
    (0, 0, "VAR I: INTEGER;/BEGIN FOR I := I DOWNTO -I DO END."),
];

#[test]
fn controls_and_bounds_of_a_for(rt: HostRuntime) {
    judge_all(&rt, rt.alloc(), &CONTROLS_AND_BOUNDS_OF_A_FOR);
}

const LABELS_OF_A_CASE: [Row; 14] = [
    (15, 3, "VAR I: INTEGER;/BEGIN CASE I OF/'A': END END."),
    (15, 3, "VAR I: INTEGER;/BEGIN CASE I OF 1: ;/1: END END."),
    (15, 3, "VAR I: INTEGER;/BEGIN CASE I OF 1,/1: END END."),
    (
        15,
        4,
        "CONST A = 1;/VAR I: INTEGER;/BEGIN CASE I OF A: ;/1: END END.",
    ),
    (
        15,
        3,
        "VAR I: INTEGER;/BEGIN CASE I OF/'A':/X := 1 END END.",
    ),
    (
        2,
        3,
        "VAR I: INTEGER;/BEGIN CASE I OF 1:/X := 1;/1: END END.",
    ),
    (
        15,
        3,
        "VAR C: CHAR;/BEGIN CASE C OF 'A': ;/'(:65:)': END END.",
    ),
    (15, 2, "BEGIN CASE TRUE OF TRUE: ;/TRUE: END END."),
    (
        15,
        3,
        "VAR I: INTEGER;/BEGIN CASE I OF 1: CASE I OF 2: ; 1: END; 2: ;/2: END END.",
    ),
    (15, 3, "VAR I: INTEGER;/BEGIN CASE I OF -1: ;/-/1: END END."),
    (
        15,
        3,
        "VAR I: INTEGER;/BEGIN FOR I := 1 TO 3 DO/CASE I OF 1: ; 1: END END.",
    ),
    (8, 1, "BEGIN CASE 1 + TRUE OF/'A': END END."),
    (
        0,
        0,
        "VAR I: INTEGER;/BEGIN FOR I := 1 TO 3 DO/CASE I OF 1, 3: WRITE('X'); 2: WRITE('Y') END END.",
    ),
    (
        0,
        0,
        "VAR I: INTEGER;/BEGIN CASE I OF 1, -1: CASE I OF 1, -1: END; 2, -2: END END.",
    ),
];

#[test]
fn labels_of_a_case(rt: HostRuntime) {
    judge_all(&rt, rt.alloc(), &LABELS_OF_A_CASE);
}
