use crate::judging::{Row, judge_all};

const OPERANDS_OF_OPERATORS: [Row; 17] = [
    (8, 2, "VAR X: INTEGER;/BEGIN X := 1 +/TRUE END."),
    (8, 3, "VAR X: INTEGER;/BEGIN X := 'A'/* 2 END."),
    (8, 3, "VAR B: BOOLEAN;/BEGIN B := 1/= TRUE END."),
    (8, 3, "VAR B: BOOLEAN;/BEGIN B :=/NOT 1 END."),
    (8, 3, "VAR X: INTEGER;/BEGIN X :=/-TRUE END."),
    (8, 3, "VAR B: BOOLEAN;/BEGIN B := TRUE/OR 1 END."),
    (8, 2, "VAR B: BOOLEAN;/BEGIN B := TRUE &/1 END."),
    (8, 3, "VAR X: INTEGER;/BEGIN X := (TRUE/+ 1) +/'A' END."),
    (8, 3, "VAR X: INTEGER;/BEGIN X := 1/+ TRUE/+ 'A' END."),
    (8, 3, "VAR X: INTEGER;/BEGIN X := 1 + 2/* TRUE END."),
    (8, 4, "VAR X: INTEGER;/BEGIN X := TRUE/+ 1/* 'A' END."),
    (8, 3, "VAR X: INTEGER;/BEGIN X :=/+TRUE END."),
    (8, 3, "VAR X: INTEGER;/BEGIN X := 1/DIV 'A' END."),
    (8, 3, "VAR X: INTEGER;/BEGIN X := 1/MOD TRUE END."),
    (8, 4, "VAR X: INTEGER;/BEGIN X :=/1/OR 2/+ 3 END."),
    (
        0,
        0,
        "VAR B: BOOLEAN;/BEGIN B := ('A' < 'B') & (TRUE >= FALSE) OR NOT (1 <> 2) END.",
    ),
    (
        0,
        0,
        "VAR X: INTEGER;/BEGIN X := -X + 3 DIV X MOD 2 - ABS(X) END.",
    ),
];

#[test]
fn operands_of_operators(rt: HostRuntime) {
    judge_all(&rt, rt.alloc(), &OPERANDS_OF_OPERATORS);
}

const TESTS_THAT_ARE_NOT_BOOLEAN: [Row; 13] = [
    (9, 1, "BEGIN IF 1 THEN END."),
    (9, 2, "BEGIN/WHILE 'A' DO END."),
    (9, 2, "BEGIN REPEAT/UNTIL 1 END."),
    (2, 2, "BEGIN IF 1 THEN/X := 1 END."),
    (9, 2, "BEGIN/IF 1 THEN/ELSE/END."),
    (9, 2, "BEGIN IF TRUE THEN/WHILE 1 DO/END."),
    (2, 2, "BEGIN REPEAT/X := 1/UNTIL 1 END."),
    (9, 2, "BEGIN WHILE 1 DO/IF 2 THEN END."),
    (2, 3, "BEGIN IF 1 THEN/ELSE/X := 1 END."),
    (2, 2, "BEGIN WHILE 1 DO/X := 1 END."),
    (2, 2, "BEGIN IF/X THEN Y := 1 END."),
    (9, 1, "BEGIN IF NL THEN; X := 1 END."),
    (
        0,
        0,
        "BEGIN IF TRUE THEN WHILE FALSE DO REPEAT UNTIL TRUE END.",
    ),
];

#[test]
fn tests_that_are_not_boolean(rt: HostRuntime) {
    judge_all(&rt, rt.alloc(), &TESTS_THAT_ARE_NOT_BOOLEAN);
}

const SIDES_OF_AN_ASSIGNMENT: [Row; 9] = [
    (10, 3, "VAR X: INTEGER;/BEGIN X/:= TRUE END."),
    (10, 2, "VAR X: CHAR;/BEGIN X := 1 END."),
    (
        10,
        3,
        "VAR X: ARRAY (.1..2.) OF CHAR;/BEGIN X(.1.)/:= 1 END.",
    ),
    (10, 3, "FUNCTION F: CHAR;/BEGIN F/:= 1 END;/BEGIN END."),
    (
        10,
        2,
        "PROCEDURE P(VAR A: CHAR);/BEGIN A := 1 END;/BEGIN END.",
    ),
    (10, 3, "VAR X: ARRAY (.1..2.) OF CHAR;/BEGIN X/:= 1 END."),
    (
        10,
        3,
        "VAR X: ARRAY (.1..2.) OF CHAR;/BEGIN X(.TRUE.)/:= 1 END.",
    ),
    (
        10,
        2,
        "FUNCTION F(F: CHAR): INTEGER;/BEGIN F := 1 END;/BEGIN END.",
    ),
    (
        0,
        0,
        "VAR X: ARRAY (.1..2.) OF CHAR;/BEGIN X(.1.) := X(.2.) END.",
    ),
];

#[test]
fn sides_of_an_assignment(rt: HostRuntime) {
    judge_all(&rt, rt.alloc(), &SIDES_OF_AN_ASSIGNMENT);
}

const INDEXES_AND_ARRAYS_WITHOUT_ONE: [Row; 14] = [
    (
        11,
        2,
        "VAR X: ARRAY (.1..2.) OF CHAR;/BEGIN X(.TRUE.) := 'A' END.",
    ),
    (11, 2, "VAR X: INTEGER;/BEGIN X(.1.) := TRUE END."),
    (11, 3, "VAR X: INTEGER;/BEGIN X :=/X(.1.) END."),
    (
        11,
        4,
        "VAR X: ARRAY (.1..2.) OF INTEGER;/Y: INTEGER;/BEGIN Y :=/X END.",
    ),
    (11, 3, "VAR X: ARRAY (.1..2.) OF CHAR;/BEGIN WRITE(/X) END."),
    (
        11,
        3,
        "VAR X: ARRAY (.1..12.) OF CHAR; I, J: INTEGER;/BEGIN RUN(/(X), I, J) END.",
    ),
    (
        11,
        3,
        "VAR X: ARRAY (.1..2.) OF INTEGER;/BEGIN X(./X.) := 1 END.",
    ),
    (
        11,
        2,
        "FUNCTION F: INTEGER;/BEGIN F(.1.) := 1 END;/BEGIN END.",
    ),
    (
        11,
        4,
        "VAR X: ARRAY (.1..2.) OF INTEGER;/Y: INTEGER;/BEGIN Y :=/X(1) END.",
    ),
    (
        11,
        5,
        "VAR X: ARRAY (.1..2.) OF INTEGER;/PROCEDURE P;/BEGIN END;/BEGIN P(/X) END.",
    ),
    (11, 3, "VAR X: ARRAY (.1..2.) OF CHAR;/BEGIN READ(/X) END."),
    (11, 2, "VAR X: INTEGER;/BEGIN X := ABS(.1.) END."),
    (11, 3, "VAR X: INTEGER;/BEGIN/X(.TRUE.) := TRUE END."),
    (
        11,
        3,
        "VAR X: ARRAY (.1..12.) OF CHAR;/BEGIN RUN(X,/X) END.",
    ),
];

#[test]
fn indexes_and_arrays_without_one(rt: HostRuntime) {
    judge_all(&rt, rt.alloc(), &INDEXES_AND_ARRAYS_WITHOUT_ONE);
}
