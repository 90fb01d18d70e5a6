use crate::program_ends::{Row, each_ends};
use solo_base::ProgResult::{CallError, Overflow, RangeError, Terminated};

const CHARACTERS_AND_CASES_OUT_OF_RANGE: [Row; 5] = [
    (
        "BEGIN WRITE(CHR(127));\nWRITE(CHR(128)) END.",
        RangeError,
        2,
        2,
        "?/",
    ),
    (
        "BEGIN WRITE(CHR(0));\nWRITE(CHR(-1)) END.",
        RangeError,
        2,
        2,
        "?/",
    ),
    (
        "BEGIN CASE 3 OF\n1: WRITEINT(1);\n2: WRITEINT(2) END END.",
        RangeError,
        1,
        1,
        "",
    ),
    (
        "VAR I: INTEGER;\nBEGIN FOR I := 1 TO 3 DO\nCASE I OF\n1: WRITE('X') END END.",
        RangeError,
        3,
        6,
        "X/",
    ),
    ("BEGIN WRITEINT(ORD(CHR(65))) END.", Terminated, 1, 1, "65/"),
];

#[test]
fn characters_and_cases_out_of_range(rt: HostRuntime) {
    each_ends(&rt, rt.alloc(), &CHARACTERS_AND_CASES_OUT_OF_RANGE);
}

const ELEMENTS_AT_THE_BOUNDS_AND_BEYOND: [Row; 6] = [
    (
        "VAR A: ARRAY (. 2 .. 4 .) OF INTEGER;\nBEGIN A(. 2 .) := 7;\nA(. 4 .) := 9;\nWRITEINT(A(. 2 .)); WRITEINT(A(. 3 .)); WRITEINT(A(. 4 .));\nWRITEINT(A(. 5 .)) END.",
        RangeError,
        5,
        6,
        "709/",
    ),
    (
        "VAR A: ARRAY (. 2 .. 4 .) OF INTEGER;\nBEGIN WRITEINT(A(. 1 .)) END.",
        RangeError,
        2,
        1,
        "",
    ),
    (
        "VAR A: ARRAY (. 2 .. 4 .) OF INTEGER;\nBEGIN A(. 1 .) := 7 END.",
        RangeError,
        2,
        1,
        "",
    ),
    (
        "VAR A: ARRAY (. 2 .. 4 .) OF INTEGER;\nBEGIN A(. 5 .) := 7 END.",
        RangeError,
        2,
        1,
        "",
    ),
    (
        "VAR A: ARRAY (. -1 .. 1 .) OF INTEGER;\nBEGIN A(. -1 .) := 5;\nWRITEINT(A(. -1 .)); WRITEINT(A(. 0 .));\nA(. -2 .) := 1 END.",
        RangeError,
        4,
        4,
        "50/",
    ),
    (
        "VAR A: ARRAY (. 3 .. 3 .) OF INTEGER;\nBEGIN A(. 3 .) := 8;\nA(. 3 .) := A(. 3 .) + 1; WRITEINT(A(. 3 .)) END.",
        Terminated,
        3,
        3,
        "9/",
    ),
];

#[test]
fn elements_at_the_bounds_and_beyond(rt: HostRuntime) {
    each_ends(&rt, rt.alloc(), &ELEMENTS_AT_THE_BOUNDS_AND_BEYOND);
}

const AN_INDEX_IS_TESTED_BEFORE_THE_VALUE: [Row; 3] = [
    (
        "VAR A: ARRAY (. 1 .. 2 .) OF INTEGER;\nBEGIN A(. 3 .) := 1 DIV 0 END.",
        RangeError,
        2,
        1,
        "",
    ),
    (
        "VAR A: ARRAY (. 1 .. 2 .) OF INTEGER;\nBEGIN A(. 2 .) := 1 DIV 0 END.",
        Overflow,
        2,
        1,
        "",
    ),
    (
        "VAR A, B: ARRAY (. 1 .. 2 .) OF INTEGER;\nBEGIN A(. B(. 1 .) .) := 1 END.",
        RangeError,
        2,
        1,
        "",
    ),
];

#[test]
fn an_index_is_tested_before_the_value(rt: HostRuntime) {
    each_ends(&rt, rt.alloc(), &AN_INDEX_IS_TESTED_BEFORE_THE_VALUE);
}

const ARRAYS_OF_THE_PROGRAM_AND_OF_AN_ACTIVATION: [Row; 2] = [
    (
        "VAR A: ARRAY (. 1 .. 2 .) OF INTEGER;\nPROCEDURE P;\nBEGIN A(. 1 .) := A(. 1 .) + 1 END;\nBEGIN P; P; WRITEINT(A(. 1 .)); WRITEINT(A(. 2 .)) END.",
        Terminated,
        4,
        6,
        "20/",
    ),
    (
        "PROCEDURE P;\nVAR A: ARRAY (. 1 .. 2 .) OF INTEGER;\nBEGIN A(. 2 .) := A(. 2 .) + 1; WRITEINT(A(. 2 .)) END;\nBEGIN P; P END.",
        Terminated,
        4,
        6,
        "11/",
    ),
];

#[test]
fn arrays_of_the_program_and_of_an_activation(rt: HostRuntime) {
    each_ends(&rt, rt.alloc(), &ARRAYS_OF_THE_PROGRAM_AND_OF_AN_ACTIVATION);
}

const THE_BATCH_REFUSES_ALL_ROWS_BUT_THREE: [Row; 11] = [
    (
        "VAR C: CHAR;\nBEGIN WRITE('A');\nACCEPT(C) END.",
        CallError,
        3,
        2,
        "A/",
    ),
    ("BEGIN WRITE('A'); DISPLAY('B') END.", CallError, 1, 2, "A/"),
    (
        "VAR N: ARRAY (. 1 .. 12 .) OF CHAR; B: BOOLEAN;\nBEGIN OPEN(1, N, B) END.",
        CallError,
        2,
        1,
        "",
    ),
    ("BEGIN CLOSE(1) END.", CallError, 1, 1, ""),
    (
        "VAR P: ARRAY (. 1 .. 512 .) OF CHAR;\nBEGIN GET(1, 1, P) END.",
        CallError,
        2,
        1,
        "",
    ),
    (
        "VAR P: ARRAY (. 1 .. 512 .) OF CHAR;\nBEGIN PUT(1, 1, P) END.",
        CallError,
        2,
        1,
        "",
    ),
    ("BEGIN WRITEINT(LENGTH(1)) END.", CallError, 1, 1, ""),
    (
        "VAR N: ARRAY (. 1 .. 12 .) OF CHAR; I: INTEGER; B: BOOLEAN;\nBEGIN LOOKUP(N, I, B) END.",
        CallError,
        2,
        1,
        "",
    ),
    (
        "VAR N: ARRAY (. 1 .. 12 .) OF CHAR; I, J: INTEGER;\nBEGIN READARG(I, J, N) END.",
        CallError,
        2,
        1,
        "",
    ),
    (
        "VAR N: ARRAY (. 1 .. 12 .) OF CHAR;\nBEGIN WRITEARG(1, 2, N) END.",
        CallError,
        2,
        1,
        "",
    ),
    (
        "VAR N: ARRAY (. 1 .. 12 .) OF CHAR; I, J: INTEGER;\nBEGIN RUN(N, I, J) END.",
        CallError,
        2,
        1,
        "",
    ),
];

#[test]
fn the_batch_refuses_all_rows_but_three(rt: HostRuntime) {
    each_ends(&rt, rt.alloc(), &THE_BATCH_REFUSES_ALL_ROWS_BUT_THREE);
}
