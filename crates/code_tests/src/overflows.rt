use crate::program_ends::{Row, each_ends};
use solo_base::ProgResult::{Overflow, Terminated};

const SUMS_AND_PRODUCTS_OUT_OF_RANGE: [Row; 7] = [
    (
        "VAR I: INTEGER;\nBEGIN I := 32767;\nI := I + 1 END.",
        Overflow,
        3,
        2,
        "",
    ),
    (
        "BEGIN WRITEINT(-32767 - 1);\nWRITEINT(-32767 - 2) END.",
        Overflow,
        2,
        2,
        "-32768/",
    ),
    ("BEGIN WRITEINT(200 * 200) END.", Overflow, 1, 1, ""),
    ("BEGIN WRITEINT(181 * 181) END.", Terminated, 1, 1, "32761/"),
    (
        "BEGIN WRITEINT(1);\nWRITEINT(1 DIV 0) END.",
        Overflow,
        2,
        2,
        "1/",
    ),
    (
        "BEGIN WRITEINT(1);\n\nWRITEINT(1 MOD 0) END.",
        Overflow,
        3,
        2,
        "1/",
    ),
    ("BEGIN WRITEINT(-200 * 164 + 32) END.", Overflow, 1, 1, ""),
];

#[test]
fn sums_and_products_out_of_range(rt: HostRuntime) {
    each_ends(&rt, rt.alloc(), &SUMS_AND_PRODUCTS_OUT_OF_RANGE);
}

const THE_LEAST_NUMBER: [Row; 4] = [
    (
        "VAR I: INTEGER;\nBEGIN I := -32767 - 1;\nWRITEINT(I MOD (-1));\nWRITEINT(I DIV (-1)) END.",
        Overflow,
        4,
        3,
        "0/",
    ),
    (
        "VAR I: INTEGER;\nBEGIN I := -32767 - 1;\nI := -I END.",
        Overflow,
        3,
        2,
        "",
    ),
    (
        "VAR I: INTEGER;\nBEGIN I := -32767 - 1;\nI := ABS(I) END.",
        Overflow,
        3,
        2,
        "",
    ),
    (
        "VAR I: INTEGER;\nBEGIN I := PRED(-32767);\nWRITEINT(I);\nI := PRED(I) END.",
        Overflow,
        4,
        3,
        "-32768/",
    ),
];

#[test]
fn the_least_number(rt: HostRuntime) {
    each_ends(&rt, rt.alloc(), &THE_LEAST_NUMBER);
}

const OVERFLOW_IN_EACH_KIND_OF_PLACE: [Row; 8] = [
    (
        "BEGIN WRITEINT(SUCC(32766));\nWRITEINT(SUCC(32767)) END.",
        Overflow,
        2,
        2,
        "32767/",
    ),
    (
        "BEGIN WRITE('A');\nIF 1 DIV 0 = 0 THEN WRITE('B') END.",
        Overflow,
        2,
        2,
        "A/",
    ),
    (
        "BEGIN WRITE('A');\nWHILE 1 DIV 0 = 0 DO WRITE('B') END.",
        Overflow,
        2,
        3,
        "A/",
    ),
    (
        "BEGIN REPEAT\nWRITE('A')\nUNTIL 1 DIV 0 = 0 END.",
        Overflow,
        1,
        3,
        "A/",
    ),
    (
        "VAR I: INTEGER;\nBEGIN FOR I := 1 DIV 0 TO 2 DO WRITE('A') END.",
        Overflow,
        2,
        1,
        "",
    ),
    (
        "VAR I: INTEGER;\nBEGIN FOR I := 1 TO 1 DIV 0 DO WRITE('A') END.",
        Overflow,
        2,
        1,
        "",
    ),
    (
        "BEGIN CASE 1 DIV 0 OF\n0: WRITE('A') END END.",
        Overflow,
        1,
        1,
        "",
    ),
    (
        "PROCEDURE P(N: INTEGER);\nBEGIN WRITEINT(N) END;\nBEGIN P(1);\nP(1 DIV 0) END.",
        Overflow,
        4,
        3,
        "1/",
    ),
];

#[test]
fn overflow_in_each_kind_of_place(rt: HostRuntime) {
    each_ends(&rt, rt.alloc(), &OVERFLOW_IN_EACH_KIND_OF_PLACE);
}

// The line is that of the routine.
const OVERFLOW_IN_A_ROUTINE: [Row; 2] = [
    (
        "FUNCTION F(N: INTEGER): INTEGER;\nBEGIN IF N = 0 THEN F := 1 ELSE F := N * F(N - 1) END;\nBEGIN WRITEINT(F(7));\nWRITEINT(F(8)) END.",
        Overflow,
        2,
        36,
        "5040/",
    ),
    (
        "PROCEDURE P;\nBEGIN WRITE('A');\nWRITEINT(1 DIV 0) END;\nBEGIN P;\nWRITE('B') END.",
        Overflow,
        3,
        3,
        "A/",
    ),
];

#[test]
fn overflow_in_a_routine(rt: HostRuntime) {
    each_ends(&rt, rt.alloc(), &OVERFLOW_IN_A_ROUTINE);
}

const QUOTIENTS_RESTS_AND_SIGNS: [Row; 4] = [
    (
        "BEGIN WRITEINT(-7 DIV 2); WRITEINT((0 - 7) DIV 2);\nWRITEINT((0 - 7) MOD 2); WRITEINT(7 MOD (-2)) END.",
        Terminated,
        2,
        4,
        "-3-3-11/",
    ),
    ("BEGIN WRITEINT(-2 * 3 + 10) END.", Terminated, 1, 1, "4/"),
    ("BEGIN WRITEINT(+2 - 3 - 4) END.", Terminated, 1, 1, "-5/"),
    (
        "BEGIN WRITEINT(100 DIV 7 MOD 4 * 3) END.",
        Terminated,
        1,
        1,
        "6/",
    ),
];

#[test]
fn quotients_rests_and_signs(rt: HostRuntime) {
    each_ends(&rt, rt.alloc(), &QUOTIENTS_RESTS_AND_SIGNS);
}
