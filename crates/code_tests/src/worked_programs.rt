use crate::program_ends::{MANY, Row, each_ends, each_ends_with};
use solo_base::ProgResult::{Overflow, RangeError, Terminated, TimeLimit};

const SUM: &str =
    "VAR I, S: INTEGER;\nBEGIN\nS := 0;\nFOR I := 1 TO 4 DO S := S + I;\nWRITEINT(S); WRITE(NL)\nEND.";

#[test]
fn worked_programs(rt: HostRuntime) {
    let rows: [Row; 6] = [
        (SUM, Terminated, 5, 12, "10/"),
        (
            "VAR X: INTEGER;\nBEGIN\nX := 32767 + 1\nEND.",
            Overflow,
            3,
            1,
            "",
        ),
        (
            "VAR N: INTEGER;\nPROCEDURE P(VAR A, B: INTEGER);\nBEGIN A := 1; B := B + A END;\nBEGIN P(N, N); WRITEINT(N) END.",
            Terminated,
            4,
            4,
            "2/",
        ),
        (
            "VAR I: INTEGER;\nBEGIN FOR I := 1 TO 3 DO\nCASE I OF 1, 3: WRITE('X'); 2: WRITE('Y') END\nEND.",
            Terminated,
            3,
            10,
            "XYX/",
        ),
        (
            "VAR I: INTEGER;\nBEGIN FOR I := 1 TO 3 DO\nCASE I OF 1: WRITE('X') END\nEND.",
            RangeError,
            3,
            6,
            "X/",
        ),
        (
            "VAR I: INTEGER;\nBEGIN\nFOR I := 1 TO 3 DO BEGIN WRITEINT(I); WRITE(NL) END\nEND.",
            Terminated,
            3,
            10,
            "1/2/3/",
        ),
    ];
    each_ends(&rt, rt.alloc(), &rows);
    let limited: [(&str, u32, Row); 2] = [
        ("", 11, (SUM, TimeLimit, 5, 11, "10/")),
        (
            "",
            3,
            (
                "BEGIN\nWHILE TRUE DO WRITE('A')\nEND.",
                TimeLimit,
                2,
                3,
                "A/",
            ),
        ),
    ];
    each_ends_with(&rt, rt.alloc(), &limited);
}

const LINES_THAT_ARE_PRINTED: [Row; 5] = [
    (
        "BEGIN WRITE('A'); WRITE(NL); WRITE('B') END.",
        Terminated,
        1,
        3,
        "A/B/",
    ),
    (
        "BEGIN WRITE(NL); WRITE('A'); WRITE(NL) END.",
        Terminated,
        1,
        3,
        "/A/",
    ),
    (
        "BEGIN WRITEINT(0); WRITE(' '); WRITEINT(-10) END.",
        Terminated,
        1,
        3,
        "0 -10/",
    ),
    (
        "BEGIN WRITE(EM); WRITE(CHR(32)); WRITE(CHR(126)) END.",
        Terminated,
        1,
        3,
        "? ~/",
    ),
    (
        "VAR I: INTEGER;\nBEGIN FOR I := 1 TO 133 DO WRITE('A') END.",
        Terminated,
        2,
        267,
        "AAAAAAAAAAAAAAAAAAAAAAAAAAAAAAAAAAAAAAAAAAAAAAAAAAAAAAAAAAAAAAAAAAAAAAAAAAAAAAAAAAAAAAAAAAAAAAAAAAAAAAAAAAAAAAAAAAAAAAAAAAAAAAAAAAAA/A/",
    ),
];

#[test]
fn lines_that_are_printed(rt: HostRuntime) {
    each_ends(&rt, rt.alloc(), &LINES_THAT_ARE_PRINTED);
}

#[test]
fn characters_that_are_read(rt: HostRuntime) {
    let five =
        "VAR C: CHAR; I: INTEGER;\nBEGIN FOR I := 1 TO 5 DO BEGIN READ(C); WRITEINT(ORD(C)); WRITE(' ') END END.";
    let rows: [(&str, u32, Row); 4] = [
        ("", MANY, (five, Terminated, 2, 21, "25 25 25 25 25 /")),
        ("AB\nC", MANY, (five, Terminated, 2, 21, "65 66 10 67 10 /")),
        ("\n\nZ", MANY, (five, Terminated, 2, 21, "10 10 90 10 25 /")),
        (
            "HELLO\nYOU",
            MANY,
            (
                "VAR C: CHAR;\nPROCEDURE NEXT(VAR X: CHAR);\nBEGIN READ(X) END;\nBEGIN NEXT(C); WHILE C <> EM DO BEGIN WRITE(C); NEXT(C) END END.",
                Terminated,
                4,
                44,
                "HELLO/YOU/",
            ),
        ),
    ];
    each_ends_with(&rt, rt.alloc(), &rows);
}
