use crate::program_ends::{Row, each_ends};
use solo_base::ProgResult::{RangeError, Terminated};

const FOR_AT_THE_ENDS_OF_THE_RANGE: [Row; 6] = [
    (
        "VAR I, N: INTEGER;\nBEGIN FOR I := 32765 TO 32767 DO N := N + 1;\nWRITEINT(N); WRITEINT(I) END.",
        Terminated,
        3,
        9,
        "332767/",
    ),
    (
        "VAR I, N: INTEGER;\nBEGIN FOR I := -32766 DOWNTO -32767 - 1 DO N := N + 1;\nWRITEINT(N); WRITEINT(I) END.",
        Terminated,
        3,
        9,
        "3-32768/",
    ),
    (
        "VAR I: INTEGER;\nBEGIN I := 9; FOR I := 2 TO 1 DO WRITEINT(I);\nWRITEINT(I) END.",
        Terminated,
        3,
        3,
        "9/",
    ),
    (
        "VAR I: INTEGER;\nBEGIN I := 9; FOR I := 1 DOWNTO 2 DO WRITEINT(I);\nWRITEINT(I) END.",
        Terminated,
        3,
        3,
        "9/",
    ),
    (
        "VAR I: INTEGER;\nBEGIN FOR I := 4 TO 4 DO WRITEINT(I); WRITEINT(I) END.",
        Terminated,
        2,
        4,
        "44/",
    ),
    (
        "VAR I: INTEGER;\nBEGIN FOR I := 3 DOWNTO 1 DO WRITEINT(I);\nWRITEINT(I) END.",
        Terminated,
        3,
        8,
        "3211/",
    ),
];

#[test]
fn for_at_the_ends_of_the_range(rt: HostRuntime) {
    each_ends(&rt, rt.alloc(), &FOR_AT_THE_ENDS_OF_THE_RANGE);
}

const FOR_COUNTS_BY_ITSELF: [Row; 7] = [
    (
        "VAR I: INTEGER;\nBEGIN FOR I := 1 TO 3 DO BEGIN WRITEINT(I); I := 10 END;\nWRITEINT(I) END.",
        Terminated,
        3,
        11,
        "12310/",
    ),
    (
        "VAR I, N: INTEGER;\nBEGIN N := 3; FOR I := 1 TO N DO N := 5;\nWRITEINT(I); WRITEINT(N) END.",
        Terminated,
        3,
        10,
        "35/",
    ),
    (
        "VAR I, J: INTEGER;\nBEGIN FOR I := 1 TO 2 DO FOR J := 1 TO 2 DO WRITEINT(I * 10 + J) END.",
        Terminated,
        2,
        13,
        "11122122/",
    ),
    (
        "VAR I: INTEGER;\nBEGIN FOR I := 1 TO 2 DO FOR I := 5 TO 6 DO WRITEINT(I) END.",
        Terminated,
        2,
        13,
        "5656/",
    ),
    (
        "VAR I, J: INTEGER;\nBEGIN FOR I := 1 TO 2 DO BEGIN FOR J := 3 TO 4 DO WRITEINT(J); FOR J := 5 DOWNTO 5 DO WRITEINT(J) END END.",
        Terminated,
        2,
        19,
        "345345/",
    ),
    (
        "VAR G: INTEGER;\nPROCEDURE P(VAR X: INTEGER);\nBEGIN FOR X := 1 TO 2 DO WRITEINT(G) END;\nBEGIN P(G); WRITEINT(G) END.",
        Terminated,
        4,
        7,
        "122/",
    ),
    (
        "VAR G: INTEGER;\nPROCEDURE P(N: INTEGER);\nVAR I: INTEGER;\nBEGIN FOR I := 1 TO N DO BEGIN WRITEINT(I); P(N - 1) END END;\nBEGIN P(2) END.",
        Terminated,
        5,
        18,
        "1121/",
    ),
];

#[test]
fn for_counts_by_itself(rt: HostRuntime) {
    each_ends(&rt, rt.alloc(), &FOR_COUNTS_BY_ITSELF);
}

const TESTS_OF_LOOPS_TAKE_TICKS: [Row; 5] = [
    (
        "VAR I: INTEGER;\nBEGIN WHILE I < 3 DO I := I + 1;\nWRITEINT(I) END.",
        Terminated,
        3,
        9,
        "3/",
    ),
    ("BEGIN WHILE FALSE DO WRITE('A') END.", Terminated, 1, 2, ""),
    (
        "VAR I: INTEGER;\nBEGIN REPEAT I := I + 1; WRITEINT(I) UNTIL I = 3 END.",
        Terminated,
        2,
        10,
        "123/",
    ),
    (
        "BEGIN REPEAT WRITE('A') UNTIL TRUE END.",
        Terminated,
        1,
        3,
        "A/",
    ),
    (
        "BEGIN ; ; BEGIN END; IF TRUE THEN; IF FALSE THEN ELSE END.",
        Terminated,
        1,
        2,
        "",
    ),
];

#[test]
fn tests_of_loops_take_ticks(rt: HostRuntime) {
    each_ends(&rt, rt.alloc(), &TESTS_OF_LOOPS_TAKE_TICKS);
}

const BRANCHES_OF_IF_AND_CASE: [Row; 6] = [
    (
        "VAR I: INTEGER;\nBEGIN FOR I := 1 TO 3 DO CASE I OF 1, 3: WRITE('X'); 2: WRITE('Y') END END.",
        Terminated,
        2,
        10,
        "XYX/",
    ),
    (
        "CONST A = -2; B = 'Q';\nBEGIN CASE 1 - 3 OF 2: WRITE('N'); A: WRITE('Y') END;\nCASE 'Q' OF 'P': WRITE('N'); B: WRITE('Z') END END.",
        Terminated,
        3,
        4,
        "YZ/",
    ),
    (
        "BEGIN CASE TRUE OF\nFALSE: WRITE('N');\nTRUE: CASE 5 OF\n4: WRITE('N'); 6, 5: WRITE('Y') END END END.",
        Terminated,
        4,
        3,
        "Y/",
    ),
    (
        "BEGIN CASE -32767 - 1 OF 1: WRITE('N'); -32767, 0: WRITE('M') ; 2: END;\nWRITE('Z') END.",
        RangeError,
        1,
        1,
        "",
    ),
    (
        "BEGIN IF FALSE THEN WRITE('N') ELSE\nIF TRUE THEN WRITE('Y') ELSE WRITE('N') END.",
        Terminated,
        2,
        3,
        "Y/",
    ),
    (
        "BEGIN IF FALSE THEN WRITE('N');\nWRITE('Y') END.",
        Terminated,
        2,
        2,
        "Y/",
    ),
];

#[test]
fn branches_of_if_and_case(rt: HostRuntime) {
    each_ends(&rt, rt.alloc(), &BRANCHES_OF_IF_AND_CASE);
}
