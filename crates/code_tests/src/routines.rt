use crate::program_ends::{Row, each_ends};
use solo_base::ProgResult::Terminated;

const RESULTS_AND_VARIABLES_BEGIN_AS_0: [Row; 6] = [
    (
        "FUNCTION F: INTEGER;\nBEGIN END;\nBEGIN WRITEINT(F) END.",
        Terminated,
        3,
        1,
        "0/",
    ),
    (
        "FUNCTION F(N: INTEGER): INTEGER;\nBEGIN IF N > 0 THEN F := N END;\nBEGIN WRITEINT(F(5)); WRITEINT(F(0)) END.",
        Terminated,
        3,
        5,
        "50/",
    ),
    (
        "FUNCTION F: INTEGER;\nBEGIN F := 1; F := 2 END;\nBEGIN WRITEINT(F) END.",
        Terminated,
        3,
        3,
        "2/",
    ),
    (
        "PROCEDURE P;\nVAR X: INTEGER;\nBEGIN X := X + 1; WRITEINT(X) END;\nBEGIN P; P END.",
        Terminated,
        4,
        6,
        "11/",
    ),
    (
        "VAR G: INTEGER;\nPROCEDURE P;\nBEGIN G := G + 1 END;\nBEGIN P; P; WRITEINT(G) END.",
        Terminated,
        4,
        5,
        "2/",
    ),
    (
        "FUNCTION F: BOOLEAN;\nBEGIN END;\nFUNCTION C: CHAR;\nBEGIN C := 'K' END;\nBEGIN IF F THEN WRITE('N') ELSE WRITE(C) END.",
        Terminated,
        5,
        3,
        "K/",
    ),
];

#[test]
fn results_and_variables_begin_as_0(rt: HostRuntime) {
    each_ends(&rt, rt.alloc(), &RESULTS_AND_VARIABLES_BEGIN_AS_0);
}

const A_VAR_PARAMETER_IS_ANOTHER_NAME: [Row; 7] = [
    (
        "VAR G: INTEGER;\nPROCEDURE P(VAR X: INTEGER);\nBEGIN X := 5; WRITEINT(G); G := 7; WRITEINT(X) END;\nBEGIN P(G); WRITEINT(G) END.",
        Terminated,
        4,
        6,
        "577/",
    ),
    (
        "VAR G: INTEGER;\nPROCEDURE Q(VAR Y: INTEGER);\nBEGIN Y := Y + 1 END;\nPROCEDURE P(VAR X: INTEGER);\nBEGIN Q(X); Q(X) END;\nBEGIN G := 5; P(G); WRITEINT(G) END.",
        Terminated,
        6,
        7,
        "7/",
    ),
    (
        "VAR G: INTEGER;\nPROCEDURE P(VAR X, Y: INTEGER);\nBEGIN X := 1; Y := Y + X END;\nBEGIN P(G, G); WRITEINT(G) END.",
        Terminated,
        4,
        4,
        "2/",
    ),
    (
        "VAR G: INTEGER;\nPROCEDURE P(N: INTEGER; VAR X: INTEGER);\nVAR L: INTEGER;\nBEGIN IF N = 0 THEN X := 7 ELSE BEGIN P(N - 1, L); X := L + 1 END END;\nBEGIN P(3, G); WRITEINT(G) END.",
        Terminated,
        5,
        13,
        "10/",
    ),
    (
        "VAR G: INTEGER;\nPROCEDURE P(N: INTEGER; VAR X: INTEGER);\nBEGIN X := X + N; IF N > 1 THEN P(N - 1, X) END;\nBEGIN P(4, G); WRITEINT(G) END.",
        Terminated,
        4,
        13,
        "10/",
    ),
    (
        "VAR A, B: INTEGER;\nPROCEDURE S(VAR X, Y: INTEGER);\nVAR T: INTEGER;\nBEGIN T := X; X := Y; Y := T END;\nBEGIN A := 1; B := 2; S(A, B); WRITEINT(A); WRITEINT(B) END.",
        Terminated,
        5,
        8,
        "21/",
    ),
    (
        "VAR G: INTEGER;\nPROCEDURE P(X: INTEGER);\nBEGIN X := 5; WRITEINT(X); WRITEINT(G) END;\nBEGIN G := 1; P(G); WRITEINT(G) END.",
        Terminated,
        4,
        6,
        "511/",
    ),
];

#[test]
fn a_var_parameter_is_another_name(rt: HostRuntime) {
    each_ends(&rt, rt.alloc(), &A_VAR_PARAMETER_IS_ANOTHER_NAME);
}

const WHAT_A_NAME_MEANS: [Row; 7] = [
    (
        "VAR X: INTEGER;\nPROCEDURE P;\nVAR X: INTEGER;\nBEGIN X := 3; WRITEINT(X) END;\nBEGIN X := 1; P; WRITEINT(X) END.",
        Terminated,
        5,
        5,
        "31/",
    ),
    (
        "PROCEDURE P;\nBEGIN WRITE('A') END;\nPROCEDURE WRITE(C: CHAR);\nBEGIN END;\nBEGIN P; WRITE('B') END.",
        Terminated,
        5,
        3,
        "A/",
    ),
    (
        "CONST NL = 'X';\nPROCEDURE P(TRUE: CHAR);\nBEGIN WRITE(TRUE) END;\nBEGIN WRITE(NL); P('Y') END.",
        Terminated,
        4,
        3,
        "XY/",
    ),
    (
        "CONST A = 5; B = A; C = -5;\nPROCEDURE P;\nCONST A = 6; D = A;\nBEGIN WRITEINT(A); WRITEINT(B); WRITEINT(D) END;\nBEGIN P; WRITEINT(A); WRITEINT(C) END.",
        Terminated,
        5,
        6,
        "6565-5/",
    ),
    (
        "VAR abc: INTEGER;\nBEGIN ABC := 4; WriteInt(Abc) END.",
        Terminated,
        2,
        2,
        "4/",
    ),
    (
        "PROCEDURE P(N: INTEGER);\nBEGIN IF N > 0 THEN P(N - 1);\nWRITEINT(N) END;\nBEGIN P(2) END.",
        Terminated,
        4,
        9,
        "012/",
    ),
    (
        "CONST LOW = -1; HIGH = 1;\nVAR A: ARRAY (. LOW .. HIGH .) OF BOOLEAN;\nBEGIN A(. HIGH .) := TRUE;\nIF A(. 1 .) & NOT A(. LOW .) THEN WRITE('Y') END.",
        Terminated,
        4,
        3,
        "Y/",
    ),
];

#[test]
fn what_a_name_means(rt: HostRuntime) {
    each_ends(&rt, rt.alloc(), &WHAT_A_NAME_MEANS);
}
