use crate::judging::{Row, judge_all};

const BOUNDS_OF_ARRAYS: [Row; 10] = [
    (5, 1, "VAR X: ARRAY (.2..1.) OF CHAR;/BEGIN END."),
    (5, 2, "VAR X:/ARRAY (.'A'..'Z'.) OF CHAR;/BEGIN END."),
    (5, 2, "VAR X:/ARRAY (.1..'Z'.) OF CHAR;/BEGIN END."),
    (5, 2, "VAR X:/ARRAY (.FALSE../TRUE.) OF CHAR;/BEGIN END."),
    (
        5,
        2,
        "CONST N = 0;/VAR X: ARRAY/(.1..N.) OF CHAR;/BEGIN END.",
    ),
    (5, 1, "VAR X: ARRAY (.-1..-2.) OF CHAR;/BEGIN END."),
    (5, 2, "VAR X: CHAR;/X: ARRAY (.2..1.) OF CHAR;/BEGIN END."),
    (0, 0, "VAR X: ARRAY (.1..1.) OF CHAR;/BEGIN END."),
    (0, 0, "VAR X: ARRAY (.-2..-1.) OF CHAR;/BEGIN END."),
    (
        0,
        0,
        "CONST N = 3;/PROCEDURE P; VAR N,M: ARRAY (.1..N.) OF CHAR;/BEGIN M(.3.):=N(.1.) END;/BEGIN END.",
    ),
];

#[test]
fn bounds_of_arrays(rt: HostRuntime) {
    judge_all(&rt, rt.alloc(), &BOUNDS_OF_ARRAYS);
}

const WORDS_OF_A_FRAME: [Row; 11] = [
    (
        6,
        2,
        "VAR X: ARRAY (.1..4096.) OF CHAR;/Y: CHAR;/BEGIN END.",
    ),
    (6, 1, "VAR X: ARRAY (.0..4096.) OF CHAR;/BEGIN END."),
    (6, 2, "VAR X,/Y: ARRAY (.1..3000.) OF CHAR;/BEGIN END."),
    (6, 1, "VAR X: ARRAY (.-32767..32767.) OF CHAR;/BEGIN END."),
    (
        6,
        2,
        "VAR X: ARRAY (.1..4000.) OF CHAR;/Y,/X: ARRAY (.1..97.) OF CHAR;/BEGIN END.",
    ),
    (
        6,
        3,
        "VAR X: ARRAY (.1..4000.) OF CHAR;/Y,/Z,/X: ARRAY (.1..96.) OF CHAR;/BEGIN END.",
    ),
    (
        6,
        2,
        "FUNCTION F: INTEGER;/VAR X: ARRAY (.1..4096.) OF CHAR;/BEGIN END;/BEGIN END.",
    ),
    (
        6,
        2,
        "PROCEDURE P(VAR A: CHAR);/VAR X: ARRAY (.1..4095.) OF CHAR;/BEGIN END;/BEGIN END.",
    ),
    (
        6,
        3,
        "PROCEDURE P(A: CHAR);/VAR X: ARRAY (.1..4095.) OF CHAR;/Y:/CHAR;/BEGIN END;/BEGIN END.",
    ),
    (
        0,
        0,
        "VAR X:ARRAY(.1..4096.)OF CHAR;/PROCEDURE P;VAR Y:ARRAY(.1..4096.)OF CHAR;BEGIN END;BEGIN END.",
    ),
    (
        0,
        0,
        "FUNCTION F: INTEGER;/VAR X: ARRAY (.1..4095.) OF CHAR;/BEGIN END;/BEGIN END.",
    ),
];

#[test]
fn words_of_a_frame(rt: HostRuntime) {
    judge_all(&rt, rt.alloc(), &WORDS_OF_A_FRAME);
}

const WORDS_OF_PARAMETERS: [Row; 8] = [
    (
        7,
        2,
        "PROCEDURE P(A,B,C,D,E,F,G,H,I,J,K,L,M,N,O,Q,/R: CHAR);/BEGIN END;/BEGIN END.",
    ),
    (
        7,
        2,
        "PROCEDURE P(VAR A,B,C,D,E,F,G,H,/I: CHAR);/BEGIN END;/BEGIN END.",
    ),
    (
        7,
        2,
        "PROCEDURE P(A: CHAR; VAR B,C,D,E,F,G,H,/I: CHAR);/BEGIN END;/BEGIN END.",
    ),
    (
        7,
        2,
        "FUNCTION F(A,B,C,D,E,G,H,I: CHAR; J,K,L,M,N,O,P,Q,/R: CHAR): CHAR;/BEGIN END;/BEGIN END.",
    ),
    (
        7,
        2,
        "PROCEDURE P(VAR A,B,C,D,E,F,G,H: CHAR;/I: CHAR);/BEGIN END;/BEGIN END.",
    ),
    (
        7,
        2,
        "PROCEDURE P(A,B,C,D,E,F,G,H,I,J,K,L,M,N,O: CHAR;/VAR R: CHAR; S: REAL);/BEGIN END;/BEGIN END.",
    ),
    (
        0,
        0,
        "PROCEDURE P(A,B,C,D,E,F,G,H,I,J,K,L,M,N,O,Q: CHAR);/BEGIN END;/BEGIN END.",
    ),
    (
        0,
        0,
        "FUNCTION P(VAR A,B,C,D,E,F,G,H: CHAR): CHAR;/BEGIN END;/BEGIN END.",
    ),
];

#[test]
fn words_of_parameters(rt: HostRuntime) {
    judge_all(&rt, rt.alloc(), &WORDS_OF_PARAMETERS);
}

const PREDECLARED_NAMES_DECLARED_ANEW: [Row; 13] = [
    (0, 0, "VAR TRUE: INTEGER;/BEGIN TRUE := 1 END."),
    (
        0,
        0,
        "PROCEDURE WRITE(A: INTEGER);/BEGIN END;/BEGIN WRITE(1) END.",
    ),
    (3, 3, "VAR WRITE: CHAR;/BEGIN WRITE := 'A';/WRITE('A') END."),
    (0, 0, "CONST NL = 1;/VAR X: INTEGER;/BEGIN X := NL END."),
    (
        0,
        0,
        "FUNCTION ABS(A: CHAR): CHAR;/BEGIN ABS := A END;/BEGIN WRITE(ABS('A')) END.",
    ),
    (
        3,
        3,
        "PROCEDURE P(WRITE: CHAR);/BEGIN/WRITE('A') END;/BEGIN WRITE('A') END.",
    ),
    (4, 2, "PROCEDURE CHAR;/VAR X: CHAR;/BEGIN END;/BEGIN END."),
    (
        0,
        0,
        "VAR X: INTEGER;/BEGIN X := SUCC(PRED(ORD(CHR(ORD('A'))))) ; X := LENGTH(1); WRITEINT(X) END.",
    ),
    (
        0,
        0,
        "VAR C: CHAR;/BEGIN READ(C); ACCEPT(C); DISPLAY(EM); CLOSE(1) END.",
    ),
    (
        0,
        0,
        "VAR P: ARRAY (.1..512.) OF CHAR; T: INTEGER;/BEGIN GET(1, T, P); PUT(1, T, P) END.",
    ),
    (
        0,
        0,
        "VAR N: ARRAY (.1..12.) OF CHAR; T: INTEGER;/BEGIN READARG(T, T, N); WRITEARG(T, T, N) END.",
    ),
    (3, 1, "CONST A = ABS;/BEGIN END."),
    (10, 2, "VAR TRUE: INTEGER;/BEGIN TRUE := FALSE END."),
];

#[test]
fn predeclared_names_declared_anew(rt: HostRuntime) {
    judge_all(&rt, rt.alloc(), &PREDECLARED_NAMES_DECLARED_ANEW);
}
