use crate::listings::{Row, each_compiles};

const ROWS_WITHOUT_AN_ARRAY: [Row; 3] = [
    (
        "VAR C: CHAR; BEGIN READ(C); WRITE(C) END.",
        "0 0 0 1 1",
        "TICK 0 1;SYS;STOREG;TICK 0 1;LOADG;SYS 1;HALT",
    ),
    (
        "VAR C: CHAR; BEGIN ACCEPT(C); DISPLAY(C) END.",
        "0 0 0 1 1",
        "TICK 0 1;SYS 3;STOREG;TICK 0 1;LOADG;SYS 4;HALT",
    ),
    (
        "VAR C: CHAR; PROCEDURE P(VAR D: CHAR); VAR E: CHAR; BEGIN READ(C); READ(D); READ(E) END; BEGIN P(C) END.",
        "0 0 0 1 2;4 2 0 3 1",
        "TICK 0 1;REFG;CALL 1;HALT;TICK 0 1;SYS;STOREG;TICK 0 1;SYS;STORER;TICK 0 1;SYS;STOREL 2;RETURN",
    ),
];

#[test]
fn rows_without_an_array(rt: HostRuntime) {
    each_compiles(&rt, rt.alloc(), &ROWS_WITHOUT_AN_ARRAY);
}

const ROWS_WITH_AN_ARRAY: [Row; 6] = [
    (
        "VAR ID: ARRAY (.1..12.) OF CHAR; B: BOOLEAN; N: INTEGER; BEGIN OPEN(1, ID, B); N := LENGTH(1); CLOSE(1) END.",
        "0 0 0 14 1",
        "TICK 0 1;PUSH 1;SYSG 5;STOREG 12;TICK 0 1;PUSH 1;SYS 9;STOREG 13;TICK 0 1;PUSH 1;SYS 6;HALT",
    ),
    (
        "VAR X: INTEGER; P: ARRAY (.1..512.) OF CHAR; BEGIN GET(1, 2, P); PUT(X, X + 1, P) END.",
        "0 0 0 513 3",
        "TICK 0 1;PUSH 1;PUSH 2;SYSG 7 1;TICK 0 1;LOADG;LOADG;PUSH 1;ADD;SYSG 8 1;HALT",
    ),
    (
        "VAR ID: ARRAY (.0..11.) OF CHAR; K: INTEGER; B: BOOLEAN; BEGIN LOOKUP(ID, K, B) END.",
        "0 0 0 14 2",
        "TICK 0 1;SYSG 10;STOREG 13;STOREG 12;HALT",
    ),
    (
        "VAR T, N: INTEGER; ID: ARRAY (.1..12.) OF CHAR; BEGIN READARG(T, N, ID); WRITEARG(T, N, ID) END.",
        "0 0 0 14 2",
        "TICK 0 1;SYSG 11 2;STOREG 1;STOREG;TICK 0 1;LOADG;LOADG 1;SYSG 12 2;HALT",
    ),
    (
        "VAR ID: ARRAY (.1..12.) OF CHAR; L, R: INTEGER; BEGIN RUN(ID, L, R) END.",
        "0 0 0 14 2",
        "TICK 0 1;SYSG 13;STOREG 13;STOREG 12;HALT",
    ),
    (
        "PROCEDURE P; VAR ID: ARRAY (.1..12.) OF CHAR; L, R: INTEGER; BEGIN RUN(ID, L, R); READARG(L, R, ID) END; BEGIN END.",
        "0 0 0 0 0;1 0 0 14 2",
        "HALT;TICK 0 1;SYSL 13;STOREL 13;STOREL 12;TICK 0 1;SYSL 11;STOREL 13;STOREL 12;RETURN",
    ),
];

#[test]
fn rows_with_an_array(rt: HostRuntime) {
    each_compiles(&rt, rt.alloc(), &ROWS_WITH_AN_ARRAY);
}
