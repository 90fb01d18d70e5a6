use crate::listings::{Row, each_compiles};

const CONSTANTS_AND_SCALARS: [Row; 7] = [
    ("BEGIN END.", "0 0 0 0 0", "HALT"),
    (
        "BEGIN WRITE('A') END.",
        "0 0 0 0 1",
        "TICK 0 1;PUSH 65;SYS 1;HALT",
    ),
    (
        "VAR N: INTEGER; BEGIN N := 7 END.",
        "0 0 0 1 1",
        "TICK 0 1;PUSH 7;STOREG;HALT",
    ),
    (
        "CONST K = -5; C = 'A'; VAR N: INTEGER; D: CHAR; BEGIN N := K; D := C END.",
        "0 0 0 2 1",
        "TICK 0 1;PUSH 65531;STOREG;TICK 0 1;PUSH 65;STOREG 1;HALT",
    ),
    (
        "CONST TRUE = 3; VAR N: INTEGER; BEGIN N := TRUE END.",
        "0 0 0 1 1",
        "TICK 0 1;PUSH 3;STOREG;HALT",
    ),
    (
        "BEGIN WRITE(NL); WRITE(EM) END.",
        "0 0 0 0 1",
        "TICK 0 1;PUSH 10;SYS 1;TICK 0 1;PUSH 25;SYS 1;HALT",
    ),
    (
        "BEGIN\nWRITE('A');\n\nWRITE\n('B')\nEND.",
        "0 0 0 0 1",
        "TICK 0 2;PUSH 65;SYS 1;TICK 0 4;PUSH 66;SYS 1;HALT",
    ),
];

#[test]
fn constants_and_scalars(rt: HostRuntime) {
    each_compiles(&rt, rt.alloc(), &CONSTANTS_AND_SCALARS);
}

const OPERATORS: [Row; 10] = [
    (
        "VAR B: BOOLEAN; BEGIN B := TRUE; B := NOT B END.",
        "0 0 0 1 1",
        "TICK 0 1;PUSH 1;STOREG;TICK 0 1;LOADG;NOT;STOREG;HALT",
    ),
    (
        "VAR N: INTEGER; BEGIN N := 1 + 2 - 3 END.",
        "0 0 0 1 2",
        "TICK 0 1;PUSH 1;PUSH 2;ADD;PUSH 3;SUB;STOREG;HALT",
    ),
    (
        "VAR N: INTEGER; BEGIN N := 1 + 2 * 3 DIV 4 MOD 5 END.",
        "0 0 0 1 3",
        "TICK 0 1;PUSH 1;PUSH 2;PUSH 3;MUL;PUSH 4;DIV;PUSH 5;MOD;ADD;STOREG;HALT",
    ),
    (
        "VAR N: INTEGER; BEGIN N := -N * 2 + 1 END.",
        "0 0 0 1 2",
        "TICK 0 1;LOADG;PUSH 2;MUL;NEG;PUSH 1;ADD;STOREG;HALT",
    ),
    (
        "VAR N: INTEGER; BEGIN N := +N END.",
        "0 0 0 1 1",
        "TICK 0 1;LOADG;STOREG;HALT",
    ),
    (
        "VAR N: INTEGER; BEGIN N := -32767 - 1 END.",
        "0 0 0 1 2",
        "TICK 0 1;PUSH 32767;NEG;PUSH 1;SUB;STOREG;HALT",
    ),
    (
        "VAR B: BOOLEAN; BEGIN B := B & B OR B END.",
        "0 0 0 1 2",
        "TICK 0 1;LOADG;LOADG;AND;LOADG;OR;STOREG;HALT",
    ),
    (
        "VAR N: INTEGER; BEGIN N := (1 + 2) * 3 END.",
        "0 0 0 1 2",
        "TICK 0 1;PUSH 1;PUSH 2;ADD;PUSH 3;MUL;STOREG;HALT",
    ),
    (
        "VAR B: BOOLEAN; BEGIN B := 1 = 2; B := 1 <> 2; B := 1 < 2; B := 1 > 2; B := 1 <= 2; B := 1 >= 2 END.",
        "0 0 0 1 2",
        "TICK 0 1;PUSH 1;PUSH 2;EQ;STOREG;TICK 0 1;PUSH 1;PUSH 2;NE;STOREG;TICK 0 1;PUSH 1;PUSH 2;LT;STOREG;TICK 0 1;PUSH 1;PUSH 2;GT;STOREG;TICK 0 1;PUSH 1;PUSH 2;LE;STOREG;TICK 0 1;PUSH 1;PUSH 2;GE;STOREG;HALT",
    ),
    (
        "VAR N: INTEGER; C: CHAR; BEGIN N := ABS(-1); N := SUCC(N); N := PRED(N); N := ORD(C); C := CHR(N) END.",
        "0 0 0 2 1",
        "TICK 0 1;PUSH 1;NEG;ABS;STOREG;TICK 0 1;LOADG;SUCC;STOREG;TICK 0 1;LOADG;PRED;STOREG;TICK 0 1;LOADG 1;STOREG;TICK 0 1;LOADG;CHR;STOREG 1;HALT",
    ),
];

#[test]
fn operators(rt: HostRuntime) {
    each_compiles(&rt, rt.alloc(), &OPERATORS);
}

const ARRAYS_OF_THE_PROGRAM: [Row; 4] = [
    (
        "VAR A: ARRAY (.1..3.) OF INTEGER; BEGIN A(.1.) := 5 END.",
        "0 0 0 3 2",
        "TICK 0 1;PUSH 1;INDEX 1 3;PUSH 5;STOREGX 0 3;HALT",
    ),
    (
        "VAR N: INTEGER; A: ARRAY (.-2..2.) OF INTEGER; BEGIN N := A(.N.) END.",
        "0 0 0 6 1",
        "TICK 0 1;LOADG;INDEX 65534 2;LOADGX 1 5;STOREG;HALT",
    ),
    (
        "VAR A: ARRAY (.0..0.) OF CHAR; BEGIN A(.0.) := 'X' END.",
        "0 0 0 1 2",
        "TICK 0 1;PUSH;INDEX;PUSH 88;STOREGX 0 1;HALT",
    ),
    (
        "CONST L = 2; H = 4; VAR A, B: ARRAY (.L..H.) OF BOOLEAN; BEGIN B(.L.) := A(.H.) END.",
        "0 0 0 6 2",
        "TICK 0 1;PUSH 2;INDEX 2 4;PUSH 4;INDEX 2 4;LOADGX 0 3;STOREGX 3 3;HALT",
    ),
];

#[test]
fn arrays_of_the_program(rt: HostRuntime) {
    each_compiles(&rt, rt.alloc(), &ARRAYS_OF_THE_PROGRAM);
}
