// The decks of programs of `decks/` under the schedules 0 to 9: the paper is that of the batch, and the counts are
// those that a plain simulation of the six counts (`oracle/twin`, which is told what programs print).

use crate::schedules::{Row, Tally, is_printed, prints};

const COPYING: Row = Row {
    deck: "\
        #JOB COPY\n\
        VAR C: CHAR;\n\
        BEGIN\n\
        READ(C);\n\
        WHILE C <> EM DO\n\
        BEGIN WRITE(C); READ(C) END\n\
        END.\n\
        #DATA\n\
        THE FIRST CARD\n\
        \n\
        \x20 THE THIRD ONE\n\
        the last one\n\
        #END\n\
        #JOB NOTHING\n\
        VAR C: CHAR;\n\
        BEGIN\n\
        READ(C);\n\
        IF C = EM THEN WRITE('E') ELSE WRITE(C);\n\
        READ(C);\n\
        WRITEINT(ORD(C))\n\
        END.\n\
        #END\n",
    paper: "\
        JOB COPY\n\
        THE FIRST CARD\n\
        \n\
        \x20 THE THIRD ONE\n\
        the last one\n\
        COPY: TERMINATED\n\
        JOB NOTHING\n\
        E25\n\
        NOTHING: TERMINATED\n",
    tally: Tally {
        calls: 178,
        grants: 16,
        delays: [35, 34, 32, 34, 34, 32, 35, 31, 36, 33],
    },
};

#[test]
fn programs_that_copy_are_printed(rt: HostRuntime) {
    prints(&rt, rt.alloc(), &COPYING);
}

const FAULTS: Row = Row {
    deck: "\
        #JOB WORD\n\
        BEGIN\n\
        X ? 1\n\
        END.\n\
        #END\n\
        #JOB TREE\n\
        BEGIN\n\
        X :=\n\
        END.\n\
        #END\n\
        #JOB RULE\n\
        BEGIN\n\
        X := 1\n\
        END.\n\
        #END\n\
        #JOB BIG\n\
        VAR X: INTEGER;\n\
        BEGIN\n\
        X := 32767;\n\
        WRITEINT(X);\n\
        X := X + 1\n\
        END.\n\
        #END\n\
        #JOB OUTSIDE\n\
        VAR A: ARRAY (.1..3.) OF INTEGER; I: INTEGER;\n\
        BEGIN\n\
        FOR I := 1 TO 4 DO\n\
        A(.I.) := I;\n\
        WRITE('X')\n\
        END.\n\
        #END\n\
        #JOB DEEP\n\
        PROCEDURE P;\n\
        BEGIN\n\
        P\n\
        END;\n\
        BEGIN P END.\n\
        #END\n\
        #JOB LONG 5\n\
        BEGIN\n\
        WHILE TRUE DO\n\
        WRITE('A')\n\
        END.\n\
        #END\n\
        #JOB LONGER 6\n\
        BEGIN\n\
        WHILE TRUE DO\n\
        WRITE('A')\n\
        END.\n\
        #END\n\
        #JOB CALLS\n\
        BEGIN\n\
        WRITE('A');\n\
        DISPLAY('B')\n\
        END.\n\
        #END\n\
        #RUN ABSENT FILE\n\
        A CARD\n\
        #END\n\
        #JOB CARD\n\
        BEGIN\n\
        #LISTING\n\
        END.\n\
        #END\n\
        #JOB INPUT\n\
        VAR C: CHAR;\n\
        BEGIN READ(C); WRITE(C) END.\n\
        #DATA\n\
        Z\n\
        #DATA\n\
        Y\n\
        #END\n\
        #JOB WIDE\n\
        BEGIN\n\
        XXXXXXXXXXXXXXXXXXXXXXXXXXXXXXXXXXXXXXXXXXXXXXXXXXXXXXXXXXXXXXXXXXXXXXXXXXXXXXXXX\n\
        END.\n\
        #END\n",
    paper: "\
        JOB WORD\n\
        WORD: BAD WORD IN LINE 2\n\
        JOB TREE\n\
        TREE: SYNTAX ERROR IN LINE 3\n\
        JOB RULE\n\
        RULE: SEMANTIC ERROR 2 IN LINE 2\n\
        JOB BIG\n\
        32767\n\
        BIG: OVERFLOW IN LINE 5\n\
        JOB OUTSIDE\n\
        OUTSIDE: RANGE ERROR IN LINE 4\n\
        JOB DEEP\n\
        DEEP: STACK LIMIT IN LINE 3\n\
        JOB LONG\n\
        AA\n\
        LONG: TIME LIMIT IN LINE 2\n\
        JOB LONGER\n\
        AA\n\
        LONGER: TIME LIMIT IN LINE 3\n\
        JOB CALLS\n\
        A\n\
        CALLS: CALL ERROR IN LINE 3\n\
        JOB ABSENT\n\
        ABSENT: NO FILE\n\
        JOB CARD\n\
        CARD: BAD CONTROL CARD 2\n\
        JOB INPUT\n\
        Z\n\
        INPUT: TERMINATED\n\
        INPUT: BAD CONTROL CARD 5\n\
        JOB WIDE\n\
        WIDE: SPOILED CARD 2\n",
    tally: Tally {
        calls: 602,
        grants: 61,
        delays: [118, 107, 112, 111, 130, 118, 125, 119, 110, 113],
    },
};

#[test]
fn jobs_with_faults_are_printed(rt: HostRuntime) {
    prints(&rt, rt.alloc(), &FAULTS);
}

const RECURSION: Row = Row {
    deck: "\
        #JOB FIB\n\
        VAR I: INTEGER;\n\
        FUNCTION FIB(N: INTEGER): INTEGER;\n\
        BEGIN\n\
        IF N < 2 THEN FIB := N\n\
        ELSE FIB := FIB(N - 1) + FIB(N - 2)\n\
        END;\n\
        BEGIN\n\
        FOR I := 0 TO 10 DO\n\
        BEGIN WRITEINT(FIB(I)); WRITE(NL) END\n\
        END.\n\
        #END\n\
        #JOB HANOI\n\
        PROCEDURE MOVE(N, A, B, C: INTEGER);\n\
        BEGIN\n\
        IF N > 0 THEN\n\
        BEGIN\n\
        MOVE(N - 1, A, C, B);\n\
        WRITEINT(A); WRITEINT(B); WRITE(NL);\n\
        MOVE(N - 1, C, B, A)\n\
        END\n\
        END;\n\
        BEGIN MOVE(3, 1, 2, 3) END.\n\
        #END\n\
        #JOB SWAPS\n\
        VAR X, Y: INTEGER;\n\
        PROCEDURE SWAP(VAR A, B: INTEGER);\n\
        VAR T: INTEGER;\n\
        BEGIN T := A; A := B; B := T END;\n\
        PROCEDURE TWICE(VAR A, B: INTEGER);\n\
        BEGIN SWAP(A, B); SWAP(B, A); SWAP(A, B) END;\n\
        BEGIN\n\
        X := 1; Y := 2;\n\
        TWICE(X, Y);\n\
        WRITEINT(X); WRITEINT(Y)\n\
        END.\n\
        #END\n\
        #JOB DEEP\n\
        PROCEDURE P(N: INTEGER);\n\
        BEGIN\n\
        IF N > 61 THEN\n\
        BEGIN WRITEINT(N); WRITE(NL) END;\n\
        P(N + 1)\n\
        END;\n\
        BEGIN P(2) END.\n\
        #END\n",
    paper: "\
        JOB FIB\n\
        0\n\
        1\n\
        1\n\
        2\n\
        3\n\
        5\n\
        8\n\
        13\n\
        21\n\
        34\n\
        55\n\
        FIB: TERMINATED\n\
        JOB HANOI\n\
        12\n\
        13\n\
        23\n\
        12\n\
        31\n\
        32\n\
        12\n\
        HANOI: TERMINATED\n\
        JOB SWAPS\n\
        21\n\
        SWAPS: TERMINATED\n\
        JOB DEEP\n\
        62\n\
        63\n\
        64\n\
        DEEP: STACK LIMIT IN LINE 5\n",
    tally: Tally {
        calls: 347,
        grants: 24,
        delays: [68, 67, 72, 64, 67, 65, 64, 61, 71, 74],
    },
};

#[test]
fn recursive_programs_are_printed(rt: HostRuntime) {
    prints(&rt, rt.alloc(), &RECURSION);
}

const SIEVE: Row = Row {
    deck: "\
        #JOB SIEVE\n\
        CONST LAST = 60;\n\
        VAR A: ARRAY (.1..LAST.) OF INTEGER;\n\
        I, K, LEFT, KEPT: INTEGER;\n\
        BEGIN\n\
        \" OF THE NUMBERS THAT ARE LEFT EACH SECOND ONE GOES,\n\
        \x20 THEN EACH THIRD, THEN EACH FOURTH, AND SO ON \"\n\
        FOR I := 1 TO LAST DO A(.I.) := I;\n\
        LEFT := LAST;\n\
        K := 2;\n\
        WHILE K <= LEFT DO\n\
        BEGIN\n\
        KEPT := 0;\n\
        FOR I := 1 TO LEFT DO\n\
        IF I MOD K <> 0 THEN\n\
        BEGIN KEPT := KEPT + 1; A(.KEPT.) := A(.I.) END;\n\
        LEFT := KEPT;\n\
        K := K + 1\n\
        END;\n\
        FOR I := 1 TO LEFT DO\n\
        BEGIN WRITEINT(A(.I.)); WRITE(NL) END\n\
        END.\n\
        #END\n",
    paper: "JOB SIEVE\n1\n3\n7\n13\n19\n27\n39\n49\nSIEVE: TERMINATED\n",
    tally: Tally {
        calls: 167,
        grants: 12,
        delays: [28, 35, 30, 32, 36, 33, 31, 29, 33, 32],
    },
};

#[test]
fn a_sieve_is_printed(rt: HostRuntime) {
    prints(&rt, rt.alloc(), &SIEVE);
}

// Its counts aren't known: its input runs over a page, and the simulation doesn't know which lines come before.
const SORTING: &str = "\
    #JOB SORT\n\
    VAR C: CHAR; WORD: ARRAY (.0..80.) OF CHAR;\n\
    N, I, J: INTEGER;\n\
    BEGIN\n\
    \" EACH CARD OF THE INPUT IS SORTED BY INSERTION \"\n\
    WORD(.0.) := CHR(0);\n\
    READ(C);\n\
    WHILE C <> EM DO\n\
    BEGIN\n\
    N := 0;\n\
    WHILE C <> NL DO\n\
    BEGIN N := N + 1; WORD(.N.) := C; READ(C) END;\n\
    FOR I := 2 TO N DO\n\
    BEGIN\n\
    C := WORD(.I.);\n\
    J := I - 1;\n\
    WHILE WORD(.J.) > C DO\n\
    BEGIN WORD(.J + 1.) := WORD(.J.); J := J - 1 END;\n\
    WORD(.J + 1.) := C\n\
    END;\n\
    FOR I := 1 TO N DO WRITE(WORD(.I.));\n\
    WRITE(NL);\n\
    READ(C)\n\
    END\n\
    END.\n\
    #DATA\n\
    MONITOR\n\
    BRINCHHANSEN\n\
    \n\
    9876543210\n\
    #END\n";

const SORTING_PAPER: &str = "JOB SORT\nIMNOORT\nABCEHHINNNRS\n\n0123456789\nSORT: TERMINATED\n";

#[test]
fn a_sorting_program_is_printed(rt: HostRuntime) {
    is_printed(&rt, rt.alloc(), SORTING, SORTING_PAPER);
}

const SUMS: Row = Row {
    deck: "\
        #JOB SUMS\n\
        VAR I, S: INTEGER;\n\
        BEGIN\n\
        S := 0;\n\
        FOR I := 1 TO 10 DO\n\
        BEGIN\n\
        S := S + I;\n\
        IF I > 1 THEN WRITE(' ');\n\
        WRITEINT(S)\n\
        END;\n\
        WRITE(NL);\n\
        I := 100;\n\
        WHILE I > 0 DO\n\
        BEGIN WRITEINT(I); WRITE(';'); I := I DIV 3 END;\n\
        WRITE(NL);\n\
        REPEAT S := S - 7 UNTIL S < 0;\n\
        WRITEINT(S); WRITE(NL);\n\
        FOR I := 3 DOWNTO 1 DO WRITEINT(I);\n\
        WRITE(NL);\n\
        WRITEINT(-7 DIV 2); WRITE(' '); WRITEINT(-7 MOD 2);\n\
        WRITE(' '); WRITEINT(1 - 2 * 3)\n\
        END.\n\
        #END\n",
    paper: "JOB SUMS\n1 3 6 10 15 21 28 36 45 55\n100;33;11;3;1;\n-1\n321\n-3 -1 -5\nSUMS: TERMINATED\n",
    tally: Tally {
        calls: 158,
        grants: 12,
        delays: [27, 33, 28, 31, 33, 31, 29, 27, 31, 30],
    },
};

#[test]
fn sums_are_printed(rt: HostRuntime) {
    prints(&rt, rt.alloc(), &SUMS);
}
