// A session of fifty lines that uses each command, and what it displays and prints.

use crate::net_runs::Session;

/// Its texts, programs among them, come from eight card files, one of them spoiled.
pub const LONG: Session = Session {
    keys: LONG_KEYS,
    cards: LONG_CARDS,
    piece: 100,
};

const LONG_KEYS: &str = "\
    copy(cards, hello)\n\
    copy(cards, text)\n\
    list\n\
    \n\
    copy(text, copied)\n\
    \x20 Copy ( Text , Printer )\n\
    copy(none, printer)\n\
    copy(text, copied)\n\
    copy(none, other)\n\
    protect(text, on)\n\
    list\n\
    delete(text)\n\
    rename(text, other)\n\
    rename(none, other)\n\
    rename(copied, text)\n\
    protect(text, off)\n\
    protect(none, on)\n\
    protect(text)\n\
    rename(copied, again)\n\
    delete(copied)\n\
    delete(again)\n\
    compile(hello, prog)\n\
    prog\n\
    prog(1, true, name, nil, -5)\n\
    compile(hello, prog)\n\
    compile(none, prog2)\n\
    compile(prog, prog2)\n\
    copy(prog, printer)\n\
    copy(prog, saved)\n\
    saved\n\
    copy(cards, bad)\n\
    compile(bad, prog2)\n\
    copy(cards, echo1)\n\
    compile(echo1, echo)\n\
    echo\n\
    ABC list\n\
    hello\n\
    none\n\
    copy(cards, printer)\n\
    copy(cards, printer)\n\
    copy(cards, cards)\n\
    list()\n\
    BAD LINE (\n\
    copy(cards, deep1)\n\
    compile(deep1, deep)\n\
    deep\n\
    copy(cards, puts1)\n\
    compile(puts1, puts)\n\
    puts\n\
    copy(text, printer)\n\
    list\n\
    echo\n";

const LONG_CARDS: &str = "\
    BEGIN\n\
    \x20WRITE('H'); WRITE('I') END.\n\
    #END\n\
    FIRST\n\
    SECOND LINE\n\
    #END\n\
    BEGIN X := 1 END.\n\
    #END\n\
    VAR C: CHAR;\n\
    BEGIN READ(C); WRITE(C); READ(C); WRITE(C);\n\
    REPEAT ACCEPT(C); WRITE(C); DISPLAY(C) UNTIL (C = '(:10:)') OR (C = '(:25:)');\n\
    WRITEINT(-32767); DISPLAY('!') END.\n\
    #END\n\
    AB\n\
    CD\n\
    #END\n\
    ONE\n\
    TWO\n\
    #END\n\
    SPOILED HERE: XXXXXXXXXXXXXXXXXXXXXXXXXXXXXXXXXXXXXXXXXXXXXXXXXXXXXXXXXXXXXXXXXXXXXXXXXXXXXXXXXXXX\n\
    #END\n\
    VAR ID: ARRAY (.1..12.) OF CHAR; L, R, I: INTEGER;\n\
    BEGIN FOR I := 1 TO 12 DO ID(.I.) := ' ';\n\
    ID(.1.) := 'D'; ID(.2.) := 'E'; ID(.3.) := 'E'; ID(.4.) := 'P';\n\
    RUN(ID, L, R); WRITEINT(R); WRITE('(:10:)') END.\n\
    #END\n\
    VAR ID: ARRAY (.1..12.) OF CHAR; P: ARRAY (.1..512.) OF CHAR;\n\
    B: BOOLEAN; I: INTEGER;\n\
    BEGIN FOR I := 1 TO 12 DO ID(.I.) := ' ';\n\
    ID(.1.) := 'T'; ID(.2.) := 'E'; ID(.3.) := 'X'; ID(.4.) := 'T';\n\
    OPEN(1, ID, B); FOR I := 1 TO 512 DO P(.I.) := '(:25:)';\n\
    P(.1.) := 'Z'; P(.2.) := '(:10:)'; PUT(1, 1, P); PUT(1, 2, P) END.\n\
    #END\n\
    Q\n";

/// What is displayed.
pub const LONG_CONSOLE: &str = "\
    COPY: OK\n\
    COPY: OK\n\
    HELLO ASCII 1 PAGES\n\
    TEXT ASCII 1 PAGES\n\
    LIST: 2 FILES\n\
    COPY: OK\n\
    COPY: OK\n\
    COPY: NO FILE\n\
    COPY: FILE EXISTS\n\
    COPY: NO FILE\n\
    PROTECT: OK\n\
    COPIED ASCII 1 PAGES\n\
    HELLO ASCII 1 PAGES\n\
    TEXT ASCII 1 PAGES PROTECTED\n\
    LIST: 3 FILES\n\
    DELETE: PROTECTED\n\
    RENAME: PROTECTED\n\
    RENAME: NO FILE\n\
    RENAME: FILE EXISTS\n\
    PROTECT: OK\n\
    PROTECT: NO FILE\n\
    BAD COMMAND\n\
    RENAME: OK\n\
    DELETE: NO FILE\n\
    DELETE: OK\n\
    COMPILE: OK\n\
    PROG: TERMINATED\n\
    PROG: TERMINATED\n\
    COMPILE: FILE EXISTS\n\
    COMPILE: NO FILE\n\
    COMPILE: NOT TEXT\n\
    COPY: NOT TEXT\n\
    COPY: OK\n\
    SAVED: TERMINATED\n\
    COPY: OK\n\
    COMPILE: SEMANTIC ERROR 2 IN LINE 1\n\
    COPY: OK\n\
    COMPILE: OK\n\
    ABC list\n\
    !\n\
    ECHO: TERMINATED\n\
    HELLO: NOT CODE\n\
    NONE: NO FILE\n\
    COPY: OK\n\
    COPY: SPOILED CARD\n\
    BAD COMMAND\n\
    BAD COMMAND\n\
    BAD COMMAND\n\
    COPY: OK\n\
    COMPILE: OK\n\
    DEEP: TERMINATED\n\
    COPY: OK\n\
    COMPILE: OK\n\
    PUTS: TERMINATED\n\
    COPY: OK\n\
    BAD ASCII 1 PAGES\n\
    DEEP SEQCODE 1 PAGES\n\
    DEEP1 ASCII 1 PAGES\n\
    ECHO SEQCODE 1 PAGES\n\
    ECHO1 ASCII 1 PAGES\n\
    HELLO ASCII 1 PAGES\n\
    PROG SEQCODE 1 PAGES\n\
    PUTS SEQCODE 1 PAGES\n\
    PUTS1 ASCII 1 PAGES\n\
    SAVED SEQCODE 1 PAGES\n\
    TEXT ASCII 2 PAGES\n\
    LIST: 11 FILES\n\
    ?!\n\
    ECHO: TERMINATED\n";

/// What is printed.
pub const LONG_PAPER: &str = "\
    FIRST\n\
    SECOND LINE\n\
    HI\n\
    HI\n\
    HI\n\
    ABABC list\n\
    -32767\n\
    ONE\n\
    TWO\n\
    6\n\
    0\n\
    0\n\
    0\n\
    0\n\
    Z\n\
    Q\n\
    ?-32767\n";
