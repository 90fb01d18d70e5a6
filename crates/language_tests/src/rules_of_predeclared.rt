use crate::judging::{Row, judge_each};

const NAMES: [&str; 26] = [
    "INTEGER", "BOOLEAN", "CHAR", "FALSE", "TRUE", "NL", "EM", "ABS", "SUCC", "PRED", "ORD", "CHR",
    "READ", "WRITE", "WRITEINT", "ACCEPT", "DISPLAY", "OPEN", "CLOSE", "GET", "PUT", "LENGTH",
    "LOOKUP", "READARG", "WRITEARG", "RUN",
];

const PREDECLARED_NAMES_AS_ALL_THAT_THEY_CAN_BE: [Row; 22] = [
    (0, 0, "PROGRAM ?;/BEGIN END."),
    (0, 0, "CONST ? = 1;/BEGIN CASE ? OF 2: END END."),
    (0, 0, "CONST ? = 'A';/BEGIN CASE ? OF ?: END END."),
    (
        0,
        0,
        "VAR ?: INTEGER;/BEGIN ? := ? + 1; FOR ? := ? TO 2 DO END.",
    ),
    (
        0,
        0,
        "VAR ?: ARRAY (.1..2.) OF BOOLEAN;/BEGIN ?(.1.) := NOT ?(.2.) END.",
    ),
    (0, 0, "PROCEDURE ?;/BEGIN ? END;/BEGIN ? END."),
    (
        0,
        0,
        "PROCEDURE ?(A, B: CHAR);/BEGIN ?(B, A) END;/BEGIN ?('A', 'B') END.",
    ),
    (
        0,
        0,
        "FUNCTION ?: INTEGER;/BEGIN ? := 1 END;/BEGIN IF ? < 1 THEN END.",
    ),
    (
        0,
        0,
        "FUNCTION ?(A, B: CHAR): CHAR;/BEGIN ? := ?(B, A) END;/BEGIN IF ?('A', 'B') = 'C' THEN END.",
    ),
    (0, 0, "PROCEDURE Q(?: CHAR);/BEGIN ? := 'A' END;/BEGIN END."),
    (
        0,
        0,
        "PROCEDURE Q(VAR ?: INTEGER);/BEGIN FOR ? := ? DOWNTO 2 DO END;/BEGIN END.",
    ),
    (
        0,
        0,
        "PROCEDURE Q;/CONST ? = 1;/BEGIN CASE ? OF 2: END END;/BEGIN END.",
    ),
    (
        0,
        0,
        "PROCEDURE Q;/VAR ?: BOOLEAN;/BEGIN ? := NOT ? END;/BEGIN END.",
    ),
    (
        0,
        0,
        "FUNCTION Q: INTEGER;/VAR ?: ARRAY (.1..2.) OF CHAR;/BEGIN ?(.1.) := ?(.2.) END;/BEGIN END.",
    ),
    (1, 2, "CONST ? = 1;/? = 2;/BEGIN END."),
    (1, 2, "VAR ?: CHAR;/PROCEDURE ?;/BEGIN END;/BEGIN END."),
    (3, 4, "PROCEDURE Q;/CONST ? = 1;/BEGIN/? END;/BEGIN END."),
    (3, 4, "VAR ?: CHAR;/PROCEDURE Q;/BEGIN/? END;/BEGIN END."),
    (4, 2, "PROCEDURE ?;/VAR X: ?;/BEGIN END;/BEGIN END."),
    (10, 3, "VAR ?: CHAR;/BEGIN ?/:= 1 END."),
    (
        12,
        4,
        "PROCEDURE ?(A, B: CHAR);/BEGIN END;/BEGIN/?('A') END.",
    ),
    (
        13,
        4,
        "PROCEDURE ?(A, B: CHAR);/BEGIN END;/BEGIN/?('A', 1) END.",
    ),
];

#[test]
fn predeclared_names_as_all_that_they_can_be(rt: HostRuntime) {
    judge_each(
        &rt,
        rt.alloc(),
        &NAMES,
        &PREDECLARED_NAMES_AS_ALL_THAT_THEY_CAN_BE,
    );
}
