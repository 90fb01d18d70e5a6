use crate::cards::program_of;
use crate::first_errors::{
    Levels, Times, each_has_its_error, each_has_its_levels, each_is_read, error_line, error_word,
};
use std::alloc::Global;
use std::process::Abort;

/// Each row of a table: the cards of a program, and the line of its first error.
fn each_has_its_line(rt: &impl Abort, alloc: Global, table: &[(&[&str], u32)]) {
    for (cards, line) in table {
        let program = program_of(rt, alloc, cards);
        assert!(rt; error_line(rt, alloc, &program) == Some(*line));
    }
}

const AN_ERROR_STANDS_ON_ITS_CARD: [(&'static [&'static str], u32); 7] = [
    (&["BEGIN X := END."], 1),
    (&["BEGIN"], 2),
    (&[], 1),
    (&["", "\"NOTHING\""], 3),
    (&["BEGIN", "", "END"], 4),
    (&["BEGIN X :=", "\"A COMMENT\"", "END. ."], 3),
    (&["BEGIN", "END.", "BEGIN", "END."], 3),
];

#[test]
fn an_error_stands_on_its_card(rt: HostRuntime) {
    each_has_its_line(&rt, rt.alloc(), &AN_ERROR_STANDS_ON_ITS_CARD);
}

const PROGRAMS_ARE_READ: [&'static str; 14] = [
    "BEGIN END .",
    "BEGIN ; ; END .",
    "PROGRAM P ; CONST A = 1 ; B = - 2 ; C = 'X' ; D = A ; BEGIN END .",
    "VAR X , Y : INTEGER ; Z : ARRAY (. 1 .. A .) OF CHAR ; BEGIN END .",
    "PROCEDURE P ( X , Y : CHAR ; Z : T ) ; CONST A = 1 ; VAR B : T ; BEGIN END ; BEGIN END .",
    "BEGIN P ; P ( 1 ) ; P ( 1 , X , 'A' ) END .",
    "FUNCTION F : INTEGER ; BEGIN F := 1 END ; PROCEDURE P ; BEGIN END ; BEGIN P END .",
    "BEGIN X (. I + 1 .) := - A * B DIV 2 + F ( X , Y ) MOD 3 - ( C OR NOT D & E ) END .",
    "BEGIN X := A (. I .) <= B ; Y := + 1 <> 2 ; Z := 'A' = 'B' END .",
    "BEGIN IF A THEN IF B THEN C ELSE D ELSE E END .",
    "BEGIN IF A THEN WHILE B DO IF C THEN D ELSE E ELSE F END .",
    "BEGIN IF A THEN BEGIN IF B THEN C END ELSE D END .",
    "BEGIN IF A THEN REPEAT IF B THEN UNTIL C ELSE D END .",
    "BEGIN IF A THEN ELSE ; WHILE B DO ; FOR I := 1 TO 2 DO ; FOR I := 2 DOWNTO 1 DO END .",
];

#[test]
fn programs_are_read(rt: HostRuntime) {
    each_is_read(&rt, rt.alloc(), &PROGRAMS_ARE_READ);
}

const DECLARATIONS_HAVE_THEIR_FIRST_ERROR_AT_A_WORD: [(&'static str, u32); 27] = [
    ("PROGRAM ; BEGIN END .", 2),
    ("PROGRAM P BEGIN END .", 3),
    ("PROGRAM P ( X ) ; BEGIN END .", 3),
    ("CONST BEGIN END .", 2),
    ("CONST A := 1 ; BEGIN END .", 3),
    ("CONST A = ; BEGIN END .", 4),
    ("CONST A = + 1 ; BEGIN END .", 4),
    ("CONST A = - B ; BEGIN END .", 5),
    ("CONST A = 1 B = 2 ; BEGIN END .", 5),
    ("VAR BEGIN END .", 2),
    ("VAR X , : INTEGER ; BEGIN END .", 4),
    ("VAR X INTEGER ; BEGIN END .", 3),
    ("VAR X : INTEGER BEGIN END .", 5),
    ("VAR X : ARRAY ( 1 .. 2 ) OF INTEGER ; BEGIN END .", 5),
    ("VAR X : ARRAY (. 1 , 2 .) OF CHAR ; BEGIN END .", 7),
    ("VAR X : INTEGER ; CONST A = 1 ; BEGIN END .", 6),
    ("PROCEDURE P ( ) ; BEGIN END ; BEGIN END .", 4),
    ("PROCEDURE P ( X : CHAR ; ) ; BEGIN END ; BEGIN END .", 8),
    ("PROCEDURE P ( X : ARRAY ) ; BEGIN END ; BEGIN END .", 6),
    ("PROCEDURE P : CHAR ; BEGIN END ; BEGIN END .", 3),
    ("PROCEDURE P ; BEGIN END BEGIN END .", 6),
    ("PROCEDURE P ; PROCEDURE Q ; BEGIN END ; BEGIN END .", 4),
    ("FUNCTION F ; BEGIN END ; BEGIN END .", 3),
    ("BEGIN END", 3),
    ("BEGIN END ;", 3),
    ("BEGIN END . .", 4),
    ("BEGIN END . BEGIN END .", 4),
];

#[test]
fn declarations_have_their_first_error_at_a_word(rt: HostRuntime) {
    each_has_its_error(
        &rt,
        rt.alloc(),
        &DECLARATIONS_HAVE_THEIR_FIRST_ERROR_AT_A_WORD,
    );
}

const STATEMENTS_HAVE_THEIR_FIRST_ERROR_AT_A_WORD: [(&'static str, u32); 28] = [
    ("BEGIN 1 := X END .", 2),
    ("BEGIN OF END .", 2),
    ("BEGIN ELSE END .", 2),
    ("BEGIN X Y END .", 3),
    ("BEGIN P ( ) END .", 4),
    ("BEGIN P ( 1 , ) END .", 6),
    ("BEGIN X (. 1 , 2 .) := 3 END .", 5),
    ("BEGIN X (. 1 .) END .", 6),
    ("BEGIN X := END .", 4),
    ("BEGIN X := 1 , 2 END .", 5),
    ("BEGIN X := 1 = 2 = 3 END .", 7),
    ("BEGIN X := - - 1 END .", 5),
    ("BEGIN X := 1 * - 1 END .", 6),
    ("BEGIN X := A (. 1 .) (. 2 .) END .", 8),
    ("BEGIN X := F ( ) END .", 6),
    ("BEGIN X := ( 1 END .", 6),
    ("BEGIN X := NOT END .", 5),
    ("BEGIN IF A B END .", 4),
    ("BEGIN IF A THEN B ; ELSE C END .", 7),
    ("BEGIN IF A THEN B ELSE C ELSE D END .", 8),
    ("BEGIN IF A THEN IF B THEN C ELSE D ELSE E ELSE F END .", 13),
    ("BEGIN WHILE A END .", 4),
    ("BEGIN REPEAT X := 1 END .", 6),
    ("BEGIN FOR 1 := 1 TO 2 DO END .", 3),
    ("BEGIN FOR I = 1 TO 2 DO END .", 4),
    ("BEGIN FOR I (. 1 .) := 1 TO 2 DO END .", 4),
    ("BEGIN FOR I := 1 UNTIL 2 DO END .", 6),
    ("BEGIN FOR I := 1 TO 2 END .", 8),
];

#[test]
fn statements_have_their_first_error_at_a_word(rt: HostRuntime) {
    each_has_its_error(
        &rt,
        rt.alloc(),
        &STATEMENTS_HAVE_THEIR_FIRST_ERROR_AT_A_WORD,
    );
}

const STATEMENTS_HAVE_64_LEVELS: [Levels; 15] = [
    ("BEGIN", "END", 63, None),
    ("BEGIN", "END", 64, Some(65)),
    ("BEGIN", "END", 10_000, Some(65)),
    ("REPEAT", "UNTIL A", 63, None),
    ("REPEAT", "UNTIL A", 64, Some(65)),
    ("IF A THEN", "", 63, None),
    ("IF A THEN", "", 64, Some(191)),
    ("IF A THEN ELSE", "", 63, None),
    ("IF A THEN ELSE", "", 64, Some(254)),
    ("WHILE A DO", "", 63, None),
    ("WHILE A DO", "", 64, Some(191)),
    ("FOR I := 1 TO 2 DO", "", 63, None),
    ("FOR I := 1 TO 2 DO", "", 64, Some(443)),
    ("CASE A OF 1 :", "END", 63, None),
    ("CASE A OF 1 :", "END", 64, Some(317)),
];

#[test]
fn statements_have_64_levels(rt: HostRuntime) {
    // an empty statement stands inside so many others; the first that has no room is the error
    each_has_its_levels(&rt, rt.alloc(), ("BEGIN", ""), &STATEMENTS_HAVE_64_LEVELS);
}

const FACTORS_HAVE_64_LEVELS: [Levels; 9] = [
    ("(", ")", 63, None),
    ("(", ")", 64, Some(67)),
    ("(", ")", 10_000, Some(67)),
    ("NOT", "", 63, None),
    ("NOT", "", 64, Some(67)),
    ("A (.", ".)", 63, None),
    ("A (.", ".)", 64, Some(131)),
    ("F (", ")", 63, None),
    ("F (", ")", 64, Some(131)),
];

#[test]
fn factors_have_64_levels(rt: HostRuntime) {
    // a number stands inside so many other factors
    each_has_its_levels(
        &rt,
        rt.alloc(),
        ("BEGIN X :=", "1"),
        &FACTORS_HAVE_64_LEVELS,
    );
}

#[test]
fn levels_begin_anew_in_an_index_and_in_arguments_of_a_statement(rt: HostRuntime) {
    let index: [Times; 5] = [
        ("BEGIN X (.", 1),
        ("(", 63),
        ("1", 1),
        (")", 63),
        (".) := 1 END .", 1),
    ];
    assert!(rt; error_word(&rt, rt.alloc(), &index) == None);
    let arguments: [Times; 3] = [("BEGIN P ( 1 ,", 1), ("NOT", 64), ("1 ) END .", 1)];
    assert!(rt; error_word(&rt, rt.alloc(), &arguments) == Some(69));
}
