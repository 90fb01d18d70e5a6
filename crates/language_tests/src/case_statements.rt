use crate::first_errors::{each_has_its_error, each_is_read};

const A_CASE_AND_VAR_PARAMETERS_ARE_READ: [&'static str; 6] = [
    "BEGIN CASE I OF 1 , - 2 , A , 'X' : P ; 3 : ; 4 : BEGIN END END END .",
    "BEGIN CASE I + 1 OF 1 : CASE J OF 2 : X END ; 3 : END END .",
    "BEGIN CASE I OF 1 : IF A THEN B ; 2 : END ; P END .",
    "BEGIN IF A THEN CASE B OF 1 : IF C THEN D END ELSE E END .",
    "PROCEDURE P ( VAR X , Y : CHAR ; Z : T ; VAR W : T ) ; BEGIN END ; BEGIN END .",
    "FUNCTION F ( VAR X : T ) : T ; BEGIN END ; BEGIN END .",
];

#[test]
fn a_case_and_var_parameters_are_read(rt: HostRuntime) {
    each_is_read(&rt, rt.alloc(), &A_CASE_AND_VAR_PARAMETERS_ARE_READ);
}

const A_CASE_HAS_ITS_FIRST_ERROR_AT_A_WORD: [(&'static str, u32); 26] = [
    ("BEGIN CASE END .", 3),
    ("BEGIN CASE OF 1 : END END .", 3),
    ("BEGIN CASE A , B OF 1 : END END .", 4),
    ("BEGIN CASE A 1 : END END .", 4),
    ("BEGIN CASE A DO 1 : END END .", 4),
    ("BEGIN CASE A OF END END .", 5),
    ("BEGIN CASE A OF ; 1 : END END .", 5),
    ("BEGIN CASE A OF + 1 : END END .", 5),
    ("BEGIN CASE A OF NOT : END END .", 5),
    ("BEGIN CASE A OF - B : END END .", 6),
    ("BEGIN CASE A OF 1 X END END .", 6),
    ("BEGIN CASE A OF 1 := X END END .", 6),
    ("BEGIN CASE A OF 1 .. 2 : X END END .", 6),
    ("BEGIN CASE A OF B (. 1 .) : END END .", 6),
    ("BEGIN CASE A OF 1 , : X END END .", 7),
    ("BEGIN CASE A OF 1 : 2 : END END .", 7),
    ("BEGIN CASE A OF 1 : UNTIL B END END .", 7),
    ("BEGIN CASE A OF 1 : X ELSE Y END END .", 8),
    ("BEGIN CASE A OF 1 : ; ; 2 : END END .", 8),
    ("BEGIN CASE A OF 1 : REPEAT END END .", 8),
    ("BEGIN CASE A OF 1 : X ; END END .", 9),
    ("BEGIN CASE A OF 1 : X END .", 9),
    ("BEGIN CASE A OF 1 : X := 1 , 2 : END END .", 10),
    ("BEGIN CASE A OF 1 : END ; END", 10),
    ("BEGIN IF A THEN CASE B OF 1 : END ELSE C ELSE D END .", 13),
    (
        "BEGIN IF A THEN CASE B OF 1 : IF C THEN D ELSE E ELSE F END END .",
        16,
    ),
];

#[test]
fn a_case_has_its_first_error_at_a_word(rt: HostRuntime) {
    each_has_its_error(&rt, rt.alloc(), &A_CASE_HAS_ITS_FIRST_ERROR_AT_A_WORD);
}

const VAR_BEGINS_ONLY_VARIABLES_AND_GROUPS_OF_PARAMETERS: [(&'static str, u32); 16] = [
    ("VAR VAR X : T ; BEGIN END .", 2),
    ("VAR X : T ; VAR Y : T ; BEGIN END .", 6),
    ("VAR X : VAR T ; BEGIN END .", 4),
    ("CONST A = VAR ; BEGIN END .", 4),
    ("FUNCTION F : VAR T ; BEGIN END ; BEGIN END .", 4),
    ("PROCEDURE VAR P ; BEGIN END ; BEGIN END .", 2),
    ("PROCEDURE P VAR X : T ; BEGIN END ; BEGIN END .", 3),
    ("PROCEDURE P ( VAR ) ; BEGIN END ; BEGIN END .", 5),
    ("PROCEDURE P ( VAR VAR X : T ) ; BEGIN END ; BEGIN END .", 5),
    ("PROCEDURE P ( X VAR : T ) ; BEGIN END ; BEGIN END .", 5),
    ("PROCEDURE P ( VAR X ) ; BEGIN END ; BEGIN END .", 6),
    ("PROCEDURE P ( X , VAR Y : T ) ; BEGIN END ; BEGIN END .", 6),
    ("PROCEDURE P ( X : VAR T ) ; BEGIN END ; BEGIN END .", 6),
    ("PROCEDURE P ( VAR X : ARRAY ) ; BEGIN END ; BEGIN END .", 7),
    (
        "PROCEDURE P ( X : T , VAR Y : T ) ; BEGIN END ; BEGIN END .",
        7,
    ),
    ("BEGIN VAR X : T END .", 2),
];

#[test]
fn var_begins_only_variables_and_groups_of_parameters(rt: HostRuntime) {
    each_has_its_error(
        &rt,
        rt.alloc(),
        &VAR_BEGINS_ONLY_VARIABLES_AND_GROUPS_OF_PARAMETERS,
    );
}
