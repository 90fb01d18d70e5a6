use crate::cards::program_of;
use crate::reading::text_of;
use pascal_read::{ScanFault, scan};
use std::alloc::Global;
use std::process::Abort;

/// The words of the cards.
fn read(rt: &impl Abort, alloc: Global, cards: &[&str]) -> String {
    let program = program_of(rt, alloc, cards);
    match scan(alloc, &program) {
        Ok(tokens) => text_of(rt, alloc, &tokens),
        Err(ScanFault::BadWord { line }) => {
            let text = format!(in alloc; "bad word in line {line}");
            text.ok().expect(rt, "memory")
        }
        Err(ScanFault::NoMemory) => panic!(rt; "no memory"),
    }
}

/// Each row of a table: the cards, and their words.
fn each_has_its_words(rt: &impl Abort, alloc: Global, table: &[(&[&str], &str)]) {
    for (cards, words) in table {
        let found = read(rt, alloc, cards);
        assert!(rt; found.as_str() == *words, "{found}");
    }
}

const THE_LONGEST_SYMBOL_IS_READ_AT_EACH_PLACE: [(&'static [&'static str], &'static str); 8] = [
    (
        &["+ - * & = <> < > <= >= := ( ) (. .) , ; : . .."],
        "1 Plus, 1 Minus, 1 Times, 1 And, 1 Equal, 1 NotEqual, 1 Less, 1 Greater, 1 LessOrEqual, 1 GreaterOrEqual, 1 Becomes, 1 Open, 1 Close, 1 OpenIndex, 1 CloseIndex, 1 Comma, 1 Semicolon, 1 Colon, 1 Period, 1 UpTo, 2 .",
    ),
    (
        &["[ ] AND and"],
        "1 OpenIndex, 1 CloseIndex, 1 And, 1 And, 2 .",
    ),
    (
        &["<<=<>>=>"],
        "1 Less, 1 LessOrEqual, 1 NotEqual, 1 GreaterOrEqual, 1 Greater, 2 .",
    ),
    (&["1..2"], "1 1, 1 UpTo, 1 2, 2 ."),
    (&["A(.1.)"], "1 A, 1 OpenIndex, 1 1, 1 CloseIndex, 2 ."),
    (
        &["(.)", "..)", "...)"],
        "1 OpenIndex, 1 Close, 2 UpTo, 2 Close, 3 UpTo, 3 CloseIndex, 4 .",
    ),
    (
        &[":==", ":", "="],
        "1 Becomes, 1 Equal, 2 Colon, 3 Equal, 4 .",
    ),
    (&["?"], "bad word in line 1"),
];

#[test]
fn the_longest_symbol_is_read_at_each_place(rt: HostRuntime) {
    each_has_its_words(&rt, rt.alloc(), &THE_LONGEST_SYMBOL_IS_READ_AT_EACH_PLACE);
}

const LETTERS_OF_EITHER_CASE_ARE_EQUAL: [(&'static [&'static str], &'static str); 5] = [
    (
        &["array Begin CASE const DIV do DOWNTO else END for FUNCTION If"],
        "1 Array, 1 Begin, 1 Case, 1 Const, 1 Div, 1 Do, 1 Downto, 1 Else, 1 End, 1 For, 1 Function, 1 If, 2 .",
    ),
    (
        &["MOD not OF or PROCEDURE program REPEAT then TO until VAR while"],
        "1 Mod, 1 Not, 1 Of, 1 Or, 1 Procedure, 1 Program, 1 Repeat, 1 Then, 1 To, 1 Until, 1 Var, 1 While, 2 .",
    ),
    (
        &["Sum1 SUM1 ends en d"],
        "1 SUM1, 1 SUM1, 1 ENDS, 1 EN, 1 D, 2 .",
    ),
    (&["2x x2"], "1 2, 1 X, 1 X2, 2 ."),
    (&["BE", "GIN", "", "12", "3"], "1 BE, 2 GIN, 4 12, 5 3, 6 ."),
];

#[test]
fn letters_of_either_case_are_equal(rt: HostRuntime) {
    each_has_its_words(&rt, rt.alloc(), &LETTERS_OF_EITHER_CASE_ARE_EQUAL);
}

const NUMBERS_AND_CHARACTERS_HAVE_LIMITS: [(&'static [&'static str], &'static str); 12] = [
    (&["0 007 32767"], "1 0, 1 7, 1 32767, 2 ."),
    (&["BEGIN", "X := 32768 END."], "bad word in line 2"),
    (
        &["'a' 'A' ' ' '\"' '('"],
        "1 '97, 1 '65, 1 '32, 1 '34, 1 '40, 2 .",
    ),
    (&["'(:0:)' '(:007:)' '(:127:)'"], "1 '0, 1 '7, 1 '127, 2 ."),
    (&["'(:128:)'"], "bad word in line 1"),
    (&["'(::)'"], "bad word in line 1"),
    (&["'(:1:'"], "bad word in line 1"),
    (&["'''"], "bad word in line 1"),
    (&["'AB'"], "bad word in line 1"),
    (&["X", "'"], "bad word in line 2"),
    (&["'A", "'"], "bad word in line 1"),
    (&["X ?", "32768"], "bad word in line 1"),
];

#[test]
fn numbers_and_characters_have_limits(rt: HostRuntime) {
    each_has_its_words(&rt, rt.alloc(), &NUMBERS_AND_CHARACTERS_HAVE_LIMITS);
}

const A_COMMENT_RUNS_OVER_CARDS: [(&'static [&'static str], &'static str); 8] = [
    (&[], "1 ."),
    (&["", ""], "3 ."),
    (&["A\"? 32768 '\"B\"\"C"], "1 A, 1 B, 1 C, 2 ."),
    (&["A \"B", "C", "D\" E"], "1 A, 3 E, 4 ."),
    (&["A \"B", "C\" D \"E", "F\" G"], "1 A, 2 D, 3 G, 4 ."),
    (&["A", "B \"C", "D", "E"], "bad word in line 2"),
    (&["\"A\" \"", "B"], "bad word in line 1"),
    (&["\"", "\"", "?"], "bad word in line 3"),
];

#[test]
fn a_comment_runs_over_cards(rt: HostRuntime) {
    each_has_its_words(&rt, rt.alloc(), &A_COMMENT_RUNS_OVER_CARDS);
}
