ghost use Rattle.std.specs.Prelude.{IfSome};
ghost use Rattle.program_lines.specs.Standing.{IsSpent};

use crate::cards::cards_of;
use pascal_compile::compile;
use program_lines::{ProgramLines, bad_code_line, not_code_line};
use solo_base::{Ident, Line};
use std::alloc::Global;
use std::process::Abort;

/// Adds all lines that come by now, each with a bar behind it.
fn take_all(text: &mut Vec<u8>, lines: &mut ProgramLines) -> Option<()>
    ensures { IfSome result (λ _. IsSpent lines.new) }
{
    for _ in 0..1000 {
        match lines.next() {
            Some(line) => {
                text.extend_from_slice(line.bytes()).ok()?;
                text.push(b'|').ok()?;
            }
            None => return Some(()),
        }
    }
    None
}

/// Adds the lines that come with each further card, with a mark `>` before them.
fn take_by_card(text: &mut Vec<u8>, lines: &mut ProgramLines, cards: &[&[u8]]) -> Option<()>
    requires { IsSpent lines.old }
{
    match cards {
        [] => Some(()),
        [card, later @ ..] => {
            text.push(b'>').ok()?;
            lines.feed(&Line::of(card)?);
            take_all(text, lines)?;
            take_by_card(text, lines, later)
        }
    }
}

/// Adds the lines with no card, with each further card, and at the end, with a mark `.` before them.
fn take_to_end(text: &mut Vec<u8>, lines: &mut ProgramLines, cards: &[&[u8]]) -> Option<()> {
    take_all(text, lines)?;
    take_by_card(text, lines, cards)?;
    text.push(b'.').ok()?;
    lines.close();
    take_all(text, lines)
}

/// The lines of a program, with their marks.
fn told_of(alloc: Global, lines: &mut ProgramLines, cards: &[&[u8]]) -> Option<Vec<u8>> {
    let mut text = Vec::new(alloc);
    take_to_end(&mut text, lines, cards)?;
    Some(text)
}

/// The lines of this program; a mark `>` stands before those that come with each further card, and `.` before
/// those that come at the end.
fn told(alloc: Global, limit: u32, program: &str, input: &[&[u8]]) -> Option<Vec<u8>> {
    let name = Ident::of(b"a")?;
    let cards = cards_of(alloc, program)?;
    match ProgramLines::start(alloc, name, limit, &cards) {
        Ok(mut lines) => told_of(alloc, &mut lines, input),
        Err(_) => None,
    }
}

/// The limit of ticks, the program, its input, and what is told.
type Row = (u32, &'static str, &'static [&'static [u8]], &'static [u8]);

/// Each row is so.
fn each_tells(rt: &impl Abort, alloc: Global, table: &[Row]) {
    for (limit, program, input, wanted) in table {
        let found = told(alloc, *limit, program, input);
        let found = found.expect(rt, "all that is told");
        assert!(rt; found.as_slice() == *wanted, "{program}");
    }
}

const COPY: &str =
    "VAR C: CHAR;\nBEGIN READ(C);\nWHILE C <> EM DO BEGIN WRITE(C); READ(C) END\nEND.";

#[test]
fn lines_come_as_soon_as_their_cards(rt: HostRuntime) {
    let table: [Row; 1] = [(
        1000,
        COPY,
        &[b"HELLO", b"", b"YOU"],
        b">HELLO|>|>YOU|.A: TERMINATED|",
    )];
    each_tells(&rt, rt.alloc(), &table);
}

#[test]
fn cards_behind_the_end_are_dropped(rt: HostRuntime) {
    let table: [Row; 1] = [(
        1000,
        "BEGIN WRITE('X') END.",
        &[b"HELLO"],
        b"X|A: TERMINATED|>.",
    )];
    each_tells(&rt, rt.alloc(), &table);
}

#[test]
fn each_end_has_its_line(rt: HostRuntime) {
    let sum =
        "VAR I, S: INTEGER;\nBEGIN\nS := 0;\nFOR I := 1 TO 4 DO S := S + I;\nWRITEINT(S); WRITE(NL)\nEND.";
    let table: [Row; 4] = [
        (12, sum, &[], b"10|A: TERMINATED|."),
        (11, sum, &[], b"10|A: TIME LIMIT IN LINE 5|."),
        (
            3,
            "BEGIN\nWHILE TRUE DO WRITE('A')\nEND.",
            &[],
            b"A|A: TIME LIMIT IN LINE 2|.",
        ),
        (
            100,
            "VAR X: INTEGER;\nBEGIN\nX := 32767 + 1\nEND.",
            &[],
            b"A: OVERFLOW IN LINE 3|.",
        ),
    ];
    each_tells(&rt, rt.alloc(), &table);
}

const A_PROGRAM_WITHOUT_CODE_SAYS_WHY: [Row; 3] = [
    (
        100,
        "BEGIN X := END.",
        &[b"X"],
        b"A: SYNTAX ERROR IN LINE 1|>.",
    ),
    (
        100,
        "BEGIN\nX := 1\nEND.",
        &[],
        b"A: SEMANTIC ERROR 2 IN LINE 2|.",
    ),
    (
        100,
        "BEGIN\nX := 32768 END.",
        &[],
        b"A: BAD WORD IN LINE 2|.",
    ),
];

#[test]
fn a_program_without_code_says_why(rt: HostRuntime) {
    each_tells(&rt, rt.alloc(), &A_PROGRAM_WITHOUT_CODE_SAYS_WHY);
}

/// The lines of a program that is given as code, with their marks.
fn told_of_code(alloc: Global, program: &str, cards: &[&[u8]]) -> Option<Vec<u8>> {
    let name = Ident::of(b"a")?;
    let program = cards_of(alloc, program)?;
    let code = compile(alloc, &program).ok()?;
    match ProgramLines::of_code(alloc, name, 1000, code) {
        Ok(mut lines) => told_of(alloc, &mut lines, cards),
        Err(_) => None,
    }
}

#[test]
fn the_code_of_a_file_runs_as_its_source_does(rt: HostRuntime) {
    let text = told_of_code(rt.alloc(), COPY, &[b"HELLO"]);
    let text = text.expect(&rt, "all that is told");
    assert!(rt; text.as_slice() == b">HELLO|.A: TERMINATED|".as_slice());
    let name = Ident::of(b"a").expect(&rt, "a name");
    assert!(rt; not_code_line(&name).bytes() == b"A: NOT CODE".as_slice());
    let bad = bad_code_line(&name, 12);
    assert!(rt; bad.bytes() == b"A: BAD CODE AT 12".as_slice());
}
