// Decks with programs, and the papers that the rules of the language give them.
use crate::running::{Setting, run, undisturbed};
use std::alloc::Global;
use std::process::Abort;
use std::sync::Wait;
use std::test::Fail;
use std::thread::Threads;

/// Loops, limits of ticks, faults while a program runs, long lines, input, and cards that are no program.
const PROGRAMS: [(&str, &str); 10] = [
    (
        "#JOB SUM\n\
         VAR I, S: INTEGER;\n\
         BEGIN\n\
         S := 0;\n\
         FOR I := 1 TO 4 DO S := S + I;\n\
         WRITEINT(S); WRITE(NL)\n\
         END.\n\
         #END\n",
        "JOB SUM\n10\nSUM: TERMINATED\n",
    ),
    (
        "#JOB SUM 12\n\
         VAR I, S: INTEGER;\n\
         BEGIN\n\
         S := 0;\n\
         FOR I := 1 TO 4 DO S := S + I;\n\
         WRITEINT(S); WRITE(NL)\n\
         END.\n\
         #END\n",
        "JOB SUM\n10\nSUM: TERMINATED\n",
    ),
    (
        "#JOB SUM 11\n\
         VAR I, S: INTEGER;\n\
         BEGIN\n\
         S := 0;\n\
         FOR I := 1 TO 4 DO S := S + I;\n\
         WRITEINT(S); WRITE(NL)\n\
         END.\n\
         #END\n",
        "JOB SUM\n10\nSUM: TIME LIMIT IN LINE 5\n",
    ),
    (
        "#JOB LOOP 3\nBEGIN\nWHILE TRUE DO WRITE('A')\nEND.",
        "JOB LOOP\nA\nLOOP: TIME LIMIT IN LINE 2\n",
    ),
    (
        "#JOB BIG\nVAR X: INTEGER;\nBEGIN\nX := 32767 + 1\nEND.\n#LIST B\nY",
        "JOB BIG\nBIG: OVERFLOW IN LINE 3\nJOB B\nY\nB: LISTED 1 CARDS\n",
    ),
    (
        "#JOB W\nVAR I: INTEGER;\nBEGIN FOR I := 1 TO 133 DO WRITE('A') END.",
        "JOB W\n\
         AAAAAAAAAAAAAAAAAAAAAAAAAAAAAAAAAAAAAAAAAAAAAAAAAAAAAAAAAAAAAAAAAAAAAAAAAAAAAAAAAAAAAAAAAAAAAAA\
         AAAAAAAAAAAAAAAAAAAAAAAAAAAAAAAAAAAAA\n\
         A\n\
         W: TERMINATED\n",
    ),
    (
        "#JOB R\n\
         VAR C: CHAR;\n\
         BEGIN READ(C); WRITEINT(ORD(C));\n\
         READ(C); WRITE(' '); WRITEINT(ORD(C));\n\
         READ(C); WRITE(' '); WRITEINT(ORD(C)) END.\n\
         #DATA\n\
         Z\n\
         #JOB T\n\
         BEGIN END.",
        "JOB R\n90 10 25\nR: TERMINATED\nJOB T\nT: TERMINATED\n",
    ),
    (
        "#JOB A\nBEGIN X := END.",
        "JOB A\nA: SYNTAX ERROR IN LINE 1\n",
    ),
    (
        "#JOB A\nBEGIN\nX := 1\nEND.",
        "JOB A\nA: SEMANTIC ERROR 2 IN LINE 2\n",
    ),
    (
        "#JOB A\nBEGIN\nX := 32768 END.",
        "JOB A\nA: BAD WORD IN LINE 2\n",
    ),
];

/// Two parameters that are one variable: four ticks.
const SHARED: [(&str, &str); 4] = [
    (
        "#JOB V\n\
         VAR N: INTEGER;\n\
         PROCEDURE P(VAR A, B: INTEGER);\n\
         BEGIN A := 1; B := B + A END;\n\
         BEGIN P(N, N); WRITEINT(N) END.",
        "JOB V\n2\nV: TERMINATED\n",
    ),
    (
        "#JOB V 4\n\
         VAR N: INTEGER;\n\
         PROCEDURE P(VAR A, B: INTEGER);\n\
         BEGIN A := 1; B := B + A END;\n\
         BEGIN P(N, N); WRITEINT(N) END.",
        "JOB V\n2\nV: TERMINATED\n",
    ),
    (
        "#JOB V 3\n\
         VAR N: INTEGER;\n\
         PROCEDURE P(VAR A, B: INTEGER);\n\
         BEGIN A := 1; B := B + A END;\n\
         BEGIN P(N, N); WRITEINT(N) END.",
        "JOB V\nV: TIME LIMIT IN LINE 4\n",
    ),
    (
        "#JOB V\n\
         VAR N: INTEGER;\n\
         PROCEDURE P(VAR A, B: INTEGER);\n\
         BEGIN A := 1; B := B + A END;\n\
         BEGIN P(N + 1, N); WRITEINT(N) END.",
        "JOB V\nV: SEMANTIC ERROR 13 IN LINE 4\n",
    ),
];

/// A branch for a label, none, and a label twice.
const CASES: [(&str, &str); 3] = [
    (
        "#JOB K\n\
         VAR I: INTEGER;\n\
         BEGIN FOR I := 1 TO 3 DO\n\
         CASE I OF 1, 3: WRITE('X'); 2: WRITE('Y') END END.",
        "JOB K\nXYX\nK: TERMINATED\n",
    ),
    (
        "#JOB K\n\
         VAR I: INTEGER;\n\
         BEGIN FOR I := 1 TO 3 DO\n\
         CASE I OF 1: WRITE('X') END END.",
        "JOB K\nX\nK: RANGE ERROR IN LINE 3\n",
    ),
    (
        "#JOB K\nVAR I: INTEGER;\nBEGIN FOR I := 1 TO 3 DO\nCASE I OF 1: ; 1: END END.",
        "JOB K\nK: SEMANTIC ERROR 15 IN LINE 3\n",
    ),
];

/// Whether these words print this paper of a deck that comes in pieces of so many bytes, and behind it what
/// begins so.
fn prints(
    rt: &(impl Threads + Wait + Sync + AllocGlobal + Abort),
    words: &[&str],
    deck: (&str, usize),
    paper: &str,
    behind: &[u8],
) -> Result<bool, Fail> {
    let (deck, piece) = deck;
    let setting = Setting {
        piece,
        ..undisturbed(deck.as_bytes())
    };
    let came = run(rt, words, setting)?;
    Ok(came.has(paper.as_bytes(), behind))
}

/// Whether the deck has this paper, on threads and under a schedule, however the deck is cut.
fn has_paper(
    rt: &(impl Threads + Wait + Sync + AllocGlobal + Abort),
    deck: &str,
    paper: &str,
) -> Result<bool, Fail> {
    let whole = prints(rt, &["batch"], (deck, 512), paper, b"")?;
    let cut = prints(rt, &["batch"], (deck, 7), paper, b"")?;
    let words = &["core", "--schedule", "7"];
    let core = prints(rt, words, (deck, 512), paper, b"COUNTS: ")?;
    Ok(whole && cut && core)
}

#[test]
fn each_program_has_its_paper(rt: HostRuntime) -> Result<(), Fail> {
    for (deck, paper) in PROGRAMS {
        assert!(rt; has_paper(&rt, deck, paper)?, "{deck}");
    }
    Ok(())
}

#[test]
fn two_parameters_may_be_one_variable(rt: HostRuntime) -> Result<(), Fail> {
    for (deck, paper) in SHARED {
        assert!(rt; has_paper(&rt, deck, paper)?, "{deck}");
    }
    Ok(())
}

#[test]
fn a_branch_is_chosen_by_its_label(rt: HostRuntime) -> Result<(), Fail> {
    for (deck, paper) in CASES {
        assert!(rt; has_paper(&rt, deck, paper)?, "{deck}");
    }
    Ok(())
}

/// A deck whose cards are the first one, the second one so many times, and the last.
fn repeated(
    alloc: Global,
    first: &str,
    card: &str,
    times: usize,
    last: &str,
) -> Result<String, Fail> {
    let cards = card.repeat(alloc, times)?;
    let cards = cards.as_str();
    Ok(format!(in alloc; "{first}\n{cards}{last}")?)
}

/// A card of 80 characters.
fn card(alloc: Global, character: &str) -> Result<String, Fail> {
    let characters = character.repeat(alloc, 80)?;
    let characters = characters.as_str();
    Ok(format!(in alloc; "{characters}\n")?)
}

/// Whether a batch gives the deck this paper.
fn is_printed(
    rt: &(impl Threads + Wait + Sync + AllocGlobal + Abort),
    deck: &str,
    paper: &str,
) -> Result<bool, Fail> {
    prints(rt, &["batch"], (deck, 512), paper, b"")
}

/// A program that adds 4,095 ones to a one: its code would have four instructions, and two for each of them.
#[test]
fn a_code_over_8192_instructions_is_refused(rt: HostRuntime) -> Result<(), Fail> {
    let first = "#JOB ADD\nVAR X: INTEGER;\nBEGIN X := 1";
    let card = "+1+1+1+1+1+1+1+1+1+1+1+1+1+1+1+1+1+1+1+1+1+1+1+1+1+1+1+1+1+1+1+1+1+1+1+1+1+1+1\n";
    let deck = repeated(rt.alloc(), first, card, 105, "END.\n")?;
    let paper = "JOB ADD\nADD: CODE LIMIT\n";
    assert!(rt; is_printed(&rt, deck.as_str(), paper)?);
    Ok(())
}

#[test]
fn sixteen_megabytes_of_blanks_are_no_program(rt: HostRuntime) -> Result<(), Fail> {
    let card = card(rt.alloc(), " ")?;
    let deck = repeated(rt.alloc(), "#JOB A\n", card.as_str(), 207_000, "")?;
    let paper = "JOB A\nA: SYNTAX ERROR IN LINE 207002\n";
    assert!(rt; is_printed(&rt, deck.as_str(), paper)?);
    Ok(())
}

#[test]
fn ten_thousand_parentheses_are_refused(rt: HostRuntime) -> Result<(), Fail> {
    let (first, card) = ("#JOB A\nBEGIN WRITEINT(", card(rt.alloc(), "(")?);
    let deck = repeated(rt.alloc(), first, card.as_str(), 125, "")?;
    let paper = "JOB A\nA: SYNTAX ERROR IN LINE 2\n";
    assert!(rt; is_printed(&rt, deck.as_str(), paper)?);
    Ok(())
}
