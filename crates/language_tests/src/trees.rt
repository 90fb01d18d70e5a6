use crate::cards::{add_card, add_times, program_of};
use crate::reading::{text_of, tree_of};
use pascal_read::{parse, scan};
use pascal_tree::statement::Statement;
use pascal_tree::{Tree, spell};
use solo_base::LineList;
use std::alloc::Global;
use std::process::Abort;
use std::thread::Builder;

/// The words of a program.
fn words_of(rt: &impl Abort, alloc: Global, program: &LineList) -> String {
    let tokens = scan(alloc, program).ok().expect(rt, "words");
    text_of(rt, alloc, &tokens)
}

/// A program's tree is spelled by the words of the program.
fn is_spelled_back(rt: &impl Abort, alloc: Global, program: &LineList, tree: &Tree) {
    let words = words_of(rt, alloc, program);
    let tokens = spell(tree).ok().expect(rt, "memory");
    let spelling = text_of(rt, alloc, &tokens);
    assert!(rt; spelling.as_str() == words.as_str(), "{spelling}");
}

/// A program is spelled back.
fn spells_its_words(rt: &impl Abort, alloc: Global, cards: &[&str]) {
    let program = program_of(rt, alloc, cards);
    let tree = tree_of(rt, alloc, &program);
    is_spelled_back(rt, alloc, &program, &tree);
}

#[test]
fn a_tree_is_spelled_by_the_words_that_it_was_read_from(rt: HostRuntime) {
    let alloc = rt.alloc();
    let table: [&[&str]; 9] = [
        &["BEGIN END."],
        &[
            "PROGRAM P;",
            "CONST A = 1; B = -2;",
            "C = 'X'; D = A;",
            "BEGIN END.",
        ],
        &[
            "VAR X, Y: INTEGER;",
            "Z: ARRAY(.1..A.) OF CHAR; BEGIN",
            "END",
            ".",
        ],
        &[
            "PROCEDURE P(VAR X, Y: CHAR; Z: T;",
            "VAR W: T); VAR B: T;",
            "BEGIN END; BEGIN P(1, X) END.",
        ],
        &[
            "FUNCTION F(X: T): T; CONST A = 1;",
            "BEGIN F := X END; BEGIN END.",
        ],
        &[
            "BEGIN X(.I + 1.) := -A * B DIV 2",
            "+ F(X, Y) MOD 3 - (C OR NOT D & E) END.",
        ],
        &[
            "BEGIN IF A <= B THEN",
            "IF C THEN D ELSE",
            "WHILE E DO F END.",
        ],
        &[
            "BEGIN REPEAT P; ; Q UNTIL A <> B;",
            "FOR I := 1 TO 2 DO;",
            "FOR I := 2 DOWNTO 1 DO BEGIN END END.",
        ],
        &[
            "BEGIN CASE I OF 1, -2, A, 'X': P;",
            "3: ; 4: CASE J OF 5: END",
            "END END.",
        ],
    ];
    for cards in table {
        spells_its_words(&rt, alloc, cards);
    }
}

/// Whether the first statement of a program calls this name.
fn calls(tree: &Tree, letters: &[u8]) -> bool {
    match &tree.program.body.statements.first {
        Statement::Call(call) => call.name.letters.bytes() == letters,
        _ => false,
    }
}

/// A call of this name is read, and spelled back.
fn name_is_read(rt: &impl Abort, alloc: Global, name: &str) {
    let program = program_of(rt, alloc, &["BEGIN", name, "END."]);
    let tree = tree_of(rt, alloc, &program);
    assert!(rt; calls(&tree, name.as_bytes()));
    is_spelled_back(rt, alloc, &program, &tree);
}

#[test]
fn names_are_as_long_as_a_card_or_a_line(rt: HostRuntime) {
    let letters = "A".repeat(rt.alloc(), 132).ok().expect(&rt, "memory");
    for length in [1, 14, 15, 80, 132] {
        let name = letters.get(..length).expect(&rt, "letters");
        name_is_read(&rt, rt.alloc(), name);
    }
}

/// The line of the ELSE that belongs to the inner one of two IFs, where the outer one has none.
fn inner_else(tree: &Tree) -> Option<u32> {
    let Statement::If(outer) = &tree.program.body.statements.first else {
        return None;
    };
    let Statement::If(inner) = &outer.first else {
        return None;
    };
    match (&outer.otherwise, &inner.otherwise) {
        (None, Some((line, _))) => Some(*line),
        _ => None,
    }
}

#[test]
fn else_belongs_to_the_nearest_if(rt: HostRuntime) {
    let cards = ["BEGIN IF A THEN", "IF B THEN C", "ELSE D END."];
    let program = program_of(&rt, rt.alloc(), &cards);
    let tree = tree_of(&rt, rt.alloc(), &program);
    assert!(rt; inner_else(&tree) == Some(3));
}

/// What stands before and behind what is inside.
type Around = (&'static str, &'static str);

/// Sixty-two statements, each in the one before, and in the last of them an IF whose test has
/// sixty-three factors, each in the one before. A statement and a factor are given by what stands
/// in each before the next one and behind it.
fn deepest_program(alloc: Global, statement: Around, factor: Around) -> Option<LineList> {
    let mut program = LineList::new(alloc);
    let cards: [(&'static str, usize); 9] = [
        ("BEGIN", 1),
        (statement.0, 62),
        ("IF", 1),
        (factor.0, 63),
        ("1", 1),
        (factor.1, 63),
        ("THEN B ELSE", 1),
        (statement.1, 62),
        ("END.", 1),
    ];
    for (card, times) in cards {
        add_times(&mut program, card, times)?;
    }
    Some(program)
}

/// Whether such a program is spelled by as many words as it has.
fn spells_back(alloc: Global, statement: Around, factor: Around) -> Option<bool> {
    let program = deepest_program(alloc, statement, factor)?;
    let tokens = scan(alloc, &program).ok()?;
    let count = tokens.len();
    match parse(alloc, tokens) {
        Ok(tree) => has_words(&tree, count),
        Err(_) => None,
    }
}

/// Whether a tree is spelled by so many words.
fn has_words(tree: &Tree, count: usize) -> Option<bool> {
    let spelling = spell(tree).ok()?;
    Some(spelling.len() == count)
}

/// Whether each of the deepest programs is spelled back: each kind of statement around the factors
/// that need most, and each kind of factor in the statement that needs most.
fn all_spell_back(alloc: Global) -> Option<bool> {
    let call = ("1 = - 1 + 1 * F(1,", ")");
    let case = ("CASE 1 OF 1: X; 1:", "END");
    let table = [
        (("BEGIN X;", "END"), call),
        (("IF A THEN B ELSE", ""), call),
        (("WHILE A DO", ""), call),
        (("REPEAT X;", "UNTIL A"), call),
        (("FOR I := 1 TO 2 DO", ""), call),
        (case, call),
        (case, ("1 = - 1 + 1 * A(.", ".)")),
        (case, ("1 = - 1 + 1 * (", ")")),
        (case, ("NOT", "")),
    ];
    for (statement, factor) in table {
        if !spells_back(alloc, statement, factor)? {
            return Some(false);
        }
    }
    Some(true)
}

#[test]
fn the_deepest_programs_are_read_and_spelled_in_two_megabytes_of_stack(rt: HostRuntime) {
    let alloc = rt.alloc();
    let reader = Builder::new()
        .stack_size(2 << 20)
        .spawn(&rt, move || all_spell_back(alloc));
    let read = reader.ok().expect(&rt, "a thread").join(&rt);
    assert!(rt; read == Some(true));
}

/// Four thousand cards of semicolons.
fn semicolons(alloc: Global) -> Option<LineList> {
    let mut program = LineList::new(alloc);
    add_card(&mut program, "BEGIN")?;
    let semicolons =
        ";;;;;;;;;;;;;;;;;;;;;;;;;;;;;;;;;;;;;;;;;;;;;;;;;;;;;;;;;;;;;;;;;;;;;;;;;;;;;;;;";
    add_times(&mut program, semicolons, 4_000)?;
    add_card(&mut program, "END.")?;
    Some(program)
}

#[test]
fn cards_of_semicolons_are_read(rt: HostRuntime) {
    let program = semicolons(rt.alloc()).expect(&rt, "cards");
    let tree = tree_of(&rt, rt.alloc(), &program);
    assert!(rt; tree.program.body.statements.rest.len() == 320_000);
}

#[test]
fn a_statement_takes_16_bytes() {
    const _: () = prove!(size_of::<Statement>() <= 16);
}
