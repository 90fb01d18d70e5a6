use crate::made_code::{HALT, READ, TICK, WRITE, WRITEINT, Written, load, push, store, tick};
use crate::paused_code::{Row, each_tells, tells};
use solo_base::NoMemory;
use stack_code::Op;
use std::alloc::Global;
use std::process::Abort;

/// READ(C); WHILE C <> EM DO BEGIN WRITE(C); READ(C) END.
const COPY: [Written; 14] = [
    TICK,
    READ,
    (Op::StoreG, 0, 0),
    (Op::Tick, 0, 2),
    (Op::LoadG, 0, 0),
    (Op::Push, 25, 0),
    (Op::Ne, 0, 0),
    (Op::JumpF, 13, 0),
    (Op::LoadG, 0, 0),
    WRITE,
    READ,
    (Op::StoreG, 0, 0),
    (Op::Jump, 3, 0),
    HALT,
];

/// Counts from 0, writes so many times what an instruction pushes, and then what more there is.
fn columns(
    alloc: Global,
    count: i16,
    pushes: Written,
    more: &[Written],
) -> Result<Vec<Written>, NoMemory> {
    let mut instrs = Vec::new(alloc);
    instrs.extend_from_slice(&[
        TICK,
        push(0),
        store(0),
        tick(2),
        load(0),
        push(count),
        (Op::Lt, 0, 0),
        (Op::JumpF, 14, 0),
        pushes,
        WRITE,
        load(0),
        (Op::Succ, 0, 0),
        store(0),
        (Op::Jump, 3, 0),
    ])?;
    instrs.extend_from_slice(more)?;
    instrs.push(HALT)?;
    Ok(instrs)
}

/// `"XX..X` with so many of them, and then the rest.
fn quoted(alloc: Global, count: usize, rest: &[u8]) -> Result<Vec<u8>, NoMemory> {
    let mut all = Vec::new(alloc);
    all.push(b'"')?;
    for _ in 0..count {
        all.push(b'X')?;
    }
    all.extend_from_slice(rest)?;
    Ok(all)
}

/// How many X are written and what more, and what is told: so many X in the first line, and the rest.
type Column<'a> = (i16, &'a [Written], usize, &'a [u8]);

fn each_column_tells(rt: &impl Abort, alloc: Global, table: &[Column]) {
    for (count, more, first, rest) in table {
        let instrs = columns(alloc, *count, push(88), more)
            .ok()
            .expect(rt, "memory");
        let wanted = quoted(alloc, *first, rest).ok().expect(rt, "memory");
        tells(rt, alloc, (&instrs, 1000, &[]), &wanted);
    }
}

#[test]
fn a_copy_gives_each_line_before_it_needs_the_next_card(rt: HostRuntime) {
    let copied: [Row; 1] = [(
        &COPY,
        1000,
        &[b"ONE", b"", b"TWO"],
        b"card \"ONE\" card \"\" card \"TWO\" card terminated 2",
    )];
    each_tells(&rt, rt.alloc(), &copied);
}

#[test]
fn a_line_of_132_characters_ends_before_the_next_one(rt: HostRuntime) {
    let table: [Column; 4] = [
        (131, &[], 131, b"\" terminated 2"),
        (132, &[], 132, b"\" terminated 2"),
        (133, &[], 132, b"\" \"X\" terminated 2"),
        // a line end behind 132 characters ends that line, and no empty one follows
        (132, &[push(10), WRITE], 132, b"\" terminated 2"),
    ];
    each_column_tells(&rt, rt.alloc(), &table);
}

#[test]
fn a_number_goes_on_in_the_next_line(rt: HostRuntime) {
    let table: [Column; 2] = [
        (
            130,
            &[push(-32768), WRITEINT],
            130,
            b"-3\" \"2768\" terminated 2",
        ),
        (
            126,
            &[push(-32768), WRITEINT],
            126,
            b"-32768\" terminated 2",
        ),
    ];
    each_column_tells(&rt, rt.alloc(), &table);
}

/// What is told of the characters of all codes.
fn all_codes(alloc: Global) -> Result<Vec<u8>, NoMemory> {
    let mut all = Vec::new(alloc);
    all.extend_from_slice(b"\"??????????\" \"")?;
    for code in 11..=255u8 {
        if code == 143 {
            all.extend_from_slice(b"\" \"")?;
        }
        all.push(if 32 <= code && code < 127 { code } else { b'?' })?;
    }
    all.extend_from_slice(b"\" terminated 2")?;
    Ok(all)
}

#[test]
fn each_code_from_0_to_255_is_shown(rt: HostRuntime) {
    let alloc = rt.alloc();
    let instrs = columns(alloc, 256, load(0), &[]).ok().expect(&rt, "memory");
    let wanted = all_codes(alloc).ok().expect(&rt, "memory");
    tells(&rt, alloc, (&instrs, 1000, &[]), &wanted);
}

/// Pushes a comma.
const COMMA: Written = (Op::Push, 44, 0);

/// Reads four characters, and writes the code of each and a comma.
const CODES: [Written; 18] = [
    TICK, READ, WRITEINT, COMMA, WRITE, READ, WRITEINT, COMMA, WRITE, READ, WRITEINT, COMMA, WRITE,
    READ, WRITEINT, COMMA, WRITE, HALT,
];

const BEHIND_THE_LAST_CARD_CODE_25_IS_READ_FOR_EVER: [Row; 2] = [
    (
        &CODES,
        10,
        &[b"A"],
        b"card card \"65,10,25,25,\" terminated 1",
    ),
    (&CODES, 10, &[], b"card \"25,25,25,25,\" terminated 1"),
];

#[test]
fn behind_the_last_card_code_25_is_read_for_ever(rt: HostRuntime) {
    each_tells(
        &rt,
        rt.alloc(),
        &BEHIND_THE_LAST_CARD_CODE_25_IS_READ_FOR_EVER,
    );
}

/// Pushes the codes of A, of B, and of a line end.
const A: Written = (Op::Push, 65, 0);

const B: Written = (Op::Push, 66, 0);

const NL: Written = (Op::Push, 10, 0);

/// Writes A, a line end and B, and then what is read.
const LINE_AND_CARD: [Written; 10] = [TICK, A, WRITE, NL, WRITE, B, WRITE, READ, WRITE, HALT];

/// Writes a line end.
const EMPTY_LINE: [Written; 4] = [TICK, NL, WRITE, HALT];

const WHAT_IS_COMPLETE_IS_GIVEN_BEFORE_A_CARD_IS_NEEDED: [Row; 3] = [
    (
        &LINE_AND_CARD,
        10,
        &[b"C"],
        b"\"A\" card \"BC\" terminated 1",
    ),
    // an empty line that was ended is a line, and nothing printed is none
    (&EMPTY_LINE, 10, &[], b"\"\" terminated 1"),
    (&[HALT], 0, &[], b"terminated 0"),
];

#[test]
fn what_is_complete_is_given_before_a_card_is_needed(rt: HostRuntime) {
    each_tells(
        &rt,
        rt.alloc(),
        &WHAT_IS_COMPLETE_IS_GIVEN_BEFORE_A_CARD_IS_NEEDED,
    );
}

const TICK_IN_5: Written = (Op::Tick, 0, 5);

const TICK_IN_7: Written = (Op::Tick, 0, 7);

/// Writes lines of A for ever.
const ENDLESS: [Written; 6] = [TICK_IN_7, A, WRITE, NL, WRITE, (Op::Jump, 0, 0)];

/// Writes A, and then asks by ACCEPT.
const ACCEPTS: [Written; 6] = [
    TICK_IN_5,
    A,
    WRITE,
    (Op::Sys, 3, 0),
    (Op::StoreG, 0, 0),
    HALT,
];

const A_PROGRAM_ENDS_WITH_ITS_RESULT_AND_LINE: [Row; 3] = [
    (&ENDLESS, 2, &[], b"\"A\" \"A\" time limit 7"),
    (&COPY, 1, &[b"A"], b"card time limit 2"),
    // ACCEPT is refused in the batch, behind a line that is not complete
    (&ACCEPTS, 10, &[], b"\"A\" call error 5"),
];

#[test]
fn a_program_ends_with_its_result_and_line(rt: HostRuntime) {
    each_tells(&rt, rt.alloc(), &A_PROGRAM_ENDS_WITH_ITS_RESULT_AND_LINE);
}
