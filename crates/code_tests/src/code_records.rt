use crate::cards::joined;
use crate::made_code::{Numbers, Routine, code_file};
use stack_code::{Code, CodeFault, decode, encode, listing, verify};
use std::alloc::Global;
use std::process::Abort;

/// The first bytes of a file.
fn front(bytes: &[u8], len: usize) -> &[u8] {
    if len <= bytes.len() {
        &bytes[..len]
    } else {
        bytes
    }
}

/// The place at which the file is refused, by decode or by verify.
fn refused_at(alloc: Global, bytes: &[u8]) -> Option<u32> {
    match decode(alloc, bytes) {
        Err(CodeFault::BadCode { at }) => Some(at),
        Err(CodeFault::NoMemory) => None,
        Ok(code) => match verify(code) {
            Err(CodeFault::BadCode { at }) => Some(at),
            Err(CodeFault::NoMemory) | Ok(_) => None,
        },
    }
}

/// A code file.
fn file_of(rt: &impl Abort, alloc: Global, routines: &[Routine], instrs: &[Numbers]) -> Vec<u8> {
    code_file(alloc, routines, instrs)
        .ok()
        .expect(rt, "ample memory")
}

/// The code of a file, which is written by the same bytes again and has this listing, each line of it
/// with `/` behind it.
fn is_code(rt: &impl Abort, alloc: Global, bytes: &[u8], lines: &[u8]) -> Code {
    let code = decode(alloc, bytes).ok().expect(rt, "code");
    let again = encode(alloc, &code).ok().expect(rt, "ample memory");
    assert!(rt; again.as_slice() == bytes);
    let listed = listing(alloc, &code).ok().expect(rt, "ample memory");
    let found = joined(alloc, &listed).ok().expect(rt, "ample memory");
    assert!(rt; found.as_slice() == lines, "{found:?}");
    code
}

/// BEGIN WRITE('A') END.
const WRITE_A: [Numbers; 4] = [[29, 0, 1], [0, 65, 0], [32, 1, 0], [35, 0, 0]];

/// The first bytes of its file.
const BYTES_OF_WRITE_A: [u8; 40] = [
    0x53, 0x45, 0x51, 0x43, 0x4F, 0x44, 0x45, 0x31, 0x00, 0x01, 0x00, 0x04, 0x00, 0x00, 0x00, 0x00,
    0x00, 0x00, 0x00, 0x01, 0x1D, 0x00, 0x00, 0x00, 0x01, 0x00, 0x00, 0x41, 0x00, 0x00, 0x20, 0x00,
    0x01, 0x00, 0x00, 0x23, 0x00, 0x00, 0x00, 0x00,
];

#[test]
fn the_code_of_a_write_has_its_bytes_and_its_listing(rt: HostRuntime) {
    let bytes = file_of(&rt, rt.alloc(), &[[0, 0, 0, 0, 1]], &WRITE_A);
    assert!(rt; bytes.len() == 512);
    assert!(rt; front(&bytes, 40) == BYTES_OF_WRITE_A.as_slice());
    let lines = b"TICK 0 1/PUSH 65 0/SYS 1 0/HALT 0 0/";
    let code = is_code(&rt, rt.alloc(), &bytes, lines);
    let verified = verify(code).ok().expect(&rt, "good code");
    assert!(rt; verified.code().instrs().len() == 4);
    assert!(rt; verified.code().routines().len() == 1);
}

/// The word that words 0 and 1 refer to, where word 0 is 5.
const REFERENCE: [Numbers; 6] = [
    [29, 0, 1],
    [0, 5, 0],
    [3, 0, 0],
    [40, 0, 0],
    [3, 1, 0],
    [35, 0, 0],
];

#[test]
fn a_reference_has_its_bytes_and_its_listing(rt: HostRuntime) {
    let bytes = file_of(&rt, rt.alloc(), &[[0, 0, 0, 2, 1]], &REFERENCE);
    assert!(rt; front(&bytes, 40).ends_with(&[0x28, 0, 0, 0, 0]));
    let lines = b"TICK 0 1/PUSH 5 0/STOREG 0 0/LOADR 0 0/STOREG 1 0/HALT 0 0/";
    let _code = is_code(&rt, rt.alloc(), &bytes, lines);
}

/// The place at which a file is refused that has this byte at a place.
fn refused_with(
    rt: &impl Abort,
    alloc: Global,
    bytes: &[u8],
    place: usize,
    byte: u8,
) -> Option<u32> {
    let mut changed = bytes.to_vec(alloc).ok().expect(rt, "ample memory");
    if let Some(at) = changed.get_mut(place) {
        *at = byte;
    }
    refused_at(alloc, &changed)
}

/// Each row of a table: a place, a wrong byte there, and the place at which the file is refused then.
fn each_byte_is_refused(rt: &impl Abort, alloc: Global, bytes: &[u8], table: &[(usize, u8, u32)]) {
    for (place, byte, at) in table {
        let found = refused_with(rt, alloc, bytes, *place, *byte);
        assert!(rt; found == Some(*at), "byte {place} is {byte}");
    }
}

#[test]
fn a_file_is_refused_at_its_least_wrong_byte(rt: HostRuntime) {
    // BEGIN END.
    let mut bytes = file_of(&rt, rt.alloc(), &[[0, 0, 0, 0, 0]], &[[35, 0, 0]]);
    assert!(rt; bytes.len() == 512);
    assert!(rt; refused_at(rt.alloc(), &bytes) == None);
    assert!(rt; refused_at(rt.alloc(), front(&bytes, 511)) == Some(511));
    assert!(rt; refused_at(rt.alloc(), &[]) == Some(0));
    let table = [
        (0, 0x73, 0), // a wrong letter
        (7, 0x32, 7),
        (8, 0x01, 8), // 257 routines
        (9, 0x00, 8), // no routine
        (10, 0x20, 10), // 8,193 instructions
        (11, 0x00, 10), // no instruction
        (15, 0x02, 15), // a function's mark of 2
        (20, 0x2A, 20), // operation 42
        (22, 0x01, 22), // an unused operand
        (24, 0x01, 24),
        (25, 0x01, 25), // the first byte of the padding
        (30, 0x01, 30),
        (511, 0x01, 511),
    ];
    each_byte_is_refused(&rt, rt.alloc(), &bytes, &table);
    assert!(rt; bytes.push(0).is_ok());
    assert!(rt; refused_at(rt.alloc(), &bytes) == Some(512));
}

/// Routines, instructions, and the place at which their file is refused.
type Case<'a> = (&'a [Routine], &'a [Numbers], Option<u32>);

/// Whether each row is so.
fn each_is_refused(rt: &impl Abort, alloc: Global, cases: &[Case]) {
    for (routines, instrs, at) in cases {
        let bytes = file_of(rt, alloc, routines, instrs);
        assert!(rt; refused_at(alloc, &bytes) == *at, "{instrs:?}");
    }
}

#[test]
fn code_is_refused_at_its_first_broken_record(rt: HostRuntime) {
    let one: &[Routine] = &[[0, 0, 0, 2, 2]];
    let two: &[Routine] = &[[0, 0, 0, 2, 2], [3, 1, 1, 2, 1]];
    let cases: &[Case] = &[
        (one, &[[29, 0, 1], [27, 0, 0]], None),
        // a jump back to a PUSH, a jump to itself, a jump out of the code
        (
            one,
            &[[29, 0, 1], [0, 65, 0], [32, 1, 0], [27, 1, 0]],
            Some(35),
        ),
        (one, &[[27, 0, 0]], Some(20)),
        (one, &[[29, 0, 1], [27, 2, 0]], Some(25)),
        // the last instruction is a TICK
        (one, &[[29, 0, 1]], Some(20)),
        // RETURN in the program
        (one, &[[31, 0, 0]], Some(20)),
        // a word past the frame, an array past it, an array of no words
        (one, &[[1, 2, 0], [3, 0, 0], [35, 0, 0]], Some(20)),
        (
            one,
            &[[0, 0, 0], [5, 1, 2], [3, 0, 0], [35, 0, 0]],
            Some(25),
        ),
        (
            one,
            &[[0, 0, 0], [5, 1, 0], [3, 0, 0], [35, 0, 0]],
            Some(25),
        ),
        // bounds -1 to 0 are right, 0 to -1 aren't, nor are 0 to 4096
        (
            one,
            &[[0, 0, 0], [9, 65535, 0], [3, 0, 0], [35, 0, 0]],
            None,
        ),
        (
            one,
            &[[0, 0, 0], [9, 0, 65535], [3, 0, 0], [35, 0, 0]],
            Some(25),
        ),
        (
            one,
            &[[0, 0, 0], [9, 0, 4096], [3, 0, 0], [35, 0, 0]],
            Some(25),
        ),
        // CHR finds nothing, PUSH passes the height, HALT leaves a word
        (one, &[[26, 0, 0], [35, 0, 0]], Some(20)),
        (
            one,
            &[[0, 1, 0], [0, 2, 0], [0, 3, 0], [35, 0, 0]],
            Some(30),
        ),
        (one, &[[0, 1, 0], [35, 0, 0]], Some(25)),
        // a jump's target at which a word is on the stack stands before the jump
        (
            one,
            &[[29, 0, 1], [0, 1, 0], [29, 0, 2], [3, 0, 0], [27, 2, 0]],
            Some(30),
        ),
        // a reference to the program's last word and behind it, one to an own word and behind it
        (one, &[[38, 1, 0], [3, 0, 0], [3, 0, 0], [35, 0, 0]], None),
        (one, &[[38, 2, 0], [35, 0, 0]], Some(20)),
        (
            &[[0, 0, 0, 1, 2], [1, 0, 0, 2, 2]],
            &[[35, 0, 0], [39, 1, 0], [4, 0, 0], [4, 0, 0], [31, 0, 0]],
            None,
        ),
        (
            &[[0, 0, 0, 3, 2], [1, 0, 0, 2, 2]],
            &[[35, 0, 0], [39, 2, 0], [4, 0, 0], [4, 0, 0], [31, 0, 0]],
            Some(33),
        ),
        // the second word of a reference lies behind the frame, and there is room for one word where two are
        // pushed
        (&[[0, 0, 0, 2, 1]], &REFERENCE, None),
        (
            &[[0, 0, 0, 1, 1]],
            &[
                [29, 0, 1],
                [0, 5, 0],
                [3, 0, 0],
                [40, 0, 0],
                [3, 0, 0],
                [35, 0, 0],
            ],
            Some(35),
        ),
        (one, &[[0, 1, 0], [41, 1, 0], [35, 0, 0]], Some(25)),
        (
            &[[0, 0, 0, 2, 1]],
            &[[38, 0, 0], [3, 0, 0], [3, 0, 0], [35, 0, 0]],
            Some(20),
        ),
        // an interface row with an array by SYS, one without by SYSG
        (one, &[[32, 10, 0], [35, 0, 0]], Some(20)),
        (one, &[[33, 0, 0], [35, 0, 0]], Some(20)),
        // a program that ends in a CALL, and one that stores the function's result
        (
            two,
            &[[29, 0, 1], [0, 7, 0], [30, 1, 0], [35, 0, 0], [31, 0, 0]],
            Some(38),
        ),
        (
            &[[0, 0, 0, 2, 2], [5, 1, 1, 2, 1]],
            &[
                [29, 0, 1],
                [0, 7, 0],
                [30, 1, 0],
                [3, 0, 0],
                [35, 0, 0],
                [31, 0, 0],
            ],
            None,
        ),
        // a CALL without a TICK, and one with a jump's target before it
        (
            &[[0, 0, 0, 2, 2], [4, 1, 1, 2, 1]],
            &[[0, 7, 0], [30, 1, 0], [3, 0, 0], [35, 0, 0], [31, 0, 0]],
            Some(33),
        ),
        (
            &[[0, 0, 0, 2, 2], [5, 0, 0, 2, 1]],
            &[
                [29, 0, 1],
                [0, 0, 0],
                [28, 3, 0],
                [30, 1, 0],
                [35, 0, 0],
                [31, 0, 0],
            ],
            Some(43),
        ),
        // HALT in a routine, and routines that don't rise
        (
            &[[0, 0, 0, 2, 2], [1, 0, 0, 2, 1]],
            &[[35, 0, 0], [35, 0, 0]],
            Some(33),
        ),
        (
            &[[0, 0, 0, 2, 2], [0, 0, 0, 2, 1]],
            &[[35, 0, 0], [31, 0, 0]],
            Some(20),
        ),
        (&[[0, 1, 0, 2, 2]], &[[35, 0, 0]], Some(12)),
        (&[[0, 0, 0, 4353, 2]], &[[35, 0, 0]], Some(12)),
        (&[[0, 0, 0, 2, 1537]], &[[35, 0, 0]], Some(12)),
    ];
    each_is_refused(&rt, rt.alloc(), cases);
}
