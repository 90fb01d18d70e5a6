use crate::file_calls::{Call, answer_is, info};
use crate::made_area::{blank_files, mounted, name, set_byte};
use crate::text_calls::{code_fault, code_read, code_store_is, store_is};
use disk_files::{FileArea, FileFault};
use disk_layout::FileKind;
use disk_system::{Loaded, SystemFault, load_job};
use solo_base::Page;
use solo_devices::SureArea;
use stack_code::{Verified, decode, encode, verify};
use std::alloc::Global;
use std::process::Abort;

// The code of `BEGIN WRITE('A') END.`, without the zeros up to the end of the page.
const WRITE_A: [u8; 40] = [
    0x53, 0x45, 0x51, 0x43, 0x4F, 0x44, 0x45, 0x31, 0x00, 0x01, 0x00, 0x04, 0x00, 0x00, 0x00, 0x00,
    0x00, 0x00, 0x00, 0x01, 0x1D, 0x00, 0x00, 0x00, 0x01, 0x00, 0x00, 0x41, 0x00, 0x00, 0x20, 0x00,
    0x01, 0x00, 0x00, 0x23, 0x00, 0x00, 0x00, 0x00,
];

// The page of that code file.
fn write_a() -> Page {
    let mut page = Page::zeros();
    page.0[..40].copy_from_slice(&WRITE_A);
    page
}

// The code of a code file, verified.
fn code_of(rt: &impl Abort, alloc: Global, file: &[u8]) -> Verified {
    let code = decode(alloc, file).ok().expect(rt, "code");
    verify(code).ok().expect(rt, "good code")
}

// The code file of code.
fn file_of(rt: &impl Abort, alloc: Global, code: &Verified) -> Vec<u8> {
    encode(alloc, code.code()).ok().expect(rt, "ample memory")
}

// Code has this code file.
fn has_file(rt: &impl Abort, alloc: Global, code: &Verified, file: &[u8]) {
    let found = file_of(rt, alloc, code);
    assert!(rt; found.as_slice() == file);
}

// The code of a code file is stored in a file of so many pages and loaded again, and then is the same.
fn is_loaded_again(
    rt: &impl Abort,
    alloc: Global,
    files: &mut FileArea<SureArea>,
    file: &[u8],
    pages: u16,
) {
    let code = code_of(rt, alloc, file);
    has_file(rt, alloc, &code, file);
    code_store_is(rt, alloc, files, &code, Ok(()));
    let told = info(rt, files, &name(rt, b"prog")).ok();
    assert!(rt; told.expect(rt, "the file").pages == pages);
    let loaded = code_read(rt, alloc, files, b"prog").ok();
    has_file(rt, alloc, &loaded.expect(rt, "the code"), file);
}

// A file has no code, for this reason.
fn no_code_is(
    rt: &impl Abort,
    alloc: Global,
    files: &mut FileArea<SureArea>,
    letters: &[u8],
    wanted: SystemFault,
) {
    let fault = code_fault(rt, alloc, files, letters);
    assert!(rt; fault == Some(wanted), "{fault:?}");
}

const NO_FILE: SystemFault = SystemFault::File(FileFault::NoFile);

const EXISTS: Result<(), SystemFault> = Err(SystemFault::File(FileFault::Exists));

#[test]
fn code_is_loaded_as_it_was_stored(rt: HostRuntime) {
    let alloc = rt.alloc();
    let mut files = blank_files(&rt, alloc);
    no_code_is(&rt, alloc, &mut files, b"prog", NO_FILE);
    let file = write_a();
    is_loaded_again(&rt, alloc, &mut files, file.bytes(), 1);
    let code = code_of(&rt, alloc, file.bytes());
    code_store_is(&rt, alloc, &mut files, &code, EXISTS);
    store_is(&rt, alloc, &mut files, (b"text", b"A"), Ok(()));
    no_code_is(&rt, alloc, &mut files, b"text", SystemFault::NotCode);
}

// Puts these bytes behind others.
fn add(rt: &impl Abort, file: &mut Vec<u8>, bytes: &[u8]) {
    assert!(rt; file.extend_from_slice(bytes).is_ok());
}

// The code file of a program that writes 150 letters, each by a TICK, a PUSH and a SYS, and then halts: 451
// instructions, so 2,275 bytes, and zeros up to the end of the fifth page.
fn write_150(rt: &impl Abort, alloc: Global) -> Vec<u8> {
    let mut file = Vec::new(alloc);
    add(rt, &mut file, &WRITE_A[..10]);
    add(rt, &mut file, &[1, 0xC3]);
    add(rt, &mut file, &WRITE_A[12..20]);
    for n in 0..150u8 {
        let letter = b'A' + n % 26;
        let instrs = [0x1D, 0, 0, 0, 1, 0, 0, letter, 0, 0, 0x20, 0, 1, 0, 0];
        add(rt, &mut file, &instrs);
    }
    add(rt, &mut file, &[0x23]);
    assert!(rt; file.resize(2560, 0).is_ok());
    file
}

#[test]
fn code_of_five_pages_is_loaded_as_it_was_stored(rt: HostRuntime) {
    let mut files = blank_files(&rt, rt.alloc());
    let file = write_150(&rt, rt.alloc());
    is_loaded_again(&rt, rt.alloc(), &mut files, &file, 5);
}

// The place at which the code file is refused whose bytes at these places are others.
fn refused_with(rt: &impl Abort, alloc: Global, changes: &[(usize, u8)]) -> Option<u32> {
    let mut area = one_page(rt, alloc);
    for (at, byte) in changes {
        set_byte(rt, &mut area, 20, *at, *byte);
    }
    let mut files = mounted(rt, alloc, area);
    match code_fault(rt, alloc, &mut files, b"prog") {
        None => None,
        Some(SystemFault::BadCode { at }) => Some(at),
        Some(_) => panic!(rt; "another fault"),
    }
}

// An area with that code file, whose page is page 20.
fn one_page(rt: &impl Abort, alloc: Global) -> SureArea {
    let mut files = blank_files(rt, alloc);
    let code = code_of(rt, alloc, write_a().bytes());
    code_store_is(rt, alloc, &mut files, &code, Ok(()));
    files.into_inner()
}

// Bytes of the code file that are others, and the place at which it is refused then.
const DAMAGES: [(&[(usize, u8)], Option<u32>); 13] = [
    (&[], None),
    // a letter, the counts, a function's mark, an operation, an unused operand, the zeros behind
    (&[(6, 0x65)], Some(6)),
    (&[(8, 1)], Some(8)),
    (&[(9, 0)], Some(8)),
    (&[(10, 0x20)], Some(10)),
    (&[(15, 2)], Some(15)),
    (&[(20, 42)], Some(20)),
    (&[(38, 1)], Some(38)),
    (&[(40, 1)], Some(40)),
    (&[(511, 1)], Some(511)),
    // a record of a routine with a parameter, and a jump to the TICK and one to the PUSH
    (&[(14, 1)], Some(12)),
    (&[(35, 27)], None),
    (&[(35, 27), (37, 1)], Some(35)),
];

#[test]
fn damaged_code_is_refused_at_its_place(rt: HostRuntime) {
    for (changes, at) in &DAMAGES {
        assert!(rt;
            refused_with(&rt, rt.alloc(), changes) == *at,
            "{changes:?}"
        );
    }
}

// Puts this page behind a file.
fn append(rt: &impl Abort, files: &mut FileArea<SureArea>, letters: &[u8], page: &Page) {
    assert!(rt; files.sound());
    assert!(rt; files.append(&name(rt, letters), page).is_ok());
}

// Makes an empty file of code.
fn create(rt: &impl Abort, files: &mut FileArea<SureArea>, letters: &[u8]) {
    let create = Call::Create(name(rt, letters), FileKind::SeqCode);
    answer_is(rt, files, create, None);
}

#[test]
fn an_empty_code_file_is_refused_at_its_first_byte(rt: HostRuntime) {
    let alloc = rt.alloc();
    let mut files = blank_files(&rt, alloc);
    create(&rt, &mut files, b"prog");
    no_code_is(
        &rt,
        alloc,
        &mut files,
        b"prog",
        SystemFault::BadCode { at: 0 },
    );
    append(&rt, &mut files, b"prog", &write_a());
    append(&rt, &mut files, b"prog", &Page::zeros());
    no_code_is(
        &rt,
        alloc,
        &mut files,
        b"prog",
        SystemFault::BadCode { at: 512 },
    );
}

// What a job finds of a program, as a word and a number.
fn found(
    rt: &impl Abort,
    alloc: Global,
    files: &mut FileArea<SureArea>,
    program: &[u8],
) -> (&'static str, u32) {
    assert!(rt; files.sound());
    match load_job(alloc, &name(rt, program), files)
        .ok()
        .expect(rt, "ample memory")
    {
        Loaded::Code(code) => ("code", code.code().instrs().len() as u32),
        Loaded::NoFile => ("no file", 0),
        Loaded::NotCode => ("not code", 0),
        Loaded::BadCode { at } => ("bad code", at),
    }
}

// A job finds this of a program.
fn finds(
    rt: &impl Abort,
    alloc: Global,
    files: &mut FileArea<SureArea>,
    program: &[u8],
    wanted: (&str, u32),
) {
    let (word, number) = found(rt, alloc, files, program);
    assert!(rt; word == wanted.0 && number == wanted.1, "{word} {number}");
}

#[test]
fn a_job_finds_its_program_or_why_there_is_none(rt: HostRuntime) {
    let alloc = rt.alloc();
    let mut files = blank_files(&rt, alloc);
    is_loaded_again(&rt, alloc, &mut files, write_a().bytes(), 1);
    store_is(&rt, alloc, &mut files, (b"text", b"A"), Ok(()));
    create(&rt, &mut files, b"empty");
    finds(&rt, alloc, &mut files, b"prog", ("code", 4));
    finds(&rt, alloc, &mut files, b"none", ("no file", 0));
    finds(&rt, alloc, &mut files, b"text", ("not code", 0));
    finds(&rt, alloc, &mut files, b"empty", ("bad code", 0));
}
