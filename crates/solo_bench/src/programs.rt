//! Times the calls of a program that stands on a stack with four others, and measures the memory that they
//! take.
ghost use Rattle.std.specs.Prelude.{◌≡◌, [], IfOk};
ghost use Rattle.prog_stack.specs.Callers.{IsStack, TopAsks};

use crate::fault::Fault;
use crate::{clock, memory};
use disk_files::FileArea;
use disk_pages::AREA_PAGES;
use disk_system::{format, store_code};
use prog_stack::{ProgStack, Served};
use solo_base::{ArgList, Ident, SysCall, SysReply};
use solo_devices::{Area, SureArea};
use stack_code::{Op, Verified, decode, verify};
use stack_machine::Pause;
use std::alloc::Global;
use std::fs::Files;
use std::time::CpuClock;

/// The program P, behind a TICK that is its instruction 0 and 24 instructions that write its name into its
/// words 0 to 11. It runs itself, and has the result in word 525. With result 6, where no program was run, it
/// opens its own file and gets the first page into its words 12 to 523, for ever. With another it halts.
const PROGRAM: [(Op, u16, u16); 16] = [
    (Op::SysG, 13, 0),
    (Op::StoreG, 525, 0),
    (Op::StoreG, 524, 0),
    (Op::LoadG, 525, 0),
    (Op::Push, 6, 0),
    (Op::Eq, 0, 0),
    (Op::JumpF, 40, 0),
    (Op::Push, 1, 0),
    (Op::SysG, 5, 0),
    (Op::StoreG, 524, 0),
    // GET(1, 1, page), behind the TICK at place 35
    (Op::Tick, 0, 2),
    (Op::Push, 1, 0),
    (Op::Push, 1, 0),
    (Op::SysG, 7, 12),
    (Op::Jump, 35, 0),
    (Op::Halt, 0, 0),
];

/// How many instructions the program has, and how many with others behind it up to the limit.
const SMALL: u16 = 41;

const LARGE: u16 = 8192;

pub fn run(
    rt: &(impl AllocGlobal + CpuClock + Eprint + Files + Print),
    kind: &str,
    calls: u32,
) -> Result<(), Fault> {
    match kind {
        "small" => measure(rt, SMALL, calls),
        "large" => measure(rt, LARGE, calls),
        _ => Err(Fault::Usage),
    }
}

fn measure(
    rt: &(impl AllocGlobal + CpuClock + Eprint + Files + Print),
    count: u16,
    calls: u32,
) -> Result<(), Fault> {
    let mut files = blank_files(rt.alloc())?;
    add_program(rt.alloc(), &mut files, count)?;
    measure_over(rt, &mut files, count, calls)
}

/// The stack is dropped here alone: behind each `?` that it stood across it would take minutes to prove.
fn measure_over(
    rt: &(impl AllocGlobal + CpuClock + Eprint + Files + Print),
    files: &mut FileArea<SureArea>,
    count: u16,
    calls: u32,
) -> Result<(), Fault> {
    let before = memory::pages_taken(rt)?;
    let mut stack = ProgStack::<5>::new(rt.alloc());
    measure_stack(rt, &mut stack, files, (count, calls, before))
}

fn measure_stack(
    rt: &(impl AllocGlobal + CpuClock + Eprint + Files + Print),
    stack: &mut ProgStack<5>,
    files: &mut FileArea<SureArea>,
    measured: (u16, u32, u64),
) -> Result<(), Fault>
    requires { stack.old ≡ [] }
{
    let (count, calls, before) = measured;
    // a tick for each call, and one for each of the five before
    begin(rt.alloc(), stack, count, calls.saturating_add(5))?;
    five_deep(stack, files)?;
    let pages = memory::pages_taken(rt)?.saturating_sub(before);
    let began = clock::micros(rt)?;
    get_pages(stack, files, calls)?;
    let time = clock::micros_since(rt, began)?;
    println!(rt; "5 programs, {calls} calls of GET")?;
    Ok(eprintln!(rt; "{time} microseconds, {pages} pages of memory")?)
}

/// An area without a file.
fn blank_area(alloc: Global) -> Result<SureArea, Fault> {
    let mut area = SureArea::new(alloc, AREA_PAGES)?;
    if area.size() != AREA_PAGES {
        return Err(Fault::Unexpected("no area"));
    }
    match format(&mut area) {
        Ok(()) => Ok(area),
        Err(_) => Err(Fault::Unexpected("no area")),
    }
}

/// The files of an area without a file.
fn blank_files(alloc: Global) -> Result<FileArea<SureArea>, Fault> {
    let area = blank_area(alloc)?;
    if area.size() != AREA_PAGES {
        return Err(Fault::Unexpected("no area"));
    }
    match FileArea::mount(alloc, area) {
        Ok(files) => Ok(files),
        Err(_) => Err(Fault::Unexpected("no Solo disk")),
    }
}

/// Puts the program, with so many instructions, into its file.
fn add_program(alloc: Global, files: &mut FileArea<SureArea>, count: u16) -> Result<(), Fault> {
    let code = code(alloc, count)?;
    let Some(name) = Ident::of(b"P") else {
        return Err(Fault::Unexpected("no name"));
    };
    if !files.sound() || store_code(alloc, files, &name, &code).is_err() {
        return Err(Fault::Unexpected("no file"));
    }
    Ok(())
}

/// The program as verified code of so many instructions: one routine of 526 words and height 2.
fn code(alloc: Global, count: u16) -> Result<Verified, Fault> {
    let mut bytes = Vec::new(alloc);
    bytes.extend_from_slice(b"SEQCODE1\x00\x01")?;
    put_number(&mut bytes, count)?;
    bytes.extend_from_slice(&[0, 0, 0, 0, 2, 14, 0, 2])?;
    put_program(&mut bytes)?;
    for _ in SMALL..count {
        put_instr(&mut bytes, (Op::Halt, 0, 0))?;
    }
    for _ in 0..512 {
        if bytes.len() % 512 != 0 {
            bytes.push(0)?;
        }
    }
    let Ok(code) = decode(alloc, &bytes) else {
        return Err(Fault::Unexpected("no code"));
    };
    verify(code).ok().ok_or(Fault::Unexpected("not good"))
}

fn put_program(bytes: &mut Vec<u8>) -> Result<(), Fault> {
    put_instr(bytes, (Op::Tick, 0, 1))?;
    for place in 0..12u16 {
        let letter = if place == 0 { b'P' } else { b' ' };
        put_instr(bytes, (Op::Push, u16::from(letter), 0))?;
        put_instr(bytes, (Op::StoreG, place, 0))?;
    }
    for instr in &PROGRAM {
        put_instr(bytes, *instr)?;
    }
    Ok(())
}

fn put_instr(bytes: &mut Vec<u8>, (op, a, b): (Op, u16, u16)) -> Result<(), Fault> {
    bytes.push(op.row().number)?;
    put_number(bytes, a)?;
    put_number(bytes, b)
}

fn put_number(bytes: &mut Vec<u8>, number: u16) -> Result<(), Fault> {
    Ok(bytes.extend_from_slice(&number.to_be_bytes())?)
}

/// Puts the first of the five programs on the stack.
fn begin(alloc: Global, stack: &mut ProgStack<5>, count: u16, limit: u32) -> Result<(), Fault>
    requires { stack.old ≡ [] }
    ensures { IsStack 5 stack.new }
{
    let code = code(alloc, count)?;
    Ok(stack.push(code, ArgList::new(), limit)?)
}

/// How the top program's next call was answered.
#[derive(Clone, Copy)]
enum Answer {
    Pushed,
    Page,
    Otherwise,
}

/// Runs the programs until the fifth has opened its file.
fn five_deep(stack: &mut ProgStack<5>, files: &mut FileArea<SureArea>) -> Result<(), Fault>
    requires { IsStack 5 stack.old }
    ensures { IfOk result (λ _. IsStack 5 stack.new) }
{
    for _ in 0..4 {
        let Answer::Pushed = answered(stack, files)? else {
            return Err(Fault::Unexpected("no program was run"));
        };
    }
    // its RUN is refused, and it opens its file
    let _refused = answered(stack, files)?;
    let _opened = answered(stack, files)?;
    Ok(())
}

/// Lets the top program get so many pages.
fn get_pages(
    stack: &mut ProgStack<5>,
    files: &mut FileArea<SureArea>,
    calls: u32,
) -> Result<(), Fault>
    requires { IsStack 5 stack.old }
{
    for _ in 0..calls {
        let Answer::Page = answered(stack, files)? else {
            return Err(Fault::Unexpected("no page"));
        };
    }
    Ok(())
}

/// Runs the top program to its next call, and answers it.
fn answered(stack: &mut ProgStack<5>, files: &mut FileArea<SureArea>) -> Result<Answer, Fault>
    requires { IsStack 5 stack.old }
    ensures { IfOk result (λ _. IsStack 5 stack.new) }
{
    match stack.go() {
        Some(Pause::Call(call)) => serve(stack, files, call),
        _ => Err(Fault::Unexpected("no call")),
    }
}

fn serve(
    stack: &mut ProgStack<5>,
    files: &mut FileArea<SureArea>,
    call: SysCall,
) -> Result<Answer, Fault>
    requires stack { IsStack 5 stack.old }
    requires asks { TopAsks call stack.old }
    ensures { IfOk result (λ _. IsStack 5 stack.new) }
{
    if !files.sound() {
        return Err(Fault::Unexpected("a fault of the area"));
    }
    match stack.serve(call, files) {
        Served::Pushed => Ok(Answer::Pushed),
        Served::Reply(reply) => {
            let is_page = matches!(&reply, SysReply::Page(_));
            stack.answer(reply);
            Ok(if is_page {
                Answer::Page
            } else {
                Answer::Otherwise
            })
        }
        _ => Err(Fault::Unexpected("a call that wasn't served")),
    }
}
