//! Times the stack machine in a loop of 1,000,000 ticks.
use crate::fault::Fault;
use solo_base::{SysCall, SysReply};
use stack_code::{Op, Verified, decode, verify};
use stack_machine::{Machine, Pause};
use std::alloc::Global;
use std::time::{Clock, Instant};

/// WORD 2 := (WORD 2 + 7) MOD 1001, 999,000 times in two loops, and then WRITEINT(WORD 2).
const LOOP: [(Op, u16, u16); 27] = [
    // words 0 and 1 count the turns of the outer and the inner loop
    (Op::Tick, 0, 1),
    (Op::Push, 0, 0),
    (Op::StoreG, 1, 0),
    (Op::Tick, 0, 2),
    (Op::LoadG, 2, 0),
    (Op::Push, 7, 0),
    (Op::Add, 0, 0),
    (Op::Push, 1001, 0),
    (Op::Mod, 0, 0),
    (Op::StoreG, 2, 0),
    (Op::LoadG, 1, 0),
    (Op::Succ, 0, 0),
    (Op::StoreG, 1, 0),
    (Op::LoadG, 1, 0),
    (Op::Push, 999, 0),
    (Op::Ge, 0, 0),
    (Op::JumpF, 3, 0),
    (Op::LoadG, 0, 0),
    (Op::Succ, 0, 0),
    (Op::StoreG, 0, 0),
    (Op::LoadG, 0, 0),
    (Op::Push, 1000, 0),
    (Op::Ge, 0, 0),
    (Op::JumpF, 0, 0),
    (Op::LoadG, 2, 0),
    (Op::Sys, 2, 0),
    (Op::Halt, 0, 0),
];

pub fn run(rt: &(impl AllocGlobal + Clock + Eprint + Print)) -> Result<(), Fault> {
    let mut machine = Machine::make(rt.alloc(), code(rt.alloc())?, 2_000_000)?;
    let began = Instant::now(rt)?;
    let Pause::Call(SysCall::WriteInt(number)) = machine.go() else {
        return Err(Fault::Unexpected("nothing was written"));
    };
    let time = began.elapsed(rt)?.as_micros();
    machine.answer(SysReply::Done);
    let Pause::Finished(finish) = machine.go() else {
        return Err(Fault::Unexpected("no end"));
    };
    println!(rt; "{number}, {ticks} ticks", ticks = finish.ticks)?;
    Ok(eprintln!(rt; "{time} microseconds")?)
}

/// The loop as verified code: one routine, the program, of three words and height 2.
fn code(alloc: Global) -> Result<Verified, Fault> {
    let mut bytes = Vec::new(alloc);
    bytes.extend_from_slice(b"SEQCODE1")?;
    put_number(&mut bytes, 1)?;
    put_number(&mut bytes, (LOOP.len() % 65536) as u16)?;
    bytes.extend_from_slice(&[0, 0, 0, 0, 0, 3, 0, 2])?;
    for (op, a, b) in &LOOP {
        bytes.push(op.row().number)?;
        put_number(&mut bytes, *a)?;
        put_number(&mut bytes, *b)?;
    }
    for _ in 0..512 {
        if bytes.len() % 512 != 0 {
            bytes.push(0)?;
        }
    }
    let Ok(code) = decode(alloc, &bytes) else {
        return Err(Fault::Unexpected("no code"));
    };
    verify(code).ok().ok_or(Fault::Unexpected("not good"))
}

fn put_number(bytes: &mut Vec<u8>, number: u16) -> Result<(), Fault> {
    Ok(bytes.extend_from_slice(&number.to_be_bytes())?)
}
