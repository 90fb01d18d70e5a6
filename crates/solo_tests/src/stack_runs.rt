//! The run of a command's program, and what is told of it: its calls one by one, and its end.

ghost use Rattle.std.specs.Prelude.{IfSome};
ghost use Rattle.solo_base.specs.Fits.{Fits};
ghost use Rattle.prog_stack.specs.Callers.{IsStack, TopAsks};

use crate::made_programs::{Step, program};
use disk_files::FileArea;
use prog_stack::{Ended, ProgStack, Served};
use solo_base::{ARG_LIMIT, Arg, ArgList, ProgResult, SysCall, SysReply, trim_end};
use solo_devices::Area;
use stack_machine::Pause;
use std::alloc::Global;
use std::process::Abort;

// ---- What is told, each part with a semicolon behind it, but for what is printed

// A reply by its kind and its numbers; a page by its first and its last byte.
fn tell_reply(text: &mut String, reply: &SysReply) -> Option<()> {
    match reply {
        SysReply::Done => text.push_str("done;").ok(),
        SysReply::Char(code) => write!(text, "character {code};").ok(),
        SysReply::Opened(found) => write!(text, "opened {found};").ok(),
        SysReply::Page(page) => write!(text, "page {} {};", page.0[0], page.0[511]).ok(),
        SysReply::Length(pages) => write!(text, "length {pages};").ok(),
        SysReply::Found { kind, found } => write!(text, "kind {kind} {found};").ok(),
        SysReply::Argument { tag, number, name } => tell_argument(text, (*tag, *number), name),
        SysReply::Ran {
            line,
            result: how,
            ticks,
        } => write!(text, "ran {line} {how} {ticks};").ok(),
        SysReply::CallError => text.push_str("refused;").ok(),
    }
}

fn tell_argument(text: &mut String, (tag, number): (i16, i16), name: &[u8]) -> Option<()> {
    let name = str::from_utf8(trim_end(name)).ok()?;
    write!(text, "argument {tag} {number} '{name}';").ok()
}

// What is printed as it is, but `/` for the end of a line; and the other calls of devices.
fn tell_device(text: &mut String, call: &SysCall) -> Option<()> {
    match call {
        SysCall::Read => text.push_str("read;").ok(),
        SysCall::Accept => text.push_str("accept;").ok(),
        SysCall::Write(10) => text.push('/').ok(),
        SysCall::Write(code) => text.push(char::from(*code)).ok(),
        SysCall::WriteInt(number) => write!(text, "{number}").ok(),
        SysCall::Display(code) => write!(text, "display {code};").ok(),
        _ => None,
    }
}

fn result_text(how: ProgResult) -> &'static str {
    match how {
        ProgResult::Terminated => "terminated",
        ProgResult::RangeError => "range error",
        ProgResult::TimeLimit => "time limit",
        ProgResult::CallError => "call error",
        _ => "another end",
    }
}

// An end by its result, its line and its ticks, and the arguments that it gives to nobody.
fn tell_end(text: &mut String, ended: &Ended) -> Option<()> {
    let finish = ended.finish;
    let how = result_text(finish.result);
    write!(text, "{how} {} {};", finish.line, finish.ticks).ok()?;
    for place in 0..ended.args.len() {
        tell_given(text, ended.args.get(place))?;
    }
    Some(())
}

fn tell_given(text: &mut String, arg: Arg) -> Option<()> {
    match &arg {
        Arg::Nil => text.push_str("gives nil;").ok(),
        Arg::Bool(value) => write!(text, "gives {value};").ok(),
        Arg::Int(number) => write!(text, "gives {number};").ok(),
        Arg::Id(_) => text.push_str("gives a name;").ok(),
    }
}

// ---- The run

// A reply that a device gives: `?` to READ and ACCEPT.
fn device_reply(call: &SysCall) -> SysReply
    ensures { Fits call.now result }
{
    match call {
        SysCall::Read | SysCall::Accept => SysReply::Char(63),
        SysCall::Write(_) | SysCall::WriteInt(_) | SysCall::Display(_) => SysReply::Done,
        _ => SysReply::CallError,
    }
}

fn answer_device(stack: &mut ProgStack<5>, call: &SysCall)
    requires stack { IsStack 5 stack.old }
    requires asks { TopAsks call.now stack.old }
    ensures { IsStack 5 stack.new }
{
    stack.answer(device_reply(call));
}

// Serves a call. `None` where nothing goes on behind it.
fn serve<A: Area>(
    rt: &impl Abort,
    stack: &mut ProgStack<5>,
    files: &mut FileArea<A>,
    text: &mut String,
    call: SysCall,
) -> Option<()>
    requires stack { IsStack 5 stack.old }
    requires asks { TopAsks call stack.old }
    ensures { IfSome result (λ _. IsStack 5 stack.new) }
{
    assert!(rt; files.sound());
    match stack.serve(call, files) {
        Served::Reply(reply) => {
            tell_reply(text, &reply).expect(rt, "ample memory");
            stack.answer(reply);
            Some(())
        }
        Served::Device(call) => {
            tell_device(text, &call).expect(rt, "a device's call");
            answer_device(stack, &call);
            Some(())
        }
        Served::Pushed => {
            tell(rt, text, "pushed;");
            Some(())
        }
        Served::DiskFault => {
            tell(rt, text, "disk fault;");
            None
        }
        Served::NoMemory => {
            tell(rt, text, "no memory;");
            None
        }
    }
}

fn tell(rt: &impl Abort, text: &mut String, part: &str) {
    text.push_str(part).ok().expect(rt, "ample memory");
}

// Takes the top program off, which has ended. `None` where there is no other.
fn pop(rt: &impl Abort, stack: &mut ProgStack<5>, text: &mut String) -> Option<()>
    requires { IsStack 5 stack.old }
    ensures { IfSome result (λ _. IsStack 5 stack.new) }
{
    let ended = stack.pop().expect(rt, "an end");
    tell_end(text, &ended).expect(rt, "ample memory");
    if stack.is_empty() {
        return None;
    }
    Some(())
}

// Runs the top program to its next call or its end. `None` where nothing goes on behind that.
fn next<A: Area>(
    rt: &impl Abort,
    stack: &mut ProgStack<5>,
    files: &mut FileArea<A>,
    text: &mut String,
) -> Option<()>
    requires { IsStack 5 stack.old }
    ensures { IfSome result (λ _. IsStack 5 stack.new) }
{
    match stack.go() {
        Some(Pause::Call(call)) => serve(rt, stack, files, text, call),
        Some(Pause::Finished(_)) => pop(rt, stack, text),
        None => None,
    }
}

// Runs the programs as long as they go on, to 1,000 calls and ends.
fn run<A: Area>(
    rt: &impl Abort,
    stack: &mut ProgStack<5>,
    files: &mut FileArea<A>,
    text: &mut String,
)
    requires { IsStack 5 stack.old }
{
    for _ in 0..1000 {
        let Some(()) = next(rt, stack, files, text) else {
            return;
        };
    }
}

fn list_of(numbers: &[i16]) -> ArgList {
    let mut list = ArgList::new();
    for number in numbers {
        if list.len() < ARG_LIMIT {
            list.push(Arg::Int(*number));
        }
    }
    list
}

/// What is told of a command whose program does these steps, with these numbers as its arguments and
/// this limit of ticks.
pub fn told_of<A: Area>(
    rt: &impl Abort,
    alloc: Global,
    files: &mut FileArea<A>,
    (steps, args, limit): (&[Step], &[i16], u32),
) -> String {
    let code = program(rt, alloc, steps);
    let mut stack = ProgStack::<5>::new(alloc);
    assert!(rt; stack.push(code, list_of(args), limit).is_ok());
    let mut text = String::new(alloc);
    run(rt, &mut stack, files, &mut text);
    text
}

// ---- Rows

/// No arguments of a command.
pub const NO_ARGUMENTS: &[i16] = &[];

/// What a program does, and what is told of it.
pub type Row = (&'static [Step], &'static str);

/// Of a command of these steps, with these arguments and this limit, this is told.
pub fn tells<A: Area>(
    rt: &impl Abort,
    alloc: Global,
    files: &mut FileArea<A>,
    command: (&[Step], &[i16], u32),
    wanted: &str,
) {
    let told = told_of(rt, alloc, files, command);
    assert!(rt; told.as_str() == wanted, "{told}\nin place of\n{wanted}");
}

/// Of each command this is told, without arguments and with many ticks, one after the other over these files.
pub fn each_tells<A: Area>(rt: &impl Abort, alloc: Global, files: &mut FileArea<A>, rows: &[Row]) {
    for (steps, wanted) in rows {
        tells(rt, alloc, files, (steps, NO_ARGUMENTS, 1000), wanted);
    }
}
