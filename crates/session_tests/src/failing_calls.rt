// Each call of each of the five devices fails in turn, in a session whose program reads, accepts, displays,
// prints and puts.

use crate::net_runs::{Came, Failing, NONE_FAILS, Session, run};
use network_run::Rule;
use std::alloc::Global;
use std::process::Abort;

const ALL: Session = Session {
    keys: "copy(cards, text)\ncompile(text, all)\nall\nX\ncopy(text, printer)\n",
    cards: "VAR ID: ARRAY (.1..12.) OF CHAR; P: ARRAY (.1..512.) OF CHAR;\n\
        B: BOOLEAN; C: CHAR; I: INTEGER;\n\
        BEGIN FOR I := 1 TO 12 DO ID(.I.) := ' ';\n\
        ID(.1.) := 'T'; ID(.2.) := 'E'; ID(.3.) := 'X'; ID(.4.) := 'T';\n\
        READ(C); WRITE(C); WRITE('(:10:)'); ACCEPT(C); DISPLAY(C); DISPLAY('(:10:)');\n\
        FOR I := 1 TO 512 DO P(.I.) := '(:25:)'; P(.1.) := 'Z'; P(.2.) := '(:10:)';\n\
        OPEN(1, ID, B); PUT(1, 1, P); CLOSE(1) END.\n\
        #END\n\
        R\n",
    piece: 40,
};

const ALL_CONSOLE: &str = "COPY: OK\nCOMPILE: OK\nX\nALL: TERMINATED\nCOPY: OK\n";

const ALL_PAPER: &str = "R\nZ\n";

// The devices, each by one kind of its calls.
#[derive(Clone, Copy)]
enum Device {
    Cards,
    Keys,
    Console,
    Paper,
    Reads,
    Writes,
}

impl Device {
    fn fails_at(self, call: u64) -> Failing {
        let mut failing = NONE_FAILS;
        match self {
            Device::Cards => failing.cards = call,
            Device::Keys => failing.keys = call,
            Device::Console => failing.console = call,
            Device::Paper => failing.paper = call,
            Device::Reads => failing.reads = call,
            Device::Writes => failing.writes = call,
        }
        failing
    }
}

// A first part of all was displayed and printed.
fn is_part(rt: &impl Abort, came: &Came) {
    assert!(rt; ALL_CONSOLE.as_bytes().starts_with(came.console.as_slice()));
    assert!(rt; ALL_PAPER.as_bytes().starts_with(came.paper.as_slice()));
}

// How a run came out whose call of a device fails.
#[derive(Clone, Copy)]
enum Out {
    /// The area failed before the run began.
    Early,
    Failed,
    /// The call wasn't made.
    Whole,
}

// A run by the schedule of a number, where the call behind as many fails. Where it is made the three end so.
fn comes_out(rt: &impl Abort, alloc: Global, device: Device, number: u32, ended: &str) -> Out {
    let failing = device.fails_at(u64::from(number) + 1);
    match run(rt, alloc, ALL, Rule::Numbered { number }, failing) {
        None => Out::Early,
        Some(came) => seen_so(rt, &came, ended),
    }
}

fn seen_so(rt: &impl Abort, came: &Came, ended: &str) -> Out {
    is_part(rt, came);
    if came.ended.as_str() != "Done Done Done " {
        assert!(rt; came.ended.as_str() == ended, "{}", came.ended);
        return Out::Failed;
    }
    assert!(rt; came.console.as_slice() == ALL_CONSOLE.as_bytes());
    assert!(rt; came.paper.as_slice() == ALL_PAPER.as_bytes());
    Out::Whole
}

// How many calls of a device fail in turn, each of which ends the three so, up to the first that isn't made.
fn fails(rt: &impl Abort, alloc: Global, device: Device, ended: &str) -> u64 {
    let mut count: u64 = 0;
    for number in 0..1000u32 {
        match comes_out(rt, alloc, device, number, ended) {
            Out::Early => {}
            Out::Failed => count = count.saturating_add(1),
            Out::Whole => return count,
        }
    }
    0
}

#[test]
fn each_call_of_the_cards_that_fails_ends_the_input_process(rt: HostRuntime) {
    assert!(rt; fails(&rt, rt.alloc(), Device::Cards, "ReadFault Stopped Stopped ") > 5);
}

#[test]
fn each_call_of_the_keys_that_fails_ends_the_job_process(rt: HostRuntime) {
    assert!(rt; fails(&rt, rt.alloc(), Device::Keys, "Stopped ReadFault Stopped ") > 2);
}

#[test]
fn each_call_of_the_console_that_fails_ends_the_job_process(rt: HostRuntime) {
    assert!(rt;
        fails(
            &rt,
            rt.alloc(),
            Device::Console,
            "Stopped ConsoleFault Stopped "
        ) == 5
    );
}

#[test]
fn each_call_of_the_paper_that_fails_ends_the_output_process(rt: HostRuntime) {
    assert!(rt;
        fails(
            &rt,
            rt.alloc(),
            Device::Paper,
            "Stopped Stopped PrintFault "
        ) == 2
    );
}

#[test]
fn each_read_of_the_files_that_fails_ends_the_job_process(rt: HostRuntime) {
    assert!(rt; fails(&rt, rt.alloc(), Device::Reads, "Stopped DiskFault Stopped ") > 5);
}

#[test]
fn each_write_of_the_files_that_fails_ends_the_job_process(rt: HostRuntime) {
    assert!(rt;
        fails(
            &rt,
            rt.alloc(),
            Device::Writes,
            "Stopped DiskFault Stopped "
        ) > 5
    );
}
